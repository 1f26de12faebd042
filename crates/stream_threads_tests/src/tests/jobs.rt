//! The two jobs of a stream, in two threads. No contract says what these tests show: that the jobs
//! reach a report, that no line waits for the next one, and that no thread is left asleep.
ghost use Rattle.std.specs.Prelude.{◌≡◌, ◌<◌, ◌≤◌, [], None, Some, false, IfOk, IfSome};
ghost use Rattle.lrup_model.specs.Layout.{IsStream};
ghost use Rattle.lrup_model.specs.Plain.{plain_caller_view};
ghost use Rattle.rtrb.specs.Ring.{IsPair, SameConsumer, SameProducer};
ghost use Rattle.stream_check.specs.Checker.{IsNew, IsReadyAt};
ghost use Rattle.stream_check.specs.StreamParams.{max_tries};
ghost use Rattle.lrup_text.specs.Reads.{GivesLeft};

use super::{pause, same, waits_for};
use checker_support::open_map;
use lrup_model::{Cube, Id, Layout, PlainMap};
use lrup_text::{LineFault, ReadFault, Source};
use std::alloc::{AllocError, Global};
use std::process::Abort;
use std::sync::atomic::{AtomicU64, Ordering};
use std::sync::{OnceLock, Wait};
use std::test::Fail;
use std::thread::{Threads, join};
use std::time::Clock;
use stream_check::laws::ready_new;
use stream_check::{Ending, Fault, Gate, Report, RunParams};
use stream_threads::{
    Checked, CheckingJob, ReadingJob, Sent, check_on_signal, jobs, jobs_agree, read_on_signal,
    wait_for_start,
};
use test_support::Pieces;

/// A gate that does nothing.
#[derive(Clone, Copy)]
struct Open;

impl Gate for Open {
    fn before_fetch(&mut self, _stream: u64, _id: Id, _attempt: u64) {}

    fn after_publish(&mut self, _stream: u64, _id: Id) {}
}

/// What a checking thread gets: its job, and a map of the four clauses for stream 1 only.
#[derive(Drop)]
struct Checking<G: Gate + Drop> {
    map: PlainMap,
    job: CheckingJob<G>,
    ghost stream: { IsStream map.layout 1 },
    ghost ready: { IsReadyAt job.checker (plain_caller_view map 1) },
}

/// The two jobs of a stream, with this many identities.
fn open_pair<R: Source + Drop, G: Gate + Drop>(
    alloc: Global,
    reader: R,
    gate: G,
    lines: u64,
) -> Result<(ReadingJob<R>, Checking<G>), Fail>
    requires { R.has_failed reader ≡ false }
    ensures { IfOk result (λ both. IsPair both.0.sender.producer both.1.job.receiver.consumer) }
{
    ready_new();
    let map = open_map(alloc, 1, lines, 65_536)?;
    let cube = Cube::empty(alloc);
    let run_params = RunParams::new(map.layout(), &cube, 3);
    let (reading, job) = jobs(alloc, reader, gate, 1, &run_params)?;
    Ok((reading, Checking { map, job }))
}

/// Waits for the signal, and checks what is received, through the map's desk; `None` if the signal
/// says to leave.
fn check<W: Wait, G: Gate + Drop>(
    wait: &W,
    signal: &OnceLock<bool>,
    checking: Checking<G>,
) -> Option<Checked>
    ensures { IfSome result (λ checked.
        SameConsumer checking.job.receiver.consumer checked.consumer) }
{
    let Checking { mut map, job } = checking;
    let mut desk = map.desk(1);
    check_on_signal(wait, signal, job, &mut desk).ok()
}

/// Waits for the signal, reads everything and sends it; `None` if the signal says to leave.
fn read<W: Wait, R: Source + Drop>(
    wait: &W,
    signal: &OnceLock<bool>,
    reading: ReadingJob<R>,
) -> Option<Sent<R>>
    ensures { IfSome result (λ sent. SameProducer reading.sender.producer sent.producer) }
{
    read_on_signal(wait, signal, reading).ok()
}

/// Sets the signal, and runs both jobs, each in a thread of its own. Returns the stream's report and
/// its reader; `None` if the signal says to leave.
fn run_pair<T: Threads + Wait + Sync, R: Source + Send + Drop, G: Gate + Send + Drop>(
    rt: &T,
    go: bool,
    reading: ReadingJob<R>,
    checking: Checking<G>,
) -> Option<(Option<Report>, R)>
    requires { IsPair reading.sender.producer checking.job.receiver.consumer }
{
    let signal = OnceLock::new();
    let signal = &signal;
    let (sent, checked) = join(
        rt,
        || -> Option<Sent<R>>
            ensures { IfSome result (λ sent.
                SameProducer reading.sender.producer sent.producer) }
        { read(rt, signal, reading) },
        || -> Option<Checked>
            ensures { IfSome result (λ checked.
                SameConsumer checking.job.receiver.consumer checked.consumer) }
        {
            let _ = signal.set(rt, go);
            check(rt, signal, checking)
        },
    );
    let (mut sent, mut checked) = (sent?, checked?);
    jobs_agree(&mut sent, &mut checked);
    Some((checked.report, sent.reader))
}

fn report(added: u64, deleted: u64, ending: Ending) -> Report {
    Report {
        added,
        deleted,
        empty: false,
        within: false,
        ending,
    }
}

/// The report of a text: each read gives at most `most` bytes, and read number `fails_at` fails.
fn said_of<T: Threads + Wait + Sync>(
    rt: &T,
    alloc: Global,
    text: &str,
    most: usize,
    fails_at: usize,
) -> Result<Option<Report>, Fail> {
    let (reading, checking) = open_pair(alloc, Pieces::new(text, most, fails_at), Open, 65_536)?;
    let (said, _) = run_pair(rt, true, reading, checking).ok_or("told to leave")?;
    Ok(said)
}

/// Checks the report of a text.
fn says<T: Threads + Wait + Sync + Abort>(
    rt: &T,
    alloc: Global,
    text: &str,
    most: usize,
    fails_at: usize,
    wanted: Report,
) -> Result<(), Fail> {
    let said = said_of(rt, alloc, text, most, fails_at)?;
    same(
        rt,
        (text.len(), most, fails_at, said),
        (text.len(), most, fails_at, Some(wanted)),
    );
    Ok(())
}

/// A refutation of the four clauses.
const REFUTATION: &str = "5 2 0 1 2 0\n6 0 5 3 4 0\n";

/// The most bytes per read, the read that fails, and the report: additions, whether one is empty,
/// and the ending.
static READS: [(usize, usize, u64, bool, Ending); 7] = [
    (1, 0, 2, true, Ending::Ended),
    (2, 0, 2, true, Ending::Ended),
    (65_536, 0, 2, true, Ending::Ended),
    (12, 2, 1, false, Ending::ReadFailed(2)),
    (1, 13, 1, false, Ending::ReadFailed(2)),
    (24, 2, 2, true, Ending::ReadFailed(3)),
    (1, 1, 0, false, Ending::ReadFailed(1)),
];

/// The stream ends, or a read fails after the first line or after the last.
#[test]
fn a_refutation(rt: HostRuntime) -> Result<(), Fail> {
    for &(most, fails_at, added, empty, ending) in &READS {
        // Only the empty clause is within the empty cube.
        let wanted = Report {
            empty,
            within: empty,
            ..report(added, 0, ending)
        };
        says(&rt, rt.alloc(), REFUTATION, most, fails_at, wanted)?;
    }
    Ok(())
}

/// The report of a stream whose first line has this fault.
fn bad_line(fault: LineFault) -> Report {
    report(0, 0, Ending::Bad(1, Fault::Text(fault)))
}

/// The most bytes per read, around the size of a ring.
static SIZES: [usize; 5] = [1, 2, 65_535, 65_536, 65_537];

/// Checks the report of a text with reads of each size.
fn says_at_each_size<T: Threads + Wait + Sync + Abort>(
    rt: &T,
    alloc: Global,
    text: &str,
    wanted: Report,
) -> Result<(), Fail> {
    for most in &SIZES {
        says(rt, alloc, text, *most, 0, wanted)?;
    }
    Ok(())
}

#[test]
fn long_bytes(rt: HostRuntime) -> Result<(), Fail> {
    let mut text = String::new(rt.alloc());
    for _ in 0..200_000 {
        text.push_str("\n")?;
    }
    says_at_each_size(&rt, rt.alloc(), &text, bad_line(LineFault::Spelling))
}

#[test]
fn many_lines(rt: HostRuntime) -> Result<(), Fail> {
    let mut text = String::new(rt.alloc());
    for id in 5..20_005u64 {
        write!(text, "{id} 2 0 1 2 0\n")?;
    }
    says_at_each_size(&rt, rt.alloc(), &text, report(20_000, 0, Ending::Ended))
}

/// Counts reads, publishes, and waits that timed out.
#[derive(Drop)]
struct Counters {
    reads: AtomicU64,
    publishes: AtomicU64,
    late: AtomicU64,
}

impl Counters {
    fn new() -> Counters {
        Counters {
            reads: AtomicU64::new(0),
            publishes: AtomicU64::new(0),
            late: AtomicU64::new(0),
        }
    }

    fn add(&self, counter: &AtomicU64) {
        counter.fetch_add(1, Ordering::SeqCst);
    }

    fn wait(&self, counter: &AtomicU64, wanted: u64) {
        if !waits_for(counter, wanted) {
            self.add(&self.late);
        }
    }
}

/// Gives a text piece by piece, and counts its reads.
#[derive(Drop)]
struct Counted<'a> {
    pieces: Pieces<'a>,
    counters: &'a Counters,
}

impl Source for Counted<'_> {
    ghost left = { λ s. None };

    ghost has_failed = { λ s. s.pieces.failed };

    ghost reads = { λ before room given after.
        GivesLeft (Some before.pieces.left.now) room given (Some after.pieces.left.now) };

    fn read(&mut self, buffer: &mut [u8]) -> Result<usize, ReadFault> {
        self.counters.add(&self.counters.reads);
        self.pieces.read(buffer)
    }

    fn failed(&self) -> bool {
        self.pieces.failed()
    }
}

/// Holds the first fetch until the second read.
#[derive(Clone, Copy)]
struct HoldsForRead<'a> {
    counters: &'a Counters,
}

impl Gate for HoldsForRead<'_> {
    fn before_fetch(&mut self, _stream: u64, _id: Id, _attempt: u64) {
        self.counters.wait(&self.counters.reads, 2);
    }

    fn after_publish(&mut self, _stream: u64, _id: Id) {}
}

/// One thread that alternates between reading and checking would never read the second line.
#[test]
fn reads_and_checks_on_one_thread(rt: HostRuntime) -> Result<(), Fail> {
    let counters = Counters::new();
    let reader = Counted {
        pieces: Pieces::new(REFUTATION, 12, 0),
        counters: &counters,
    };
    let gate = HoldsForRead {
        counters: &counters,
    };
    let (reading, checking) = open_pair(rt.alloc(), reader, gate, 2)?;
    let (said, _) = run_pair(&rt, true, reading, checking).ok_or("told to leave")?;
    let wanted = Report {
        empty: true,
        within: true,
        ..report(2, 0, Ending::Ended)
    };
    same(&rt, said, Some(wanted));
    same(&rt, counters.late.load(Ordering::SeqCst), 0);
    Ok(())
}

/// Both threads wait for the signal, which comes after a pause.
#[test]
fn both_see_the_signal(rt: HostRuntime) -> Result<(), Fail> {
    for round in 0..200u64 {
        let signal = OnceLock::new();
        let wanted = round % 2 == 0;
        let (first, second) = join(
            &rt,
            || *signal.value(&wait_for_start(&rt, &signal)),
            || {
                if round % 3 > 0 {
                    pause(&rt);
                }
                let _ = signal.set(&rt, wanted);
                *signal.value(&wait_for_start(&rt, &signal))
            },
        );
        same(&rt, (round, first, second), (round, wanted, wanted));
    }
    Ok(())
}

/// If the signal says to leave, no byte is read or checked.
#[test]
fn asked_to_leave(rt: HostRuntime) -> Result<(), Fail> {
    let counters = Counters::new();
    let reader = Counted {
        pieces: Pieces::new(REFUTATION, 12, 0),
        counters: &counters,
    };
    let (reading, checking) = open_pair(rt.alloc(), reader, Open, 2)?;
    same(&rt, run_pair(&rt, false, reading, checking).is_none(), true);
    same(&rt, counters.reads.load(Ordering::SeqCst), 0);
    Ok(())
}

/// Sets the signal to leave, long after the other thread has begun to wait for it. Returns whether
/// nobody had set it before.
fn leave_late<T: Wait + Clock>(rt: &T, signal: &OnceLock<bool>) -> bool {
    pause(rt);
    signal.set(rt, false).is_ok()
}

/// Until the signal is set, no job of a stream reads or checks a byte, nor does it set the signal
/// itself.
#[test]
fn job_sets_the_signal(rt: HostRuntime) -> Result<(), Fail> {
    let counters = Counters::new();
    let reader = Counted {
        pieces: Pieces::new(REFUTATION, 12, 0),
        counters: &counters,
    };
    let (reading, checking) = open_pair(rt.alloc(), reader, Open, 2)?;
    let signal = OnceLock::new();
    let left = join(
        &rt,
        || read(&rt, &signal, reading).is_none(),
        || leave_late(&rt, &signal),
    );
    same(&rt, left, (true, true));
    same(&rt, counters.reads.load(Ordering::SeqCst), 0);
    let signal = OnceLock::new();
    let left = join(
        &rt,
        || check(&rt, &signal, checking).is_none(),
        || leave_late(&rt, &signal),
    );
    same(&rt, left, (true, true));
    Ok(())
}

/// Delivers each line only after the one before has been published. Before the first few lines it
/// pauses, so that the checking thread falls asleep.
#[derive(Drop)]
struct Steps<'a, C: Clock> {
    clock: &'a C,
    counters: &'a Counters,
    lines: &'a [String],
    given: u64,
    pauses: u64,
}

impl<C: Clock> Source for Steps<'_, C> {
    ghost left = { λ _. None };

    ghost has_failed = { λ _. false };

    ghost reads = { λ _ _ _ _. Unit {0} };

    fn read(&mut self, buffer: &mut [u8]) -> Result<usize, ReadFault> {
        self.counters.wait(&self.counters.publishes, self.given);
        let Some((line, rest)) = self.lines.split_first() else {
            return Ok(0);
        };
        if self.given < self.pauses {
            pause(self.clock);
        }
        let count = buffer.len().min(line.len());
        buffer[..count].copy_from_slice(&line.as_bytes()[..count]);
        self.lines = rest;
        self.given = self.given.saturating_add(1);
        Ok(count)
    }

    fn failed(&self) -> bool {
        false
    }
}

/// Counts the publishes.
#[derive(Clone, Copy)]
struct CountsPublishes<'a> {
    counters: &'a Counters,
}

impl Gate for CountsPublishes<'_> {
    fn before_fetch(&mut self, _stream: u64, _id: Id, _attempt: u64) {}

    fn after_publish(&mut self, _stream: u64, _id: Id) {
        self.counters.add(&self.counters.publishes);
    }
}

/// The report of these lines, each of which comes only after the one before has been published, and
/// how many waits timed out.
fn step_through<T: Threads + Wait + Clock + Sync>(
    rt: &T,
    alloc: Global,
    lines: &[String],
    pauses: u64,
) -> Result<(Option<Report>, u64), Fail> {
    let counters = Counters::new();
    let reader = Steps {
        clock: rt,
        counters: &counters,
        lines,
        given: 0,
        pauses,
    };
    let gate = CountsPublishes {
        counters: &counters,
    };
    let (reading, checking) = open_pair(alloc, reader, gate, 65_536)?;
    let (said, _) = run_pair(rt, true, reading, checking).ok_or("told to leave")?;
    Ok((said, counters.late.load(Ordering::SeqCst)))
}

/// Ten thousand additions of one clause.
fn ten_thousand_lines(alloc: Global) -> Result<Vec<String>, Fail> {
    let mut lines = Vec::new(alloc);
    for id in 5..10_005u64 {
        lines.push(format!(in alloc; "{id} 2 0 1 2 0\n")?)?;
    }
    Ok(lines)
}

/// Each line is checked without waiting for the next one.
#[test]
fn each_line_is_checked_before_the_next_comes(rt: HostRuntime) -> Result<(), Fail> {
    let lines = ten_thousand_lines(rt.alloc())?;
    let found = step_through(&rt, rt.alloc(), lines.as_slice(), 300)?;
    same(&rt, found, (Some(report(10_000, 0, Ending::Ended)), 0));
    Ok(())
}

/// A first line, and then this many LF bytes.
#[derive(Drop)]
struct Endless {
    head: &'static [u8],
    left: u64,
}

impl Source for Endless {
    ghost left = { λ _. None };

    ghost has_failed = { λ _. false };

    ghost reads = { λ _ _ _ _. Unit {0} };

    fn read(&mut self, buffer: &mut [u8]) -> Result<usize, ReadFault> {
        if !self.head.is_empty() {
            let count = buffer.len().min(self.head.len());
            let (front, rest) = self.head.split_at(count);
            buffer[..count].copy_from_slice(front);
            self.head = rest;
            return Ok(count);
        }
        let count = buffer
            .len()
            .min(usize::try_from(self.left).unwrap_or(usize::MAX));
        buffer[..count].fill(b'\n');
        self.left = self.left.saturating_sub(count as u64);
        Ok(count)
    }

    fn failed(&self) -> bool {
        false
    }
}

/// After a bad line the stream is still read to its end, so that its writer never blocks.
#[test]
fn a_hundred_megabytes_after_a_bad_line(rt: HostRuntime) -> Result<(), Fail> {
    let reader = Endless {
        head: b"5 2 0 1 0\n",
        left: 100_000_000,
    };
    let (reading, checking) = open_pair(rt.alloc(), reader, Open, 2)?;
    let (said, reader) = run_pair(&rt, true, reading, checking).ok_or("told to leave")?;
    let wanted = report(0, 0, Ending::Bad(1, Fault::NoConflict));
    same(&rt, (said, reader.left), (Some(wanted), 0));
    Ok(())
}

/// Drops a reading job after a pause, as happens if the job's thread can't be started.
fn leave<C: Clock, R: Source + Drop>(clock: &C, reading: ReadingJob<R>) {
    pause(clock);
    drop(reading);
}

/// The report of a stream whose reading job is dropped.
fn said_of_one_that_goes<T: Threads + Wait + Clock + Sync>(
    rt: &T,
    alloc: Global,
) -> Result<Option<Report>, Fail> {
    let (reading, checking) = open_pair(alloc, Pieces::new(REFUTATION, 12, 0), Open, 2)?;
    let signal = OnceLock::from(true);
    let (_, checked) = join(rt, || leave(rt, reading), || check(rt, &signal, checking));
    let checked = checked.ok_or("told to leave")?;
    Ok(checked.report)
}

/// The checking thread sleeps because its ring is empty, and the other end, when it is dropped,
/// wakes that thread. The stream has no report.
#[test]
fn a_reading_job_that_goes(rt: HostRuntime) -> Result<(), Fail> {
    for _ in 0..100 {
        let said = said_of_one_that_goes(&rt, rt.alloc())?;
        same(&rt, said, None);
    }
    Ok(())
}

/// The jobs of a refutation; if the first attempt runs out of memory, it is repeated.
fn jobs_again(
    alloc: Global,
    layout: &Layout,
) -> Result<(ReadingJob<Pieces<'static>>, CheckingJob<Open>), AllocError>
    requires { IsStream layout.now 1 }
    ensures pair { IfOk result (λ both.
        IsPair both.0.sender.producer both.1.receiver.consumer) }
    ensures checker { IfOk result (λ both. IsNew layout.now [] 1 3 both.1.checker) }
{
    let cube = Cube::empty(alloc);
    let run_params = RunParams::new(layout, &cube, 3);
    match jobs(alloc, Pieces::new(REFUTATION, 12, 0), Open, 1, &run_params) {
        Ok(both) => Ok(both),
        Err(_) => jobs(alloc, Pieces::new(REFUTATION, 12, 0), Open, 1, &run_params),
    }
}

/// The jobs of `jobs_again`, and their map.
fn open_again(alloc: Global) -> Result<(ReadingJob<Pieces<'static>>, Checking<Open>), Fail>
    ensures { IfOk result (λ both. IsPair both.0.sender.producer both.1.job.receiver.consumer) }
{
    ready_new();
    let map = open_map(alloc, 1, 2, 2)?;
    let (reading, job) = jobs_again(alloc, map.layout())?;
    Ok((reading, Checking { map, job }))
}

/// `make sweep` refuses each allocation of the jobs in turn; the second attempt then succeeds.
#[test]
fn refused_jobs_can_be_made_again(rt: HostRuntime) -> Result<(), Fail> {
    let (reading, checking) = open_again(rt.alloc())?;
    let (said, reader) = run_pair(&rt, true, reading, checking).ok_or("told to leave")?;
    let wanted = Report {
        empty: true,
        within: true,
        ..report(2, 0, Ending::Ended)
    };
    same(&rt, (said, reader.left.len()), (Some(wanted), 0));
    Ok(())
}
