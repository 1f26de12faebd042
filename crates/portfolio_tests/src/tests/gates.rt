//! The calls that gates get in a run, and the gates that wait and report.
ghost use Rattle.std.specs.Prelude.{◌≡◌, false};
ghost use Rattle.std.specs.List.{AllByRecursion};

use super::watching::{Hand, Pen, Tape};
use super::{
    ADDS, APART, BOTH, CITING, Found, Machine, Mode, NOTHING, REFUTES, Said, failing_readers,
    options, readers_of, run_in, same, says,
};
use lrup_model::{Cube, Id};
use lrup_text::Source;
use portfolio::Verdict::Unknown;
use portfolio::{Options, Pause, Watch};
use std::alloc::Global;
use std::test::Fail;
use stream_check::Ending::{Bad, ReadFailed};
use stream_check::{Fault, Gate, Report};
use test_support::{Pieces, Sleeps};

/// A gate that writes its calls on a tape.
#[derive(Clone, Copy)]
pub(super) struct Notes<'a> {
    pub(super) alloc: Global,
    pub(super) tape: &'a Tape,
}

impl Gate for Notes<'_> {
    fn before_fetch(&mut self, stream: u64, id: Id, attempt: u64) {
        if let Ok(line) = format!(in self.alloc; "{stream} fetches {id} ({attempt})\n") {
            self.tape.note(line.as_bytes());
        }
    }

    fn after_publish(&mut self, stream: u64, id: Id) {
        if let Ok(line) = format!(in self.alloc; "{stream} publishes {id}\n") {
            self.tape.note(line.as_bytes());
        }
    }

    fn when_finished(&mut self, stream: u64, _report: &Report) {
        if let Ok(line) = format!(in self.alloc; "{stream} is over\n") {
            self.tape.note(line.as_bytes());
        }
    }
}

/// A run whose gates write their calls on these tapes, one for each stream.
fn run_noted<'a, T: Machine>(
    rt: &T,
    mode: Mode,
    tries: u64,
    streams: &[&'a str],
    tapes: &[&Tape],
) -> Result<Found<Pieces<'a>>, Fail> {
    let mut gates = Vec::new(rt.alloc());
    for tape in tapes {
        let alloc = rt.alloc();
        gates.push(Notes { alloc, tape })?;
    }
    let readers = readers_of(rt.alloc(), streams, 5)?;
    let cube = Cube::empty(rt.alloc());
    Ok(run_in(rt, mode, &cube, options(tries, 9, 9), readers, gates)?)
}

/// Stream 1 cites a clause that nobody derives.
const MISSING: [&str; 2] = ["5 0 6 0\n", ""];

const SAID_OF_MISSING: [Said; 2] = [(0, 0, Unknown, Bad(1, Fault::Missing(6))), NOTHING];

/// Tries, two streams, their reports, and the calls of their gates.
static CALLS: [(u64, [&str; 2], [Said; 2], [&str; 2]); 2] = [
    (
        0,
        APART,
        [REFUTES, ADDS],
        [
            "1 fetches 1 (1)\n1 fetches 2 (1)\n1 publishes 5
1 fetches 5 (1)\n1 fetches 3 (1)\n1 fetches 4 (1)\n1 publishes 7\n1 is over\n",
            "2 fetches 3 (1)\n2 fetches 4 (1)\n2 publishes 6\n2 is over\n",
        ],
    ),
    (
        3,
        MISSING,
        SAID_OF_MISSING,
        [
            "1 fetches 6 (1)\n1 fetches 6 (2)\n1 fetches 6 (3)\n1 fetches 6 (4)\n1 is over\n",
            "2 is over\n",
        ],
    ),
];

/// Each stream's gate is called for each fetch and each publish of that stream, in order, and once
/// at its end.
#[test]
fn gates_get_the_calls_of_their_streams(rt: HostRuntime) -> Result<(), Fail> {
    for mode in BOTH {
        for (tries, streams, said, calls) in &CALLS {
            let tapes = [Tape::new(rt.alloc(), 200)?, Tape::new(rt.alloc(), 200)?];
            let on = [&tapes[0], &tapes[1]];
            let found = run_noted(&rt, mode, *tries, streams, &on)?;
            says(&rt, (mode, *streams), &found, said)?;
            for (tape, wanted) in on.iter().zip(calls) {
                let found = tape.text(rt.alloc())?;
                same(&rt, (mode, found.as_str()), (mode, *wanted));
            }
        }
    }
    Ok(())
}

/// The streams take turns, beginning with stream 1, and take one line in each turn.
#[test]
fn serial_takes_a_line_of_each_stream(rt: HostRuntime) -> Result<(), Fail> {
    let tape = Tape::new(rt.alloc(), 200)?;
    let found = run_noted(&rt, Mode::Serial, 1_000, &CITING, &[&tape, &tape])?;
    says(&rt, CITING, &found, &[REFUTES, ADDS])?;
    let wanted = "1 fetches 1 (1)\n1 fetches 2 (1)\n1 publishes 5
2 fetches 3 (1)\n2 fetches 4 (1)\n2 publishes 6
1 fetches 5 (1)\n1 fetches 6 (1)\n1 publishes 7
2 is over\n1 is over\n";
    same(&rt, tape.text(rt.alloc())?.as_str(), wanted);
    Ok(())
}

/// Runs with these gates; stream 1 fetches a clause that never comes, and retries three times.
fn pauses_in_vain<T: Machine, G: Gate + Send + Drop>(
    rt: &T,
    mode: Mode,
    gates: Vec<G>,
) -> Result<(), Fail> {
    let readers = readers_of(rt.alloc(), &MISSING, 5)?;
    let cube = Cube::empty(rt.alloc());
    let found = run_in(rt, mode, &cube, options(3, 9, 9), readers, gates)?;
    says(rt, mode, &found, &SAID_OF_MISSING)
}

/// The gates sleep first on a clock that counts the sleeps, and then on the system's.
#[test]
fn a_pause_sleeps_before_later_attempts(rt: HostRuntime) -> Result<(), Fail> {
    for mode in BOTH {
        let clock = Sleeps::new();
        let gates = vec![in rt.alloc(); Pause::new(&clock), Pause::new(&clock)]?;
        pauses_in_vain(&rt, mode, gates)?;
        same(&rt, (mode, clock.counts()), (mode, (3, 0)));
        let gates = vec![in rt.alloc(); Pause::new(&rt), Pause::new(&rt)]?;
        pauses_in_vain(&rt, mode, gates)?;
    }
    Ok(())
}

/// A run whose gates report each stream on a tape of its own. Each sleep moves the clock by two
/// milliseconds.
fn run_watched<T: Machine, R: Source + Send + Drop>(
    rt: &T,
    mode: Mode,
    options: Options,
    readers: Vec<R>,
    tapes: &[&Tape],
) -> Result<Found<R>, Fail>
    requires { AllByRecursion (λ r. R.has_failed r ≡ false) readers.items }
{
    let (cube, clock) = (Cube::empty(rt.alloc()), Hand::new(2));
    let mut gates = Vec::new(rt.alloc());
    for tape in tapes {
        let pen = Some(Pen::new(tape, 0));
        gates.push(Watch::new(Some(Pause::new(&clock)), &clock, pen))?;
    }
    Ok(run_in(rt, mode, &cube, options, readers, gates)?)
}

/// Tries, streams, the reads that fail, the streams' reports, and what is written for each stream.
type Watched<'a> = (u64, &'a [&'a str], &'a [usize], &'a [Said], &'a [&'a str]);

static WATCHED: [Watched; 2] = [
    (
        3_000,
        &MISSING,
        &[],
        &SAID_OF_MISSING,
        &[
            "lrupd: stream 1: waits for 6
lrupd: stream 1: 0 added, 0 deleted, bad line 1 (missing 6)\n",
            "lrupd: stream 2: 0 added, 0 deleted, ended\n",
        ],
    ),
    // The first stream ends, a read of the second fails, and the third has more lines after a bad
    // one.
    (
        0,
        &[
            "5 2 0 1 2 0\n8 0 5 3 4 0\n",
            "6 2 0 1 2 0\n9 2 0",
            "7 2 0 1 0\n10 2 0 1 2 0\n",
        ],
        &[0, 5],
        &[
            REFUTES,
            (1, 0, Unknown, ReadFailed(2)),
            (0, 0, Unknown, Bad(1, Fault::NoConflict)),
        ],
        &[
            "lrupd: stream 1: 2 added, 0 deleted, ended\n",
            "lrupd: stream 2: 1 added, 0 deleted, read failed at line 2\n",
            "lrupd: stream 3: 0 added, 0 deleted, bad line 1 (no conflict)\n",
        ],
    ),
];

/// Each stream writes to a tape of its own, one line per write.
#[test]
fn each_end_is_reported_once(rt: HostRuntime) -> Result<(), Fail> {
    for mode in BOTH {
        for &(tries, streams, fails_at, said, texts) in &WATCHED {
            let first = Tape::new(rt.alloc(), 200)?;
            let (second, third) = (Tape::new(rt.alloc(), 99)?, Tape::new(rt.alloc(), 99)?);
            let tapes = [&first, &second, &third];
            let on = &tapes[..streams.len().min(3)];
            let readers = failing_readers(rt.alloc(), streams, 5, fails_at)?;
            let found = run_watched(&rt, mode, options(tries, 9, 9), readers, on)?;
            says(&rt, (mode, streams), &found, said)?;
            for (tape, text) in on.iter().zip(texts) {
                let lines = text.bytes().filter(|byte| *byte == b'\n').count() as u64;
                let wrote = tape.text(rt.alloc())?;
                same(&rt, (wrote.as_str(), tape.writes()), (*text, lines));
            }
        }
    }
    Ok(())
}

/// All streams report on one tape at the same time, and each line stays whole.
#[test]
fn sixty_four_streams(rt: HostRuntime) -> Result<(), Fail> {
    let alloc = rt.alloc();
    let mut lines = Vec::new(alloc);
    for id in 5..69u64 {
        lines.push(format!(in alloc; "{id} 2 0 1 2 0\n")?)?;
    }
    let mut streams = Vec::new(alloc);
    for line in &lines {
        streams.push(line.as_str())?;
    }
    for mode in BOTH {
        let tape = Tape::new(alloc, 10_000)?;
        let readers = readers_of(alloc, &streams, 5)?;
        let found = run_watched(&rt, mode, options(0, 1, 1), readers, &[&tape; 64])?;
        says(&rt, mode, &found, &[ADDS; 64])?;
        let text = tape.text(alloc)?;
        let mut length = 0usize;
        for stream in 1..=64u64 {
            let line = format!(in alloc; "lrupd: stream {stream}: 1 added, 0 deleted, ended\n")?;
            same(&rt, (stream, text.contains(line.as_str())), (stream, true));
            length = length.saturating_add(line.len());
        }
        same(&rt, (text.len(), tape.writes()), (length, 64));
    }
    Ok(())
}
