//! Gates that report progress, with clocks and sinks made for the tests.
ghost use Rattle.std.specs.Prelude.{None};

use self::Step::{Adds, Asks, Breaks, Later, Mended, Over};
use super::gates::Notes;
use super::{Open, counters, report, same};
use lrup_text::{Sink, WriteFault};
use portfolio::Verdict::Unknown;
use portfolio::Watch;
use std::alloc::{AllocError, Global};
use std::io;
use std::sync::atomic::{AtomicBool, AtomicU64, Ordering};
use std::test::Fail;
use std::time::{Clock, Duration};
use stream_check::{Ending, Fault, Gate};

/// A clock that tests move; each sleep moves it, too.
#[derive(Drop)]
pub(super) struct Hand {
    millis: AtomicU64,
    /// By how many milliseconds each sleep moves the clock.
    step: u64,
    is_broken: AtomicBool,
}

impl Hand {
    pub(super) fn new(step: u64) -> Hand {
        Hand {
            millis: AtomicU64::new(0),
            step,
            is_broken: AtomicBool::new(false),
        }
    }

    fn time(&self) -> io::Result<Duration> {
        if self.is_broken.load(Ordering::SeqCst) {
            return Err(io::Error::from(io::ErrorKind::Other));
        }
        Ok(Duration::from_millis(self.millis.load(Ordering::SeqCst)))
    }
}

impl Clock for Hand {
    fn monotonic(&self) -> io::Result<Duration> {
        self.time()
    }

    fn since_1970(&self) -> io::Result<Duration> {
        self.time()
    }

    fn sleep(&self, _duration: Duration) {
        self.millis.fetch_add(self.step, Ordering::SeqCst);
    }
}

/// What sinks wrote, each write in one piece; simultaneous writes are in any order.
#[derive(Drop)]
pub(super) struct Tape {
    writes: AtomicU64,
    len: AtomicU64,
    bytes: Vec<AtomicU64>,
}

impl Tape {
    /// A tape with room for this many bytes.
    pub(super) fn new(alloc: Global, most: usize) -> Result<Tape, AllocError> {
        Ok(Tape {
            writes: AtomicU64::new(0),
            len: AtomicU64::new(0),
            bytes: counters(alloc, most)?,
        })
    }

    /// Takes a write.
    pub(super) fn note(&self, bytes: &[u8]) {
        let from = self.len.fetch_add(bytes.len() as u64, Ordering::SeqCst);
        for (cell, byte) in self.bytes.iter().skip(from as usize).zip(bytes) {
            cell.store(u64::from(*byte), Ordering::SeqCst);
        }
        self.writes.fetch_add(1, Ordering::SeqCst);
    }

    /// How many writes the tape took.
    pub(super) fn writes(&self) -> u64 {
        self.writes.load(Ordering::SeqCst)
    }

    /// What was written.
    pub(super) fn text(&self, alloc: Global) -> Result<String, Fail> {
        let mut text = String::new(alloc);
        for (_, cell) in (0..self.len.load(Ordering::SeqCst)).zip(&self.bytes) {
            let byte = cell.load(Ordering::SeqCst) % 256;
            text.push(char::from(byte as u8))?;
        }
        Ok(text)
    }
}

/// A sink that writes to a tape. Write number `fails_at`, counted from 1, fails; for 0, no write
/// fails.
#[derive(Clone, Copy)]
pub(super) struct Pen<'a> {
    tape: &'a Tape,
    fails_at: u64,
    writes: u64,
    failed: bool,
}

impl<'a> Pen<'a> {
    pub(super) fn new(tape: &'a Tape, fails_at: u64) -> Pen<'a> {
        Pen {
            tape,
            fails_at,
            writes: 0,
            failed: false,
        }
    }
}

impl Sink for Pen<'_> {
    ghost written = { λ _. None };

    ghost has_failed = { λ p. p.failed };

    fn write(&mut self, bytes: &[u8]) -> Result<usize, WriteFault> {
        self.writes = self.writes.saturating_add(1);
        if self.writes == self.fails_at {
            self.failed = true;
            return Err(WriteFault);
        }
        self.tape.note(bytes);
        Ok(bytes.len())
    }

    fn failed(&self) -> bool {
        self.failed
    }
}

/// What happens to the gate of stream 3.
#[derive(Clone, Copy, Debug, PartialEq)]
enum Step {
    /// The clock moves by this many milliseconds.
    Later(u64),
    /// The clock fails from now on.
    Breaks,
    /// The clock works again.
    Mended,
    /// The stream fetches 555: the number of the first attempt, and how many attempts it makes.
    Asks(u64, u64),
    /// The stream publishes this many clauses.
    Adds(u64),
    /// The stream ends.
    Over,
}

/// Applies the steps to a gate.
fn take_steps<G: Gate>(gate: &mut G, clock: &Hand, steps: &[Step]) {
    for step in steps {
        match *step {
            Later(millis) => {
                clock.millis.fetch_add(millis, Ordering::SeqCst);
            }
            Breaks => clock.is_broken.store(true, Ordering::SeqCst),
            Mended => clock.is_broken.store(false, Ordering::SeqCst),
            Asks(from, count) => {
                for n in 0..count {
                    gate.before_fetch(3, 555, from.saturating_add(n));
                }
            }
            Adds(count) => {
                for _ in 0..count {
                    gate.after_publish(3, 1);
                }
            }
            Over => {
                let missing = Ending::Bad(28, Fault::Missing(555));
                gate.when_finished(3, &report((27, 0, Unknown, missing)));
            },
        }
    }
}

/// What a gate reports for these steps, and in how many writes. Write number `fails_at` fails.
fn reported(
    alloc: Global,
    is_alone: bool,
    fails_at: u64,
    steps: &[Step],
) -> Result<(String, u64), Fail> {
    let clock = Hand::new(0);
    let tape = Tape::new(alloc, 1_000)?;
    let pen = Pen::new(&tape, fails_at);
    let gate = (!is_alone).then_some(Open);
    take_steps(&mut Watch::new(gate, &clock, Some(pen)), &clock, steps);
    Ok((tape.text(alloc)?, tape.writes()))
}

const WAITS: &str = "lrupd: stream 3: waits for 555\n";

const OVER: &str = "lrupd: stream 3: 27 added, 0 deleted, bad line 28 (missing 555)\n";

const COUNTED: &str = "lrupd: stream 3: 128 added\n";

/// Steps, and the lines written for them, each by one write.
static ROWS: [(&[Step], &str); 14] = [
    (&[Over], OVER),
    // A hint that has been vacant for less than a second, or for a second.
    (&[Asks(1, 2), Later(1_000), Asks(3, 1_021)], ""),
    (&[Asks(1, 2), Later(1_000), Asks(3, 1_022)], WAITS),
    (
        &[
            Asks(1, 2),
            Later(999),
            Asks(3, 2_046),
            Later(1),
            Asks(2_049, 1_023),
        ],
        "",
    ),
    // The time is measured from the second attempt on.
    (&[Asks(1, 1), Later(1_000), Asks(2, 1_023)], ""),
    // A wait is reported once for each hint.
    (&[Asks(1, 2), Later(1_000), Asks(3, 9_000)], WAITS),
    (
        &[
            Asks(1, 2),
            Later(5_000),
            Asks(3, 1_022),
            Asks(1, 2),
            Later(1_000),
            Asks(3, 1_022),
        ],
        "lrupd: stream 3: waits for 555\nlrupd: stream 3: waits for 555\n",
    ),
    // The count is reported ten seconds after the first look at the clock, and then ten seconds
    // after the last report.
    (&[Adds(64), Later(9_999), Adds(64), Later(1), Adds(63)], ""),
    (
        &[Adds(64), Later(10_000), Adds(704), Later(9_999), Adds(64)],
        COUNTED,
    ),
    (
        &[Adds(64), Later(99_000), Adds(64), Later(10_000), Adds(64)],
        "lrupd: stream 3: 128 added\nlrupd: stream 3: 192 added\n",
    ),
    // Nothing is added later, so nothing is reported.
    (&[Adds(64), Later(99_000)], ""),
    // A clock that fails.
    (
        &[Breaks, Asks(1, 2), Mended, Later(1_000), Asks(3, 1_022)],
        "",
    ),
    (
        &[
            Asks(1, 2),
            Later(1_000),
            Breaks,
            Asks(3, 1_022),
            Mended,
            Asks(1_025, 1_024),
        ],
        WAITS,
    ),
    (
        &[
            Breaks,
            Adds(64),
            Later(10_000),
            Mended,
            Adds(64),
            Breaks,
            Adds(64),
            Over,
        ],
        OVER,
    ),
];

#[test]
fn a_watch_reports_progress(rt: HostRuntime) -> Result<(), Fail> {
    for &(steps, text) in &ROWS {
        let (found, writes) = reported(rt.alloc(), false, 0, steps)?;
        let lines = text.bytes().filter(|byte| *byte == b'\n').count() as u64;
        same(&rt, (steps, found.as_str(), writes), (steps, text, lines));
    }
    Ok(())
}

/// A wait, a count and the end.
const THREE: &[Step] = &[
    Asks(1, 2),
    Later(1_000),
    Asks(3, 1_022),
    Adds(64),
    Later(10_000),
    Adds(64),
    Over,
];

/// On one thread, no wait is reported.
#[test]
fn a_watch_of_one_thread_reports_no_waits(rt: HostRuntime) -> Result<(), Fail> {
    let (text, writes) = reported(rt.alloc(), true, 0, THREE)?;
    let wanted = format!(in rt.alloc(); "{COUNTED}{OVER}")?;
    same(&rt, (text.as_str(), writes), (wanted.as_str(), 2));
    Ok(())
}

#[test]
fn nothing_is_written_after_a_failed_write(rt: HostRuntime) -> Result<(), Fail> {
    for fails_at in 1..=4u64 {
        let (text, writes) = reported(rt.alloc(), false, fails_at, THREE)?;
        let mut wanted = String::new(rt.alloc());
        for (_, line) in (1..fails_at).zip([WAITS, COUNTED, OVER]) {
            wanted.push_str(line)?;
        }
        let found = (fails_at, text.as_str(), writes);
        same(&rt, found, (fails_at, wanted.as_str(), fails_at - 1));
    }
    Ok(())
}

/// A watch passes each call on to its inner gate, with a sink or without. Without a sink, it writes
/// nothing.
#[test]
fn a_watch_passes_calls_on(rt: HostRuntime) -> Result<(), Fail> {
    for writes in [0, 1] {
        let clock = Hand::new(0);
        let (tape, calls) = (Tape::new(rt.alloc(), 1_000)?, Tape::new(rt.alloc(), 200)?);
        let pen = (writes > 0).then_some(Pen::new(&tape, 0));
        let notes = Notes {
            alloc: rt.alloc(),
            tape: &calls,
        };
        let mut watch = Watch::new(Some(notes), &clock, pen);
        let steps = [Asks(1, 2), Adds(1), Over];
        take_steps(&mut watch, &clock, &steps);
        let wanted = "3 fetches 555 (1)\n3 fetches 555 (2)\n3 publishes 1\n3 is over\n";
        let found = calls.text(rt.alloc())?;
        same(&rt, (found.as_str(), tape.writes()), (wanted, writes));
    }
    Ok(())
}
