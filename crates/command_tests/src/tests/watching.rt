//! What `--watch` writes when streams end and rounds begin, and how long the pauses between rounds
//! are.
ghost use Rattle.std.specs.Prelude.{None, false};

use super::shelf::Thing::Text;
use super::*;
use lrup_text::{Sink, WriteFault};
use std::io;
use std::sync::atomic::{AtomicU64, AtomicUsize, Ordering};
use std::time::Duration;

/// Counts of watchers and their writes, and a clock that moves only when a file is looked for.
#[derive(Drop)]
pub(super) struct WatchLog {
    watchers: AtomicU64,
    /// The number of writes that were one whole line, and the number of all writes.
    lines: AtomicU64,
    writes: AtomicU64,
    /// The expected lines, in order, each in a write of its own.
    awaited: &'static [&'static str],
    /// How many of the expected lines were written.
    came: AtomicUsize,
    micros: AtomicU64,
    /// By how many microseconds the clock moves at a time; `None` if the clock fails.
    delay: Option<u64>,
}

impl WatchLog {
    fn new(awaited: &'static [&'static str], delay: Option<u64>) -> WatchLog {
        WatchLog {
            watchers: AtomicU64::new(0),
            lines: AtomicU64::new(0),
            writes: AtomicU64::new(0),
            awaited,
            came: AtomicUsize::new(0),
            micros: AtomicU64::new(0),
            delay,
        }
    }

    /// Moves the clock. Called when a file is looked for.
    pub(super) fn go_on(&self) {
        let delay = self.delay.unwrap_or(0);
        self.micros.fetch_add(delay, Ordering::SeqCst);
    }

    fn take(&self, bytes: &[u8]) {
        self.writes.fetch_add(1, Ordering::SeqCst);
        if text_of(bytes).find('\n') == Some(bytes.len().saturating_sub(1)) {
            self.lines.fetch_add(1, Ordering::SeqCst);
        }
        let awaited = self.awaited.get(self.came.load(Ordering::SeqCst));
        if awaited.is_some_and(|line| line.as_bytes() == bytes) {
            self.came.fetch_add(1, Ordering::SeqCst);
        }
    }

    /// The numbers of watchers, of writes that were one whole line, and of all writes; and how many
    /// of the expected lines were written.
    fn counts(&self) -> ([u64; 3], usize) {
        let counts = [&self.watchers, &self.lines, &self.writes];
        (
            counts.map(|count| count.load(Ordering::SeqCst)),
            self.came.load(Ordering::SeqCst),
        )
    }
}

impl Clock for WatchLog {
    fn monotonic(&self) -> io::Result<Duration> {
        if self.delay.is_none() {
            return Err(io::Error::from(io::ErrorKind::Other));
        }
        Ok(Duration::from_micros(self.micros.load(Ordering::SeqCst)))
    }

    fn since_1970(&self) -> io::Result<Duration> {
        self.monotonic()
    }

    fn sleep(&self, _duration: Duration) {}
}

/// A sink that takes all bytes, and notes them if there is a log.
#[derive(Clone, Copy)]
pub(super) struct Watcher<'a> {
    log: Option<&'a WatchLog>,
}

impl<'a> Watcher<'a> {
    pub(super) fn new(log: Option<&'a WatchLog>) -> Watcher<'a> {
        if let Some(log) = log {
            log.watchers.fetch_add(1, Ordering::SeqCst);
        }
        Watcher { log }
    }
}

impl Sink for Watcher<'_> {
    ghost written = { λ _. None };

    ghost has_failed = { λ _. false };

    fn write(&mut self, bytes: &[u8]) -> Result<usize, WriteFault> {
        if let Some(log) = self.log {
            log.take(bytes);
        }
        Ok(bytes.len())
    }

    fn failed(&self) -> bool {
        false
    }
}

/// A first stream that ends and a second with a bad line; and three rounds of one stream, the
/// second of which drops a clause.
const WATCHED: Setup = Setup {
    streams: &["", "6 6\n"],
    things: &[
        ("d/round-2.stream-1", Text(DROPS)),
        ("d/round-3.stream-1", Text("")),
    ],
    ..SETUP
};

const AT_ONCE: &[&str] = &[
    "lrupd: round 2: 4 clauses, 8 literals, paused for 0 ms\n",
    "lrupd: round 3: 4 clauses, 7 literals, paused for 0 ms\n",
];

/// In each pause, the clock moves twice, since the sizes and stream 1 are looked for.
const LATE: &[&str] = &[
    "lrupd: round 2: 4 clauses, 8 literals, paused for 2012 ms\n",
    "lrupd: round 3: 4 clauses, 7 literals, paused for 2012 ms\n",
];

const TIMELESS: &[&str] = &[
    "lrupd: round 2: 4 clauses, 8 literals\n",
    "lrupd: round 3: 4 clauses, 7 literals\n",
];

const OF_TWO: &str = "c stream 1: 0 added, 0 deleted, ended
c stream 2: 0 added, 0 deleted, bad line 1 (spelling)
s UNKNOWN
";

const IN_3: &str = "c round 3\nc stream 1: 0 added, 0 deleted, ended\ns UNKNOWN\n";

/// The words, how far the clock moves at a time, the expected lines, and the number of lines and of
/// watchers. There is a line for each stream, and one for each round after the first. A watcher is
/// made for each line and for each opening; in rounds, the sizes and a stream of round 4 are
/// opened, too.
static HEARD: [(&str, Option<u64>, &[&str], u64, u64); 6] = [
    ("f 1 2", Some(0), &[], 0, 0),
    ("--watch f 1 2", Some(0), &[], 2, 5),
    ("--rounds d f 1", Some(0), &[], 0, 0),
    ("--watch --rounds d f 1", Some(0), AT_ONCE, 5, 13),
    ("--watch --rounds d f 1", Some(1_006_499), LATE, 5, 13),
    ("--watch --rounds d f 1", None, TIMELESS, 5, 13),
];

/// With `--watch`, each line is one write; without it, nothing is written.
#[test]
fn watchers_take_whole_lines(rt: HostRuntime) -> Result<(), Fail> {
    for way in &WAYS {
        for &(words, delay, awaited, lines, watchers) in &HEARD {
            let words = words_after(rt.alloc(), way, words)?;
            let log = WatchLog::new(awaited, delay);
            let setup = Setup {
                watched: Some(&log),
                ..WATCHED
            };
            let ran = run(&rt, &log, &words, setup);
            let out = if words.contains(&"2") { OF_TWO } else { IN_3 };
            let found = (words.as_slice(), ran.ends(), log.counts());
            let wanted = (3, out, "");
            let counts = [watchers, lines, lines];
            same(
                &rt,
                found,
                (words.as_slice(), wanted, (counts, awaited.len())),
            );
        }
    }
    Ok(())
}
