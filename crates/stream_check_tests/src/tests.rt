//! Tables of tests over a map that counts its calls. Each stream comes whole, byte by byte, and in
//! pieces of two bytes.
ghost use Rattle.std.specs.Prelude.{◌≡◌, IsSome};
ghost use Rattle.lrup_model.specs.Event.{History};
ghost use Rattle.stream_check.specs.Checker.{IsReadyAt};

use late_map::{Late, judged};
use lrup_model::{ClauseMap, Cube, Id, Layout, Lit};
use std::alloc::{AllocError, Global};
use std::fmt;
use std::process::Abort;
use std::test::Fail;
use stream_check::{CheckStatus, Checker, Ending, Gate, Report};

mod assumptions;
mod finishing;
mod imports;
mod late_map;
mod memory;
mod two_streams;

/// Stops the test if two values differ. This is a function, so the assertion is proved only once.
fn same<T: PartialEq + fmt::Debug + Drop>(rt: &impl Abort, value: T, wanted: T) {
    assert_eq!(rt; value, wanted);
}

/// The calls that a gate got.
#[derive(Clone, Copy, Debug, PartialEq, Eq)]
struct GateCalls {
    fetches: u64,
    most_attempts: u64,
    publishes: u64,
}

const NO_CALLS: GateCalls = GateCalls {
    fetches: 0,
    most_attempts: 0,
    publishes: 0,
};

impl Gate for GateCalls {
    fn before_fetch(&mut self, _stream: u64, _id: Id, attempt: u64) {
        self.fetches = self.fetches.saturating_add(1);
        self.most_attempts = self.most_attempts.max(attempt);
    }

    fn after_publish(&mut self, _stream: u64, _id: Id) {
        self.publishes = self.publishes.saturating_add(1);
    }
}

/// The options of a row. The cube's literals are separated by commas.
#[derive(Clone, Copy)]
struct Options<'a> {
    streams: u64,
    lines: u64,
    room: u64,
    tries: u64,
    cube: &'a str,
    late: Late,
}

/// The program's defaults, except for the tries.
const ONE_STREAM: Options = Options {
    streams: 1,
    lines: 65_536,
    room: 1_048_576,
    tries: 3,
    cube: "",
    late: Late::Never,
};

/// The stream owns 5 and 7, the other one 6 and 8. Each has room for two literals.
const TWO_STREAMS: Options = Options {
    streams: 2,
    lines: 2,
    room: 2,
    ..ONE_STREAM
};

impl<'a> Options<'a> {
    /// Changes an option, by a word such as `tries=3`.
    fn set(&mut self, word: &'a str) -> Result<(), Fail> {
        let (name, value) = word.split_once('=').ok_or("no value")?;
        match name {
            "streams" => self.streams = value.parse()?,
            "lines" => self.lines = value.parse()?,
            "room" => self.room = value.parse()?,
            "tries" => self.tries = value.parse()?,
            "cube" => self.cube = value,
            "published" => self.late = Late::Published(value.parse()?),
            "retired" => self.late = Late::Retired(value.parse()?),
            _ => return Err("no such option".into()),
        }
        Ok(())
    }
}

/// The options, lines and report of a row `WORDS: LINES => REPORT`. The words, which may be
/// missing, change the options.
fn parts<'a>(
    mut options: Options<'a>,
    row: &'a str,
) -> Result<(Options<'a>, &'a str, &'a str), Fail> {
    let (stream, report) = row.split_once(" => ").ok_or("no report")?;
    let (words, lines) = stream.split_once(": ").unwrap_or(("", stream));
    for word in words.split_whitespace() {
        options.set(word)?;
    }
    Ok((options, lines, report))
}

/// The cube of literals that are separated by commas.
fn cube_of(alloc: Global, text: &str) -> Result<Cube, Fail> {
    let mut literals = Vec::new(alloc);
    for word in text.split_terminator(',') {
        literals.push(Lit::new(word.parse()?).ok_or("no literal")?)?;
    }
    Ok(Cube::of(alloc, literals.as_slice())?)
}

/// The words of a report, and then the calls: the number of fetches; the most attempts at a hint,
/// if more than one; the retires, if any.
fn shown(
    alloc: Global,
    report: Report,
    calls: GateCalls,
    retires: u64,
) -> Result<String, AllocError> {
    let (added, deleted) = (report.added, report.deleted);
    let mut text = format!(in alloc; "{added} added, {deleted} deleted, ")?;
    match report.ending {
        Ending::Ended => text.push_str("ended")?,
        Ending::Bad(line, fault) => write!(text, "bad line {line} ({fault})")?,
        Ending::ReadFailed(line) => write!(text, "read failed at line {line}")?,
        Ending::Memory(line) => write!(text, "out of memory at line {line}")?,
    }
    if report.empty {
        text.push_str(", empty")?;
    }
    if report.within {
        text.push_str(", within")?;
    }
    let (fetches, attempts) = (calls.fetches, calls.most_attempts);
    write!(text, "; fetches {fetches}")?;
    if attempts > 1 {
        write!(text, ", attempts {attempts}")?;
    }
    if retires > 0 {
        write!(text, ", retires {retires}")?;
    }
    Ok(text)
}

/// Feeds a piece to its end, or until the checker is finished.
fn feed_whole<M: ClauseMap, G: Gate>(checker: &mut Checker, map: &mut M, gate: &mut G, piece: &[u8])
    requires { IsReadyAt checker.old (M.caller_view map.old) }
    ensures ready { IsReadyAt checker.new (M.caller_view map.new) }
    ensures moves { (es : History) × M.moves map.old map.new es }
    ensures params { checker.new.params ≡ checker.old.params }
{
    let mut rest = piece;
    'rest: loop {
        let progress = checker.feed(map, gate, rest);
        match progress.status {
            CheckStatus::Line => rest = &rest[progress.used..],
            CheckStatus::More | CheckStatus::Over => return,
        }
    }
}

/// Feeds a stream in pieces of one length, and ends it.
fn feed_cut<M: ClauseMap, G: Gate>(
    checker: &mut Checker,
    map: &mut M,
    gate: &mut G,
    bytes: &[u8],
    cut: usize,
)
    requires { IsReadyAt checker.old (M.caller_view map.old) }
    ensures { IsSome checker.new.ending }
{
    for piece in bytes.chunks(cut.max(1)) {
        feed_whole(checker, map, gate, piece);
    }
    checker.end();
    checker.read_failed();
}

/// Checks the report and the calls of a row's stream, in pieces of this length.
fn has_report(
    rt: &impl Abort,
    alloc: Global,
    defaults: Options,
    row: &str,
    cut: usize,
) -> Result<(), Fail> {
    let (options, lines, report) = parts(defaults, row)?;
    let found = judged(alloc, options, lines, cut)?;
    same(rt, (row, found.as_str()), (row, report));
    Ok(())
}

/// Checks each row as `has_report` does, with pieces of each length.
fn have_reports(
    rt: &impl Abort,
    alloc: Global,
    defaults: Options,
    rows: &[&str],
) -> Result<(), Fail> {
    for row in rows {
        for cut in [65_536, 2, 1] {
            has_report(rt, alloc, defaults, row, cut)?;
        }
    }
    Ok(())
}

static GOOD_LINES: &[&str] = &[
    " => 0 added, 0 deleted, ended; fetches 0",
    "5 2 0 1 2 0\n6 0 5 3 4 0\n => 2 added, 0 deleted, ended, empty, within; fetches 5",
    "7 2 0 1 2 0\n9 0 7 3 4 0\n => 2 added, 0 deleted, ended, empty, within; fetches 5",
    // A bad line doesn't undo what earlier lines did.
    "5 2 0 1 2 0\n6 0 5 3 4 0\n7 2 0 1 0\n \
     => 2 added, 0 deleted, bad line 3 (no conflict), empty, within; fetches 6",
];

#[test]
fn good_lines_are_counted(rt: HostRuntime) -> Result<(), Fail> {
    have_reports(&rt, rt.alloc(), ONE_STREAM, GOOD_LINES)
}

/// All faults of a line, in the order in which they are tested; the faults of imports are in
/// `imports`.
static FAULTS: &[&str] = &[
    "5  2 0 1 2 0\n6 0 5 3 4 0\n => 0 added, 0 deleted, bad line 1 (spelling); fetches 0",
    "1000000000000000000 2 0 1 2 0\n => 0 added, 0 deleted, bad line 1 (too long); fetches 0",
    "5 2 0 1 2 0 => 0 added, 0 deleted, bad line 1 (truncated); fetches 0",
    "5 2 0 1 2 0\n6 => 1 added, 0 deleted, bad line 2 (truncated); fetches 2",
    "5 1 0 -2 0\n => 0 added, 0 deleted, bad line 1 (rat hint); fetches 0",
    "999999999999999999 2 0 1 2 0\n => 0 added, 0 deleted, bad line 1 (identity); fetches 0",
    "streams=2: 6 2 0 1 2 0\n => 0 added, 0 deleted, bad line 1 (identity); fetches 0",
    "lines=1: 5 2 0 1 2 0\n6 0 5 3 4 0\n => 1 added, 0 deleted, bad line 2 (identity); fetches 2",
    "7 2 0 1 2 0\n7 0 7 3 4 0\n => 1 added, 0 deleted, bad line 2 (identity); fetches 2",
    "7 2 0 1 2 0\n6 0 7 3 4 0\n => 1 added, 0 deleted, bad line 2 (identity); fetches 2",
    "5 3 0 1 2 0\n => 0 added, 0 deleted, bad line 1 (literal); fetches 0",
    "5 1 -1 0 1 0\n => 0 added, 0 deleted, bad line 1 (tautology); fetches 0",
    "room=0: 5 2 0 1 2 0\n => 0 added, 0 deleted, bad line 1 (no room); fetches 0",
    "5 2 0 1 2 3 0\n => 0 added, 0 deleted, bad line 1 (excess 3); fetches 2",
    "5 d 1 0\n5 2 0 1 2 0\n => 0 added, 1 deleted, bad line 2 (dropped 1); fetches 0",
    "5 2 0 5 0\n => 0 added, 0 deleted, bad line 1 (missing 5); fetches 1",
    "5 2 0 1 2 0\n5 d 5 0\n6 0 5 3 4 0\n \
     => 1 added, 1 deleted, bad line 3 (retired 5); fetches 3, retires 1",
    "5 2 0 2 3 0\n => 0 added, 0 deleted, bad line 1 (not unit 3); fetches 2",
    "5 2 0 1 0\n => 0 added, 0 deleted, bad line 1 (no conflict); fetches 1",
    "5 2 0 0\n => 0 added, 0 deleted, bad line 1 (no conflict); fetches 0",
    "5 2 0 1 2 0\n5 d 5 5 0\n => 1 added, 1 deleted, bad line 2 (not live 5); fetches 2, retires 2",
    "5 d 1 1 0\n => 0 added, 1 deleted, bad line 1 (not live 1); fetches 0",
];

#[test]
fn bad_lines_have_faults(rt: HostRuntime) -> Result<(), Fail> {
    have_reports(&rt, rt.alloc(), ONE_STREAM, FAULTS)
}

/// Lines that fail two tests.
static TWO_FAULTS: &[&str] = &[
    "9999999 3 -3 0 1 0\n => 0 added, 0 deleted, bad line 1 (identity); fetches 0",
    "5 3 -3 0 1 0\n => 0 added, 0 deleted, bad line 1 (literal); fetches 0",
    "5 d 3 0\n5 2 0 1 2 3 0\n => 0 added, 1 deleted, bad line 2 (excess 3); fetches 2",
    "5 2 0 1 2 5 0\n => 0 added, 0 deleted, bad line 1 (excess 5); fetches 2",
    "streams=2: 5 2 0 1 2 6 0\n => 0 added, 0 deleted, bad line 1 (excess 6); fetches 2",
    "streams=2: 5 d 6 0\n5 2 0 6 0\n => 0 added, 1 deleted, bad line 2 (dropped 6); fetches 0",
];

#[test]
fn the_first_test_that_fails_decides(rt: HostRuntime) -> Result<(), Fail> {
    have_reports(&rt, rt.alloc(), ONE_STREAM, TWO_FAULTS)
}

/// Hints: numbers that aren't identities; an identity of the formula; the stream's own identities,
/// vacant and live.
static HINTS_FETCHED_ONCE: &[&str] = &[
    "5 2 0 9 0\n => 0 added, 0 deleted, bad line 1 (missing 9); fetches 0",
    "5 2 0 9999999 0\n => 0 added, 0 deleted, bad line 1 (missing 9999999); fetches 0",
    "5 1 2 0 1 0\n => 1 added, 0 deleted, ended; fetches 1",
    "5 2 0 7 0\n => 0 added, 0 deleted, bad line 1 (missing 7); fetches 1",
    "5 2 0 1 2 0\n7 2 0 5 0\n => 2 added, 0 deleted, ended; fetches 3",
];

#[test]
fn hints_that_are_not_foreign_are_fetched_once(rt: HostRuntime) -> Result<(), Fail> {
    have_reports(&rt, rt.alloc(), TWO_STREAMS, HINTS_FETCHED_ONCE)
}

/// The other stream publishes 6 right before some fetch, or never, and may retire it at once.
static FOREIGN_HINTS: &[&str] = &[
    "tries=0: 5 -2 0 6 0\n => 0 added, 0 deleted, bad line 1 (missing 6); fetches 1",
    "tries=0 published=1: 5 -2 0 6 0\n => 1 added, 0 deleted, ended; fetches 1",
    "tries=0 retired=1: 5 -2 0 6 0\n => 0 added, 0 deleted, bad line 1 (retired 6); fetches 1",
    "tries=0 published=2: 5 -2 0 6 0\n => 0 added, 0 deleted, bad line 1 (missing 6); fetches 1",
    "tries=1: 5 -2 0 6 0\n => 0 added, 0 deleted, bad line 1 (missing 6); fetches 2, attempts 2",
    "tries=1 published=1: 5 -2 0 6 0\n => 1 added, 0 deleted, ended; fetches 1",
    "tries=1 published=2: 5 -2 0 6 0\n => 1 added, 0 deleted, ended; fetches 2, attempts 2",
    "tries=1 retired=2: 5 -2 0 6 0\n \
     => 0 added, 0 deleted, bad line 1 (retired 6); fetches 2, attempts 2",
    "tries=1 published=3: 5 -2 0 6 0\n \
     => 0 added, 0 deleted, bad line 1 (missing 6); fetches 2, attempts 2",
    "5 -2 0 6 0\n => 0 added, 0 deleted, bad line 1 (missing 6); fetches 4, attempts 4",
    "published=1: 5 -2 0 6 0\n => 1 added, 0 deleted, ended; fetches 1",
    "published=2: 5 -2 0 6 0\n => 1 added, 0 deleted, ended; fetches 2, attempts 2",
    "published=4: 5 -2 0 6 0\n => 1 added, 0 deleted, ended; fetches 4, attempts 4",
    "retired=1: 5 -2 0 6 0\n => 0 added, 0 deleted, bad line 1 (retired 6); fetches 1",
    "retired=2: 5 -2 0 6 0\n => 0 added, 0 deleted, bad line 1 (retired 6); fetches 2, attempts 2",
    "retired=4: 5 -2 0 6 0\n => 0 added, 0 deleted, bad line 1 (retired 6); fetches 4, attempts 4",
    "published=5: 5 -2 0 6 0\n \
     => 0 added, 0 deleted, bad line 1 (missing 6); fetches 4, attempts 4",
];

#[test]
fn a_foreign_hint_is_fetched_until_it_comes(rt: HostRuntime) -> Result<(), Fail> {
    have_reports(&rt, rt.alloc(), TWO_STREAMS, FOREIGN_HINTS)
}

/// The largest number of tries.
static MOST_TRIES: &[&str] = &[
    "tries=1000000: 5 -2 0 6 0\n \
     => 0 added, 0 deleted, bad line 1 (missing 6); fetches 1000001, attempts 1000001",
    "tries=1000000 published=1000001: 5 -2 0 6 0\n \
     => 1 added, 0 deleted, ended; fetches 1000001, attempts 1000001",
];

#[test]
fn a_hint_may_come_at_the_last_try(rt: HostRuntime) -> Result<(), Fail> {
    for row in MOST_TRIES {
        has_report(&rt, rt.alloc(), TWO_STREAMS, row, 65_536)?;
    }
    Ok(())
}

/// A deletion calls `retire` once for each of the stream's own identities that it reaches, and
/// makes no call for other identities.
static DELETIONS: &[&str] = &[
    "5 d 0\n => 0 added, 0 deleted, ended; fetches 0",
    "5 d 1 6 0\n => 0 added, 2 deleted, ended; fetches 0",
    "5 d 4 8 0\n => 0 added, 2 deleted, ended; fetches 0",
    "5 2 0 1 2 0\n5 d 1 5 6 0\n => 1 added, 3 deleted, ended; fetches 2, retires 1",
    "5 2 0 1 2 0\n7 2 0 5 0\n5 d 5 7 0\n => 2 added, 2 deleted, ended; fetches 3, retires 2",
    "5 d 7 5 0\n => 0 added, 0 deleted, bad line 1 (not live 7); fetches 0, retires 1",
    "5 d 9 5 0\n => 0 added, 0 deleted, bad line 1 (not live 9); fetches 0",
    "5 d 1 1 5 0\n => 0 added, 1 deleted, bad line 1 (not live 1); fetches 0",
];

#[test]
fn identities_are_deleted_from_the_left(rt: HostRuntime) -> Result<(), Fail> {
    have_reports(&rt, rt.alloc(), TWO_STREAMS, DELETIONS)
}

static ROOMS: &[&str] = &[
    "room=0: 5 0 1 0\n => 0 added, 0 deleted, bad line 1 (not unit 1); fetches 1",
    "room=1: 5 2 2 0 1 2 0\n => 1 added, 0 deleted, ended; fetches 2",
    "room=1: 5 1 2 0 1 0\n => 0 added, 0 deleted, bad line 1 (no room); fetches 0",
    "room=2: 5 1 2 0 1 0\n => 1 added, 0 deleted, ended; fetches 1",
    "room=2: 5 1 2 0 1 0\n6 2 0 1 2 0\n => 1 added, 0 deleted, bad line 2 (no room); fetches 1",
    // The empty clause takes no room.
    "room=3: 5 1 2 0 1 0\n6 2 0 1 2 0\n7 0 6 3 4 0\n \
     => 3 added, 0 deleted, ended, empty, within; fetches 6",
    // A retired clause gives no room back.
    "room=1: 5 2 0 1 2 0\n5 d 5 0\n6 2 0 1 2 0\n \
     => 1 added, 1 deleted, bad line 3 (no room); fetches 2, retires 1",
];

#[test]
fn the_room_ends(rt: HostRuntime) -> Result<(), Fail> {
    have_reports(&rt, rt.alloc(), ONE_STREAM, ROOMS)
}

/// With two identities per stream, a single stream owns 5 and 6, and the first of two owns 5 and 7.
static IDENTITIES: &[&str] = &[
    "streams=1: 4 2 0 1 2 0\n => 0 added, 0 deleted, bad line 1 (identity); fetches 0",
    "streams=1: 5 2 0 1 2 0\n => 1 added, 0 deleted, ended; fetches 2",
    "streams=1: 6 2 0 1 2 0\n => 1 added, 0 deleted, ended; fetches 2",
    "streams=1: 7 2 0 1 2 0\n => 0 added, 0 deleted, bad line 1 (identity); fetches 0",
    "7 2 0 1 2 0\n => 1 added, 0 deleted, ended; fetches 2",
    "8 2 0 1 2 0\n => 0 added, 0 deleted, bad line 1 (identity); fetches 0",
    "9 2 0 1 2 0\n => 0 added, 0 deleted, bad line 1 (identity); fetches 0",
];

#[test]
fn the_identities_end(rt: HostRuntime) -> Result<(), Fail> {
    have_reports(&rt, rt.alloc(), TWO_STREAMS, IDENTITIES)
}
