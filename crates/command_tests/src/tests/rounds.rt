//! Rounds after the first: which files are opened, looked for, created, kept and discarded, and the
//! reports and messages.
use super::shelf::Thing::{self, Breaking, Failing, Full, Lost, Refused, Text};
use super::*;

const IN_ROUNDS: &str = "--rounds d f 1";

const SIZES: &str = "d/round-2.sizes";

const STREAM: &str = "d/round-2.stream-1";

const STREAM_2: &str = "d/round-2.stream-2";

const STREAM_OF_3: &str = "d/round-3.stream-1";
/// The path of the formula that round 2 saves for round 3.
const NEXT: &str = "d/round-3.cnf";

/// What round 1 does to the files.
const FIRST: &str = "f 1 +d/round-2.cnf =d/round-2.cnf ";
/// What round 2 opens, with one stream and with two.
const OPENED: &str = "?d/round-2.sizes d/round-2.stream-1 ";

const SIZED: &str = "d/round-2.sizes d/round-2.stream-1 d/round-2.stream-2 ";
/// What happens to the formula for round 3.
const KEPT: &str = "+d/round-3.cnf =d/round-3.cnf ";

const DISCARDED: &str = "+d/round-3.cnf -d/round-3.cnf ";

/// A run in rounds, and its results.
#[derive(Clone, Copy)]
struct Row<'a> {
    /// The words after the option `--rounds`.
    words: &'a str,
    /// The streams of round 1.
    streams: &'a [&'a str],
    things: &'a [(&'a str, Thing<'a>)],
    /// The last round's number, its streams' lines in the report, and the status.
    ends: (u64, &'a [&'a str], u8),
    /// The effects on the files, in parts.
    done: &'a [&'a str],
    /// The bytes of the kept files, in order.
    kept: &'a [&'a str],
}

const ROW: Row = Row {
    words: "f 1",
    streams: &[ADDS],
    things: &[],
    ends: (2, &[NOTHING], 3),
    done: &[],
    kept: &[ALL],
};

/// What round 2 of the second row saves: it continues with the four clauses of `LESS`, which now
/// have the identities 1 to 4, and drops the first.
const LATER: &str = "p cnf 2 4
c id 2
1 -2 0
c id 3
-1 -2 0
c id 4
2 0
c id 5
-2 0
";

/// Two streams over the five clauses. They are valid if each stream has three identities and room
/// for four literals.
const MANY: &str = "6 1 0 5 3 0\n8 1 0 6 0\n10 0 8 5 4 0\n";

const LONG: &str = "7 1 2 0 1 0\n9 -1 2 0 2 0\n";

/// The lines of these streams in the report if each has two identities and room for three literals.
const LIMITED: &[&str] = &[
    "2 added, 0 deleted, bad line 3 (identity)",
    "1 added, 0 deleted, bad line 2 (no room)",
];

/// The five clauses, and the clauses that these streams add within the smaller sizes.
const EIGHT: &str = "p cnf 2 8\n1 2 0\n-1 2 0\n1 -2 0\n-1 -2 0\n2 0\n1 0\n1 2 0\n1 0\n";

static ROWS: [Row; 6] = [
    Row {
        things: &[(STREAM, Text("6 0 5 3 4 0\n"))],
        ends: (2, &[ONE_ADDED], 0),
        done: &[FIRST, OPENED, DISCARDED],
        ..ROW
    },
    Row {
        streams: &[DROPS],
        things: &[
            (STREAM, Text("5 -2 0 2 3 0\n6 d 1 0\n")),
            (STREAM_OF_3, Text("5 0 3 4 0\n")),
        ],
        ends: (3, &[ONE_ADDED], 0),
        done: &[
            FIRST,
            OPENED,
            KEPT,
            "?d/round-3.sizes d/round-3.stream-1 +d/round-4.cnf -d/round-4.cnf ",
        ],
        kept: &[LESS, LATER],
        ..ROW
    },
    Row {
        things: &[(STREAM, Text(""))],
        done: &[FIRST, OPENED, KEPT, "?d/round-3.sizes ?d/round-3.stream-1 "],
        kept: &[ALL, ALL],
        ..ROW
    },
    Row {
        words: "--assume a f 1",
        streams: &[""],
        things: &[(STREAM, Text(ADDS)), (STREAM_OF_3, Text(""))],
        ends: (2, &[ONE_ADDED], 8),
        done: &["f a 1 +d/round-2.cnf =d/round-2.cnf ", OPENED, KEPT],
        kept: &[FOUR, ALL],
    },
    // The two streams of `MANY` and `LONG`, limited by the words, or by the sizes that the previous
    // round read from a file.
    Row {
        words: "--lines=2 --room=3 f 1 2",
        streams: &[ADDS, ""],
        things: &[(STREAM, Text(MANY)), (STREAM_2, Text(LONG))],
        ends: (2, LIMITED, 3),
        done: &["f 1 2 +d/round-2.cnf =d/round-2.cnf ?", SIZED, KEPT],
        kept: &[ALL, EIGHT],
    },
    Row {
        things: &[
            (SIZES, Text("2 2 3\n")),
            (STREAM, Text("")),
            (STREAM_2, Text("")),
            (STREAM_OF_3, Text(MANY)),
            ("d/round-3.stream-2", Text(LONG)),
        ],
        ends: (3, LIMITED, 3),
        done: &[
            FIRST,
            SIZED,
            KEPT,
            "?d/round-3.sizes d/round-3.stream-1 d/round-3.stream-2 ",
            "+d/round-4.cnf =d/round-4.cnf ",
        ],
        kept: &[ALL, ALL, EIGHT],
        ..ROW
    },
];

/// The report of a round after the first.
fn report_of(alloc: Global, round: u64, said: &[&str], status: u8) -> Result<String, Fail> {
    let report = report(alloc, said, status)?;
    let text = format!(in alloc; "c round {round}\n{report}")?;
    Ok(text)
}

fn assert_goes_on(rt: &impl Host, row: &Row) -> Result<(), Fail> {
    let (round, said, status) = row.ends;
    let out = report_of(rt.alloc(), round, said, status)?;
    let done = row.done.concat(rt.alloc())?;
    let kept = row.kept.concat(rt.alloc())?;
    let setup = Setup::of(row.streams).with(row.things);
    let words = format!(in rt.alloc(); "--rounds d {}", row.words)?;
    let left = (done.as_str(), kept.as_str(), 0);
    assert_leaves(rt, words.as_str(), setup, (status, out.as_str(), ""), left)
}

#[test]
fn rounds_that_follow_each_other(rt: HostRuntime) -> Result<(), Fail> {
    for row in &ROWS {
        assert_goes_on(&rt, row)?;
    }
    Ok(())
}

/// 66 bytes. At three bytes a read, 22 reads give the first 64 bytes, and no further read follows.
const TOO_LONG: &str =
    "1 8 8\n1 8 8\n1 8 8\n1 8 8\n1 8 8\n1 8 8\n1 8 8\n1 8 8\n1 8 8\n1 8 8\n1 8 8\n";

const UNREAD: &str = "cannot read sizes";

const UNOPENED: &str = "cannot open stream 1";

const ITS_SIZES: &str = "d/round-2.sizes ";

/// The files of round 2, the status and the cause, and what is done to files after round 1.
static FAULTS: [(&[(&str, Thing)], u8, &str, &str); 9] = [
    (&[(SIZES, Text("1 8\n"))], 2, "sizes", ITS_SIZES),
    (&[(SIZES, Failing(TOO_LONG, 23))], 2, "sizes", ITS_SIZES),
    (&[(SIZES, Failing("1 8 8\n", 3))], 5, UNREAD, ITS_SIZES),
    (&[(SIZES, Refused)], 5, UNREAD, ITS_SIZES),
    (
        &[
            (SIZES, Text("2 268435456 0\n")),
            (STREAM, Text("")),
            (STREAM_2, Text("")),
        ],
        2,
        "row too long",
        SIZED,
    ),
    (
        &[(SIZES, Text("2 8 8\n")), (STREAM, Text(""))],
        5,
        "cannot open stream 2",
        SIZED,
    ),
    (&[(STREAM, Refused)], 5, UNOPENED, OPENED),
    (&[(STREAM, Full)], 6, "out of memory", OPENED),
    (
        &[(STREAM, Text("")), (NEXT, Text(""))],
        5,
        "cannot create checkpoint",
        "?d/round-2.sizes d/round-2.stream-1 +d/round-3.cnf ",
    ),
];

#[test]
fn rounds_without_a_report(rt: HostRuntime) -> Result<(), Fail> {
    for &(things, status, cause, done) in &FAULTS {
        let setup = Setup::of(&[ADDS]).with(things);
        let line = format!(in rt.alloc(); "lrupd: round 2: {cause}\n")?;
        let done = format!(in rt.alloc(); "{FIRST}{done}")?;
        let ends = (status, "", line.as_str());
        assert_leaves(&rt, IN_ROUNDS, setup, ends, (done.as_str(), ALL, 0))?;
    }
    Ok(())
}

/// If both a checkpoint and rounds are asked for, no file is opened.
#[test]
fn a_checkpoint_beside_rounds(rt: HostRuntime) -> Result<(), Fail> {
    let cause = "--checkpoint and --rounds exclude each other";
    assert_refused(&rt, "--rounds=d --checkpoint=ck f 1", SETUP, (2, cause), "")
}

const UNSAVED: &str = "lrupd: round 2: checkpoint not written\n";

/// What is at the path of round 3's formula, and what is done to it. Round 3 doesn't follow.
static NOT_SAVED: [(Thing, &str); 2] = [(Breaking(1), DISCARDED), (Lost, KEPT)];

#[test]
fn rounds_that_are_not_saved(rt: HostRuntime) -> Result<(), Fail> {
    let out = report_of(rt.alloc(), 2, &[NOTHING], 3)?;
    for &(thing, closed) in &NOT_SAVED {
        let things = [(STREAM, Text("")), (STREAM_OF_3, Text("")), (NEXT, thing)];
        let setup = Setup::of(&[ADDS]).with(&things);
        let done = format!(in rt.alloc(); "{FIRST}{OPENED}{closed}")?;
        let unkept = if closed == KEPT { ALL.len() } else { 0 };
        let ends = (9, out.as_str(), UNSAVED);
        assert_leaves(&rt, IN_ROUNDS, setup, ends, (done.as_str(), ALL, unkept))?;
    }
    Ok(())
}

const UNWRITTEN: &str = "lrupd: cannot write report\n";

const NEITHER: &str = "lrupd: round 2: checkpoint not written\nlrupd: cannot write report\n";

/// What is at the path of round 3's formula, and the messages if the report can't be written.
static UNREPORTED: [(Thing, &str); 2] = [(Breaking(0), UNWRITTEN), (Lost, NEITHER)];

#[test]
fn rounds_whose_report_is_not_written(rt: HostRuntime) -> Result<(), Fail> {
    let whole = report_of(rt.alloc(), 2, &[NOTHING], 3)?;
    for &(thing, said) in &UNREPORTED {
        let things = [(STREAM, Text("")), (NEXT, thing)];
        let setup = Setup::of(&[ADDS]).with(&things);
        assert_unwritten(&rt, IN_ROUNDS, setup, whole.as_str(), said)?;
    }
    Ok(())
}
