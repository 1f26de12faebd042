//! Runs that save their clauses, with `--checkpoint` and as round 1 of `--rounds`: which files are
//! created, written, kept and discarded, and the message if saving fails.
use super::shelf::Thing::{self, Breaking, Failing, Full, Lost, Text};
use super::*;

/// Where the clauses are saved: at the path of a checkpoint, or as the formula of round 2.
const NEW: &str = "d/round-2.cnf";

/// What a run of one stream does to the files.
const DONE_KEPT: &str = "f 1 +d/round-2.cnf =d/round-2.cnf ";

const DONE_DISCARDED: &str = "f 1 +d/round-2.cnf -d/round-2.cnf ";
/// What the run does after that, if there is no next round.
const LOOKED_FOR: &str = "?d/round-2.sizes ?d/round-2.stream-1 ";

/// Checks, with either option that saves, how a run of these words ends, and what it does to the
/// files. If `goes_on`, the run in rounds looks for the next round's files.
fn assert_saves(
    rt: &impl Host,
    words: &str,
    setup: Setup,
    wanted: Ends,
    left: Left,
    goes_on: bool,
) -> Result<(), Fail> {
    let (done, kept, unkept) = left;
    let to_file = format!(in rt.alloc(); "--checkpoint {NEW} {words}")?;
    assert_leaves(rt, to_file.as_str(), setup, wanted, left)?;
    let looked_for = if goes_on { LOOKED_FOR } else { "" };
    let done = format!(in rt.alloc(); "{done}{looked_for}")?;
    let in_rounds = format!(in rt.alloc(); "--rounds d {words}")?;
    let left = (done.as_str(), kept, unkept);
    assert_leaves(rt, in_rounds.as_str(), setup, wanted, left)
}

const DELETES: &str = "6 d 1 0\n";

const BAD: &str = "6 6\n";

const DROPPED: &str = "1 added, 1 deleted, ended";

/// The words, which name the files in the order in which they are opened; the streams, their lines
/// in the report, the status, and the saved text.
type Saved = (
    &'static str,
    &'static [&'static str],
    &'static [&'static str],
    u8,
    &'static str,
);

fn assert_saved(rt: &impl Host, row: &Saved, goes_on: bool) -> Result<(), Fail> {
    let &(words, streams, said, status, kept) = row;
    let out = report(rt.alloc(), said, status)?;
    let opened = words.replace(rt.alloc(), "--assume=", "")?;
    let closed = if status == 0 { '-' } else { '=' };
    let done = format!(in rt.alloc(); "{opened} +{NEW} {closed}{NEW} ")?;
    // Round 2 has a stream exactly if the run must not get that far.
    let next: &[(&str, Thing)] = &[("d/round-2.stream-1", Text(""))];
    let setup = Setup::of(streams).with(if goes_on { &[] } else { next });
    let ends = (status, out.as_str(), "");
    assert_saves(rt, words, setup, ends, (done.as_str(), kept, 0), goes_on)
}

static GOING_ON: [Saved; 3] = [
    ("f 1", &[DROPS], &[DROPPED], 3, LESS),
    ("f 1 2", &[DROPS, ""], &[DROPPED, NOTHING], 3, ALL),
    ("f 1 2", &[DROPS, DELETES], &[DROPPED, ONE_DELETED], 3, LESS),
];

/// Runs without a next round: the verdict isn't 'unknown', or a stream didn't end.
static LAST: [Saved; 5] = [
    ("f --assume=a 1", &[DROPS], &[DROPPED], 8, LESS),
    ("f 1", &[REFUTES], &[TWO_ADDED], 0, ""),
    ("f --assume=a 1", &[REFUTES], &[TWO_ADDED], 0, ""),
    (
        "f 1 2",
        &[BAD, "6 2 0 1 2 0\n8 0 6 3 4 0\n"],
        &[MISSPELLED, TWO_ADDED],
        0,
        "",
    ),
    ("f 1 2", &[ADDS, BAD], &[ONE_ADDED, MISSPELLED], 3, ALL),
];

#[test]
fn what_is_saved(rt: HostRuntime) -> Result<(), Fail> {
    for row in &GOING_ON {
        assert_saved(&rt, row, true)?;
    }
    for row in &LAST {
        assert_saved(&rt, row, false)?;
    }
    Ok(())
}

#[test]
fn a_stream_whose_reading_fails_is_not_gone_on_with(rt: HostRuntime) -> Result<(), Fail> {
    let out = report(
        rt.alloc(),
        &["0 added, 0 deleted, read failed at line 1"],
        3,
    )?;
    let setup = SETUP.with(&[("1", Failing(ADDS, 3)), ("d/round-2.stream-1", Text(""))]);
    let left = (DONE_KEPT, FOUR, 0);
    assert_saves(&rt, "f 1", setup, (3, out.as_str(), ""), left, false)
}

/// `assert_saves` for a stream that drops the first clause, with this thing at the new file's path,
/// and with failures of these writes to standard output and standard error.
fn assert_dropping(
    rt: &impl Host,
    thing: Thing,
    fails_at: (usize, usize),
    wanted: Ends,
    left: Left,
    goes_on: bool,
) -> Result<(), Fail> {
    let things = [(NEW, thing)];
    let (out, err) = fails_at;
    let setup = Setup::of(&[DROPS]).with(&things).failing(out, err);
    assert_saves(rt, "f 1", setup, wanted, left, goes_on)
}

const REPORT: &str = "c stream 1: 1 added, 1 deleted, ended\ns UNKNOWN\n";

const BOTH: &str = "lrupd: checkpoint not written\nlrupd: cannot write report\n";

const NOT_CREATED: Ends = (5, "", "lrupd: cannot create checkpoint\n");

const NO_MEMORY: Ends = (6, "", "lrupd: out of memory\n");

const UNREPORTED: Ends = (7, "", "lrupd: cannot write report\n");

const UNSAVED: Ends = (9, REPORT, "lrupd: checkpoint not written\n");

const CREATING: Left = ("f 1 +d/round-2.cnf ", "", 0);

const IS_KEPT: Left = (DONE_KEPT, LESS, 0);

const IS_LOST: Left = (DONE_KEPT, "", 64);

const IS_EMPTY: Left = (DONE_DISCARDED, "", 0);

/// What is at the new file's path, the writes that fail, how the run ends, and what it does to the
/// files.
static FAULTS: [(Thing, (usize, usize), Ends, Left); 6] = [
    (Text(""), (0, 0), NOT_CREATED, CREATING),
    (Full, (0, 0), NO_MEMORY, CREATING),
    (Lost, (0, 0), UNSAVED, IS_LOST),
    (Breaking(1), (1, 0), (7, "", BOTH), IS_EMPTY),
    // A write of the message about the checkpoint fails: nothing more is written to standard error,
    // and the status is the same.
    (Breaking(1), (0, 2), (9, REPORT, "lrupd: "), IS_EMPTY),
    (Breaking(1), (1, 2), (7, "", "lrupd: "), IS_EMPTY),
];

#[test]
fn checkpoints_that_are_not_saved(rt: HostRuntime) -> Result<(), Fail> {
    for &(thing, fails_at, wanted, left) in &FAULTS {
        assert_dropping(&rt, thing, fails_at, wanted, left, false)?;
    }
    // The checkpoint is saved even if the report can't be written.
    assert_dropping(&rt, Breaking(0), (1, 0), UNREPORTED, IS_KEPT, true)?;
    // No stream is checked if the row would be too long.
    let setup = Setup::of(&[DROPS]);
    let ends = (2, "", "lrupd: row too long\n");
    assert_saves(
        &rt,
        "--room=268435456 f 1",
        setup,
        ends,
        ("f 1 ", "", 0),
        false,
    )
}

/// Each write of the checkpoint fails in turn; what was written before that write is discarded.
#[test]
fn checkpoints_that_break_at_a_write(rt: HostRuntime) -> Result<(), Fail> {
    for write in 1..=LESS.len().div_ceil(7) {
        let left = (DONE_DISCARDED, "", (write - 1) * 7);
        assert_dropping(&rt, Breaking(write), (0, 0), UNSAVED, left, false)?;
    }
    Ok(())
}
