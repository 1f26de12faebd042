//! Worked examples: the words, the formula and the streams, and the report and status of their run.
use super::*;
use test_support::Sleeps;

/// A stream over the four clauses, its good additions and deletions, its bad line, and the reason.
type Bad = (&'static str, u64, u64, u64, &'static str);

fn assert_bad(rt: &impl Host, words: &str, bad: Bad, status: u8) -> Result<(), Fail> {
    let (stream, added, deleted, line, reason) = bad;
    let said = format!(in rt.alloc();
        "{added} added, {deleted} deleted, bad line {line} ({reason})"
    )?;
    assert_reports(rt, words, Setup::of(&[stream]), &[said.as_str()], status)
}

/// Streams that have too few identities, or too little room.
static SCARCE: [(&str, Bad); 2] = [
    ("--lines 1 f 1", (REFUTES, 1, 0, 2, "identity")),
    ("--room 0 f 1", (ADDS, 0, 0, 1, "no room")),
];

#[test]
fn bad_lines(rt: HostRuntime) -> Result<(), Fail> {
    for &(words, bad) in &SCARCE {
        assert_bad(&rt, words, bad, 3)?;
    }
    // A bad line after the empty clause.
    let after = "5 2 0 1 2 0\n6 0 5 3 4 0\n7 2 0 1 0\n";
    assert_bad(&rt, "f 1", (after, 2, 0, 3, "no conflict"), 0)
}

/// The words, the formula, the streams, their lines in the report, and the status.
static ENDED: [(&str, &str, &[&str], &[&str], u8); 4] = [
    ("f 1", FOUR, &[REFUTES], &[TWO_ADDED], 0),
    ("f 1", "p cnf 0 1\n0\n", &["2 0 1 0\n"], &[ONE_ADDED], 0),
    ("f 1", "p cnf 0 0\n", &[""], &[NOTHING], 3),
    (
        "f 1 2",
        FOUR,
        &["5 2 0 1 2 0\n7 0 5 6 0\n", "6 -2 0 3 4 0\n"],
        &[TWO_ADDED, ONE_ADDED],
        0,
    ),
];

/// Files come in pieces of one byte, in pieces of two, and whole; every file fits into one read.
#[test]
fn reports_and_verdicts(rt: HostRuntime) -> Result<(), Fail> {
    for &(words, formula, streams, said, status) in &ENDED {
        for most in [1, 2, usize::MAX] {
            let setup = Setup {
                formula,
                most,
                ..Setup::of(streams)
            };
            assert_reports(&rt, words, setup, said, status)?;
        }
    }
    Ok(())
}

const MISSING: &str = "0 added, 0 deleted, bad line 1 (missing 6)";

const TWO_IN_STREAM_2: &str = "6 -2 0 3 4 0\n8 2 0 1 2 0\n";

/// Stream 1 cites clauses of stream 2. With two threads per stream, it waits for them; on one
/// thread, its first line is checked before they are published, no matter how often it looks.
static CITED_EARLY: [(&str, &str, &[&str], &[&str], u8); 3] = [
    (
        "--tries=1000000",
        "f 1 2",
        &["5 0 6 8 0\n", TWO_IN_STREAM_2],
        &[ONE_ADDED, TWO_ADDED],
        0,
    ),
    (
        "--serial",
        "--tries 5 f 1 2",
        &["5 0 6 8 0\n", TWO_IN_STREAM_2],
        &[MISSING, TWO_ADDED],
        3,
    ),
    (
        "--serial",
        "--tries 0 f 1 2",
        &["5 0 6 0\n", "6 -2 0 3 4 0\n"],
        &[MISSING, ONE_ADDED],
        3,
    ),
];

#[test]
fn serial_alone_is_on_one_thread(rt: HostRuntime) -> Result<(), Fail> {
    for &(way, words, streams, said, status) in &CITED_EARLY {
        let out = report(rt.alloc(), said, status)?;
        let words = words_after(rt.alloc(), way, words)?;
        let ran = run(&rt, &rt, &words, Setup::of(streams));
        same(&rt, (said, ran.ends()), (said, (status, out.as_str(), "")));
    }
    Ok(())
}

const NOT_ITS_OWN: &str = "0 added, 0 deleted, bad line 1 (identity)";

/// The words, stream 1, the lines in the report, and what is opened.
static OPENED: [(&str, &str, &[&str], &str); 3] = [
    ("f 1 2", ADDS, &[ONE_ADDED, NOTHING], "f 1 2 "),
    ("f 1 1", ADDS, &[ONE_ADDED, NOT_ITS_OWN], "f 1 1 "),
    ("--assume 1 f 1", "0\n", &[MISSPELLED], "f 1 1 "),
];

/// Each word opens its file, and the formula's file is opened once. A file that two words name
/// serves as two streams, each of which reads all of it.
#[test]
fn each_word_opens_its_file(rt: HostRuntime) -> Result<(), Fail> {
    for &(words, stream, said, opened) in &OPENED {
        let out = report(rt.alloc(), said, 3)?;
        let streams = [stream, ""];
        let setup = Setup::of(&streams);
        assert_leaves(&rt, words, setup, (3, out.as_str(), ""), (opened, "", 0))?;
    }
    Ok(())
}

static SLEEPS: [(&str, u64); 3] = [("--tries=0", 0), ("--tries=3", 3), ("--tries=17", 17)];

/// A hint whose clause never comes is looked up again as many times as `--tries` says, each time a
/// microsecond later.
#[test]
fn tries_are_those_of_the_words(rt: HostRuntime) {
    for &(tries, sleeps) in &SLEEPS {
        let clock = Sleeps::new();
        let setup = Setup::of(&["5 0 6 0\n", ""]);
        let ran = run(&rt, &clock, &[tries, "f", "1", "2"], setup);
        let found = (tries, ran.status, clock.counts());
        same(&rt, found, (tries, 3, (sleeps, 0)));
    }
}
