//! Runs without a report, and reports that can't be written.
use super::shelf::Thing::{Failing, Full};
use super::*;

const ONE_EMPTY: Setup = Setup {
    streams: &[""],
    ..SETUP
};

/// Formulas, and why they are refused.
static REFUSED: [(&str, &str); 8] = [
    ("", "no header"),
    ("p cnf 1\n", "bad header"),
    ("p cnf 1 1\n+1 0\n", "bad number in line 2"),
    ("p cnf 1 1\n2 0\n", "variable out of range in line 2"),
    ("p cnf 1 1\n1\n", "open clause"),
    ("p cnf 1 2\n1 0\n", "too few clauses"),
    ("p cnf 1 0\n0\n", "too many clauses in line 2"),
    ("p cnf 16777216 0\n", "limit"),
];

/// If the formula is refused, the stream isn't opened.
#[test]
fn formulas_that_are_refused(rt: HostRuntime) -> Result<(), Fail> {
    for &(formula, fault) in &REFUSED {
        let cause = format!(in rt.alloc(); "formula refused: {fault}")?;
        let setup = Setup { formula, ..SETUP };
        assert_refused(&rt, "f no", setup, (4, cause.as_str()), "f ")?;
    }
    Ok(())
}

/// The words, the status and the cause, and the paths that the program tried to open.
static NOT_BEGUN: [(&str, (u8, &str), &str); 6] = [
    ("no 1", (5, "cannot read formula"), "no "),
    ("no no", (5, "cannot read formula"), "no "),
    ("f no no", (5, "cannot open stream 1"), "f no "),
    ("f 1 no", (5, "cannot open stream 2"), "f 1 no "),
    ("--lines=268435456 f 1", (2, "row too long"), "f 1 "),
    ("--room=268435456 f 1", (2, "row too long"), "f 1 "),
];

#[test]
fn files_that_are_missing_and_rows_that_are_too_long(rt: HostRuntime) -> Result<(), Fail> {
    for &(words, wanted, opened) in &NOT_BEGUN {
        assert_refused(&rt, words, ONE_EMPTY, wanted, opened)?;
    }
    Ok(())
}

#[test]
fn sixty_five_streams(rt: HostRuntime) -> Result<(), Fail> {
    let words = format!(in rt.alloc(); "f{}", " 1".repeat(rt.alloc(), 65)?)?;
    let opened = format!(in rt.alloc(); "{words} ")?;
    assert_refused(
        &rt,
        words.as_str(),
        ONE_EMPTY,
        (2, "stream count"),
        opened.as_str(),
    )
}

/// Each read of the formula fails in turn, including the one that would find its end.
#[test]
fn a_formula_whose_reading_fails(rt: HostRuntime) -> Result<(), Fail> {
    for fails_at in 1..=FOUR.len().div_ceil(3) + 1 {
        let things = [("f", Failing(FOUR, fails_at))];
        let setup = ONE_EMPTY.with(&things);
        assert_refused(&rt, "f 1", setup, (5, "cannot read formula"), "f ")?;
    }
    Ok(())
}

/// The first stream's read fails after six bytes of its first line; the other stream is whole.
#[test]
fn a_stream_whose_reading_fails(rt: HostRuntime) -> Result<(), Fail> {
    let said = ["0 added, 0 deleted, read failed at line 1", ONE_ADDED];
    let setup = Setup::of(&["", "6 2 0 1 2 0\n"]).with(&[("1", Failing(ADDS, 3))]);
    assert_reports(&rt, "f 1 2", setup, &said, 3)
}

/// The path of the file whose opening runs out of memory, and the paths that the program tried to
/// open.
static FULL: [(&str, &str); 3] = [("f", "f "), ("a", "f a "), ("1", "f a 1 ")];

#[test]
fn memory_is_out_at_an_opening(rt: HostRuntime) -> Result<(), Fail> {
    for &(path, opened) in &FULL {
        let things = [(path, Full)];
        let setup = ONE_EMPTY.with(&things);
        assert_refused(&rt, "--assume a f 1", setup, (6, "out of memory"), opened)?;
    }
    Ok(())
}

/// Words that `clap` refuses, or that ask for help, and a part of `clap`'s message.
static USAGE: [(&[&str], &str); 5] = [
    (&[], "<FORMULA>"),
    (&["f"], "<STREAM>"),
    (&["--tries", "1000001", "f", "1"], "--tries"),
    (&["--fast", "f", "1"], "--fast"),
    (&["--help"], "Usage: lrupd [OPTIONS] <FORMULA> <STREAM>..."),
];

/// Whether the text contains this part and isn't a message of the program itself; and how many
/// times the text's first line occurs.
fn usage_of(text: &str, part: &str) -> (bool, usize) {
    let (first, _) = text.split_once('\n').unwrap_or(("", ""));
    let is_usage = text.contains(part) && !text.starts_with("lrupd: ");
    (is_usage, text.matches(first).count())
}

/// Checks that the message from `clap`, which contains this part, is printed unchanged and once,
/// and that no file is opened.
fn assert_usage(rt: &impl Host, words: &[&str], part: &str) {
    let ran = run(rt, rt, words, ONE_EMPTY);
    let (status, out, err) = ran.ends();
    let found = (status, out, ran.files.done.as_str(), usage_of(err, part));
    same(rt, (words, found), (words, (2, "", "", (true, 1))));
}

#[test]
fn words_with_a_fault(rt: HostRuntime) {
    for &(words, part) in &USAGE {
        assert_usage(&rt, words, part);
    }
}

#[test]
fn reports_that_are_not_written(rt: HostRuntime) -> Result<(), Fail> {
    let whole = report(rt.alloc(), &[NOTHING], 3)?;
    let said = "lrupd: cannot write report\n";
    assert_unwritten(&rt, "f 1", ONE_EMPTY, whole.as_str(), said)
}

/// The words, which write to standard output fails, and the status.
static UNSAID: [(&[&str], usize, u8); 3] = [
    (&["f"], 0, 2),
    (&["no", "1"], 0, 5),
    (&["f", "1"], 1, 7),
];

/// If a write to standard error fails, the status doesn't change. Each write before the failing one
/// takes seven bytes.
#[test]
fn faults_that_are_not_said(rt: HostRuntime) {
    for &(words, out_fails_at, status) in &UNSAID {
        for err_fails_at in 1..=3usize {
            let setup = ONE_EMPTY.failing(out_fails_at, err_fails_at);
            let ran = run(&rt, &rt, words, setup);
            let found = (words, ran.status, ran.out.len(), ran.err.len());
            same(&rt, found, (words, status, 0, (err_fails_at - 1) * 7));
        }
    }
}
