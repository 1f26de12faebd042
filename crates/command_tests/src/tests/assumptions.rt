//! Runs under assumed literals: worked examples, a text for each fault, and when the file is read.
use super::shelf::Thing::{self, Failing, Text};
use super::*;

/// 1 2 0 / -1 2 0
pub const TWO: &str = "p cnf 2 2\n1 2 0\n-1 2 0\n";

/// The two clauses, and a stream that derives 2.
const UNIT: Setup = Setup {
    formula: TWO,
    streams: &["3 2 0 1 2 0\n"],
    ..SETUP
};

/// The assumed literals, and the status.
static ASSUMED: [(&str, u8); 2] = [("-2 0\n", 8), ("2 0\n", 3)];

#[test]
fn worked_rows_under_assumptions(rt: HostRuntime) -> Result<(), Fail> {
    for &(assumed, status) in &ASSUMED {
        let setup = Setup { assumed, ..UNIT };
        assert_reports(&rt, "--assume a f 1", setup, &[ONE_ADDED], status)?;
    }
    Ok(())
}

/// Texts that are refused, and why.
static REFUSED: [(&str, &str); 4] = [
    ("3 0\n", "variable out of range"),
    ("-2 0", "spelling"),
    ("+2 0\n", "spelling"),
    ("1000000000000000000 0\n", "too long"),
];

/// If the assumptions are refused, no stream is opened.
#[test]
fn assumptions_that_are_refused(rt: HostRuntime) -> Result<(), Fail> {
    for &(assumed, fault) in &REFUSED {
        let cause = format!(in rt.alloc(); "assumptions refused: {fault}")?;
        let setup = Setup { assumed, ..UNIT };
        assert_refused(&rt, "--assume a f no", setup, (4, cause.as_str()), "f a ")?;
    }
    Ok(())
}

const UNREAD: (u8, &str) = (5, "cannot read assumptions");

/// The file at `a`, the words, the status and the cause, and what was opened.
static IN_ORDER: [(Thing, &str, (u8, &str), &str); 4] = [
    (Text(""), "--assume no f 1", UNREAD, "f no "),
    (Failing("-2 0\n", 1), "--assume a f 1", UNREAD, "f a "),
    (Failing("-2 0\n", 2), "--assume a f 1", UNREAD, "f a "),
    (
        Text("-2 0\n"),
        "--assume a f no",
        (5, "cannot open stream 1"),
        "f a no ",
    ),
];

/// The file is read after the formula is parsed, and before any stream is opened.
#[test]
fn assumptions_are_read_between_formula_and_streams(rt: HostRuntime) -> Result<(), Fail> {
    for &(thing, words, wanted, opened) in &IN_ORDER {
        assert_refused(&rt, words, UNIT.with(&[("a", thing)]), wanted, opened)?;
    }
    let setup = Setup {
        formula: "p cnf 1\n",
        ..SETUP
    };
    let wanted = (4, "formula refused: bad header");
    assert_refused(&rt, "--assume no f no", setup, wanted, "f ")
}
