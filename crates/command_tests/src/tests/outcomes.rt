//! Runs about which `outcomes` says what follows from the laws: none of them ends with an excuse.
use super::assumptions::TWO;
use super::*;
use crate::exact_files::Closing::Discarded;
use crate::exact_files::ExactFiles;
use crate::outcomes::{refute_in_two_runs, refute_under_in_two_runs, run_two_rounds};

/// Derives the empty clause from the clauses of `ALL`.
const ENDS: &str = "6 0 5 3 4 0\n";

#[test]
fn the_second_round_refutes(rt: HostRuntime) {
    let mut files = ExactFiles::new(rt.alloc(), FOUR, ADDS, Some(ENDS), false, 0);
    same(&rt, run_two_rounds(&rt, rt.alloc(), &mut files), 0);
    let (path, bytes, closing) = files.last();
    let found = (path, text_of(bytes), closing);
    same(&rt, found, ("dir/round-3.cnf", "", Discarded));
}

#[test]
fn the_second_run_refutes(rt: HostRuntime) {
    let refutes = refute_in_two_runs(&rt, rt.alloc(), FOUR, ADDS, ENDS);
    same(&rt, refutes, true);
    let refutes = refute_in_two_runs(&rt, rt.alloc(), FOUR, "", ENDS);
    same(&rt, refutes, false);
}

/// Adds the unit clause 2 to the clauses of `TWO`.
const DERIVES: &str = "3 2 0 1 2 0\n";
/// Adds the unit clause 2 once more, from what the first run added.
const REPEATS: &str = "4 2 0 3 0\n";

/// The assumed literals, and whether the second run ends with 8.
static UNDER: [(&str, bool); 2] = [("-2 0\n", true), ("2 0\n", false)];

#[test]
fn the_second_run_refutes_under_assumptions(rt: HostRuntime) {
    for &(assumed, wanted) in &UNDER {
        let refutes = refute_under_in_two_runs(&rt, rt.alloc(), TWO, DERIVES, REPEATS, assumed);
        same(&rt, (assumed, refutes), (assumed, wanted));
    }
}

const OTHER: &str = "dir/round-2.stream-1";

const TRUNCATED: &str = "0 added, 0 deleted, bad line 1 (truncated)";

/// The words, the stream at `OTHER`, and the report. Streams at other paths have `ADDS`.
static ROWS: [(&[&str], &str, &[&str]); 4] = [
    (&["--serial", "f", "s1"], "", &[ONE_ADDED]),
    (&["g", "s2", "--serial"], "", &[ONE_ADDED]),
    (&["f", "s1", OTHER], "6 d 1 0\n", &[ONE_ADDED, ONE_DELETED]),
    (
        &["--serial", "g", "s2", OTHER],
        "1 2",
        &[ONE_ADDED, TRUNCATED],
    ),
];

#[test]
fn reports_agree(rt: HostRuntime) -> Result<(), Fail> {
    for &(words, other, said) in &ROWS {
        let mut files = ExactFiles::new(rt.alloc(), FOUR, ADDS, Some(other), false, 0);
        let mut out = Paper::new(rt.alloc(), 7, 0);
        let mut err = Paper::new(rt.alloc(), 7, 0);
        let status = command(&rt, &rt, rt.alloc(), words, &mut files, &mut out, &mut err);
        let found = (words, status, text_of(&out.bytes), text_of(&err.bytes));
        let wanted = report(rt.alloc(), said, 3)?;
        same(&rt, found, (words, 3, wanted.as_str(), ""));
    }
    Ok(())
}
