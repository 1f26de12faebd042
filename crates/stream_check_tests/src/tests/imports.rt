//! Imports that are checked over the map of one thread.
ghost use Rattle.std.specs.Prelude.{IfOk};
ghost use Rattle.checker_support.specs.Opened.{IsPlainOpened};

use super::two_streams::are_judged;
use super::{NO_CALLS, ONE_STREAM, feed_cut, have_reports, same, shown};
use checker_support::{checker_at, open_formula};
use lrup_model::{Formula, Layout, PlainMap};
use std::alloc::{AllocError, Global};
use std::test::Fail;
use test_support::lit;

static GOOD_IMPORTS: &[&str] = &[
    "1 i 2 1 0\n => 0 added, 0 deleted, ended; fetches 1",
    "room=0: 1 i 1 2 0\n4 i -1 -2 0\n => 0 added, 0 deleted, ended; fetches 2",
    "2 i -1 2 0\n2 i 2 -1 -1 2 0\n => 0 added, 0 deleted, ended; fetches 2",
    "1 i 1 2 0\n5 2 0 1 2 0\n3 i 1 -2 0\n6 0 5 3 4 0\n \
     => 2 added, 0 deleted, ended, empty, within; fetches 7",
    "1 i 1 2 0\n1 d 1 0\n2 i 2 -1 0\n => 0 added, 1 deleted, ended; fetches 2",
];

#[test]
fn a_good_import_changes_nothing(rt: HostRuntime) -> Result<(), Fail> {
    have_reports(&rt, rt.alloc(), ONE_STREAM, GOOD_IMPORTS)
}

static OTHER_CLAUSES: &[&str] = &[
    "1 i 2 0\n => 0 added, 0 deleted, bad line 1 (differs 1); fetches 1",
    "1 i 1 0\n => 0 added, 0 deleted, bad line 1 (differs 1); fetches 1",
    "1 i 0\n => 0 added, 0 deleted, bad line 1 (differs 1); fetches 1",
    "1 i 1 1 0\n => 0 added, 0 deleted, bad line 1 (differs 1); fetches 1",
    "1 i 1 -2 0\n => 0 added, 0 deleted, bad line 1 (differs 1); fetches 1",
    "1 i -1 -2 0\n => 0 added, 0 deleted, bad line 1 (differs 1); fetches 1",
    "1 i 1 2 -1 0\n => 0 added, 0 deleted, bad line 1 (differs 1); fetches 1",
    "1 i 1 -1 0\n => 0 added, 0 deleted, bad line 1 (differs 1); fetches 1",
    "1 i 1 2 0\n2 i -1 2 0\n1 i 1 -2 0\n => 0 added, 0 deleted, bad line 3 (differs 1); fetches 3",
];

#[test]
fn another_clause_differs(rt: HostRuntime) -> Result<(), Fail> {
    have_reports(&rt, rt.alloc(), ONE_STREAM, OTHER_CLAUSES)
}

/// The tests, in order: identity, literal, dropped, missing. The first that fails gives the fault.
static BAD_IMPORTS: &[&str] = &[
    "5 i 2 0\n => 0 added, 0 deleted, bad line 1 (identity); fetches 0",
    "5 i 3 0\n => 0 added, 0 deleted, bad line 1 (identity); fetches 0",
    "65540 i 2 0\n => 0 added, 0 deleted, bad line 1 (identity); fetches 0",
    "65541 i 2 0\n => 0 added, 0 deleted, bad line 1 (identity); fetches 0",
    "streams=2: 7 i 2 0\n => 0 added, 0 deleted, bad line 1 (identity); fetches 0",
    "5 2 0 1 2 0\n5 i 2 0\n => 1 added, 0 deleted, bad line 2 (identity); fetches 2",
    "1 i 3 0\n => 0 added, 0 deleted, bad line 1 (literal); fetches 0",
    "streams=2: 6 i -3 0\n => 0 added, 0 deleted, bad line 1 (literal); fetches 0",
    "streams=2: 5 d 6 0\n6 i 3 0\n => 0 added, 1 deleted, bad line 2 (literal); fetches 0",
    "streams=2: 5 d 6 0\n6 i 2 0\n => 0 added, 1 deleted, bad line 2 (dropped 6); fetches 0",
    "5 d 1 0\n1 i 1 2 0\n => 0 added, 1 deleted, bad line 2 (dropped 1); fetches 0",
    "5 d 1 0\n1 i 1 0\n => 0 added, 1 deleted, bad line 2 (dropped 1); fetches 0",
];

#[test]
fn imports_are_tested_in_order(rt: HostRuntime) -> Result<(), Fail> {
    have_reports(&rt, rt.alloc(), ONE_STREAM, BAD_IMPORTS)
}

static VACANT_IMPORTS: &[&str] = &[
    "streams=2 tries=0: 6 i -2 0\n => 0 added, 0 deleted, bad line 1 (missing 6); fetches 1",
    "streams=2 tries=1: 6 i -2 0\n \
     => 0 added, 0 deleted, bad line 1 (missing 6); fetches 2, attempts 2",
    "streams=2 tries=3: 6 i -2 0\n \
     => 0 added, 0 deleted, bad line 1 (missing 6); fetches 4, attempts 4",
    "streams=2 published=3: 6 i -2 0\n => 0 added, 0 deleted, ended; fetches 3, attempts 3",
];

#[test]
fn a_vacant_import_is_fetched_again(rt: HostRuntime) -> Result<(), Fail> {
    have_reports(&rt, rt.alloc(), ONE_STREAM, VACANT_IMPORTS)
}

/// Stream 2 publishes `-2` under 6, and stream 1 imports it.
static FOREIGN: &[&str] = &[
    "2 6 -2 0 3 4 0\n|1 6 i -2 0\n => \
     0 added, 0 deleted, ended; fetches 1 | 1 added, 0 deleted, ended; fetches 2",
    "2 6 -2 0 3 4 0\n|1 6 i -2 -2 0\n => \
     0 added, 0 deleted, ended; fetches 1 | 1 added, 0 deleted, ended; fetches 2",
    "2 6 -2 0 3 4 0\n|1 6 i 2 0\n => \
     0 added, 0 deleted, bad line 1 (differs 6); fetches 1 | 1 added, 0 deleted, ended; fetches 2",
    "2 6 -2 0 3 4 0\n|1 6 i 0\n => \
     0 added, 0 deleted, bad line 1 (differs 6); fetches 1 | 1 added, 0 deleted, ended; fetches 2",
    "2 6 -2 0 3 4 0\n|1 6 i -2 1 0\n => \
     0 added, 0 deleted, bad line 1 (differs 6); fetches 1 | 1 added, 0 deleted, ended; fetches 2",
    "tries=0: 2 6 -2 0 3 4 0\n|1 8 i -2 0\n => \
     0 added, 0 deleted, bad line 1 (missing 8); fetches 1 | 1 added, 0 deleted, ended; fetches 2",
    // The importer may cite 6, and the owner of 6 may retire it.
    "2 6 -2 0 3 4 0\n|1 6 i -2 0\n5 2 0 1 2 0\n7 0 5 6 0\n => \
     2 added, 0 deleted, ended, empty, within; fetches 5 | 1 added, 0 deleted, ended; fetches 2",
    "2 6 -2 0 3 4 0\n|1 6 i -2 0\n|2 6 d 6 0\n|1 6 i -2 0\n => \
     0 added, 0 deleted, bad line 2 (retired 6); fetches 2 | 1 added, 1 deleted, ended; fetches 2",
];

#[test]
fn a_foreign_clause_is_compared(rt: HostRuntime) -> Result<(), Fail> {
    are_judged(&rt, rt.alloc(), FOREIGN)
}

/// A formula of two clauses: clause 1 is a tautology, and clause 2 is empty.
fn odd_formula(alloc: Global) -> Result<Formula, AllocError> {
    let mut formula = Formula::new(alloc, 1);
    formula.push(&[lit(1), lit(-1)])?;
    formula.push(&[])?;
    Ok(formula)
}

/// The map of that formula.
fn open_odd(alloc: Global) -> Result<PlainMap, Fail>
    ensures { IfOk result IsPlainOpened }
{
    let formula = odd_formula(alloc)?;
    let layout = Layout::new(1, 2, 2, 1, 9, 9)?;
    open_formula(alloc, &formula, &layout)
}

/// The report of a stream over that formula.
fn judged_odd(alloc: Global, lines: &str) -> Result<String, Fail> {
    let mut map = open_odd(alloc)?;
    let mut checker = checker_at(alloc, &map, 1, 0)?;
    let mut gate = NO_CALLS;
    feed_cut(
        &mut checker,
        &mut map.desk(1),
        &mut gate,
        lines.as_bytes(),
        4,
    );
    Ok(shown(alloc, checker.report(), gate, 0)?)
}

static ODD_IMPORTS: &[(&str, &str)] = &[
    ("1 i 1 -1 0\n", "ended; fetches 1"),
    ("1 i -1 1 -1 0\n2 i 0\n", "ended; fetches 2"),
    ("1 i 1 0\n", "bad line 1 (differs 1); fetches 1"),
    ("1 i 0\n", "bad line 1 (differs 1); fetches 1"),
    ("2 i 1 0\n", "bad line 1 (differs 2); fetches 1"),
    ("2 i 1 -1 0\n", "bad line 1 (differs 2); fetches 1"),
];

#[test]
fn tautologies_and_empty_clauses_are_imported(rt: HostRuntime) -> Result<(), Fail> {
    for &(lines, said) in ODD_IMPORTS {
        let found = judged_odd(rt.alloc(), lines)?;
        let ending = found.strip_prefix("0 added, 0 deleted, ");
        same(&rt, (lines, ending), (lines, Some(said)));
    }
    Ok(())
}

/// How many times an import of clause 1 repeats `1`, what comes last, and the report's ending.
static LONG_IMPORTS: &[(usize, &str, &str)] = &[
    (65_534, " -1 0\n", "ended; fetches 1"),
    (65_534, " 1 0\n", "bad line 1 (differs 1); fetches 1"),
    (65_535, " -1 0\n", "bad line 1 (too long); fetches 0"),
];

/// Imports with the largest number of literals that a line may have, and with one more.
#[test]
fn long_imports_are_compared(rt: HostRuntime) -> Result<(), Fail> {
    for &(count, last, said) in LONG_IMPORTS {
        let literals = " 1".repeat(rt.alloc(), count)?;
        let lines = format!(in rt.alloc(); "1 i{literals}{last}")?;
        let found = judged_odd(rt.alloc(), &lines)?;
        let ending = found.strip_prefix("0 added, 0 deleted, ");
        same(&rt, (count, ending), (count, Some(said)));
    }
    Ok(())
}
