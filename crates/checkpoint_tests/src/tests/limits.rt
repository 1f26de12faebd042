//! Formulas at the limits, and with one clause too many.
ghost use Rattle.std.specs.Prelude.{◌≡◌, false};
ghost use Rattle.lrup_model.specs.Layout.{IsStream};

use super::{same, saves};
use checkpoint::{SaveFault, save_clips};
use dimacs::parse;
use lrup_model::{ClauseMap, Fetched, Formula, Layout, PlainMap};
use std::alloc::{AllocError, Global};
use std::fmt::Write;
use std::test::Fail;
use test_support::Paper;

/// Saves `count` copies of the formula's first clause.
fn save_copies<M: ClauseMap>(
    alloc: Global,
    desk: &mut M,
    layout: &Layout,
    count: usize,
    paper: &mut Paper,
) -> Result<Result<(), SaveFault>, Fail>
    requires layout { layout.now ≡ (M.caller_view desk.old).caller.layout }
    requires running { paper.old.failed ≡ false }
{
    if !desk.covers(1) {
        return Err("no identity".into());
    }
    let Fetched::Live(clip) = desk.fetch(1) else {
        return Err("no clause".into());
    };
    let copies = vec![in alloc; clip; count]?;
    Ok(save_clips(alloc, desk, &copies, layout.vars(), false, paper).map(|_| ()))
}

/// Does what `save_copies` does, through the desk of stream 1.
fn save_copies_at_first(
    alloc: Global,
    map: &mut PlainMap,
    layout: &Layout,
    count: usize,
    paper: &mut Paper,
) -> Result<Result<(), SaveFault>, Fail>
    requires layout { layout.now ≡ map.old.layout }
    requires stream { IsStream layout.now 1 }
    requires running { paper.old.failed ≡ false }
{
    save_copies(alloc, &mut map.desk(1), layout, count, paper)
}

/// Saves copies of a formula's only clause; the first write fails. Returns the result, and the
/// numbers of writes and of bytes.
fn save_one_clause(
    alloc: Global,
    count: usize,
) -> Result<(Result<(), SaveFault>, usize, usize), Fail> {
    let formula = parse(alloc, b"p cnf 1 1\n1 0\n")?;
    let layout = Layout::new(1, 1, 1, 1, 0, 0)?;
    if !layout.fits(&formula) {
        return Err("no layout".into());
    }
    let mut map = PlainMap::open(alloc, &formula, &layout)?;
    let _ = layout.streams();
    let mut paper = Paper::new(alloc, 1_000, 1);
    let saved = save_copies_at_first(alloc, &mut map, &layout, count, &mut paper)?;
    Ok((saved, paper.writes, paper.bytes.len()))
}

/// With the maximum number of clauses, `save_clips` gets to the first write, which fails here; with
/// one clause more, it doesn't get that far.
#[test]
fn clauses_have_a_limit(rt: HostRuntime) -> Result<(), Fail> {
    let most = Formula::MAX_CLAUSES as usize;
    let found = save_one_clause(rt.alloc(), most)?;
    same(&rt, found, (Err(SaveFault::Unwritten), 1, 0));
    let found = save_one_clause(rt.alloc(), most + 1)?;
    same(&rt, found, (Err(SaveFault::TooLarge), 0, 0));
    Ok(())
}

/// A clause with the maximum number of literals that a formula allows.
fn longest_clause(alloc: Global) -> Result<String, AllocError> {
    let mut text = String::from_str(alloc, "p cnf 1048575 1\n")?;
    for variable in 1..=Formula::MAX_CLAUSE_LITERALS {
        write!(text, "{variable} ")?;
    }
    text.push_str("0\n")?;
    Ok(text)
}

#[test]
fn the_longest_clause_is_saved(rt: HostRuntime) -> Result<(), Fail> {
    let text = longest_clause(rt.alloc())?;
    let formula = parse(rt.alloc(), text.as_bytes())?;
    saves(&rt, &formula, usize::MAX, 0, Ok(()), text.as_bytes())
}
