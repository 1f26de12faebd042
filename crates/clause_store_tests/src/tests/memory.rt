//! The calls of a store allocate nothing; and an opening that is refused memory can be repeated.
ghost use Rattle.std.specs.Prelude.{◌≡◌, IfOk};
ghost use Rattle.lrup_model.specs.Layout.{Fits};
ghost use Rattle.clause_store.specs.Passes.{store_of, AreOf};
ghost use Rattle.clause_store_tests.specs.Worked.{IsPassAt, ArePassesAt, raced};

use super::{Found, finds_raced, holds, look, open_race, publish_raced, retire, same};
use clause_store::{Pass, Store};
use lrup_model::{Fetched, Formula, Id, Layout, Published, Retired};
use std::alloc::{AllocError, Global};
use std::process::Abort;
use std::test::Fail;

/// Reads the first pair of a live clause, if it has literals.
fn has_pair(store: &Store, pass: &mut Pass, id: Id) -> bool
    requires { IsPassAt raced store.now pass.old }
    ensures { IsPassAt raced store.now pass.new }
{
    if !store.covers(id) {
        return false;
    }
    match store.fetch(pass, id) {
        Fetched::Live(clip) => {
            clip.len() == 0 || store.pair(pass, &clip, 0).1.is_some() == (clip.len() == 2)
        }
        _ => false,
    }
}

/// Makes each call once: the first pass publishes and retires, and the second finds and reads.
fn call_each<R: Abort>(rt: &R, store: &Store, first: &mut Pass, second: &mut Pass, id: Id)
    requires first { IsPassAt raced store.now first.old }
    requires second { IsPassAt raced store.now second.old }
    ensures first { IsPassAt raced store.now first.new }
    ensures second { IsPassAt raced store.now second.new }
{
    same(rt, look(store, second, id), Some(Found::Vacant));
    same(rt, publish_raced(store, first, id), Some(Published::Done));
    store.meet(first, second);
    same(rt, finds_raced(store, second, id), Some(Found::Live));
    holds(rt, has_pair(store, second, id));
    same(rt, retire(store, first, id), Some(Retired::Done));
    same(rt, publish_raced(store, first, id), Some(Published::Taken));
    same(rt, retire(store, first, id), Some(Retired::NotLive));
    store.meet(first, second);
    same(rt, look(store, second, id), Some(Found::Retired));
}

/// Makes the calls of `call_each` a thousand times.
fn call_often<R: Abort>(rt: &R, store: &Store, passes: &mut [Pass]) -> Result<(), Fail>
    requires { ArePassesAt raced store.now passes.old }
{
    let [first, second] = passes else {
        return Err("not two passes".into());
    };
    for line in 0..1_000 {
        call_each(rt, store, first, second, 2 * line + 2);
    }
    Ok(())
}

/// Opens a store, and makes the calls of `call_often`.
fn open_and_call<R: Abort>(rt: &R, alloc: Global) -> Result<(), Fail> {
    let (store, mut passes) = open_race(alloc, 2, 1_000, 2_000)?;
    call_often(rt, &store, passes.as_mut_slice())
}

/// No call of a pass allocates: the last allocation is the test's own, after all calls. `make
/// sweep` refuses that one, and expects this test to fail.
#[test]
fn the_last_allocation_comes_after_all_calls(rt: HostRuntime) -> Result<(), Fail> {
    open_and_call(&rt, rt.alloc())?;
    let _last: Vec<u8> = Vec::with_capacity(rt.alloc(), 1)?;
    Ok(())
}

/// Opens a store and its passes, and tries once more if memory is refused.
fn open_again(
    alloc: Global,
    formula: &Formula,
    layout: Layout,
) -> Result<(Store, Vec<Pass>), AllocError>
    requires { Fits layout formula.now }
    ensures { IfOk result (λ opened. AreOf opened.0 opened.1.items) }
{
    match Store::open(alloc, formula, layout) {
        Ok(opened) => Ok(opened),
        Err(_) => Store::open(alloc, formula, layout),
    }
}

/// `open_again` for a formula without clauses, and two streams with one identity each.
fn open_empty(alloc: Global) -> Result<(Store, Vec<Pass>), Fail>
    ensures { IfOk result (λ opened. AreOf opened.0 opened.1.items) }
{
    let formula = Formula::new(alloc, 2);
    let layout = Layout::new(2, 0, 0, 2, 1, 2)?;
    if !layout.fits(&formula) {
        return Err("no layout".into());
    }
    Ok(open_again(alloc, &formula, layout)?)
}

/// Checks that there are two passes, and that the second has published nothing.
fn is_new<R: Abort>(rt: &R, store: &Store, passes: &mut [Pass]) -> Result<(), Fail>
    requires { AreOf store.now passes.old }
{
    let [_, second] = passes else {
        return Err("not two passes".into());
    };
    let found = (
        look(store, second, 1),
        store.owns(second, 2),
        store.room(second),
    );
    same(rt, found, (Some(Found::Vacant), true, 2));
    Ok(())
}

/// `make sweep` refuses each allocation of this test in turn; the second opening then succeeds.
#[test]
fn a_refused_store_can_be_opened_again(rt: HostRuntime) -> Result<(), Fail> {
    let (store, mut passes) = open_empty(rt.alloc())?;
    is_new(&rt, &store, passes.as_mut_slice())
}

/// Opens a store of 16 million words, and drops it.
fn open_large<R: Abort>(rt: &R, alloc: Global) -> Result<(), Fail> {
    let (store, passes) = open_race(alloc, 1, 1, 16_000_000)?;
    holds(rt, store.covers(2) && passes.len() == 1);
    Ok(())
}

/// Calls `open_large` four times, one after the other. `make sweep` gives this test memory for one
/// and a half stores, so memory that isn't freed would be missing for the next store.
#[test]
fn a_large_store_is_given_back(rt: HostRuntime) -> Result<(), Fail> {
    for _ in 0..4 {
        open_large(&rt, rt.alloc())?;
    }
    Ok(())
}
