//! A pass that meets all others in turn, and then all again, brings all passes to one history.
ghost use Rattle.std.specs.Prelude.{◌≡◌, ◌∷◌, []};
ghost use Rattle.std.specs.List.{AllByRecursion};
ghost use Rattle.lrup_model.specs.Pass.{IsFair, SyncInTurn};
ghost use Rattle.clause_store.specs.Passes.{store_of, AreOf, ShareHistory, views};
ghost use Rattle.clause_store_tests.specs.Worked.{IsPassAt, ArePassesAt, raced};

use super::{Found, finds_raced, open_race, publish_raced, same};
use clause_store::laws::{meeting_keeps, sync_twice};
use clause_store::{Pass, Store};
use lrup_model::Published;
use std::process::Abort;
use std::test::Fail;

/// The first pass meets both others in turn.
fn meet_both(store: &Store, first: &mut Pass, second: &mut Pass, third: &mut Pass)
    requires { AreOf store.now (first.old ∷ second.old ∷ third.old ∷ []) }
    ensures of { AreOf store.now (first.new ∷ second.new ∷ third.new ∷ []) }
    ensures turns { SyncInTurn first.old.view (views (second.old ∷ third.old ∷ []))
        first.new.view (views (second.new ∷ third.new ∷ [])) }
{
    store.meet(first, second);
    store.meet(first, third);
}

/// The first pass meets both others twice. By the contract of `meet` and the laws, all three have
/// then seen the same history, and the others are fair.
fn meet_both_twice(store: &Store, first: &mut Pass, second: &mut Pass, third: &mut Pass)
    requires { AreOf store.now (first.old ∷ second.old ∷ third.old ∷ []) }
    ensures of { AreOf store.now (first.new ∷ second.new ∷ third.new ∷ []) }
    ensures one { ShareHistory (views (first.new ∷ second.new ∷ third.new ∷ [])) }
    ensures fair { AllByRecursion IsFair (views (second.new ∷ third.new ∷ [])) }
{
    sync_twice();
    meeting_keeps();
    meet_both(store, first, second, third);
    meet_both(store, first, second, third);
}

/// The pass finds the clauses of all three streams.
fn finds_three<R: Abort>(rt: &R, store: &Store, pass: &mut Pass)
    requires { store_of pass.old ≡ store.now }
{
    same(rt, finds_raced(store, pass, 2), Some(Found::Live));
    same(rt, finds_raced(store, pass, 3), Some(Found::Live));
    same(rt, finds_raced(store, pass, 4), Some(Found::Live));
}

/// Each of three streams publishes a clause.
fn publish_three<R: Abort>(
    rt: &R,
    store: &Store,
    first: &mut Pass,
    second: &mut Pass,
    third: &mut Pass,
)
    requires { ArePassesAt raced store.now (first.old ∷ second.old ∷ third.old ∷ []) }
    ensures { AreOf store.now (first.new ∷ second.new ∷ third.new ∷ []) }
{
    same(rt, publish_raced(store, first, 2), Some(Published::Done));
    same(rt, publish_raced(store, second, 3), Some(Published::Done));
    same(rt, publish_raced(store, third, 4), Some(Published::Done));
}

/// Three streams publish, and the first meets both others twice. Each then finds all three clauses.
fn meet_as_three<R: Abort>(rt: &R, store: &Store, passes: &mut [Pass]) -> Result<(), Fail>
    requires { ArePassesAt raced store.now passes.old }
{
    let [first, second, third] = passes else {
        return Err("not three passes".into());
    };
    publish_three(rt, store, first, second, third);
    meet_both_twice(store, first, second, third);
    finds_three(rt, store, first);
    finds_three(rt, store, second);
    finds_three(rt, store, third);
    Ok(())
}

#[test]
fn three_passes_meet_twice(rt: HostRuntime) -> Result<(), Fail> {
    let (store, mut passes) = open_race(rt.alloc(), 3, 1, 2)?;
    meet_as_three(&rt, &store, passes.as_mut_slice())
}
