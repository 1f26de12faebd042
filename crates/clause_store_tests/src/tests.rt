//! Passes of one store, used in turn and on threads of their own.
ghost use Rattle.std.specs.Prelude.{◌≡◌, ◌-◌, ◌<◌, ◌≤◌, ◌∷◌, [], pos, neg_ℤ, IfOk, IfSome, IsTrue};
ghost use Rattle.lrup_model.specs.Event.{History};
ghost use Rattle.lrup_model.specs.History.{IsPublishable};
ghost use Rattle.lrup_model.specs.Layout.{IsStream};
ghost use Rattle.lrup_model.specs.Literal.{IsLiteral};
ghost use Rattle.lrup_model.specs.Plain.{formula_of};
ghost use Rattle.lrup_model.specs.Pass.{pass_caller_view};
ghost use Rattle.lrup_model.specs.CallerView.{IsKnown};
ghost use Rattle.test_support.specs.Worked.{four};
ghost use Rattle.lrup_model.specs.Formula.{Cnf};
ghost use Rattle.clause_store.specs.Passes.{StoreValue, store_of, AreOf};
ghost use Rattle.clause_store_tests.specs.Worked.{IsPassAt, ArePassesAt, raced};

use clause_store::{Desk, Pass, Store};
use lrup_model::{
    ClauseMap, Clip, Fetched, Formula, Id, Layout, Lit, PlainMap, Published, Retired,
};
use std::alloc::{AllocError, Global};
use std::fmt;
use std::process::Abort;
use std::test::Fail;
use std::thread::{Threads, join};
use test_support::{four_clauses, lit};

mod interleavings;
mod meeting;
mod memory;

/// Stops the test if two values differ. This is a function, so the assertion is proved only once.
fn same<T: PartialEq + fmt::Debug + Drop>(rt: &impl Abort, value: T, wanted: T) {
    assert_eq!(rt; value, wanted);
}

/// Stops the test if the fact is false.
fn holds(rt: &impl Abort, fact: bool)
    ensures { IsTrue fact }
{
    assert!(rt; fact);
}

/// A store of a formula, and its passes.
fn open(alloc: Global, formula: &Formula, layout: Layout) -> Result<(Store, Vec<Pass>), Fail>
    ensures { (f : Cnf) → formula.now ≡ f
        → IfOk result (λ opened. ArePassesAt f opened.0 opened.1.items) }
{
    if !layout.fits(formula) {
        return Err("no layout".into());
    }
    let (store, passes) = Store::open(alloc, formula, layout)?;
    Ok((store, passes))
}

/// The two passes of a store.
fn two_of(mut passes: Vec<Pass>) -> Result<(Pass, Pass), Fail>
    ensures { (f : Cnf) (store : StoreValue) → ArePassesAt f store passes.items
        → IfOk result (λ two. ArePassesAt f store (two.0 ∷ two.1 ∷ [])) }
{
    let second = passes.pop().ok_or("no pass")?;
    let first = passes.pop().ok_or("one pass")?;
    Ok((first, second))
}

/// A store of the four clauses for two streams with this many identities and this much room each,
/// and the streams' passes.
fn open_two(alloc: Global, identities: u64, room: u64) -> Result<(Store, Pass, Pass), Fail>
    ensures { IfOk result (λ opened. ArePassesAt four opened.0 (opened.1 ∷ opened.2 ∷ [])) }
{
    let layout = Layout::new(2, 4, 8, 2, identities, room)?;
    let formula = four_clauses(alloc)?;
    let (store, passes) = open(alloc, &formula, layout)?;
    let (first, second) = two_of(passes)?;
    Ok((store, first, second))
}

/// What a fetch found.
#[derive(Clone, Copy, Debug, PartialEq, Eq)]
enum Found {
    Vacant,
    Live,
    Retired,
    /// Live, with the wrong literals.
    Wrong,
}

/// What the store has under an identity.
fn look(store: &Store, pass: &mut Pass, id: Id) -> Option<Found>
    requires { store_of pass.old ≡ store.now }
    ensures store { store_of pass.new ≡ store.now }
    ensures caller { pass.new.view.caller ≡ pass.old.view.caller }
{
    if !store.covers(id) {
        return None;
    }
    Some(match store.fetch(pass, id) {
        Fetched::Vacant => Found::Vacant,
        Fetched::Live(_) => Found::Live,
        Fetched::Retired => Found::Retired,
    })
}

/// The clip of a live clause.
fn live(store: &Store, pass: &mut Pass, id: Id) -> Option<Clip>
    requires { IsPassAt four store.now pass.old }
    ensures at { IsPassAt four store.now pass.new }
    ensures known { IfSome result (λ clip. IsKnown (pass_caller_view pass.new.view) clip) }
{
    if !store.covers(id) {
        return None;
    }
    match store.fetch(pass, id) {
        Fetched::Live(clip) => Some(clip),
        _ => None,
    }
}

/// Publishes a clause under one of the pass's own identities.
fn publish(store: &Store, pass: &mut Pass, id: Id, clause: &[Lit]) -> Option<Published>
    requires at { IsPassAt four store.now pass.old }
    requires clause { IsPublishable four clause.now }
    ensures { IsPassAt four store.now pass.new }
{
    if !store.owns(pass, id) || store.room(pass) < clause.len() as u64 {
        return None;
    }
    Some(store.publish(pass, id, clause))
}

/// Retires the clause of one of the pass's own identities.
fn retire(store: &Store, pass: &mut Pass, id: Id) -> Option<Retired>
    requires { store_of pass.old ≡ store.now }
    ensures store { store_of pass.new ≡ store.now }
    ensures caller { pass.new.view.caller ≡ pass.old.view.caller }
{
    if !store.owns(pass, id) {
        return None;
    }
    Some(store.retire(pass, id))
}

/// A call for an identity.
#[derive(Clone, Copy)]
enum Call {
    Publish(Id),
    Retire(Id),
}

/// The literal of the clause to be published under an identity: `-2` for 6, and `1` for 8.
fn literal_for(id: Id) -> Lit
    ensures { IsPublishable four (result ∷ []) }
{
    if id == 6 { lit(-2) } else { lit(1) }
}

/// Publishes an identity's clause, or retires it; returns the pass, and whether the reply was
/// `Done`.
fn call_once(store: &Store, mut pass: Pass, call: Call) -> (Pass, Option<bool>)
    requires { IsPassAt four store.now pass }
    ensures { IsPassAt four store.now result.0 }
{
    let done = match call {
        Call::Publish(id) => publish(store, &mut pass, id, &[literal_for(id)]).map(|a| a
            == Published::Done),
        Call::Retire(id) => retire(store, &mut pass, id).map(|a| a == Retired::Done),
    };
    (pass, done)
}

/// Makes this call; if `apart`, in a thread of its own, which is then joined.
fn call_by<R: Threads>(
    rt: &R,
    apart: bool,
    store: &Store,
    pass: Pass,
    call: Call,
) -> (Pass, Option<bool>)
    requires { IsPassAt four store.now pass }
    ensures { IsPassAt four store.now result.0 }
{
    if !apart {
        return call_once(store, pass, call);
    }
    let there = || -> (Pass, Option<bool>)
        requires { IsPassAt four store.now pass }
        ensures { IsPassAt four store.entry.now result.0 }
    { call_once(store, pass, call) };
    join(rt, there, || ()).0
}

/// The second pass publishes, and the first finds the clause once they have met.
fn publish_in_turn<R: Threads + Abort>(
    rt: &R,
    apart: bool,
    store: &Store,
    a: &mut Pass,
    b: Pass,
) -> Pass
    requires first { IsPassAt four store.now a.old }
    requires second { IsPassAt four store.now b }
    ensures first { IsPassAt four store.now a.new }
    ensures second { IsPassAt four store.now result }
{
    same(rt, look(store, a, 6), Some(Found::Vacant));
    let (mut b, done) = call_by(rt, apart, store, b, Call::Publish(6));
    same(rt, done, Some(true));
    store.meet(a, &mut b);
    b
}

/// The second pass retires 6, and publishes another clause under 8. The first can still read its
/// clip of 6, and once the two have met, it finds 6 retired and 8 live.
fn retire_in_turn<R: Threads + Abort>(
    rt: &R,
    apart: bool,
    store: &Store,
    a: &mut Pass,
    b: Pass,
) -> Pass
    requires first { IsPassAt four store.now a.old }
    requires second { IsPassAt four store.now b }
    ensures { IsPassAt four store.now result }
{
    let clip = live(store, a, 6).expect(rt, "6 isn't live");
    same(rt, reads_back(store, a, &clip, &[lit(-2)]), true);
    let (b, done) = call_by(rt, apart, store, b, Call::Retire(6));
    same(rt, done, Some(true));
    let (mut b, done) = call_by(rt, apart, store, b, Call::Publish(8));
    same(rt, done, Some(true));
    same(rt, reads_back(store, a, &clip, &[lit(-2)]), true);
    store.meet(a, &mut b);
    let found = (look(store, a, 6), look(store, a, 8));
    same(rt, found, (Some(Found::Retired), Some(Found::Live)));
    b
}

/// Publishes and retires in turn; afterwards the second pass can neither publish under 6 nor retire
/// 6 again.
fn call_in_turn<R: Threads + Abort>(rt: &R, apart: bool, store: &Store, a: &mut Pass, b: Pass)
    requires first { IsPassAt four store.now a.old }
    requires second { IsPassAt four store.now b }
{
    let b = publish_in_turn(rt, apart, store, a, b);
    let b = retire_in_turn(rt, apart, store, a, b);
    let (b, done) = call_by(rt, apart, store, b, Call::Publish(6));
    same(rt, done, Some(false));
    let (_b, done) = call_by(rt, apart, store, b, Call::Retire(6));
    same(rt, done, Some(false));
}

/// Each stream has room for three literals; the first owns 5 and 7, the second 6 and 8.
#[test]
fn two_passes_take_turns(rt: HostRuntime) -> Result<(), Fail> {
    for apart in [false, true] {
        let (store, mut a, b) = open_two(rt.alloc(), 2, 3)?;
        call_in_turn(&rt, apart, &store, &mut a, b);
    }
    Ok(())
}

/// Whether a clip's clause has exactly these literals, in this order.
fn reads_back(store: &Store, pass: &mut Pass, clip: &Clip, clause: &[Lit]) -> bool
    requires store { store_of pass.old ≡ store.now }
    requires known { IsKnown (pass_caller_view pass.old.view) clip.now }
    ensures { pass.new ≡ pass.old }
{
    if clip.len() as usize != clause.len() {
        return false;
    }
    for k in 0..clip.len() {
        if store.literal(pass, clip, k) != clause[k as usize] {
            return false;
        }
    }
    true
}

/// Whether the clause is live under this identity, with its literals in this order.
fn is_kept(store: &Store, pass: &mut Pass, id: Id, clause: &[Lit]) -> bool
    requires { IsPassAt four store.now pass.old }
    ensures { IsPassAt four store.now pass.new }
{
    match live(store, pass, id) {
        Some(clip) => reads_back(store, pass, &clip, clause),
        None => false,
    }
}

/// Publishes clauses of three literals, two and one, which use up the room, and then the empty
/// clause.
fn spend_room(rt: &impl Abort, store: &Store, pass: &mut Pass)
    requires { IsPassAt four store.now pass.old }
    ensures { IsPassAt four store.now pass.new }
{
    let done = Some(Published::Done);
    let three = publish(store, pass, 5, &[lit(1), lit(-2), lit(2)]);
    let two = publish(store, pass, 7, &[lit(-1), lit(2)]);
    same(rt, (three, two, store.room(pass)), (done, done, 1));
    let one = publish(store, pass, 9, &[lit(2)]);
    let none = publish(store, pass, 11, &[]);
    same(rt, (one, none, store.room(pass)), (done, done, 0));
    let again = publish(store, pass, 11, &[]);
    same(rt, (again, store.room(pass)), (Some(Published::Taken), 0));
}

/// Reads back, literal by literal, the clauses that `spend_room` published and one clause of the
/// formula.
fn read_all(rt: &impl Abort, store: &Store, pass: &mut Pass)
    requires { IsPassAt four store.now pass.old }
{
    let three = is_kept(store, pass, 5, &[lit(1), lit(-2), lit(2)]);
    let two = is_kept(store, pass, 7, &[lit(-1), lit(2)]);
    let one = is_kept(store, pass, 9, &[lit(2)]);
    let none = is_kept(store, pass, 11, &[]);
    same(rt, (three, two, one, none), (true, true, true, true));
    same(rt, is_kept(store, pass, 3, &[lit(1), lit(-2)]), true);
}

#[test]
fn a_pass_spends_its_room_and_reads_back(rt: HostRuntime) -> Result<(), Fail> {
    let (store, mut a, _b) = open_two(rt.alloc(), 4, 6)?;
    spend_room(&rt, &store, &mut a);
    read_all(&rt, &store, &mut a);
    Ok(())
}

/// Publishes `2`, which follows from the first two clauses, under one of the caller's own
/// identities.
fn publish_two<M: ClauseMap>(map: &mut M, id: Id) -> Option<Published>
    requires { (M.caller_view map.old).caller.formula ≡ four }
    ensures { (es : History) × M.moves map.old map.new es }
{
    if !map.owns(id) || map.room() == 0 {
        return None;
    }
    Some(map.publish(id, &[lit(2)]))
}

/// The literal of a live unit clause.
fn read_one<M: ClauseMap>(map: &mut M, id: Id) -> Option<Lit>
    ensures { (es : History) × M.moves map.old map.new es }
{
    if !map.covers(id) {
        return None;
    }
    let Fetched::Live(clip) = map.fetch(id) else {
        return None;
    };
    if clip.len() != 1 {
        return None;
    }
    Some(map.literal(&clip, 0))
}

/// The reply to a client's publish, and the literal that the client read.
type ClientFound = (Option<Published>, Option<Lit>);

/// A client of any clause map: it publishes `2` under its own identity, and reads the other
/// client's clause.
fn publish_and_read<M: ClauseMap>(map: &mut M, own: Id, other: Id) -> ClientFound
    requires { (M.caller_view map.old).caller.formula ≡ four }
    ensures { (es : History) × M.moves map.old map.new es }
{
    let answer = publish_two(map, own);
    let found = read_one(map, other);
    (answer, found)
}

/// A map of one thread: the four clauses, and two streams with one identity and room for one
/// literal each.
fn open_plain(alloc: Global) -> Result<PlainMap, Fail>
    ensures formula { IfOk result (λ map. formula_of map ≡ four) }
    ensures streams { IfOk result (λ map. map.layout.streams ≡ 2) }
{
    let formula = four_clauses(alloc)?;
    let layout = Layout::new(2, 4, 8, 2, 1, 1)?;
    if !layout.fits(&formula) {
        return Err("no layout".into());
    }
    Ok(PlainMap::open(alloc, &formula, &layout)?)
}

/// Runs the client through a stream's desk of the one-thread map.
fn at_plain_desk(map: &mut PlainMap, stream: u64, own: Id, other: Id) -> ClientFound
    requires formula { formula_of map.old ≡ four }
    requires stream { IsStream map.old.layout stream }
    ensures formula { formula_of map.new ≡ four }
    ensures layout { map.new.layout ≡ map.old.layout }
{
    publish_and_read(&mut map.desk(stream), own, other)
}

/// Runs the client through the desk of a pass.
fn at_desk(store: &Store, pass: Pass, own: Id, other: Id) -> (Pass, ClientFound)
    requires { IsPassAt four store.now pass }
    ensures { IsPassAt four store.now result.0 }
{
    let mut desk = Desk::new(store, pass);
    let found = publish_and_read(&mut desk, own, other);
    (desk.into_pass(), found)
}

fn found_at_plain_desks(alloc: Global) -> Result<[ClientFound; 3], Fail> {
    let mut map = open_plain(alloc)?;
    let first = at_plain_desk(&mut map, 1, 5, 6);
    let second = at_plain_desk(&mut map, 2, 6, 5);
    Ok([first, second, at_plain_desk(&mut map, 1, 6, 6)])
}

fn found_at_desks(alloc: Global) -> Result<[ClientFound; 3], Fail> {
    let (store, a, b) = open_two(alloc, 1, 1)?;
    let (a, first) = at_desk(&store, a, 5, 6);
    let (_b, second) = at_desk(&store, b, 6, 5);
    let (_a, third) = at_desk(&store, a, 6, 6);
    Ok([first, second, third])
}

/// Stream 1 finds nothing yet; stream 2 finds what stream 1 published; then stream 1 finds what
/// stream 2 published.
fn finds_in_turn(rt: &impl Abort, found: [ClientFound; 3]) {
    let done = Some(Published::Done);
    let wanted = [(done, None), (done, Some(lit(2))), (None, Some(lit(2)))];
    same(rt, found, wanted);
}

#[test]
fn one_client_has_both_maps(rt: HostRuntime) -> Result<(), Fail> {
    finds_in_turn(&rt, found_at_plain_desks(rt.alloc())?);
    finds_in_turn(&rt, found_at_desks(rt.alloc())?);
    Ok(())
}

/// The formula whose only clause is empty: every clause follows from it.
fn refuted(alloc: Global) -> Result<Formula, AllocError>
    ensures { IfOk result (λ formula. formula ≡ raced) }
{
    let mut formula = Formula::new(alloc, 40_001);
    formula.push(&[])?;
    Ok(formula)
}

/// The store of a race, for this many streams with this many identities and this much room each,
/// and its passes.
fn open_race(
    alloc: Global,
    streams: u64,
    identities: u64,
    room: u64,
) -> Result<(Store, Vec<Pass>), Fail>
    ensures { IfOk result (λ opened. ArePassesAt raced opened.0 opened.1.items) }
{
    let layout = Layout::new(40_001, 1, 0, streams, identities, room)?;
    let formula = refuted(alloc)?;
    open(alloc, &formula, layout)
}

/// The literals of an identity's clause: the identity's number as a literal, and the complement of
/// the number before it.
fn raced_literals(id: Id) -> (Lit, Lit)
    requires { (1 < id) × (id ≤ 40001) }
    ensures first { result.0 ≡ pos id }
    ensures second { result.1 ≡ neg_ℤ (pos (id - 1)) }
    ensures within { IsLiteral 40001 result.0 × IsLiteral 40001 result.1 }
{
    (lit(id as i64), lit((id - 1) as i64).complement())
}

/// Publishes an identity's clause in the race, with none, one or both of its literals, depending on
/// the identity.
fn publish_raced(store: &Store, pass: &mut Pass, id: Id) -> Option<Published>
    requires { IsPassAt raced store.now pass.old }
    ensures { IsPassAt raced store.now pass.new }
{
    if id < 2 || 40_001 < id || !store.owns(pass, id) || store.room(pass) < 2 {
        return None;
    }
    let (first, second) = raced_literals(id);
    Some(match id % 3 {
        0 => store.publish(pass, id, &[]),
        1 => store.publish(pass, id, &[first]),
        _ => store.publish(pass, id, &[first, second]),
    })
}

/// Whether the clip's clause is the one that the race publishes under its identity, with the
/// literals in any order.
fn is_raced(store: &Store, pass: &mut Pass, clip: &Clip) -> bool
    requires store { store_of pass.old ≡ store.now }
    requires known { IsKnown (pass_caller_view pass.old.view) clip.now }
    ensures { pass.new ≡ pass.old }
{
    let id = clip.id();
    if id < 2 || 40_001 < id || u64::from(clip.len()) != id % 3 {
        return false;
    }
    let (first, second) = raced_literals(id);
    if clip.len() == 0 {
        return true;
    }
    let found = store.literal(pass, clip, 0);
    if clip.len() == 1 {
        return found == first;
    }
    let other = store.literal(pass, clip, 1);
    (found, other) == (first, second) || (other, found) == (first, second)
}

/// What the store has under an identity of the race.
fn finds_raced(store: &Store, pass: &mut Pass, id: Id) -> Option<Found>
    requires { store_of pass.old ≡ store.now }
    ensures store { store_of pass.new ≡ store.now }
    ensures caller { pass.new.view.caller ≡ pass.old.view.caller }
{
    if !store.covers(id) {
        return None;
    }
    Some(match store.fetch(pass, id) {
        Fetched::Vacant => Found::Vacant,
        Fetched::Live(clip) => {
            if clip.id() == id && is_raced(store, pass, &clip) {
                Found::Live
            } else {
                Found::Wrong
            }
        }
        Fetched::Retired => Found::Retired,
    })
}
