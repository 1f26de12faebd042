//! Interleavings that counters force: a thread continues only after the others have got as far, so
//! each run has these interleavings.
ghost use Rattle.std.specs.Prelude.{◌≡◌, ◌<◌};
ghost use Rattle.lrup_model.specs.History.{IsPublishable};
ghost use Rattle.clause_store.specs.Passes.{store_of};
ghost use Rattle.clause_store_tests.specs.Worked.{IsPassAt, ArePassesAt, raced};

use super::{Found, finds_raced, look, open_race, publish_raced, reads_back, retire, same};
use clause_store::{Pass, Store};
use lrup_model::{Fetched, Id, Lit, Published, Retired};
use std::alloc::Global;
use std::process::Abort;
use std::sync::atomic::{AtomicU64, Ordering};
use std::test::Fail;
use std::thread::{Threads, for_each_mut, yield_now};
use std::time::{Clock, Duration};
use test_support::lit;

/// How far the threads have got.
#[derive(Drop)]
struct Counters {
    arrived: AtomicU64,
    /// How many clauses are published; or, in the hammering, how many lines there are.
    other: AtomicU64,
}

impl Counters {
    fn new(other: u64) -> Counters {
        Counters {
            arrived: AtomicU64::new(0),
            other: AtomicU64::new(other),
        }
    }
}

/// How many times a thread polls for another thread before it gives up.
const TURNS: u32 = 10_000_000;

/// Waits until the counter has at least this value; returns whether that happened in time.
fn waits_for(counter: &AtomicU64, wanted: u64) -> bool {
    for _turn in 0..TURNS {
        if wanted <= counter.load(Ordering::SeqCst) {
            return true;
        }
        yield_now();
    }
    false
}

/// Counts this thread, and waits until all threads have been counted.
fn arrives(counter: &AtomicU64, wanted: u64) -> bool {
    counter.fetch_add(1, Ordering::SeqCst);
    waits_for(counter, wanted)
}

/// How many lines each stream has in the races.
const LINES: u64 = 1_000;

/// Looks up the clause of each stream for a line: the clause must be there, unless `may_miss`.
fn look_at_line(rt: &impl Abort, store: &Store, pass: &mut Pass, line: u64, may_miss: bool)
    requires at { IsPassAt raced store.now pass.old }
    requires line { line < 1000 }
    ensures { IsPassAt raced store.now pass.new }
{
    let own = pass.stream();
    for stream in 1..5u64 {
        let found = finds_raced(store, pass, 4 * line + stream + 1);
        let is_early = may_miss && stream != own && found == Some(Found::Vacant);
        let is_right = is_early || found == Some(Found::Live);
        same(rt, (line, stream, own, is_right), (line, stream, own, true));
    }
}

/// Publishes the clause of each line at the same time as all other streams, and looks up their
/// clauses twice: immediately, and after all have published.
fn publish_together(rt: &impl Abort, store: &Store, pass: &mut Pass, counters: &Counters)
    requires { IsPassAt raced store.now pass.old }
    ensures { store_of pass.new ≡ store.now }
{
    for line in 0..LINES {
        let in_time = arrives(&counters.arrived, 4 * line + 4);
        let answer = publish_raced(store, pass, 4 * line + pass.stream() + 1);
        same(
            rt,
            (line, in_time, answer),
            (line, true, Some(Published::Done)),
        );
        look_at_line(rt, store, pass, line, true);
        same(rt, arrives(&counters.other, 4 * line + 4), true);
        look_at_line(rt, store, pass, line, false);
    }
}

/// Publishes the clause of each line, and retires it once all other streams are about to fetch it.
fn retire_together(rt: &impl Abort, store: &Store, pass: &mut Pass, counters: &Counters)
    requires { IsPassAt raced store.now pass.old }
    ensures { store_of pass.new ≡ store.now }
{
    for line in 0..LINES {
        let id = 4 * line + 2;
        let answer = publish_raced(store, pass, id);
        let in_time = arrives(&counters.arrived, 4 * line + 4);
        let found = (line, answer, in_time, retire(store, pass, id));
        let wanted = (line, Some(Published::Done), true, Some(Retired::Done));
        same(rt, found, wanted);
    }
    counters.arrived.fetch_add(1, Ordering::SeqCst);
}

/// Fetches the clause of each line while it is being retired, and finds it whole or retired.
fn fetch_together(rt: &impl Abort, store: &Store, pass: &mut Pass, counters: &Counters)
    requires { store_of pass.old ≡ store.now }
    ensures { store_of pass.new ≡ store.now }
{
    for line in 0..LINES {
        let in_time = arrives(&counters.arrived, 4 * line + 4);
        let found = finds_raced(store, pass, 4 * line + 2);
        let is_right = found == Some(Found::Live) || found == Some(Found::Retired);
        same(rt, (line, in_time, is_right), (line, true, true));
    }
    same(rt, waits_for(&counters.arrived, 4 * LINES + 1), true);
    finds_all_retired(rt, store, pass);
}

/// Checks that the clause of each line is retired.
fn finds_all_retired(rt: &impl Abort, store: &Store, pass: &mut Pass)
    requires { store_of pass.old ≡ store.now }
    ensures { store_of pass.new ≡ store.now }
{
    for line in 0..LINES {
        let found = look(store, pass, 4 * line + 2);
        same(rt, (line, found), (line, Some(Found::Retired)));
    }
}

/// The literals of the clause that the other threads hammer at. Two clauses alternate, by identity;
/// each takes three words.
fn six_literals(id: Id) -> [Lit; 6]
    ensures { IsPublishable raced result }
{
    if id % 2 == 0 {
        [lit(1), lit(-2), lit(3), lit(-4), lit(5), lit(-6)]
    } else {
        [lit(-12), lit(11), lit(-10), lit(9), lit(-8), lit(7)]
    }
}

/// Publishes `six_literals` under the identity.
fn publish_six(store: &Store, pass: &mut Pass, id: Id) -> Option<Published>
    requires { IsPassAt raced store.now pass.old }
    ensures { IsPassAt raced store.now pass.new }
{
    if !store.owns(pass, id) || store.room(pass) < 6 {
        return None;
    }
    Some(store.publish(pass, id, &six_literals(id)))
}

/// Fetches until the clause is live, and pauses now and then. Returns whether the clause is then
/// whole; `None` if it never becomes live.
fn hammers(store: &Store, pass: &mut Pass, id: Id) -> Option<bool>
    requires { store_of pass.old ≡ store.now }
    ensures { store_of pass.new ≡ store.now }
{
    if !store.covers(id) {
        return None;
    }
    for turn in 0..TURNS {
        match store.fetch(pass, id) {
            Fetched::Live(clip) => return Some(reads_back(store, pass, &clip, &six_literals(id))),
            Fetched::Retired => return Some(false),
            Fetched::Vacant => {}
        }
        if turn % 64 == 63 {
            yield_now();
        }
    }
    None
}

/// The maximum number of clauses in the hammering.
const HAMMERED: u64 = 100_000;

/// Whether more than two seconds have passed since `began`; false if the clock fails.
fn is_late(clock: &impl Clock, began: Option<Duration>) -> bool {
    match (clock.monotonic(), began) {
        (Ok(now), Some(then)) => now.as_secs() > then.as_secs().saturating_add(2),
        _ => false,
    }
}

/// Publishes the clause of each line once eight other threads hammer at it. When time is up,
/// announces that this line is the last one, and only then publishes the line's clause; so every
/// thread that finds the clause also knows that the line is the last one.
fn publish_hammered<R: Abort + Clock>(rt: &R, store: &Store, pass: &mut Pass, counters: &Counters)
    requires { IsPassAt raced store.now pass.old }
    ensures { store_of pass.new ≡ store.now }
{
    let began = rt.monotonic().ok();
    for line in 0..HAMMERED {
        let in_time = waits_for(&counters.arrived, 8 * line + 8);
        let late = is_late(rt, began);
        if late {
            counters.other.store(line + 1, Ordering::SeqCst);
        }
        let answer = publish_six(store, pass, 9 * line + 2);
        let wanted = (line, true, Some(Published::Done));
        same(rt, (line, in_time, answer), wanted);
        if late {
            return;
        }
    }
}

/// Hammers at the clause of each line.
fn hammer_all(rt: &impl Abort, store: &Store, pass: &mut Pass, counters: &Counters)
    requires { store_of pass.old ≡ store.now }
    ensures { store_of pass.new ≡ store.now }
{
    for line in 0..HAMMERED {
        if counters.other.load(Ordering::SeqCst) <= line {
            return;
        }
        counters.arrived.fetch_add(1, Ordering::SeqCst);
        let found = hammers(store, pass, 9 * line + 2);
        same(rt, (line, found), (line, Some(true)));
    }
}

/// What the streams do in a race.
#[derive(Clone, Copy)]
enum Play {
    Publish,
    RetireOrFetch,
    PublishOrHammer,
}

/// Plays one stream's part.
fn take_part<R: Abort + Clock>(
    rt: &R,
    play: Play,
    store: &Store,
    pass: &mut Pass,
    counters: &Counters,
)
    requires { IsPassAt raced store.now pass.old }
    ensures { store_of pass.new ≡ store.now }
{
    match (play, pass.stream()) {
        (Play::Publish, _) => publish_together(rt, store, pass, counters),
        (Play::RetireOrFetch, 1) => retire_together(rt, store, pass, counters),
        (Play::RetireOrFetch, _) => fetch_together(rt, store, pass, counters),
        (Play::PublishOrHammer, 1) => publish_hammered(rt, store, pass, counters),
        (Play::PublishOrHammer, _) => hammer_all(rt, store, pass, counters),
    }
}

/// Plays each stream's part in a thread of its own; afterwards all passes meet.
fn play_together<R: Threads + Abort + Sync + Clock>(
    rt: &R,
    play: Play,
    store: &Store,
    passes: &mut [Pass],
    counters: &Counters,
)
    requires { ArePassesAt raced store.now passes.old }
{
    for_each_mut(
        rt,
        passes,
        9,
        &|_, pass: &mut Pass| { take_part(rt, play, store, pass, counters) },
    );
    store.meet_all(passes);
}

/// Runs `play_together` over a new store, for a number of streams with this many identities and
/// this much room each.
fn play_at<R: Threads + Abort + Sync + Clock>(
    rt: &R,
    alloc: Global,
    play: Play,
    (streams, identities, room): (u64, u64, u64),
    counters: &Counters,
) -> Result<(), Fail> {
    let (store, mut passes) = open_race(alloc, streams, identities, room)?;
    same(rt, passes.len() as u64, streams);
    play_together(rt, play, &store, passes.as_mut_slice(), counters);
    Ok(())
}

/// Four streams publish at the same moment under neighbouring identities, a thousand times, and
/// read each other's clauses.
#[test]
fn neighbours_are_published_at_once(rt: HostRuntime) -> Result<(), Fail> {
    let counters = Counters::new(0);
    let size = (4, LINES, 2 * LINES);
    play_at(&rt, rt.alloc(), Play::Publish, size, &counters)?;
    same(&rt, counters.other.load(Ordering::SeqCst), 4 * LINES);
    Ok(())
}

/// A stream retires an identity while three others fetch it, a thousand times.
#[test]
fn a_retire_and_a_fetch_at_once(rt: HostRuntime) -> Result<(), Fail> {
    let counters = Counters::new(0);
    let size = (4, LINES, 2 * LINES);
    play_at(&rt, rt.alloc(), Play::RetireOrFetch, size, &counters)?;
    same(&rt, counters.arrived.load(Ordering::SeqCst), 4 * LINES + 1);
    Ok(())
}

/// Eight threads fetch as fast as they can while one publishes, for two to three seconds or until
/// all clauses are published. They have to be fast because no gate can stop a thread between the
/// stores of a clause's literals and the exchange that makes the clause live. Each thread that
/// finds a clause live reads all of it.
#[test]
fn eight_threads_hammer(rt: HostRuntime) -> Result<(), Fail> {
    let counters = Counters::new(HAMMERED);
    let size = (9, HAMMERED, 6 * HAMMERED);
    play_at(&rt, rt.alloc(), Play::PublishOrHammer, size, &counters)?;
    let lines = counters.other.load(Ordering::SeqCst);
    same(
        &rt,
        counters.arrived.load(Ordering::SeqCst),
        lines.saturating_mul(8),
    );
    Ok(())
}
