//! The events of a stream in a map where another stream publishes late.
ghost use Rattle.std.specs.Prelude.{◌≡◌, ◌<◌, [], IfOk};
ghost use Rattle.checker_support.specs.Opened.{IsPlainOpened};
ghost use Rattle.lrup_model.specs.Event.{History};
ghost use Rattle.lrup_model.specs.Layout.{IsStream};
ghost use Rattle.lrup_model.specs.CallerView.{CallerStep};
ghost use Rattle.lrup_model.specs.Plain.{PlainMoves, formula_of, free_at, plain_caller_view};
ghost use Rattle.test_support.specs.Worked.{four};

use super::{NO_CALLS, Options, TWO_STREAMS, cube_of, feed_cut, same, shown};
use checker_support::{checker_under, open_map};
use lrup_model::{ClauseMap, Clip, Fetched, Id, Lit, Owner, PlainMap, Published, Retired};
use std::alloc::Global;
use std::sync::atomic::{AtomicU64, Ordering};
use std::test::Fail;
use stream_check::{Gate, Report};
use test_support::lit;

/// When stream 2 publishes `-2` under identity 6.
#[derive(Clone, Copy, Debug, PartialEq, Eq)]
pub enum Late {
    Never,
    /// Right before the fetch of stream 1 with this number (from 1).
    Published(u64),
    /// At the same moment as with `Published`, but stream 2 also retires 6 immediately.
    Retired(u64),
}

/// The events that stream 1 made.
#[derive(Clone, Copy)]
struct Events {
    fetches: u64,
    publishes: u64,
    retires: u64,
}

/// Up to nine calls in order, two digits each: the kind, and the identity. 1 to 4 are the gate's
/// calls before a fetch, by the number of the attempt; 5 is a fetch, 6 a publish, 7 the gate's call
/// after it, 8 a retire, and 9 would be the gate's call after another stream's publish.
#[derive(Drop)]
struct Log {
    calls: AtomicU64,
}

impl Log {
    fn new() -> Log {
        Log {
            calls: AtomicU64::new(0),
        }
    }

    fn calls(&self) -> u64 {
        self.calls.load(Ordering::SeqCst)
    }

    fn note(&self, what: u64, id: Id) {
        let call = what.min(9) * 10 + id.min(9);
        let calls = self.calls().wrapping_mul(100).wrapping_add(call);
        self.calls.store(calls, Ordering::SeqCst);
    }
}

/// A gate of stream 1 that notes its calls.
#[derive(Drop)]
struct NotingGate<'a> {
    log: &'a Log,
}

impl Gate for NotingGate<'_> {
    fn before_fetch(&mut self, stream: u64, id: Id, attempt: u64) {
        let call = if stream == 1 { attempt.min(4) } else { 9 };
        self.log.note(call, id);
    }

    fn after_publish(&mut self, stream: u64, id: Id) {
        self.log.note(if stream == 1 { 7 } else { 9 }, id);
    }
}

/// Stream 1's view of a map, as a clause map that notes and counts its calls.
#[derive(Drop)]
struct LateMap<'a> {
    log: &'a Log,
    map: PlainMap,
    /// The room that stream 1 has left.
    room: u64,
    late: Late,
    events: Events,
    ghost room_left: { room ≡ free_at map 1 },
    ghost formula: { formula_of map ≡ four },
    ghost streams: { 0 < map.layout.streams },
}

/// Publishes `-2` under identity 6, or retires 6.
fn call_at_six<M: ClauseMap>(desk: &mut M, retires: bool)
    requires { (M.caller_view desk.old).caller.formula ≡ four }
    ensures { (es : History) × M.moves desk.old desk.new es }
{
    if !desk.owns(6) {
        return;
    }
    if retires {
        let _ = desk.retire(6);
    } else if desk.room() > 0 {
        let _ = desk.publish(6, &[lit(-2)]);
    }
}

/// Does what `call_at_six` does, through stream 2's desk.
fn call_second(map: &mut PlainMap, retires: bool)
    requires formula { formula_of map.old ≡ four }
    requires stream { IsStream map.old.layout 2 }
    ensures { (es : History) × PlainMoves map.old map.new 2 es }
{
    call_at_six(&mut map.desk(2), retires);
}

/// Makes the calls of stream 2 that are due before this fetch of stream 1.
fn call_late(map: &mut PlainMap, late: Late, fetch: u64)
    requires { formula_of map.old ≡ four }
    ensures { CallerStep (plain_caller_view map.old 1) (plain_caller_view map.new 1) [] }
{
    let two = map.layout().streams() >= 2;
    match late {
        Late::Published(at) if two && at == fetch => call_second(map, false),
        Late::Retired(at) if two && at == fetch => {
            call_second(map, false);
            call_second(map, true);
        }
        _ => {}
    }
}

impl ClauseMap for LateMap<'_> {
    ghost use Rattle.stream_check_tests.specs.lemmas.StepLemmas.{step_none, step_append};

    ghost caller_view = { λ m. plain_caller_view m.map 1 };

    ghost moves = { λ a b es. CallerStep (plain_caller_view a.map 1) (plain_caller_view b.map 1) es };

    fn stream(&self) -> u64 {
        1
    }

    fn covers(&self, id: Id) -> bool {
        self.map.layout().covers(id)
    }

    fn owns(&self, id: Id) -> bool {
        self.map.layout().owner(id) == Owner::Stream(1)
    }

    fn room(&self) -> u64 {
        self.room
    }

    fn fetch(&mut self, id: Id) -> Fetched {
        self.log.note(5, id);
        self.events.fetches = self.events.fetches.saturating_add(1);
        call_late(&mut self.map, self.late, self.events.fetches);
        let mut desk = self.map.desk(1);
        let answer = desk.fetch(id);
        self.room = desk.room();
        answer
    }

    fn literal(&mut self, clip: &Clip, k: u32) -> Lit {
        let mut desk = self.map.desk(1);
        let literal = desk.literal(clip, k);
        self.room = desk.room();
        literal
    }

    fn publish(&mut self, id: Id, clause: &[Lit]) -> Published {
        self.log.note(6, id);
        self.events.publishes = self.events.publishes.saturating_add(1);
        let mut desk = self.map.desk(1);
        let answer = desk.publish(id, clause);
        self.room = desk.room();
        answer
    }

    fn retire(&mut self, id: Id) -> Retired {
        self.log.note(8, id);
        self.events.retires = self.events.retires.saturating_add(1);
        let mut desk = self.map.desk(1);
        let answer = desk.retire(id);
        self.room = desk.room();
        answer
    }

    ghost moves_none = { λ m. step_none (plain_caller_view m.map 1) };

    ghost moves_append = { λ a b c.
        step_append (plain_caller_view a.map 1) (plain_caller_view b.map 1) (plain_caller_view c.map 1) };

    ghost moves_are_step = { λ a b es moves. moves };
}

/// Opens a map, and makes stream 1's view of it.
fn open_late<'a>(alloc: Global, options: Options<'_>, log: &'a Log) -> Result<LateMap<'a>, Fail>
    ensures { IfOk result (λ late. IsPlainOpened late.map) }
{
    if options.streams == 0 {
        return Err("no stream".into());
    }
    let map = open_map(alloc, options.streams, options.lines, options.room)?;
    Ok(LateMap {
        log,
        map,
        room: options.room,
        late: options.late,
        events: Events {
            fetches: 0,
            publishes: 0,
            retires: 0,
        },
    })
}

/// The report of a stream that comes in pieces of one length, and its events.
fn feed_late<G: Gate>(
    alloc: Global,
    options: Options<'_>,
    lines: &str,
    cut: usize,
    log: &Log,
    gate: &mut G,
) -> Result<(Report, Events), Fail> {
    let mut map = open_late(alloc, options, log)?;
    let cube = cube_of(alloc, options.cube)?;
    let mut checker = checker_under(alloc, &map.map, &cube, 1, options.tries)?;
    feed_cut(&mut checker, &mut map, gate, lines.as_bytes(), cut);
    Ok((checker.report(), map.events))
}

/// The report and the calls, as text. Checks that the gate was called for each fetch and each
/// publish, and that each publish was counted as an addition.
pub fn judged(
    alloc: Global,
    options: Options<'_>,
    lines: &str,
    cut: usize,
) -> Result<String, Fail> {
    let mut gate = NO_CALLS;
    let (report, events) = feed_late(alloc, options, lines, cut, &Log::new(), &mut gate)?;
    if (gate.fetches, gate.publishes) != (events.fetches, events.publishes) {
        return Err("the gate has other calls".into());
    }
    if report.added != events.publishes {
        return Err("a publish that isn't counted".into());
    }
    Ok(shown(alloc, report, gate, events.retires)?)
}

/// The calls of the map and of the gate while these lines are checked.
fn calls_of(alloc: Global, options: Options<'_>, lines: &str) -> Result<u64, Fail> {
    let log = Log::new();
    let mut gate = NotingGate { log: &log };
    feed_late(alloc, options, lines, 65_536, &log, &mut gate)?;
    Ok(log.calls())
}

/// The time at which 6 is published, the lines, and the calls as in `Log`.
static CALLS: [(Late, &str, u64); 3] = [
    (Late::Never, "5 2 0 1 2 0\n5 d 5 0\n", 11_51_12_52_65_75_85),
    (Late::Never, "5 -2 0 6 0\n", 16_56_26_56_36_56_46_56),
    (Late::Published(2), "5 -2 0 6 0\n", 16_56_26_56_65_75),
];

/// The gate is called right before each fetch, and right after each publish.
#[test]
fn the_gate_is_called_between_the_calls_of_the_map(rt: HostRuntime) -> Result<(), Fail> {
    for &(late, lines, calls) in &CALLS {
        let options = Options {
            late,
            ..TWO_STREAMS
        };
        let found = calls_of(rt.alloc(), options, lines)?;
        same(&rt, (lines, late, found), (lines, late, calls));
    }
    Ok(())
}
