//! Runs with threads have the same reports as some order of the lines, checked on one thread. This
//! needn't hold if a clause that another stream has cited is deleted.
ghost use Rattle.std.specs.Prelude.{◌≡◌, ◌≤◌, length};
ghost use Rattle.lrup_model.specs.Event.{History};
ghost use Rattle.lrup_model.specs.Layout.{IsStream};
ghost use Rattle.lrup_model.specs.Plain.{PlainMoves, plain_caller_view};
ghost use Rattle.stream_check.specs.Checker.{IsReadyAt};

use super::holding::{Hold, run_held};
use super::{
    ADDS, CITING, Machine, Mode, Open, REFUTES, Said, options, readers_of, report, reports,
    run_with, same, says,
};
use checker_support::{checker_at, open_map};
use lrup_model::{ClauseMap, PlainMap};
use portfolio::Verdict::{Unknown, Unsatisfiable};
use std::alloc::Global;
use std::test::Fail;
use stream_check::Ending::{Bad, Ended};
use stream_check::laws::ready_beside;
use stream_check::{Checker, Fault, Report};

/// Feeds bytes up to and including the end of a line, or all of them, and returns how many were
/// used.
fn take_line<M: ClauseMap>(checker: &mut Checker, map: &mut M, bytes: &[u8]) -> usize
    requires { IsReadyAt checker.old (M.caller_view map.old) }
    ensures ready { IsReadyAt checker.new (M.caller_view map.new) }
    ensures moves { (es : History) × M.moves map.old map.new es }
    ensures params { checker.new.params ≡ checker.old.params }
    ensures used { result ≤ length bytes.now }
{
    checker.feed(map, &mut Open, bytes).used
}

/// Does what `take_line` does for stream `s`, through the stream's desk.
fn take_at(map: &mut PlainMap, s: u64, checker: &mut Checker, bytes: &[u8]) -> usize
    requires stream { IsStream map.old.layout s }
    requires ready { IsReadyAt checker.old (plain_caller_view map.old s) }
    ensures moves { (es : History) × PlainMoves map.old map.new s es }
    ensures ready { IsReadyAt checker.new (plain_caller_view map.new s) }
    ensures params { checker.new.params ≡ checker.old.params }
    ensures used { result ≤ length bytes.now }
{
    take_line(checker, &mut map.desk(s), bytes)
}

/// The checkers of streams 1 and 2, and their map.
#[derive(Drop)]
struct Two {
    map: PlainMap,
    first: Checker,
    second: Checker,
    ghost streams: { 2 ≤ map.layout.streams },
    ghost first_ready: { IsReadyAt first (plain_caller_view map 1) },
    ghost second_ready: { IsReadyAt second (plain_caller_view map 2) },
}

impl Two {
    fn open(alloc: Global, lines: u64, tries: u64) -> Result<Two, Fail> {
        let map = open_map(alloc, 2, lines, 16)?;
        let first = checker_at(alloc, &map, 1, tries)?;
        let second = checker_at(alloc, &map, 2, tries)?;
        Ok(Two { map, first, second })
    }

    fn take_first(&mut self, bytes: &[u8]) -> usize
        ensures { result ≤ length bytes.now }
    {
        ready_beside();
        take_at(&mut self.map, 1, &mut self.first, bytes)
    }

    fn take_second(&mut self, bytes: &[u8]) -> usize
        ensures { result ≤ length bytes.now }
    {
        ready_beside();
        take_at(&mut self.map, 2, &mut self.second, bytes)
    }

    /// The reports of both streams, if each was read to its end or is finished.
    fn end(&mut self, first_whole: bool, second_whole: bool) -> Option<[Report; 2]> {
        if !first_whole && !self.first.is_over() || !second_whole && !self.second.is_over() {
            return None;
        }
        self.first.end();
        self.second.end();
        if !self.first.is_over() || !self.second.is_over() {
            return None;
        }
        Some([self.first.report(), self.second.report()])
    }
}

/// The reports if streams take lines in this order; `None` if a line is left.
fn said_in(
    alloc: Global,
    lines: u64,
    tries: u64,
    streams: [&str; 2],
    order: &[u64],
) -> Result<Option<[Report; 2]>, Fail> {
    let mut two = Two::open(alloc, lines, tries)?;
    let (mut first, mut second) = (streams[0].as_bytes(), streams[1].as_bytes());
    for stream in order {
        if *stream == 1 {
            let used = two.take_first(first);
            first = &first[used..];
        } else {
            let used = two.take_second(second);
            second = &second[used..];
        }
    }
    Ok(two.end(first.is_empty(), second.is_empty()))
}

/// The stream of each line in turn, and the reports of both streams.
type Order = (&'static [u64], [Said; 2]);

/// The reports of two streams if all clauses come in time, if 6 comes too late, and if 5 does.
const IN_TIME: [Said; 2] = [REFUTES, ADDS];

const SIX_LATE: [Said; 2] = [(1, 0, Unknown, Bad(2, Fault::Missing(6))), ADDS];

const FIVE_LATE: [Said; 2] = [REFUTES, (1, 0, Unknown, Bad(2, Fault::Missing(5)))];

/// Checks the streams' reports for each of these orders of their lines.
fn orders_say<T: Machine>(rt: &T, streams: [&str; 2], orders: &[Order]) -> Result<(), Fail> {
    for &(order, [first, second]) in orders {
        let said = said_in(rt.alloc(), 2, 0, streams, order)?;
        let wanted = Some([report(first), report(second)]);
        same(rt, (streams, order, said), (streams, order, wanted));
    }
    Ok(())
}

/// Checks that each of a hundred runs with threads has the reports of one of these orders.
fn runs_have_an_order<T: Machine>(
    rt: &T,
    streams: [&str; 2],
    orders: &[Order],
) -> Result<(), Fail> {
    for _ in 0..100 {
        let readers = readers_of(rt.alloc(), &streams, 5)?;
        let found = run_with(rt, Mode::Threads, options(0, 2, 16), readers, Open)?;
        let mut has_order = false;
        for (_, said) in orders {
            has_order |= reports(rt.alloc(), said)?.as_slice() == found.reports.as_slice();
        }
        let reports = found.reports.as_slice();
        same(rt, (streams, reports, has_order), (streams, reports, true));
    }
    Ok(())
}

static ORDERS_OF_CITING: [Order; 3] = [
    (&[2, 1, 1], IN_TIME),
    (&[1, 2, 1], IN_TIME),
    (&[1, 1, 2], SIX_LATE),
];

#[test]
fn orders_of_citing(rt: HostRuntime) -> Result<(), Fail> {
    orders_say(&rt, CITING, &ORDERS_OF_CITING)?;
    runs_have_an_order(&rt, CITING, &ORDERS_OF_CITING)
}

/// Each stream imports what the other derives.
const IMPORTING: [&str; 2] = [
    "5 2 0 1 2 0\n6 i -2 0\n7 0 5 6 0\n",
    "6 -2 0 3 4 0\n5 i 2 0\n",
];

static ORDERS_OF_IMPORTING: [Order; 10] = [
    (&[1, 1, 1, 2, 2], SIX_LATE),
    (&[1, 1, 2, 1, 2], SIX_LATE),
    (&[1, 1, 2, 2, 1], SIX_LATE),
    (&[1, 2, 1, 1, 2], IN_TIME),
    (&[1, 2, 1, 2, 1], IN_TIME),
    (&[1, 2, 2, 1, 1], IN_TIME),
    (&[2, 1, 1, 1, 2], IN_TIME),
    (&[2, 1, 1, 2, 1], IN_TIME),
    (&[2, 1, 2, 1, 1], IN_TIME),
    (&[2, 2, 1, 1, 1], FIVE_LATE),
];

#[test]
fn orders_of_importing(rt: HostRuntime) -> Result<(), Fail> {
    orders_say(&rt, IMPORTING, &ORDERS_OF_IMPORTING)?;
    runs_have_an_order(&rt, IMPORTING, &ORDERS_OF_IMPORTING)
}

/// The first stream deletes a clause that the second may have found before.
const DELETING: [&str; 2] = ["5 2 0 1 2 0\n5 d 5 0\n7 -2 0 3 4 0\n", "6 0 5 7 0\n"];

/// The streams of `DELETING`, but the second also imports the clause.
const DELETING_IMPORTED: [&str; 2] = [
    "5 2 0 1 2 0\n5 d 5 0\n7 -2 0 3 4 0\n",
    "5 i 2 0\n6 0 5 7 0\n",
];

/// Stream 2 finds 5 once it is published. Then stream 1 waits until stream 2 fetches 7, and stream
/// 2 waits until 7 is published.
static FINDS_BOTH: [Hold; 3] = [
    ([2, 5, 1], [1, 5, 0], 1),
    ([1, 5, 0], [2, 7, 1], 1),
    ([2, 7, 1], [1, 7, 0], 1),
];

const DELETES: Said = (2, 1, Unknown, Ended);

/// The reports if the second stream's line has this fault.
const MISSES_5: [Said; 2] = [DELETES, (0, 0, Unknown, Bad(1, Fault::Missing(5)))];

const MISSES_7: [Said; 2] = [DELETES, (0, 0, Unknown, Bad(1, Fault::Missing(7)))];

const FINDS_5_RETIRED: [Said; 2] = [DELETES, (0, 0, Unknown, Bad(1, Fault::Retired(5)))];

const MISSES_7_LATER: [Said; 2] = [DELETES, (0, 0, Unknown, Bad(2, Fault::Missing(7)))];

const FINDS_5_RETIRED_LATER: [Said; 2] = [DELETES, (0, 0, Unknown, Bad(2, Fault::Retired(5)))];

/// The second stream finds 5 before it is deleted, and 7 after that, which no order of the lines
/// allows.
fn no_order_says_so<T: Machine>(rt: &T, streams: [&str; 2], orders: &[Order]) -> Result<(), Fail> {
    let found = run_held(rt, options(0, 2, 16), &streams, &FINDS_BOTH)?;
    says(
        rt,
        streams,
        &found,
        &[DELETES, (1, 0, Unsatisfiable, Ended)],
    )?;
    orders_say(rt, streams, orders)
}

static ORDERS_OF_DELETING: [Order; 4] = [
    (&[2, 1, 1, 1], MISSES_5),
    (&[1, 2, 1, 1], MISSES_7),
    (&[1, 1, 2, 1], FINDS_5_RETIRED),
    (&[1, 1, 1, 2], FINDS_5_RETIRED),
];

#[test]
fn a_deleted_clause_that_was_found(rt: HostRuntime) -> Result<(), Fail> {
    no_order_says_so(&rt, DELETING, &ORDERS_OF_DELETING)
}

static ORDERS_OF_DELETING_IMPORTED: [Order; 10] = [
    (&[1, 1, 1, 2, 2], FINDS_5_RETIRED),
    (&[1, 1, 2, 1, 2], FINDS_5_RETIRED),
    (&[1, 1, 2, 2, 1], FINDS_5_RETIRED),
    (&[1, 2, 1, 1, 2], FINDS_5_RETIRED_LATER),
    (&[1, 2, 1, 2, 1], FINDS_5_RETIRED_LATER),
    (&[1, 2, 2, 1, 1], MISSES_7_LATER),
    (&[2, 1, 1, 1, 2], MISSES_5),
    (&[2, 1, 1, 2, 1], MISSES_5),
    (&[2, 1, 2, 1, 1], MISSES_5),
    (&[2, 2, 1, 1, 1], MISSES_5),
];

#[test]
fn a_deleted_clause_that_was_imported(rt: HostRuntime) -> Result<(), Fail> {
    no_order_says_so(&rt, DELETING_IMPORTED, &ORDERS_OF_DELETING_IMPORTED)
}

/// Pseudo-random numbers, the same in each run.
#[derive(Drop)]
struct Dice {
    state: u64,
}

impl Dice {
    /// Picks one of the given numbers.
    fn pick(&mut self, numbers: &[u64]) -> u64 {
        self.state ^= self.state << 13;
        self.state ^= self.state >> 7;
        self.state ^= self.state << 17;
        let count = numbers.len() as u64;
        let place = self.state.checked_rem(count).unwrap_or(0);
        numbers.get(place as usize).copied().unwrap_or(1)
    }
}

/// Three lines with these identities: additions, deletions of clauses of the formula or the other
/// stream, and imports of the other stream's clauses. The lines may be bad.
fn small_stream(
    alloc: Global,
    dice: &mut Dice,
    own: &[u64],
    others: &[u64],
) -> Result<String, Fail> {
    let mut text = String::new(alloc);
    for id in own {
        let hint = dice.pick(&[5, 6, 7, 8, 9, 10]);
        let more = dice.pick(&[3, 4, 5, 6, 7, 8, 9, 10]);
        let other = dice.pick(others);
        match dice.pick(&[0, 1, 2, 3, 4, 5, 6, 7, 8, 9]) {
            0 => write!(text, "{id} 2 0 1 2 0\n")?,
            1 => write!(text, "{id} -2 0 3 4 0\n")?,
            2 => write!(text, "{id} 2 0 {hint} 0\n")?,
            3 => write!(text, "{id} -2 0 {hint} 0\n")?,
            4 => write!(text, "{id} 0 {hint} {more} 0\n")?,
            5 => write!(text, "{id} d {other} 0\n")?,
            6 => write!(text, "{other} i 2 0\n")?,
            7 => write!(text, "{other} i -2 0\n")?,
            8 => write!(text, "{other} i 0\n")?,
            _ => write!(text, "{id} d {} 0\n", dice.pick(&[1, 2, 3, 4]))?,
        }
    }
    Ok(text)
}

/// The stream of each line in turn, from the binary digits of a number.
fn order_of(digits: u64) -> [u64; 6] {
    let mut order = [1; 6];
    let mut left = digits;
    for stream in &mut order {
        if left % 2 == 1 {
            *stream = 2;
        }
        left /= 2;
    }
    order
}

/// Whether some order of the lines of two streams with three lines each has these reports.
fn has_order(
    alloc: Global,
    tries: u64,
    streams: [&str; 2],
    reports: &[Report],
) -> Result<bool, Fail> {
    for digits in 0..64u64 {
        if digits.count_ones() != 3 {
            continue;
        }
        if let Some(said) = said_in(alloc, 3, tries, streams, &order_of(digits))? {
            if said.as_slice() == reports {
                return Ok(true);
            }
        }
    }
    Ok(false)
}

/// Runs of two streams with threads have the reports of some order of lines.
#[test]
fn runs_of_small_streams_have_an_order(rt: HostRuntime) -> Result<(), Fail> {
    let mut dice = Dice {
        state: 0x9e37_79b9_7f4a_7c15,
    };
    let (first_own, second_own) = ([5, 7, 9], [6, 8, 10]);
    for _ in 0..200 {
        let first = small_stream(rt.alloc(), &mut dice, &first_own, &second_own)?;
        let second = small_stream(rt.alloc(), &mut dice, &second_own, &first_own)?;
        let streams = [first.as_str(), second.as_str()];
        for tries in [0, 3] {
            let readers = readers_of(rt.alloc(), &streams, 5)?;
            let options = options(tries, 3, 16);
            let found = run_with(&rt, Mode::Threads, options, readers, Open)?;
            let has_order = has_order(rt.alloc(), tries, streams, &found.reports)?;
            same(&rt, (streams, tries, has_order), (streams, tries, true));
        }
    }
    Ok(())
}
