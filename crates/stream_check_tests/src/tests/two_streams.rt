//! Two streams over one map, in turn.
ghost use Rattle.std.specs.Prelude.{◌≡◌, ◌≤◌, IfOk};
ghost use Rattle.checker_support.specs.Opened.{IsPlainOpened};
ghost use Rattle.lrup_model.specs.Event.{History};
ghost use Rattle.lrup_model.specs.Layout.{IsStream};
ghost use Rattle.lrup_model.specs.Plain.{PlainMoves, plain_caller_view};
ghost use Rattle.stream_check.specs.Checker.{IsReadyAt};

use super::{GateCalls, NO_CALLS, Options, TWO_STREAMS, feed_whole, parts, same, shown};
use checker_support::{checker_at, open_map};
use lrup_model::PlainMap;
use std::alloc::Global;
use std::process::Abort;
use std::test::Fail;
use stream_check::laws::ready_beside;
use stream_check::{Checker, Report};

/// The checkers of streams 1 and 2, their gates, and their map.
#[derive(Drop)]
struct Two {
    map: PlainMap,
    first: Checker,
    second: Checker,
    first_calls: GateCalls,
    second_calls: GateCalls,
    ghost streams: { 2 ≤ map.layout.streams },
    ghost first_ready: { IsReadyAt first (plain_caller_view map 1) },
    ghost second_ready: { IsReadyAt second (plain_caller_view map 2) },
}

/// Feeds a piece of stream `s`, through the stream's desk.
fn feed_at(map: &mut PlainMap, s: u64, checker: &mut Checker, gate: &mut GateCalls, piece: &[u8])
    requires stream { IsStream map.old.layout s }
    requires ready { IsReadyAt checker.old (plain_caller_view map.old s) }
    ensures moves { (es : History) × PlainMoves map.old map.new s es }
    ensures ready { IsReadyAt checker.new (plain_caller_view map.new s) }
    ensures params { checker.new.params ≡ checker.old.params }
{
    feed_whole(checker, &mut map.desk(s), gate, piece);
}

/// The checkers of streams 1 and 2 over a map that was just opened.
fn two_checkers(alloc: Global, map: &PlainMap, tries: u64) -> Result<(Checker, Checker), Fail>
    requires { IsPlainOpened map.now }
    ensures streams { IfOk result (λ _. 2 ≤ map.now.layout.streams) }
    ensures first { IfOk result (λ both. IsReadyAt both.0 (plain_caller_view map.now 1)) }
    ensures second { IfOk result (λ both. IsReadyAt both.1 (plain_caller_view map.now 2)) }
{
    let first = checker_at(alloc, map, 1, tries)?;
    let second = checker_at(alloc, map, 2, tries)?;
    Ok((first, second))
}

impl Two {
    fn open(alloc: Global, options: Options<'_>) -> Result<Two, Fail> {
        let map = open_map(alloc, options.streams, options.lines, options.room)?;
        let (first, second) = two_checkers(alloc, &map, options.tries)?;
        Ok(Two {
            map,
            first,
            second,
            first_calls: NO_CALLS,
            second_calls: NO_CALLS,
        })
    }

    fn feed_first(&mut self, piece: &[u8]) {
        ready_beside();
        feed_at(
            &mut self.map,
            1,
            &mut self.first,
            &mut self.first_calls,
            piece,
        );
    }

    fn feed_second(&mut self, piece: &[u8]) {
        ready_beside();
        feed_at(
            &mut self.map,
            2,
            &mut self.second,
            &mut self.second_calls,
            piece,
        );
    }

    /// Feeds a piece to the stream whose number precedes it, as in `1 5 d 0`.
    fn feed(&mut self, turn: &str) -> Result<(), Fail> {
        match turn.split_once(' ') {
            Some(("1", piece)) => self.feed_first(piece.as_bytes()),
            Some(("2", piece)) => self.feed_second(piece.as_bytes()),
            _ => return Err("no such stream".into()),
        }
        Ok(())
    }

    /// Ends both streams, and returns their reports.
    fn end(&mut self) -> Result<[Report; 2], Fail> {
        self.first.end();
        self.second.end();
        if !self.first.is_over() || !self.second.is_over() {
            return Err("not over".into());
        }
        Ok([self.first.report(), self.second.report()])
    }
}

/// The reports of two streams whose pieces come in these turns, which are separated by `|`.
fn judged(alloc: Global, options: Options<'_>, turns: &str) -> Result<String, Fail> {
    let mut two = Two::open(alloc, options)?;
    for turn in turns.split('|') {
        two.feed(turn)?;
    }
    let [first, second] = two.end()?;
    let first = shown(alloc, first, two.first_calls, 0)?;
    let second = shown(alloc, second, two.second_calls, 0)?;
    Ok(format!(in alloc; "{first} | {second}")?)
}

/// Checks the reports and the calls of the two streams of each row.
pub fn are_judged(rt: &impl Abort, alloc: Global, rows: &[&str]) -> Result<(), Fail> {
    for row in rows {
        let (options, turns, reports) = parts(TWO_STREAMS, row)?;
        let found = judged(alloc, options, turns)?;
        same(rt, (*row, found.as_str()), (*row, reports));
    }
    Ok(())
}

static FOUND: &[&str] = &[
    "tries=0: 2 6 -2 0 3 4 0\n|1 5 2 0 1 2 0\n7 0 5 6 0\n => \
     2 added, 0 deleted, ended, empty, within; fetches 4 | 1 added, 0 deleted, ended; fetches 2",
    // A line is checked only when it ends, so the publish may come between two of its pieces.
    "tries=0: 1 5 -2 0 6|2 6 -2 0 3 4 0\n|1  0\n => \
     1 added, 0 deleted, ended; fetches 1 | 1 added, 0 deleted, ended; fetches 2",
];

#[test]
fn a_foreign_hint_is_found_after_its_publish(rt: HostRuntime) -> Result<(), Fail> {
    are_judged(&rt, rt.alloc(), FOUND)
}

static TOO_LATE: &[&str] = &[
    "tries=0: 1 5 -2 0 6 0\n|2 6 -2 0 3 4 0\n|1 5 -2 0 6 0\n => \
     0 added, 0 deleted, bad line 1 (missing 6); fetches 1 | \
     1 added, 0 deleted, ended; fetches 2",
    "tries=7: 1 5 -2 0 6 0\n|2 6 -2 0 3 4 0\n|1 5 -2 0 6 0\n => \
     0 added, 0 deleted, bad line 1 (missing 6); fetches 8, attempts 8 | \
     1 added, 0 deleted, ended; fetches 2",
];

#[test]
fn a_hint_that_comes_too_late_is_missing(rt: HostRuntime) -> Result<(), Fail> {
    are_judged(&rt, rt.alloc(), TOO_LATE)
}

static RETIRED_BY_ITS_OWNER: &[&str] = &[
    "2 6 -2 0 3 4 0\n|1 5 -2 0 6 0\n|2 6 d 6 0\n|1 7 -2 0 6 0\n => \
     1 added, 0 deleted, bad line 2 (retired 6); fetches 2 | \
     1 added, 1 deleted, ended; fetches 2",
];

#[test]
fn a_hint_that_its_owner_retired_is_retired(rt: HostRuntime) -> Result<(), Fail> {
    are_judged(&rt, rt.alloc(), RETIRED_BY_ITS_OWNER)
}

static DROPPED_BY_ONE: &[&str] = &[
    "2 6 -2 0 3 4 0\n|1 5 d 6 1 0\n|2 8 0 6 1 2 0\n6 d 6 0\n|1 5 -2 0 6 0\n => \
     0 added, 2 deleted, bad line 2 (dropped 6); fetches 0 | \
     2 added, 1 deleted, ended, empty, within; fetches 5",
    "1 5 d 6 1 0\n|2 6 -2 0 3 4 0\n|1 5 -2 0 6 0\n|2 8 0 6 1 2 0\n6 d 6 0\n => \
     0 added, 2 deleted, bad line 2 (dropped 6); fetches 0 | \
     2 added, 1 deleted, ended, empty, within; fetches 5",
];

/// A clause that one stream drops stays live for the other, whether it is published before or after
/// the drop: nothing is retired.
#[test]
fn a_foreign_deletion_drops_for_one_stream(rt: HostRuntime) -> Result<(), Fail> {
    are_judged(&rt, rt.alloc(), DROPPED_BY_ONE)
}

/// Streams don't share room; and the second stream's identities are 6 and 8.
static EACH_ITS_OWN: &[&str] = &[
    "1 5 1 2 0 1 0\n7 2 0 1 2 0\n|2 6 1 2 0 1 0\n => \
     1 added, 0 deleted, bad line 2 (no room); fetches 1 | 1 added, 0 deleted, ended; fetches 1",
    "2 5 2 0 1 2 0\n => \
     0 added, 0 deleted, ended; fetches 0 | 0 added, 0 deleted, bad line 1 (identity); fetches 0",
    "2 8 2 0 1 2 0\n => \
     0 added, 0 deleted, ended; fetches 0 | 1 added, 0 deleted, ended; fetches 2",
    "2 10 2 0 1 2 0\n => \
     0 added, 0 deleted, ended; fetches 0 | 0 added, 0 deleted, bad line 1 (identity); fetches 0",
    "2 5 d 7 0\n => \
     0 added, 0 deleted, ended; fetches 0 | 0 added, 1 deleted, ended; fetches 0",
    "2 5 d 9 0\n => \
     0 added, 0 deleted, ended; fetches 0 | 0 added, 0 deleted, bad line 1 (not live 9); fetches 0",
];

#[test]
fn room_and_identities_are_not_shared(rt: HostRuntime) -> Result<(), Fail> {
    are_judged(&rt, rt.alloc(), EACH_ITS_OWN)
}
