//! Streams that run out of memory. Normally they don't, but `rt try --test --fail-alloc N` runs
//! these tests with one allocation refused.
ghost use Rattle.std.specs.Prelude.{IsSome, IsTrue};
ghost use Rattle.lrup_model.specs.Layout.{IsStream};
ghost use Rattle.lrup_model.specs.Plain.{plain_caller_view};
ghost use Rattle.stream_check.specs.Checker.{IsReadyAt};

use super::{NO_CALLS, same};
use checker_support::{checker_at, open_map};
use lrup_model::{ClauseMap, PlainMap};
use std::alloc::Global;
use std::process::Abort;
use std::test::Fail;
use stream_check::{CheckStatus, Checker, Ending, Report};

/// The first line, an addition of three literals, needs no memory. Each later line drops one more
/// identity, and the second line first retires one of the stream's own. So if line `L` is refused
/// memory, `L - 1` identities have already been deleted.
const LINES: &str = "5 1 2 1 0 1 0\n5 d 5 1 0\n\
    5 d 2 0\n5 d 3 0\n5 d 4 0\n5 d 6 0\n5 d 8 0\n5 d 10 0\n5 d 12 0\n5 d 14 0\n5 d 16 0\n\
    5 d 18 0\n5 d 20 0\n5 d 22 0\n5 d 24 0\n5 d 26 0\n5 d 28 0\n5 d 30 0\n5 d 32 0\n5 d 34 0\n";

/// Feeds a line, all of which is used, and returns whether the checker is then finished.
fn feed_line<R: Abort, M: ClauseMap>(rt: &R, checker: &mut Checker, map: &mut M, line: &str) -> bool
    requires { IsReadyAt checker.old (M.caller_view map.old) }
    ensures ready { IsReadyAt checker.new (M.caller_view map.new) }
    ensures finished { IsTrue result → IsSome checker.new.ending }
{
    let progress = checker.feed(map, &mut NO_CALLS, line.as_bytes());
    let is_over = checker.is_over();
    let status = if is_over {
        CheckStatus::Over
    } else {
        CheckStatus::Line
    };
    let found = (line, progress.used, progress.status);
    same(rt, found, (line, line.len(), status));
    is_over
}

/// Feeds `LINES` one by one. If the checker is finished early, it has used the whole line.
fn feed_lines<R: Abort, M: ClauseMap>(rt: &R, checker: &mut Checker, map: &mut M)
    requires { IsReadyAt checker.old (M.caller_view map.old) }
    ensures { IsSome checker.new.ending }
{
    for line in LINES.split_inclusive('\n') {
        if feed_line(rt, checker, map, line) {
            stays_finished(rt, checker, map);
            break;
        }
    }
    checker.end();
}

/// Checks that a further line changes nothing.
fn stays_finished<R: Abort, M: ClauseMap>(rt: &R, checker: &mut Checker, map: &mut M)
    requires ready { IsReadyAt checker.old (M.caller_view map.old) }
    requires finished { IsSome checker.old.ending }
{
    let said = checker.report();
    let more = fed_more(checker, map);
    same(rt, (more, checker.report()), ((0, CheckStatus::Over), said));
}

/// How many bytes of a further line are used, and with what status.
fn fed_more<M: ClauseMap>(checker: &mut Checker, map: &mut M) -> (usize, CheckStatus)
    requires ready { IsReadyAt checker.old (M.caller_view map.old) }
    requires finished { IsSome checker.old.ending }
    ensures { IsSome checker.new.ending }
{
    let more = checker.feed(map, &mut NO_CALLS, b"7 2 0 1 2 0\n");
    (more.used, more.status)
}

/// Feeds the checker `LINES` through stream 1's desk, and returns its report.
fn said_at_desk<R: Abort>(rt: &R, map: &mut PlainMap, checker: &mut Checker) -> Report
    requires stream { IsStream map.old.layout 1 }
    requires ready { IsReadyAt checker.old (plain_caller_view map.old 1) }
{
    feed_lines(rt, checker, &mut map.desk(1));
    checker.report()
}

/// The report of a new checker that was fed `LINES`.
fn said_of_lines(rt: &impl Abort, alloc: Global) -> Result<Report, Fail> {
    let mut map = open_map(alloc, 2, 15, 2)?;
    let mut checker = checker_at(alloc, &map, 1, 0)?;
    Ok(said_at_desk(rt, &mut map, &mut checker))
}

/// The report of one good addition and this many deleted identities, with this ending.
fn ends_after(deleted: u64, ending: Ending) -> Report {
    Report {
        added: 1,
        deleted,
        empty: false,
        within: false,
        ending,
    }
}

/// What came before a refused growth stays counted, including earlier identities of the same line.
#[test]
fn a_refused_growth_ends_the_reading(rt: HostRuntime) -> Result<(), Fail> {
    let said = said_of_lines(&rt, rt.alloc())?;
    let wanted = match said.ending {
        Ending::Memory(line) => ends_after(line.saturating_sub(1), said.ending),
        _ => ends_after(20, Ending::Ended),
    };
    same(&rt, said, wanted);
    Ok(())
}

/// This test fails if a growth is refused, and its failure shows that this happened.
#[test]
fn every_growth_has_memory(rt: HostRuntime) -> Result<(), Fail> {
    let said = said_of_lines(&rt, rt.alloc())?;
    same(&rt, said, ends_after(20, Ending::Ended));
    Ok(())
}
