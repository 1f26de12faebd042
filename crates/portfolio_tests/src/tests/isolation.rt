//! A stream that cites no other stream has only one possible report: runs show it, and their
//! contracts imply it.
ghost use Rattle.std.specs.Prelude.{◌≡◌, [], Some, false, true, codes, length, map, IfOk};
ghost use Rattle.std.specs.List.{AllByRecursion};
ghost use Rattle.stream_check.specs.Excuses.{OutOfMemory, IsExcused};
ghost use Rattle.stream_check.specs.Closed.{CiteWithin, IsOfStream};
ghost use Rattle.run_laws.specs.Groups.{one};
ghost use Rattle.stream_check.specs.SequentialConsistency.{seen_by};
ghost use Rattle.clause_store.specs.Passes.{views};
ghost use Rattle.run_laws.specs.Premises.{FoundStays};
ghost use Rattle.test_support.specs.Worked.{four};
ghost use Rattle.portfolio_tests.specs.Alone.{first_bytes, layout_of_two, AreFullAtMemory};
ghost use Rattle.portfolio_tests.specs.Alone.{HasOnlyReport, HasOrder, IsOnlyReport};

use super::{
    ADDS, BOTH, Machine, Mode, NOTHING, Open, REFUTES, Said, defaults, readers_of, report,
    run_with, same,
};
use lrup_model::Cube;
use lrup_text::Source;
use lrup_text::laws::a_stream_is_cut_in_one_way;
use portfolio::Verdict::{Unknown, Unsatisfiable};
use portfolio::{Outcome, SerialOutcome, run, run_serial};
use run_laws::groups::{match_is_reading, readers_closed};
use std::alloc::Global;
use std::test::Fail;
use stream_check::Ending::Bad;
use stream_check::{Fault, Report};
use test_support::{Pieces, four_clauses};

/// The bytes of the first stream.
const FIRST: &str = "5 2 0 1 2 0\n7 0 5 3 4 0\n";

/// Readers of the two streams, which never fail.
fn two_readers<'a>(
    alloc: Global,
    first: &'a str,
    neighbour: &'a str,
) -> Result<Vec<Pieces<'a>>, Fail>
    ensures two { IfOk result (λ readers. length readers.items ≡ 2) }
    ensures running { IfOk result (λ readers.
        AllByRecursion (λ r. r.failed ≡ false) readers.items) }
    ensures first { IfOk result (λ readers.
        IsOfStream (map (λ r. Some r.left.now) readers.items) 1 (Some first.now)) }
{
    let readers = vec![in alloc; Pieces::new(first, 7, 0), Pieces::new(neighbour, 7, 0)]?;
    Ok(readers)
}

/// A run with threads. Its contract implies three things: the first stream has only one possible
/// report; if no stream found a clause live that is retired at the end, some order of the lines
/// gives the verdict; and a stream that ran out of memory had no room for another dropped identity.
fn run_in_threads<'a, T: Machine>(
    rt: &T,
    first: &'a str,
    neighbour: &'a str,
) -> Result<Outcome<Pieces<'a>>, Fail>
    ensures only { IfOk result (λ outcome. HasOnlyReport first.now outcome.reports.items
        (map (λ r. r.failed) outcome.readers.items)) }
    ensures order { IfOk result (λ outcome. let history = seen_by (views outcome.passes.items) in
        FoundStays four layout_of_two (λ s. true) history → HasOrder outcome.verdict) }
    ensures full { IfOk result (λ outcome.
        AreFullAtMemory outcome.reports.items outcome.dropped.items) }
{
    readers_closed();
    match_is_reading();
    let alloc = rt.alloc();
    let formula = four_clauses(alloc)?;
    let readers = two_readers(alloc, first, neighbour)?;
    let gates = vec![in alloc; Open; readers.len()]?;
    let none = Cube::empty(alloc);
    let outcome = run(rt, alloc, &formula, &none, defaults(), readers, gates)?;
    Ok(outcome)
}

/// A run on one thread. Its contract, too, implies that the first stream has only one possible
/// report.
fn run_on_one_thread<'a, T: Machine>(
    rt: &T,
    first: &'a str,
    neighbour: &'a str,
) -> Result<SerialOutcome<Pieces<'a>>, Fail>
    ensures { IfOk result (λ outcome. HasOnlyReport first.now outcome.reports.items
        (map (λ r. r.failed) outcome.readers.items)) }
{
    readers_closed();
    match_is_reading();
    let alloc = rt.alloc();
    let formula = four_clauses(alloc)?;
    let readers = two_readers(alloc, first, neighbour)?;
    let gates = vec![in alloc; Open; readers.len()]?;
    let none = Cube::empty(alloc);
    let outcome = run_serial(rt, alloc, &formula, &none, defaults(), readers, gates)?;
    Ok(outcome)
}

/// The first report; an error if a read of the first reader failed.
fn first_report(reports: &[Report], readers: &[Pieces<'_>]) -> Result<Report, Fail>
    ensures report { IfOk result (λ report. IsOfStream reports.now 1 report) }
    ensures failed { IfOk result (λ _. IsOfStream (map (λ r. r.failed) readers.now) 1 false) }
{
    match (reports.first(), readers.first()) {
        (Some(report), Some(reader)) if !reader.failed() => Ok(*report),
        _ => Err("no report, or a read that failed".into()),
    }
}

/// The report of the first stream beside this neighbour. It is the only report that the stream may
/// have on its own, unless memory ran out.
fn said_beside<T: Machine>(rt: &T, mode: Mode, neighbour: &str) -> Result<Report, Fail>
    ensures { IfOk result (λ report. ¬ IsExcused OutOfMemory report
        → IsOnlyReport first_bytes report) }
{
    match mode {
        Mode::Threads => {
            let outcome = run_in_threads(rt, FIRST, neighbour)?;
            first_report(&outcome.reports, &outcome.readers)
        }
        Mode::Serial => {
            let outcome = run_on_one_thread(rt, FIRST, neighbour)?;
            first_report(&outcome.reports, &outcome.readers)
        }
    }
}

/// The first stream's report in two runs. The contracts of runs imply that both reports are the
/// same.
fn said_in_two_runs<T: Machine>(
    rt: &T,
    one_run: (Mode, &str),
    other_run: (Mode, &str),
) -> Result<(Report, Report), Fail>
    ensures { IfOk result (λ said.
        ¬ IsExcused OutOfMemory said.0 → ¬ IsExcused OutOfMemory said.1 → said.0 ≡ said.1) }
{
    let first = said_beside(rt, one_run.0, one_run.1)?;
    let second = said_beside(rt, other_run.0, other_run.1)?;
    Ok((first, second))
}

/// A stream that only imports a neighbour's clause isn't closed.
fn an_import_is_open()
    ensures { ¬ CiteWithin layout_of_two (one 2) (codes "5 i 2 0\n") }
{
    a_stream_is_cut_in_one_way();
}

/// The last neighbour deletes a clause of stream 1, twice.
#[test]
fn one_report_beside_each_neighbour(rt: HostRuntime) -> Result<(), Fail> {
    let wanted = (report(REFUTES), report(REFUTES));
    for mode in BOTH {
        for neighbour in ["", "\n", "6 0 5 3 4 0\n", "6 d 5 5 0\n"] {
            let row = (mode, neighbour);
            let said = said_in_two_runs(&rt, (Mode::Serial, ""), row)?;
            same(&rt, (row, said), (row, wanted));
        }
    }
    Ok(())
}

/// Streams on one thread, and the reports of the first two. A third stream doesn't matter to two
/// that cite only each other; a stream that imports a clause depends on its neighbour.
static NEIGHBOURS: [(&[&str], [Said; 2]); 6] = [
    (&[CITES_6, "6 -2 0 3 4 0\n", ""], [REFUTES, ADDS]),
    (&[CITES_6, "6 -2 0 3 4 0\n", "\n"], [REFUTES, ADDS]),
    (&[CITES_6, "6 -2 0 3 4 0\n", "7 0 8 0\n"], [REFUTES, ADDS]),
    (&["5 2 0 1 2 0\n", "5 i 2 0\n"], [ADDS, NOTHING]),
    (
        &["5 1 0 1 3 0\n", "5 i 2 0\n"],
        [ADDS, (0, 0, Unknown, Bad(1, Fault::Differs(5)))],
    ),
    (
        &["", "5 i 2 0\n"],
        [NOTHING, (0, 0, Unknown, Bad(1, Fault::Missing(5)))],
    ),
];

const CITES_6: &str = "5 2 0 1 2 0\n8 0 5 6 0\n";

#[test]
fn two_streams_beside_a_third(rt: HostRuntime) -> Result<(), Fail> {
    an_import_is_open();
    for &(streams, [first, second]) in &NEIGHBOURS {
        for most in [1, 7, usize::MAX] {
            let readers = readers_of(rt.alloc(), streams, most)?;
            let found = run_with(&rt, Mode::Serial, defaults(), readers, Open)?;
            let said = found.reports.get(..2).unwrap_or(&[]);
            let wanted = [report(first), report(second)];
            same(
                &rt,
                (streams, most, said),
                (streams, most, wanted.as_slice()),
            );
        }
    }
    Ok(())
}

/// A refutation, and a prefix of it.
#[test]
fn the_verdict_is_that_of_an_order(rt: HostRuntime) -> Result<(), Fail> {
    for (first, wanted) in [(FIRST, Unsatisfiable), ("5 2 0 1 2 0\n", Unknown)] {
        let outcome = run_in_threads(&rt, first, "6 -2 0 3 4 0\n")?;
        same(&rt, (first, outcome.verdict), (first, wanted));
    }
    Ok(())
}
