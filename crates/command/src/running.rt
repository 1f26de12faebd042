//! Checks streams: each in two threads of its own, or all on one thread.
ghost use Rattle.std.specs.Prelude.{◌≡◌, false, IfErr, IfOk, length, vec_len};
ghost use Rattle.std.specs.List.{AllByRecursion};
ghost use Rattle.run_outcome.specs.Saving.{CanBeSaved};
ghost use Rattle.command.specs.internal.Running.{IsRunCause, IsCheckResult};
ghost use Rattle.run_outcome.specs.Outcomes.{run_params_of};
ghost use Rattle.stream_check.specs.Readings.{readers_view};

use crate::course::Course;
use lrup_model::Formula;
use portfolio::{Checked, Options, Pause, Watch, run, run_serial};
use run_files::{CommandFault, Machine};
use std::alloc::{AllocError, Global};
use std::sync::Wait;
use std::thread::Threads;
use std::time::Clock;

/// Checks the streams, round-robin on this thread or each in two threads of its own. If `report_on`
/// is given, its watchers report the progress.
pub(crate) fn run_streams<T: Threads + Wait + Sync, C: Clock + Sync, F: Machine>(
    threads: &T,
    clock: &C,
    alloc: Global,
    course: &Course<'_>,
    options: Options,
    formula: &Formula,
    report_on: Option<&F>,
    readers: Vec<F::Input>,
) -> Result<Checked, CommandFault>
    requires running { AllByRecursion (λ r. F.Input.Source.has_failed r ≡ false) readers.items }
    ensures result_is { let run_params = run_params_of options course.now.cube.now
        formula.now (length readers.items) in
        IfOk result (λ run. IsCheckResult (readers_view F.Input.Source) course.now.line.now.serial
        formula.now run_params readers.items run.reports.items run.verdict run.clauses
        run.dropped.items) }
    ensures ready { IfOk result (λ run. CanBeSaved run.clauses) }
    ensures cause { let run_params = run_params_of options course.now.cube.now
        formula.now (length readers.items) in
        IfErr result (IsRunCause (readers_view F.Input.Source) course.now.line.now.serial
        formula.now run_params readers.items) }
{
    let serial = course.line.serial;
    let gates = gates(alloc, clock, !serial, report_on, readers.len())?;
    if serial {
        let outcome = run_serial(
            threads,
            alloc,
            formula,
            course.cube,
            options,
            readers,
            gates,
        )?;
        return Ok(outcome.into_checked());
    }
    let outcome = run(
        threads,
        alloc,
        formula,
        course.cube,
        options,
        readers,
        gates,
    )?;
    Ok(outcome.into_checked())
}

/// One gate for each of `count` streams. If `pauses`, it waits for clauses of other streams. If
/// `report_on` is given, each gate reports to a watcher of its own.
fn gates<'a, C: Clock + Sync, F: Machine>(
    alloc: Global,
    clock: &'a C,
    pauses: bool,
    report_on: Option<&F>,
    count: usize,
) -> Result<Vec<Watch<Pause<&'a C>, &'a C, F::Watcher>>, AllocError>
    ensures { IfOk result (λ gates. vec_len gates ≡ count) }
{
    let mut gates = Vec::with_capacity(alloc, count)?;
    for _gate in 0..count {
        let pause = pauses.then_some(Pause::new(clock));
        gates.push_reserved(Watch::new(pause, clock, watcher_of(report_on)));
    }
    Ok(gates)
}

/// A new watcher, if `report_on` is given.
fn watcher_of<F: Machine>(report_on: Option<&F>) -> Option<F::Watcher> {
    match report_on {
        None => None,
        Some(files) => Some(files.watcher()),
    }
}
