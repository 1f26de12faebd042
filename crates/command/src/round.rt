//! One round: its streams are checked, and their clauses saved.
ghost use Rattle.std.specs.Prelude.{◌≡◌, ◌↔◌, ◌<◌, ◌+◌, false, IfErr, IfOk, IsTrue, List, is_some, length, option_map, string_bytes};
ghost use Rattle.std.specs.Cow.{cow_str_bytes, cow_value};
ghost use Rattle.std.specs.List.{AllByRecursion};
ghost use Rattle.std.specs.Option.{ForSome};
ghost use Rattle.lrup_model.specs.Formula.{Cnf};
ghost use Rattle.run_outcome.specs.Saving.{CanBeSaved};
ghost use Rattle.command_line.specs.CommandLine.{rounds_of};
ghost use Rattle.run_files.specs.Causes.{HasNoFault, IsRoundStartCause};
ghost use Rattle.run_files.specs.Asked.{created_path, options_by, path_of, run_params_by};
ghost use Rattle.run_files.specs.Paths.{formula_path};
ghost use Rattle.command.specs.Rounds.{HaveEnded};
ghost use Rattle.command.specs.internal.RoundProgress.{WasFound};
ghost use Rattle.command.specs.internal.Running.{IsCheckResult};
ghost use Rattle.run_files.specs.Saving.{CreatesCheckpoint};

use crate::course::{CheckedRound, Course, OpenRound, RoundResult};
use crate::running::run_streams;
use crate::watching::now_if;
use command_line::{Next, Sizes};
use portfolio::{Checked, Options, Verdict};
use run_files::{CommandFault, Machine, Viewed, close_checkpoint, create_checkpoint, discard_it};
use std::alloc::{AllocError, Global};
use std::borrow::CowStr;
use std::sync::Wait;
use std::thread::Threads;
use std::time::Clock;
use stream_check::{Ending, Report};

/// Checks a round whose streams are open, and saves their clauses if the words ask for that.
/// Streams that have no layout are refused before the file for the clauses is created.
pub(crate) fn check_round<T: Threads + Wait + Sync, C: Clock + Sync, F: Machine>(
    threads: &T,
    clock: &C,
    alloc: Global,
    course: &Course<'_>,
    round: OpenRound<'_, F::Input>,
    files: &mut F,
) -> Result<RoundResult, CommandFault>
    requires running { AllByRecursion (λ r. F.Input.Source.has_failed r ≡ false)
        round.readers.items }
    requires count { length round.readers.items ≡ round.sizes.streams }
    requires number { round.number < u64.MAX }
    ensures found { IfOk result (λ found. WasFound ⟦<F as Viewed>⟧.effects course.now.line.now
        course.now.cube.now (cow_value round.entry.formula) round.entry.readers.items files.old
        found.last found.next files.new) }
    ensures number { IfOk result (λ found. found.last.number ≡ round.entry.number) }
    ensures sizes { IfOk result (λ found. found.last.sizes ≡ round.entry.sizes) }
    ensures cause { IfErr result (λ fault. IsRoundStartCause ⟦<F as Viewed>⟧.effects
        course.now.line.now course.now.cube.now round.entry.number (cow_value round.entry.formula)
        round.entry.sizes round.entry.readers.items files.old fault files.new) }
{
    let path = created_path(alloc, course.line.next, round.number)?;
    let options = course.options(round.sizes);
    options.layout(round.formula.as_ref(), round.readers.len())?;
    let output = create_checkpoint(files, lent(&path))?;
    run_round(threads, clock, alloc, course, options, round, output, files)
}

/// Checks the streams of a round, which have a layout; then frees the round's formula, unless it is
/// lent, and ends the round. After a fault of the run, discards the round's file, if there is one.
fn run_round<T: Threads + Wait + Sync, C: Clock + Sync, F: Machine>(
    threads: &T,
    clock: &C,
    alloc: Global,
    course: &Course<'_>,
    options: Options,
    round: OpenRound<'_, F::Input>,
    output: Option<F::Output>,
    files: &mut F,
) -> Result<RoundResult, CommandFault>
    requires running { AllByRecursion (λ r. F.Input.Source.has_failed r ≡ false)
        round.readers.items }
    requires count { length round.readers.items ≡ round.sizes.streams }
    requires options { options ≡ options_by course.now.line.now.tries round.sizes }
    requires output { ForSome output (λ sink. F.Output.Sink.has_failed sink ≡ false) }
    requires layout { HasNoFault
        (run_params_by course.now.line.now course.now.cube.now (cow_value round.formula)
        round.sizes).layout }
    ensures found { let its = ⟦<F as Viewed>⟧.effects in
        let path = created_path course.now.line.now.next round.entry.number in
        (before : F) → CreatesCheckpoint its before path output files.old
        → IfOk result (λ found. WasFound its course.now.line.now course.now.cube.now
        (cow_value round.entry.formula) round.entry.readers.items before found.last found.next
        files.new) }
    ensures number { IfOk result (λ found. found.last.number ≡ round.entry.number) }
    ensures sizes { IfOk result (λ found. found.last.sizes ≡ round.entry.sizes) }
    ensures cause { let its = ⟦<F as Viewed>⟧.effects in
        let path = created_path course.now.line.now.next round.entry.number in
        (before : F) → CreatesCheckpoint its before path output files.old
        → IfErr result (λ fault. IsRoundStartCause its course.now.line.now course.now.cube.now
        round.entry.number (cow_value round.entry.formula) round.entry.sizes
        round.entry.readers.items before fault files.new) }
{
    let OpenRound {
        number,
        sizes,
        formula,
        readers,
    } = round;
    let report_on = course.line.watch.then_some(&*files);
    let run = match run_streams(
        threads,
        clock,
        alloc,
        course,
        options,
        formula.as_ref(),
        report_on,
        readers,
    ) {
        Ok(run) => run,
        Err(fault) => {
            discard_it(files, output);
            return Err(fault);
        }
    };
    drop(formula);
    let result = close_round(clock, alloc, course, number, sizes, run, output, files);
    Ok(result)
}

/// Ends a round whose streams were checked. If it has a file, saves the clauses that the streams
/// left, unless the verdict is 'unsatisfiable', and closes the file. Makes the next formula, if the
/// run continues.
fn close_round<C: Clock + Sync, F: Machine>(
    clock: &C,
    alloc: Global,
    course: &Course<'_>,
    number: u64,
    sizes: Sizes,
    run: Checked,
    output: Option<F::Output>,
    files: &mut F,
) -> RoundResult
    requires streams { 0 < sizes.streams }
    requires ready { CanBeSaved run.clauses }
    requires output { ForSome output (λ sink. F.Output.Sink.has_failed sink ≡ false) }
    // If the check of a round had the results in `run`, the round ended as `WasFound` says.
    ensures found { let its = ⟦<F as Viewed>⟧.effects in
        let line = course.now.line.now in
        let cube = course.now.cube.now in
        (formula : Cnf) (readers : List F.Input) (before : F) → length readers ≡ sizes.streams
        → IsCheckResult its.reading line.serial formula (run_params_by line cube formula sizes)
        readers run.reports.items run.verdict run.clauses run.dropped.items
        → CreatesCheckpoint its before (created_path line.next number) output files.old
        → WasFound its line cube formula readers before result.last result.next files.new }
    ensures number { result.last.number ≡ number }
    ensures sizes { result.last.sizes ≡ sizes }
{
    let Checked {
        reports,
        verdict,
        clauses,
        dropped,
    } = run;
    let ended_at = now_if(
        clock,
        course.line.next.asks_for_rounds() && course.line.watch,
    );
    let goes_on = may_continue(course.line.next, verdict, &reports);
    let closed = close_checkpoint(alloc, files, verdict, clauses, &dropped, goes_on, output);
    let last = CheckedRound {
        number,
        sizes,
        reports,
        verdict,
        unsaved: closed.unsaved,
        ended_at,
    };
    RoundResult {
        last,
        next: closed.next,
    }
}

/// Whether the run continues after a round, if its clauses are saved: the words ask for rounds, the
/// verdict is 'unknown', and all streams ended.
fn may_continue(next: Next<'_>, verdict: Verdict, reports: &[Report]) -> bool
    ensures { IsTrue result ↔ ((IsTrue (is_some (rounds_of next.entry)))
        × ((verdict ≡ Verdict.Unknown) × HaveEnded reports.now)) }
{
    next.asks_for_rounds() && verdict == Verdict::Unknown && have_ended(reports)
}

/// Whether all streams ended.
fn have_ended(reports: &[Report]) -> bool
    ensures { IsTrue result ↔ HaveEnded reports.now }
{
    reports
        .iter()
        .all(|report| matches!(report.ending, Ending::Ended))
}

/// The path of the file to which the round with this number saves its clauses, if the words ask for
/// that.
fn created_path<'a>(
    alloc: Global,
    next: Next<'a>,
    number: u64,
) -> Result<Option<CowStr<'a>>, AllocError>
    requires number { number < u64.MAX }
    ensures { IfOk result (λ path.
        option_map cow_str_bytes path ≡ created_path next.entry number) }
{
    match next {
        Next::Nothing => Ok(None),
        Next::Checkpoint(path) => Ok(Some(CowStr::Borrowed(path))),
        Next::Rounds(folder) => {
            let path = formula_path(alloc, folder, number + 1)?;
            Ok(Some(CowStr::Owned(path)))
        }
    }
}

/// Borrows the path.
fn lent<'a>(path: &'a Option<CowStr<'_>>) -> Option<&'a str>
    ensures { path_of result ≡ option_map cow_str_bytes path.now }
{
    match path {
        None => None,
        Some(path) => Some(path.as_str()),
    }
}

/// The path of a round's formula.
fn formula_path(alloc: Global, folder: &str, number: u64) -> Result<String, AllocError>
    ensures { IfOk result (λ path. string_bytes path ≡ formula_path folder.now number) }
{
    format!(in alloc; "{folder}/round-{number}.cnf")
}
