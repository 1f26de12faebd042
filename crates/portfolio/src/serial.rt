//! A run on one thread that takes one line of each stream in turn.
ghost use Rattle.std.specs.Prelude.{◌≡◌, ◌↔◌, ◌≢◌, true, false, ℕ, IfOk, Err, length, vec_len};
ghost use Rattle.std.specs.List.{AllByRecursion};
ghost use Rattle.lrup_model.specs.Cube.{IsUnsatisfiableUnder};
ghost use Rattle.lrup_model.specs.Entailment.{IsUnsatisfiable};
ghost use Rattle.lrup_model.specs.Layout.{IsFault};
ghost use Rattle.lrup_model.specs.declared.layout.LayoutFault.{LayoutFault};
ghost use Rattle.lrup_model.specs.Plain.{formula_of, plain_state};
ghost use Rattle.lrup_model.specs.State.{state};
ghost use Rattle.stream_check.specs.Readings.{readers_view};
ghost use Rattle.run_laws.specs.Groups.{AreIsolated};
ghost use Rattle.run_outcome.specs.Histories.{IsRunOf, TakeTurns};
ghost use Rattle.run_outcome.specs.Outcomes.{layout_of, run_params_of, verdict_of};

use lrup_model::{Cube, Formula, PlainMap};
use lrup_text::Source;
use run_laws::groups::run_isolated;
use run_outcome::{Options, RunFault, SerialOutcome, Verdict};
use std::alloc::Global;
use std::sync::Wait;
use stream_check::{Gate, RunParams};
use stream_turns::{StreamResults, check_all};

/// Checks all streams of a formula on this thread, round-robin from stream 1 on: in its turn a
/// stream is read until one line has been taken or the stream is finished. The outcome has a report
/// for each stream, and the verdict: whether a stream added the empty clause, or a clause that the
/// cube of assumed literals falsifies. Each reader has a gate. The code allocates all memory before
/// the first read, except for the identities that streams drop. The call blocks while a reader
/// does. Its only faults are `Layout` and `Memory`.
pub fn run_serial<W: Wait, R: Source + Drop, G: Gate + Drop>(
    wait: &W,
    alloc: Global,
    formula: &Formula,
    cube: &Cube,
    options: Options,
    readers: Vec<R>,
    gates: Vec<G>,
) -> Result<SerialOutcome<R>, RunFault>
    requires gates { vec_len gates ≡ vec_len readers }
    requires running { AllByRecursion (λ r. R.has_failed r ≡ false) readers.items }
    // The result is `Layout` exactly if there is no layout for the formula, the options and this
    // number of streams.
    ensures layout { (fault : LayoutFault) → (result ≡ Err (RunFault.Layout fault))
        ↔ IsFault (layout_of options formula.now (length readers.items)) fault }
    ensures no_threads { (stream : ℕ) → (result ≢ Err (RunFault.Spawn stream))
        × (result ≢ Err (RunFault.Ring stream)) }
    // There is a run with this outcome, over the readers' bytes and what their reads gave. The map
    // is as the run's history leaves it. The run's groups of streams are isolated. The history is
    // the history of an order of lines that takes one line of each stream in turn.
    ensures ordered { let run_params = run_params_of options cube.now formula.now
        (length readers.items) in
        IfOk result (λ outcome. (ran : IsRunOf (readers_view R.Source) formula.now run_params
        readers.items outcome.readers.items outcome.reports.items outcome.dropped.items)
        × ((plain_state outcome.map ≡ state formula.now ran.run.history) × AreIsolated ran.run
        × TakeTurns formula.now run_params ran.run.history ran.run.streams
        outcome.reports.items)) }
    ensures verdict { IfOk result (λ outcome.
        outcome.verdict ≡ verdict_of outcome.reports.items) }
    // The outcome keeps the clauses, so that they can be saved.
    ensures kept { IfOk result (λ outcome. (formula_of outcome.map ≡ formula.now)
        × (outcome.map.layout ≡ layout_of options formula.now (length readers.items))) }
    // What a user relies on.
    ensures sound { IfOk result (λ outcome.
        outcome.verdict ≡ Verdict.Unsatisfiable → IsUnsatisfiable formula.now) }
    ensures sound_under { IfOk result (λ outcome. outcome.verdict ≡ Verdict.UnsatisfiableUnder
        → IsUnsatisfiableUnder formula.now cube.now) }
{
    let layout = options.layout(formula, readers.len())?;
    let run_params = RunParams::new(&layout, cube, options.tries());
    let mut map = PlainMap::open(alloc, formula, &layout)?;
    let found = check_all(wait, alloc, &mut map, &run_params, readers, gates)?;
    // A law, with no effect at run time: the proof of `ordered` uses its contract.
    run_isolated();
    Ok(outcome_of(map, found))
}

/// The outcome with these results of the streams and the map that they left.
fn outcome_of<R: Drop>(map: PlainMap, found: StreamResults<R>) -> SerialOutcome<R>
    ensures reports { result.reports ≡ found.reports }
    ensures readers { result.readers ≡ found.readers }
    ensures dropped { result.dropped ≡ found.dropped }
    ensures kept { result.map ≡ map }
    ensures verdict { result.verdict ≡ verdict_of result.reports.items }
{
    let StreamResults {
        reports,
        readers,
        dropped,
    } = found;
    let verdict = Verdict::of(&reports);
    SerialOutcome {
        reports,
        verdict,
        map,
        readers,
        dropped,
    }
}
