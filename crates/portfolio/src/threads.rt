//! A run with two threads for each stream. All threads share the store of clauses and the start
//! signal, and the two threads of a stream share a ring.
ghost use Rattle.std.specs.Prelude.{◌≡◌, ◌≢◌, ◌↔◌, ◌+◌, false, ℕ, List, Err, IfOk, length, vec_len};
ghost use Rattle.std.specs.List.{AllByRecursion};
ghost use Rattle.lrup_model.specs.Cube.{IsUnsatisfiableUnder};
ghost use Rattle.lrup_model.specs.Entailment.{IsUnsatisfiable};
ghost use Rattle.lrup_model.specs.Layout.{IsFault, IsLayout, IsStream};
ghost use Rattle.lrup_model.specs.declared.layout.LayoutFault.{LayoutFault};
ghost use Rattle.lrup_model.specs.Pass.{AreSynced, View};
ghost use Rattle.clause_store.specs.Passes.{AreOf, IsOpened, ShareHistory, views};
ghost use Rattle.stream_check.specs.Each.{Each};
ghost use Rattle.stream_check.specs.Readings.{readers_view};
ghost use Rattle.stream_check.specs.SequentialConsistency.{HaveOneHistory, seen_by};
ghost use Rattle.stream_threads.specs.Jobs.{IsJob, StreamResultsValue};
ghost use Rattle.run_outcome.specs.Histories.{AreReadOut, IsRunOf};
ghost use Rattle.run_outcome.specs.Outcomes.{layout_of, run_params_of, verdict_of};
ghost use Rattle.run_outcome.specs.RingStops.{StopsAtRing};
ghost use Rattle.run_laws.specs.Groups.{AreIsolated};
ghost use Rattle.run_laws.specs.Serializable.{IsSerializable};

use clause_store::Store;
use lrup_model::{Cube, Formula};
use lrup_text::Source;
use run_laws::groups::run_isolated;
use run_laws::orders::run_serializable;
use run_outcome::{Options, Outcome, RunFault, Verdict};
use std::alloc::Global;
use std::sync::Wait;
use std::thread::Threads;
use stream_check::{Gate, RunParams};
use stream_threads::{
    StartSignal, StreamJobs, StreamResults, ThreadFault, ThreadLists, check_all, jobs_of,
};

/// Checks all streams of a formula, with two threads for each: one reads the stream's bytes to the
/// end, and the other checks them against the store of clauses, which all streams share. The
/// outcome has a report for each stream, and the verdict: whether a stream added the empty clause,
/// or a clause that the cube of assumed literals falsifies. Element k of `readers`, of `gates` and
/// of the outcome's lists belongs to stream k + 1.
///
/// All lists and buffers are made before the first thread starts. After that, only two things
/// allocate: starting a thread, which fails without memory (`RunFault::Spawn`), and keeping dropped
/// identities, which without memory ends the stream's check (`Ending::Memory`). No reader is read
/// before all threads have started. The code does all this; no contract says so. `run` returns when
/// all threads have ended, so it blocks while a reader does. `RunFault` lists the faults; after a
/// fault there are no reports.
pub fn run<T: Threads + Wait + Sync, R: Source + Send + Drop, G: Gate + Send + Drop>(
    threads: &T,
    alloc: Global,
    formula: &Formula,
    cube: &Cube,
    options: Options,
    readers: Vec<R>,
    gates: Vec<G>,
) -> Result<Outcome<R>, RunFault>
    requires gates { vec_len gates ≡ vec_len readers }
    requires running { AllByRecursion (λ r. R.has_failed r ≡ false) readers.items }
    // The result is `Layout` exactly if there is no layout for the formula, the options and this
    // number of streams.
    ensures layout { (fault : LayoutFault) → (result ≡ Err (RunFault.Layout fault))
        ↔ IsFault (layout_of options formula.now (length readers.items)) fault }
    ensures spawn { (stream : ℕ) → result ≡ Err (RunFault.Spawn stream)
        → IsStream (layout_of options formula.now (length readers.items)) stream }
    // With `Ring`, there are correct reports for the streams before the one that the fault names,
    // and that stream's reader was read to its end.
    ensures ring { let run_params = run_params_of options cube.now formula.now
        (length readers.items) in
        (stream : ℕ) → result ≡ Err (RunFault.Ring stream)
        → StopsAtRing (readers_view R.Source) formula.now run_params readers.items stream }
    // One legal history contains each stream's calls, each once and in order, with their replies.
    ensures history { IfOk result (λ outcome. let passes = views outcome.passes.items in
        HaveOneHistory formula.now (layout_of options formula.now (length readers.items))
        (seen_by passes) passes) }
    // There is a run with that history and this outcome, over the readers' bytes and what their
    // reads gave. The run's groups of streams are isolated, its lines are serializable, and its
    // streams were read to their ends.
    ensures reports { let run_params = run_params_of options cube.now formula.now
        (length readers.items) in
        IfOk result (λ outcome. (ran : IsRunOf (readers_view R.Source) formula.now run_params
        readers.items outcome.readers.items outcome.reports.items outcome.dropped.items)
        × ((ran.run.history ≡ seen_by (views outcome.passes.items)) × AreIsolated ran.run
        × IsSerializable ran.run × AreReadOut ran.run.streams)) }
    ensures verdict { IfOk result (λ outcome.
        outcome.verdict ≡ verdict_of outcome.reports.items) }
    // The outcome keeps the clauses, so that they can be saved.
    ensures store { IfOk result (λ outcome. AreOf outcome.store outcome.passes.items
        × (outcome.store.layout ≡ layout_of options formula.now (length readers.items))) }
    // What a user relies on.
    ensures sound { IfOk result (λ outcome.
        outcome.verdict ≡ Verdict.Unsatisfiable → IsUnsatisfiable formula.now) }
    ensures sound_under { IfOk result (λ outcome. outcome.verdict ≡ Verdict.UnsatisfiableUnder
        → IsUnsatisfiableUnder formula.now cube.now) }
{
    let (store, jobs) = store_and_jobs(alloc, formula, cube, options, readers, gates)?;
    let signal = StartSignal::new();
    let lists = ThreadLists::new(alloc, &signal, jobs.len())?;
    // Laws, with no effect at run time: the proof of `reports` uses their contracts.
    run_isolated();
    run_serializable();
    match check_all(threads, &store, jobs, lists) {
        Ok(found) => Ok(outcome_of(store, found)),
        Err(fault) => Err(fault_of(store, fault)),
    }
}

/// Opens the store of clauses, and makes the jobs of all streams.
fn store_and_jobs<R: Source + Drop, G: Gate + Drop>(
    alloc: Global,
    formula: &Formula,
    cube: &Cube,
    options: Options,
    readers: Vec<R>,
    gates: Vec<G>,
) -> Result<(Store, Vec<StreamJobs<R, G>>), RunFault>
    requires gates { vec_len gates ≡ vec_len readers }
    requires running { AllByRecursion (λ r. R.has_failed r ≡ false) readers.items }
    ensures layout { (fault : LayoutFault) → (result ≡ Err (RunFault.Layout fault))
        ↔ IsFault (layout_of options formula.now (length readers.items)) fault }
    ensures no_threads { (stream : ℕ) → (result ≢ Err (RunFault.Spawn stream))
        × (result ≢ Err (RunFault.Ring stream)) }
    ensures is_layout { IfOk result (λ _.
        IsLayout (layout_of options formula.now (length readers.items))) }
    ensures store { IfOk result (λ made.
        made.0.layout ≡ layout_of options formula.now (length readers.items)) }
    // Each stream has its reader, a new checker, and the pass that the store opened for it.
    ensures jobs { let run_params = run_params_of options cube.now formula.now
        (length readers.items) in
        IfOk result (λ made. Each (λ stream reader jobs.
        IsJob run_params stream reader jobs.pass jobs
        × IsOpened made.0 formula.now stream jobs.pass) 1 readers.items made.1.items) }
{
    let layout = options.layout(formula, readers.len())?;
    let run_params = RunParams::new(&layout, cube, options.tries());
    let (store, passes) = Store::open(alloc, formula, layout)?;
    let jobs = jobs_of(alloc, &run_params, readers, gates, passes)?;
    Ok((store, jobs))
}

/// The outcome of the streams once their threads have ended. All passes meet, which takes a few
/// loads; by the contract of `meet_all`, they then share one history.
fn outcome_of<R: Source + Drop>(store: Store, found: StreamResults<R>) -> Outcome<R>
    requires store { AreOf store found.passes }
    ensures reports { result.reports.items ≡ found.reports }
    ensures readers { result.readers.items ≡ found.readers }
    ensures dropped { result.dropped.items ≡ found.dropped }
    ensures synced { AreSynced (views found.passes) (views result.passes.items) }
    ensures one { ShareHistory (views result.passes.items) }
    ensures verdict { result.verdict ≡ verdict_of result.reports.items }
    ensures of { AreOf store result.passes.items }
    ensures kept { result.store ≡ store }
{
    let StreamResults {
        reports,
        readers,
        mut passes,
        dropped,
    } = found;
    store.meet_all(&mut passes);
    let verdict = Verdict::of(&reports);
    Outcome {
        reports,
        verdict,
        passes,
        store,
        readers,
        dropped,
    }
}

/// Turns a fault of the threads into the run's fault. For `Ring`, it lets the passes of all earlier
/// streams meet.
fn fault_of<R: Source + Drop>(store: Store, fault: ThreadFault<R>) -> RunFault
    requires store { (found : StreamResultsValue R) → fault ≡ ThreadFault.Ring found
        → AreOf store found.passes }
    ensures spawn { (stream : ℕ) → fault ≡ ThreadFault.Spawn stream
        → result ≡ RunFault.Spawn stream }
    ensures ring { (found : StreamResultsValue R) → fault ≡ ThreadFault.Ring found
        → result ≡ RunFault.Ring (length found.passes + 1) }
    ensures met { (found : StreamResultsValue R) → fault ≡ ThreadFault.Ring found
        → (met : List View) × AreSynced (views found.passes) met × ShareHistory met }
{
    match fault {
        ThreadFault::Spawn(stream) => RunFault::Spawn(stream),
        ThreadFault::Ring(found) => {
            let stream = found.passes.len() as u64 + 1;
            // For the proof only: the contract of `outcome_of` gives `met`.
            let _before = outcome_of(store, found);
            RunFault::Ring(stream)
        }
    }
}
