//! Starts all threads, joins them, and collects the result of each stream.
ghost use Rattle.std.specs.Prelude.{◌≡◌, ◌↔◌, ◌<◌, ◌≤◌, true, false, [], IfErr, IfNone, IfOk, IfSome, IsNone, OnOk, map, vec_capacity, vec_len};
ghost use Rattle.std.specs.List.{AllByRecursion};
ghost use Rattle.rtrb.specs.Ring.{received, IsPair};
ghost use Rattle.stream_threads.specs.Items.{EndsBeforeMark, SendsAll};
ghost use Rattle.stream_check.specs.Readings.{readers_view};
ghost use Rattle.stream_threads.specs.Faults.{IsFaultOf};
ghost use Rattle.stream_threads.specs.internal.Workers.{IsEndOf, JudgesAtPass};
ghost use Rattle.stream_threads.specs.Jobs.{AreResults, CanBegin, StreamJobsValue};

use crate::pair::jobs_agree;
use crate::reading::Sent;
use crate::results::{StreamResult, StreamResults};
use crate::starting::{start_all_checking, start_all_reading};
use crate::stream_jobs::{HalfStarted, Started, StreamJobs, ThreadFault};
use crate::tasks::{CheckedPass, result_after_start};
use clause_store::Store;
use lrup_text::Source;
use std::alloc::{AllocError, Global};
use std::marker::Model;
use std::sync::{OnceLock, OnceToken, Wait};
use std::thread;
use std::thread::{Scope, Threads};
use stream_check::Gate;

/// The start signal of a run, for which its threads wait before they do anything. It is set once:
/// to start (`true`) or to leave (`false`).
#[derive(Drop)]
pub struct StartSignal {
    signalled: OnceLock<bool>,
}

impl StartSignal {
    /// A signal that isn't set yet.
    pub fn new() -> StartSignal {
        StartSignal {
            signalled: OnceLock::new(),
        }
    }
}

/// The signal for which the threads wait, and lists with room for the threads and the results of a
/// number of streams, so that starts and joins allocate no memory for lists. They are made before
/// the scope of the threads, since the threads' tokens borrow the signal.
#[derive(Drop)]
pub struct ThreadLists<'a, R: Source + Drop, G: Gate + Drop> {
    signal: &'a OnceLock<bool>,
    halves: Vec<HalfStarted<'a, R, G>>,
    started: Vec<Started<'a, R, G>>,
    found: StreamResults<R>,
}

impl<'a, R: Source + Drop, G: Gate + Drop> Model for ThreadLists<'a, R, G> {
    ghost use Rattle.std.specs.Prelude.{◌≡◌, ℕ, [], vec_capacity};
    ghost use Rattle.stream_threads.specs.internal.Workers.{no_results};

    ghost Value = { ℕ };

    ghost view = { λ lists. vec_capacity lists.halves };

    ghost invariant = { λ lists. (lists.halves.items ≡ []) × (lists.started.items ≡ [])
        × (vec_capacity lists.started ≡ vec_capacity lists.halves)
        × (lists.found ≡ no_results (vec_capacity lists.halves)) };
}

impl<'a, R: Source + Drop, G: Gate + Drop> ThreadLists<'a, R, G> {
    /// Lists with room for `count` streams, whose threads wait for this signal. No other threads
    /// may wait for it.
    pub fn new(
        alloc: Global,
        signal: &'a StartSignal,
        count: usize,
    ) -> Result<ThreadLists<'a, R, G>, AllocError>
        ensures { IfOk result (λ lists. lists ≡ count) }
    {
        Ok(ThreadLists {
            signal: &signal.signalled,
            halves: Vec::with_capacity(alloc, count)?,
            started: Vec::with_capacity(alloc, count)?,
            found: StreamResults::with_room(alloc, count)?,
        })
    }
}

/// Makes a stream's result from what its two threads returned. There is no result exactly if the
/// checking thread received no mark.
fn result_of<R: Source + Drop>(mut sent: Sent<R>, checked: CheckedPass) -> Option<StreamResult<R>>
    requires pair { IsPair sent.producer checked.checked.consumer }
    ensures none { IsNone result ↔ IsNone checked.checked.report }
    ensures end { (jobs : StreamJobsValue R)
        → SendsAll _ (readers_view R.Source) jobs.reader
        sent.reader (Rattle.rtrb.specs.Ring.sent sent.producer)
        → IfSome checked.checked.report (JudgesAtPass jobs.checker jobs.pass checked.pass
        (received checked.checked.consumer) checked.checked.dropped)
        → IfNone checked.checked.report (EndsBeforeMark (received checked.checked.consumer))
        → IsEndOf (readers_view R.Source) jobs result }
{
    let CheckedPass { mut checked, pass } = checked;
    jobs_agree(&mut sent, &mut checked);
    let report = checked.report?;
    Some(StreamResult {
        report,
        reader: sent.reader,
        pass,
        dropped: checked.dropped,
    })
}

impl<'a, R: Source + Drop, G: Gate + Drop> Started<'a, R, G> {
    /// Waits until both threads have ended, and returns the stream's result, or `None` if no mark
    /// came. `signalled` proves that the signal was set to start.
    fn join<T: Threads>(
        self,
        threads: &T,
        signalled: &OnceToken<'a, bool>,
    ) -> Option<StreamResult<R>>
        requires signal { self.signal ≡ signalled.now.of }
        requires signalled { signalled.now.value ≡ true }
        ensures { IsEndOf (readers_view R.Source) self.entry.jobs result }
    {
        let Started { reading, checking } = self;
        let sent = result_after_start(reading.join(threads), signalled);
        let checked = result_after_start(checking.join(threads), signalled);
        result_of(sent, checked)
    }
}

/// Joins the threads of all streams, from stream 1 on, and collects their results. The signal was
/// set to start. At the first stream without a result, the other threads are left to the scope,
/// which joins them.
fn join_all<'a, T: Threads, R: Source + Drop, G: Gate + Drop>(
    threads: &T,
    signalled: &OnceToken<'a, bool>,
    all: Vec<Started<'a, R, G>>,
    mut found: StreamResults<R>,
) -> Result<StreamResults<R>, ThreadFault<R>>
    requires signalled { signalled.now.value ≡ true }
    requires signal { AllByRecursion (λ started. started.signal ≡ signalled.now.of) all.items }
    requires none { AreResults (readers_view R.Source) [] found }
    requires room { vec_len all ≤ found.room }
    ensures found { IfOk result (AreResults (readers_view R.Source)
        (map (λ started. started.jobs) all.entry.items)) }
    ensures fault { IfErr result (IsFaultOf (readers_view R.Source)
        (map (λ started. started.jobs) all.entry.items)) }
{
    for started in all {
        let Some(one) = started.join(threads, signalled) else {
            return Err(ThreadFault::Ring(found));
        };
        found.push(one);
    }
    Ok(found)
}

/// Starts all threads, the checking ones first, sets the signal to start, and joins the threads. If
/// a thread can't be started, the signal is set to leave.
fn start_and_join<
    's,
    'a: 's,
    E,
    T: Threads + Wait + Sync,
    R: Source + Send + Drop + 's,
    G: Gate + Send + Drop + 's,
>(
    scope: &Scope<'s, E>,
    threads: &'s T,
    store: &'s Store,
    all: Vec<StreamJobs<R, G>>,
    lists: ThreadLists<'a, R, G>,
) -> Result<StreamResults<R>, ThreadFault<R>>
    requires begin { AllByRecursion (CanBegin store.now) all.items }
    requires room { vec_len all ≤ lists }
    ensures found { IfOk result (AreResults (readers_view R.Source) all.items) }
    ensures fault { IfErr result (IsFaultOf (readers_view R.Source) all.items) }
{
    let ThreadLists {
        signal,
        mut halves,
        mut started,
        found,
    } = lists;
    // If a start fails, the threads that have started get the signal to leave, and the scope joins
    // them before `check_all` returns. Nobody set the signal before, so `set` succeeds.
    if let Err(stream) = start_all_checking(scope, threads, store, signal, all, &mut halves) {
        let _ = signal.set(threads, false);
        return Err(ThreadFault::Spawn(stream));
    }
    if let Err(stream) = start_all_reading(scope, threads, signal, halves, &mut started) {
        let _ = signal.set(threads, false);
        return Err(ThreadFault::Spawn(stream));
    }
    // An `Err` means that the signal has already been set to leave. The signal is the run's own, so
    // this can't happen, but no contract of `OnceLock` says so. `Spawn` has to name an existing
    // stream, so without streams the empty lists are returned; a run always has streams, by its
    // layout.
    let Ok(signalled) = signal_start(threads, signal) else {
        if started.is_empty() {
            return Ok(found);
        }
        return Err(ThreadFault::Spawn(1));
    };
    join_all(threads, &signalled, started, found)
}

/// Sets the signal to start, and returns the token that proves this. If the signal has already been
/// set to leave, the error is the token that proves it.
fn signal_start<'a, W: Wait>(
    wait: &W,
    signal: &'a OnceLock<bool>,
) -> Result<OnceToken<'a, bool>, OnceToken<'a, bool>>
    ensures start { IfOk result (λ signalled. (signalled.of ≡ signal.now.id)
        × (signalled.value ≡ true)) }
    ensures leave { IfErr result (λ signalled. (signalled.of ≡ signal.now.id)
        × (signalled.value ≡ false)) }
{
    let signalled = match signal.try_insert(wait, true) {
        Ok(signalled) => signalled,
        Err((signalled, _)) => signalled,
    };
    if *signal.value(&signalled) {
        Ok(signalled)
    } else {
        Err(signalled)
    }
}

/// Reads and checks all streams, each in two threads of its own, and returns their results, in
/// order, once all threads have ended. The code reads nothing before all threads have started, and
/// if a thread can't be started, those that have started leave at once. The call blocks while a
/// reader does. If a checking thread received no mark, a ring has failed: the fault contains the
/// results of the streams before the first one without a mark.
pub fn check_all<T: Threads + Wait + Sync, R: Source + Send + Drop, G: Gate + Send + Drop>(
    threads: &T,
    store: &Store,
    all: Vec<StreamJobs<R, G>>,
    lists: ThreadLists<'_, R, G>,
) -> Result<StreamResults<R>, ThreadFault<R>>
    requires begin { AllByRecursion (CanBegin store.now) all.items }
    requires room { vec_len all ≤ lists }
    ensures found { IfOk result (AreResults (readers_view R.Source) all.items) }
    ensures fault { IfErr result (IsFaultOf (readers_view R.Source) all.items) }
{
    thread::scope(
        thread::scope_env(),
        threads,
        move |scope| -> Result<StreamResults<R>, ThreadFault<R>>
            requires begin { AllByRecursion (CanBegin store.now) all.items }
            requires room { vec_len all ≤ lists }
            ensures found { IfOk result (AreResults (readers_view R.Source) all.items) }
            ensures fault { IfErr result (IsFaultOf (readers_view R.Source) all.items) }
        { start_and_join(scope, threads, store, all, lists) },
    )
}
