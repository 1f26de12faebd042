//! Starts the threads: first all that check, then all that read. No thread does anything before all
//! have started, so the order only decides which stream the fault names if a start fails.
ghost use Rattle.std.specs.Prelude.{◌≡◌, ◌-◌, ◌<◌, ◌≤◌, [], IfErr, IfSome, OnOk, map, take, vec_capacity, vec_len};
ghost use Rattle.std.specs.List.{AllByRecursion};
ghost use Rattle.stream_threads.specs.Jobs.{CanBegin};
ghost use Rattle.stream_threads.specs.internal.Workers.{started_with};

use crate::reading::read_on_signal;
use crate::stream_jobs::{HalfStarted, Started, StreamJobs};
use crate::tasks::{CheckTask, ReadTask, check};
use clause_store::Store;
use lrup_text::Source;
use std::snapshot::Snapshot;
use std::sync::{OnceLock, Wait};
use std::thread::Scope;
use stream_check::Gate;

/// Starts a checking thread, or returns `None` if it can't be started. The task is for the proof
/// only: it says what the thread starts with.
fn start_checking<'s, 'a: 's, E, W: Wait + Sync, R: Source + Drop, G: Gate + Send + Drop + 's>(
    scope: &Scope<'s, E>,
    wait: &'s W,
    store: &'s Store,
    signal: &'a OnceLock<bool>,
    jobs: StreamJobs<R, G>,
) -> Option<HalfStarted<'a, R, G>>
    requires { CanBegin store.now jobs }
    ensures { IfSome result (λ half. half ≡ started_with signal.now.id jobs) }
{
    let StreamJobs {
        reading,
        checking: job,
        pass,
    } = jobs;
    let task = CheckTask {
        signal: Snapshot::of(signal),
        job: Snapshot::of(&job),
        pass: Snapshot::of(&pass),
    };
    let checking = scope
        .spawn_with(task, move || check(wait, store, signal, job, pass))
        .ok()?;
    Some(HalfStarted { reading, checking })
}

/// Starts a reading thread, or returns `None` if it can't be started.
fn start_reading<'s, 'a: 's, E, W: Wait + Sync, R: Source + Send + Drop + 's, G: Gate + Drop + 's>(
    scope: &Scope<'s, E>,
    wait: &'s W,
    signal: &'a OnceLock<bool>,
    half: HalfStarted<'a, R, G>,
) -> Option<Started<'a, R, G>>
    requires { half.signal ≡ signal.now.id }
    ensures { IfSome result (λ started. started ≡ half.entry) }
{
    let HalfStarted {
        reading: job,
        checking,
    } = half;
    let task = ReadTask {
        signal: Snapshot::of(signal),
        job: Snapshot::of(&job),
    };
    let reading = scope
        .spawn_with(task, move || read_on_signal(wait, signal, job))
        .ok()?;
    Some(Started { reading, checking })
}

/// Starts the checking threads, in order. If one can't be started, the error is the number
/// (from 1) of its stream, and the threads of the streams before that one have started.
pub(crate) fn start_all_checking<
    's,
    'a: 's,
    E,
    W: Wait + Sync,
    R: Source + Drop,
    G: Gate + Send + Drop + 's,
>(
    scope: &Scope<'s, E>,
    wait: &'s W,
    store: &'s Store,
    signal: &'a OnceLock<bool>,
    all: Vec<StreamJobs<R, G>>,
    halves: &mut Vec<HalfStarted<'a, R, G>>,
) -> Result<(), u64>
    requires begin { AllByRecursion (CanBegin store.now) all.items }
    requires none { halves.old.items ≡ [] }
    requires room { vec_len all ≤ vec_capacity halves.old }
    ensures started { OnOk result
        (halves.new.items ≡ map (started_with signal.now.id) all.items) }
    ensures spawn { IfErr result (λ stream. (0 < stream) × (stream ≤ vec_len all)) }
    ensures before { IfErr result (λ stream.
        halves.new.items ≡ map (started_with signal.now.id) (take (stream - 1) all.items)) }
{
    for jobs in all {
        let Some(half) = start_checking(scope, wait, store, signal, jobs) else {
            return Err(halves.len() as u64 + 1);
        };
        halves.push_reserved(half);
    }
    Ok(())
}

/// Starts the reading threads, in order. If one can't be started, the error is the number
/// (from 1) of its stream, and the threads of the streams before that one have started.
pub(crate) fn start_all_reading<
    's,
    'a: 's,
    E,
    W: Wait + Sync,
    R: Source + Send + Drop + 's,
    G: Gate + Drop + 's,
>(
    scope: &Scope<'s, E>,
    wait: &'s W,
    signal: &'a OnceLock<bool>,
    halves: Vec<HalfStarted<'a, R, G>>,
    started: &mut Vec<Started<'a, R, G>>,
) -> Result<(), u64>
    requires signal { AllByRecursion (λ half. half.signal ≡ signal.now.id) halves.items }
    requires none { started.old.items ≡ [] }
    requires room { vec_len halves ≤ vec_capacity started.old }
    ensures started { OnOk result (started.new.items ≡ halves.entry.items) }
    ensures spawn { IfErr result (λ stream. (0 < stream) × (stream ≤ vec_len halves.entry)) }
    ensures before { IfErr result (λ stream.
        started.new.items ≡ take (stream - 1) halves.entry.items) }
{
    for half in halves {
        let Some(one) = start_reading(scope, wait, signal, half) else {
            return Err(started.len() as u64 + 1);
        };
        started.push_reserved(one);
    }
    Ok(())
}
