//! The jobs of a stream: before its threads start, after one has started, and after both have.
ghost use Rattle.std.specs.Prelude.{◌≡◌, ◌≤◌, false, IfOk, length, vec_len};
ghost use Rattle.std.specs.List.{AllByRecursion};
ghost use Rattle.lrup_model.specs.Layout.{IsStream};
ghost use Rattle.stream_check.specs.Checker.{IsNew};
ghost use Rattle.stream_threads.specs.Jobs.{AreJobs};

use crate::checking::CheckingJob;
use crate::pair::jobs;
use crate::reading::{ReadingJob, Sent};
use crate::results::StreamResults;
use crate::tasks::{CheckTask, CheckedPass, ReadTask};
use clause_store::Pass;
use lrup_text::Source;
use std::alloc::{AllocError, Global};
use std::marker::Model;
use std::sync::OnceToken;
use std::thread::PromisedHandle;
use stream_check::{Gate, RunParams};

/// Why some stream has no result.
#[derive(Drop)]
pub enum ThreadFault<R: Source + Drop> {
    /// A thread of the stream with this number (from 1) couldn't be started. In the code, no reader
    /// was read; no contract says so, since the threads that have started keep their readers.
    Spawn(u64),
    /// All threads have ended, but a checking thread found its ring abandoned before a mark came.
    /// These are the results of the streams before the first one with such a ring.
    Ring(StreamResults<R>),
}

/// The two jobs of a stream, which hold the two halves of one ring, and the stream's pass.
#[derive(Drop)]
pub struct StreamJobs<R: Source + Drop, G: Gate + Drop> {
    pub(crate) reading: ReadingJob<R>,
    pub(crate) checking: CheckingJob<G>,
    pub(crate) pass: Pass,
}

impl<R: Source + Drop, G: Gate + Drop> Model for StreamJobs<R, G> {
    ghost use Rattle.rtrb.specs.Ring.{IsPair};
    ghost use Rattle.stream_threads.specs.Jobs.{StreamJobsValue};

    ghost Value = { StreamJobsValue R };

    ghost view = { λ jobs. record {
      reader = jobs.reading.reader;
      checker = jobs.checking.checker;
      pass = jobs.pass;
    } };

    ghost invariant = { λ jobs. IsPair jobs.reading.sender.producer
        jobs.checking.receiver.consumer };
}

impl<R: Source + Drop, G: Gate + Drop> StreamJobs<R, G> {
    /// Makes the jobs of the stream with the number `stream` (from 1), whose calls go through this
    /// pass. The code allocates all memory here, except for the identities that the stream drops.
    pub fn new(
        alloc: Global,
        reader: R,
        gate: G,
        pass: Pass,
        stream: u64,
        run_params: &RunParams<'_>,
    ) -> Result<StreamJobs<R, G>, AllocError>
        requires running { R.has_failed reader ≡ false }
        requires stream { IsStream run_params.now.layout stream }
        ensures reader { IfOk result (λ jobs. jobs.reader ≡ reader) }
        ensures checker { IfOk result (λ jobs. let t = run_params.now in
            IsNew t.layout t.cube stream t.tries jobs.checker) }
        ensures pass { IfOk result (λ jobs. jobs.pass ≡ pass) }
    {
        let (reading, checking) = jobs(alloc, reader, gate, stream, run_params)?;
        Ok(StreamJobs {
            reading,
            checking,
            pass,
        })
    }
}

/// Makes the jobs of all streams, in order. There are as many gates and passes as readers.
pub fn jobs_of<R: Source + Drop, G: Gate + Drop>(
    alloc: Global,
    run_params: &RunParams<'_>,
    readers: Vec<R>,
    gates: Vec<G>,
    passes: Vec<Pass>,
) -> Result<Vec<StreamJobs<R, G>>, AllocError>
    requires gates { vec_len gates ≡ vec_len readers }
    requires passes { vec_len passes ≡ vec_len readers }
    requires running { AllByRecursion (λ r. R.has_failed r ≡ false) readers.items }
    requires streams { run_params.now.layout.streams ≡ length readers.items }
    ensures { IfOk result
        (λ all. AreJobs run_params.now 1 readers.items passes.items all.items) }
{
    let mut all = Vec::with_capacity(alloc, readers.len())?;
    for ((reader, gate), pass) in readers.into_iter().zip(gates).zip(passes) {
        let stream = all.len() as u64 + 1;
        all.push_reserved(StreamJobs::new(alloc, reader, gate, pass, stream, run_params)?);
    }
    Ok(all)
}

/// What joining a checking thread returns: its result, or the token that proves that the signal
/// said to leave.
type CheckingResult<'a> = Result<CheckedPass, OnceToken<'a, bool>>;

/// What joining a reading thread returns: its result, or the token that proves that the signal said
/// to leave.
type ReadingResult<'a, R> = Result<Sent<R>, OnceToken<'a, bool>>;

/// A stream whose checking thread has started, and whose reading thread hasn't.
#[derive(Drop)]
pub(crate) struct HalfStarted<'a, R: Source + Drop, G: Gate + Drop> {
    pub(crate) reading: ReadingJob<R>,
    pub(crate) checking: PromisedHandle<CheckingResult<'a>, CheckTask<G>>,
}

impl<'a, R: Source + Drop, G: Gate + Drop> Model for HalfStarted<'a, R, G> {
    ghost use Rattle.rtrb.specs.Ring.{IsPair};
    ghost use Rattle.stream_threads.specs.internal.Workers.{StartedValue};

    ghost Value = { StartedValue R };

    ghost view = { λ half. record {
      jobs = record {
        reader = half.reading.reader;
        checker = half.checking.promise.job.value.checker;
        pass = half.checking.promise.pass.value;
      };
      signal = half.checking.promise.signal.value.id;
    } };

    ghost invariant = { λ half. IsPair half.reading.sender.producer
        half.checking.promise.job.value.receiver.consumer };
}

/// A stream whose two threads have started, and wait for the same signal.
#[derive(Drop)]
pub(crate) struct Started<'a, R: Source + Drop, G: Gate + Drop> {
    pub(crate) reading: PromisedHandle<ReadingResult<'a, R>, ReadTask<R>>,
    pub(crate) checking: PromisedHandle<CheckingResult<'a>, CheckTask<G>>,
}

impl<'a, R: Source + Drop, G: Gate + Drop> Model for Started<'a, R, G> {
    ghost use Rattle.std.specs.Prelude.{◌≡◌};
    ghost use Rattle.rtrb.specs.Ring.{IsPair};
    ghost use Rattle.stream_threads.specs.internal.Workers.{StartedValue};

    ghost Value = { StartedValue R };

    ghost view = { λ started. record {
      jobs = record {
        reader = started.reading.promise.job.value.reader;
        checker = started.checking.promise.job.value.checker;
        pass = started.checking.promise.pass.value;
      };
      signal = started.checking.promise.signal.value.id;
    } };

    ghost invariant = { λ started. IsPair started.reading.promise.job.value.sender.producer
        started.checking.promise.job.value.receiver.consumer
        × (started.reading.promise.signal.value.id ≡ started.checking.promise.signal.value.id) };
}
