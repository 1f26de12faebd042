//! What the threads of a stream do and return. A task says what a thread was started with, so that
//! the contract of the thread's join can say what the thread did; a task has no bytes at run time.
ghost use Rattle.std.specs.Prelude.{◌≡◌, true, false, Ok, IfErr, IfNone, IfOk, IfSome, MatchResult};
ghost use Rattle.clause_store.specs.Passes.{store_of};
ghost use Rattle.lrup_model.specs.Pass.{pass_caller_view};
ghost use Rattle.rtrb.specs.Ring.{received, SameConsumer, SameProducer};
ghost use Rattle.stream_check.specs.Checker.{IsReadyAt};
ghost use Rattle.stream_threads.specs.Items.{EndsBeforeMark, SendsAll};
ghost use Rattle.stream_check.specs.Readings.{readers_view};
ghost use Rattle.stream_threads.specs.internal.Workers.{JudgesAtPass};

use crate::checking::{Checked, CheckingJob, check_on_signal};
use crate::reading::{ReadingJob, Sent, read_on_signal};
use clause_store::{Desk, Pass, Store};
use lrup_text::Source;
use std::snapshot::Snapshot;
use std::sync::{OnceLock, OnceToken, Wait};
use std::thread::Promise;
use stream_check::Gate;

/// What a checking thread returns if the signal said to start: what it checked, and its pass.
#[derive(Drop)]
pub(crate) struct CheckedPass {
    pub(crate) checked: Checked,
    pub(crate) pass: Pass,
}

/// What a reading thread was started with.
#[derive(Drop)]
pub(crate) struct ReadTask<R: Source + Drop> {
    pub(crate) signal: Snapshot<OnceLock<bool>>,
    pub(crate) job: Snapshot<ReadingJob<R>>,
}

impl<'a, R: Source + Drop> Promise<Result<Sent<R>, OnceToken<'a, bool>>> for ReadTask<R> {
    ghost kept_by = { λ task end. MatchResult end (λ sent.
        SameProducer task.job.value.sender.producer sent.producer
        × SendsAll _ (readers_view R.Source) task.job.value.reader sent.reader
        (Rattle.rtrb.specs.Ring.sent sent.producer))
        (λ token. (token.of ≡ task.signal.value.id) × (token.value ≡ false)) };
}

/// What a checking thread was started with.
#[derive(Drop)]
pub(crate) struct CheckTask<G: Gate + Drop> {
    pub(crate) signal: Snapshot<OnceLock<bool>>,
    pub(crate) job: Snapshot<CheckingJob<G>>,
    pub(crate) pass: Snapshot<Pass>,
}

impl<'a, G: Gate + Drop> Promise<Result<CheckedPass, OnceToken<'a, bool>>> for CheckTask<G> {
    ghost kept_by = { λ task end. MatchResult end (λ found.
        SameConsumer task.job.value.receiver.consumer found.checked.consumer
        × IfSome found.checked.report (JudgesAtPass task.job.value.checker task.pass.value found.pass
        (received found.checked.consumer) found.checked.dropped)
        × IfNone found.checked.report (EndsBeforeMark (received found.checked.consumer)))
        (λ token. (token.of ≡ task.signal.value.id) × (token.value ≡ false)) };
}

/// The result of a thread that got the signal to start: `signalled` proves this, so the thread's
/// own token can't say 'leave'.
pub(crate) fn result_after_start<'a, T>(
    end: Result<T, OnceToken<'a, bool>>,
    signalled: &OnceToken<'a, bool>,
) -> T
    requires signalled { signalled.now.value ≡ true }
    requires leaves { IfErr end (λ token. (token.of ≡ signalled.now.of) × (token.value ≡ false)) }
    ensures { end.entry ≡ Ok result }
{
    match end {
        Ok(found) => found,
        Err(token) => {
            token.agrees(signalled);
            unreachable!()
        }
    }
}

/// Waits for the start signal, and then checks what is received, through a desk of the store. If
/// the signal says to leave, its token is returned.
pub(crate) fn check<'a, W: Wait, G: Gate + Drop>(
    wait: &W,
    store: &Store,
    signal: &'a OnceLock<bool>,
    job: CheckingJob<G>,
    pass: Pass,
) -> Result<CheckedPass, OnceToken<'a, bool>>
    requires store { store_of pass ≡ store.now }
    requires ready { IsReadyAt job.checker (pass_caller_view pass.view) }
    ensures leaves { IfErr result (λ token. (token.of ≡ signal.now.id) × (token.value ≡ false)) }
    ensures ring { IfOk result (λ e. SameConsumer job.receiver.consumer e.checked.consumer) }
    ensures judged { IfOk result (λ e. IfSome e.checked.report
        (JudgesAtPass job.checker pass e.pass (received e.checked.consumer)
        e.checked.dropped)) }
    ensures no_mark { IfOk result (λ e.
        IfNone e.checked.report (EndsBeforeMark (received e.checked.consumer))) }
{
    let mut desk = Desk::new(store, pass);
    let checked = check_on_signal(wait, signal, job, &mut desk)?;
    Ok(CheckedPass {
        checked,
        pass: desk.into_pass(),
    })
}
