//! The job of the thread that checks a stream.
ghost use Rattle.std.specs.Prelude.{◌≡◌, ◌<◌, ◌≤◌, ℕ, List, [], Some, false, length, vec_len, IfOk, IfErr, IfNone, IfSome, IsSome};
ghost use Rattle.lrup_model.specs.Event.{History};
ghost use Rattle.lrup_model.specs.Layout.{IsStream};
ghost use Rattle.rtrb.specs.Ring.{received, SameConsumer};
ghost use Rattle.stream_check.specs.Checker.{IsNew, IsReadyAt, Extends, checker_state};
ghost use Rattle.stream_check.specs.CheckerValue.{report_of_tally};
ghost use Rattle.stream_check.specs.Judging.{joined, JudgesBlocks};
ghost use Rattle.stream_check.specs.Reaching.{ReachesState};
ghost use Rattle.stream_threads.specs.Judged.{JudgesAtMark, ending_with};
ghost use Rattle.stream_threads.specs.Items.{EndsAtMark, EndsBeforeMark};

use crate::channel::{Received, Receiver};
use crate::signal::wait_for_start;
use lrup_model::ClauseMap;
use lrup_text::PIECE;
use rtrb::Consumer;
use std::alloc::{AllocError, Global};
use std::sync::{OnceLock, OnceToken, Wait};
use stream_check::laws::finished_stays;
use stream_check::{CheckStatus, Checker, DroppedIds, Gate, Report, RunParams};

/// The maximum number of items that one pop takes, and of bytes that the checker is fed at once.
const POP_BATCH: usize = PIECE;

/// What a checking thread starts with: a stream's checker and gate, and the receiving half of the
/// ring. Nothing has been received yet.
#[derive(Drop)]
pub struct CheckingJob<G: Gate + Drop> {
    /// The stream's checker, before its first byte.
    pub checker: Checker,
    /// The stream's gate, which is called before each fetch, after each publish, and when the
    /// stream is finished.
    pub gate: G,
    /// The half of the ring from which the stream's bytes come.
    pub receiver: Receiver,
    items: Vec<u16>,
    bytes: Vec<u8>,
    ghost room: { (0 < vec_len items) × (vec_len items ≡ vec_len bytes) },
    ghost nothing: { received receiver.consumer ≡ [] },
}

/// What a checking thread returns: the stream's report, if a mark came; what the stream dropped;
/// and the thread's half of the ring.
#[derive(Drop)]
pub struct Checked {
    /// The stream's report. There is none if the ring turned out to be abandoned before a mark
    /// came.
    pub report: Option<Report>,
    /// The identities that the stream dropped.
    pub dropped: DroppedIds,
    /// The receiving half, from which everything was received, including the mark.
    pub consumer: Consumer<u16>,
}

impl<G: Gate + Drop> CheckingJob<G> {
    /// The job of the stream with the number `stream` (from 1). The code allocates all memory here,
    /// except for the identities that the stream drops.
    pub(crate) fn new(
        alloc: Global,
        receiver: Receiver,
        gate: G,
        stream: u64,
        run_params: &RunParams<'_>,
    ) -> Result<CheckingJob<G>, AllocError>
        requires stream { IsStream run_params.now.layout stream }
        requires nothing { received receiver.consumer ≡ [] }
        ensures checker { IfOk result (λ job. let t = run_params.now in
            IsNew t.layout t.cube stream t.tries job.checker) }
        ensures gate { IfOk result (λ job. job.gate ≡ gate) }
        ensures receiver { IfOk result (λ job. job.receiver ≡ receiver) }
    {
        let checker = Checker::new(
            alloc,
            stream,
            run_params.layout(),
            run_params.cube(),
            run_params.tries(),
        )?;
        let items = vec![in alloc; 0u16; POP_BATCH]?;
        let bytes = vec![in alloc; 0u8; POP_BATCH]?;
        Ok(CheckingJob {
            checker,
            gate,
            receiver,
            items,
            bytes,
        })
    }
}

/// Waits for the start signal, and then checks what is received, up to the mark. After a bad line
/// the rest is received and discarded: otherwise the ring would fill up, and the reading thread
/// would wait forever. If the signal says to leave, nothing is received, and the signal's token is
/// returned, which proves that the signal said so. The call blocks while the ring is empty.
pub fn check_on_signal<'a, W: Wait, G: Gate + Drop, M: ClauseMap>(
    wait: &W,
    signal: &'a OnceLock<bool>,
    job: CheckingJob<G>,
    map: &mut M,
) -> Result<Checked, OnceToken<'a, bool>>
    requires { IsReadyAt job.checker (M.caller_view map.old) }
    ensures leaves { IfErr result (λ token. (token.of ≡ signal.now.id) × (token.value ≡ false)) }
    ensures ring { IfOk result (λ checked. SameConsumer job.receiver.consumer checked.consumer) }
    ensures judged { IfOk result (λ checked. IfSome checked.report (λ report.
        (blocks : List History) × M.moves map.old map.new (joined blocks)
        × JudgesAtMark job.checker (M.caller_view map.old).room (received checked.consumer)
        blocks checked.dropped report)) }
    ensures no_mark { IfOk result (λ checked.
        IfNone checked.report (EndsBeforeMark (received checked.consumer))) }
{
    let token = wait_for_start(wait, signal);
    if !*signal.value(&token) {
        return Err(token);
    }
    let CheckingJob {
        mut checker,
        mut gate,
        mut receiver,
        mut items,
        mut bytes,
    } = job;
    let report = check_received(
        wait,
        &mut checker,
        &mut gate,
        &mut receiver,
        items.as_mut_slice(),
        bytes.as_mut_slice(),
        map,
    );
    Ok(Checked {
        report,
        dropped: checker.into_dropped(),
        consumer: receiver.into_consumer(),
    })
}

/// Checks what is received, up to the mark, and returns the stream's report, or `None` if no mark
/// came.
fn check_received<W: Wait, G: Gate, M: ClauseMap>(
    wait: &W,
    checker: &mut Checker,
    gate: &mut G,
    receiver: &mut Receiver,
    items: &mut [u16],
    bytes: &mut [u8],
    map: &mut M,
) -> Option<Report>
    requires ready { IsReadyAt checker.old (M.caller_view map.old) }
    requires some { 0 < length items.old }
    requires room { length items.old ≡ length bytes.old }
    requires nothing { received receiver.old.consumer ≡ [] }
    ensures ring { SameConsumer receiver.old.consumer receiver.new.consumer }
    ensures judged { IfSome result (λ report.
        (blocks : List History) × M.moves map.old map.new (joined blocks)
        × JudgesAtMark checker.old (M.caller_view map.old).room (received receiver.new.consumer)
        blocks checker.new.dropped report) }
    ensures no_mark { IfNone result (EndsBeforeMark (received receiver.new.consumer)) }
{
    for _ in wait.forever() {
        match receiver.receive(wait, items, bytes) {
            Received::Bytes(count) => take_all(checker, gate, map, &bytes[..count]),
            Received::Mark(count, end) => {
                take_all(checker, gate, map, &bytes[..count]);
                checker.finish(gate, end);
                return Some(checker.report());
            }
            Received::Abandoned => return None,
        }
    }
    // Only a return ends the loop.
    unreachable!()
}

/// Feeds the checker a piece, line by line. A finished checker takes nothing more, and the rest is
/// discarded.
fn take_all<G: Gate, M: ClauseMap>(checker: &mut Checker, gate: &mut G, map: &mut M, piece: &[u8])
    requires { IsReadyAt checker.old (M.caller_view map.old) }
    ensures took { let old = checker_state checker.old (M.caller_view map.old).room in
        let new = checker_state checker.new (M.caller_view map.new).room in
        (blocks : List History) × M.moves map.old map.new (joined blocks)
        × Extends checker.old.params old piece.now blocks new }
    ensures ready { IsReadyAt checker.new (M.caller_view map.new) }
    ensures params { checker.new.params ≡ checker.old.params }
{
    // A law, with no effect at run time: the report of a finished checker stays right for any
    // further bytes.
    finished_stays();
    let mut rest = piece;
    // Each good line uses at least one byte, so this many iterations suffice.
    for _ in 0..piece.len() {
        let progress = checker.feed(map, gate, rest);
        match progress.status {
            CheckStatus::Line => rest = rest.split_at(progress.used).1,
            CheckStatus::More | CheckStatus::Over => return,
        }
    }
}
