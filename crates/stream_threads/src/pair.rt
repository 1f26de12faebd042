//! The two jobs of a stream before its threads start, and their results once both threads have
//! ended.
ghost use Rattle.std.specs.Prelude.{◌≡◌, ◌++◌, ℕ, List, [], false, IfOk, IsSome};
ghost use Rattle.lrup_model.specs.Event.{History};
ghost use Rattle.lrup_model.specs.Layout.{IsStream};
ghost use Rattle.rtrb.specs.Ring.{sent, received, IsPair};
ghost use Rattle.stream_check.specs.Readings.{IsStreamOf, readers_view};
ghost use Rattle.stream_check.specs.Streams.{Stream, JudgesStream};
ghost use Rattle.stream_check.specs.declared.report.Report.{Report};
ghost use Rattle.stream_check.specs.Checker.{IsNew, checker_state};
ghost use Rattle.stream_check.specs.CheckerValue.{CheckerValue};
ghost use Rattle.stream_check.specs.DroppedIdsValue.{DroppedIdsValue};
ghost use Rattle.stream_check.specs.Reaching.{ReachesState};
ghost use Rattle.stream_threads.specs.Judged.{DropsBy, JudgesAtMark};
ghost use Rattle.stream_threads.specs.Items.{SendsAll};

use crate::channel::{halves_agree, ring};
use crate::checking::{Checked, CheckingJob};
use crate::reading::{ReadingJob, Sent};
use lrup_text::{PIECE, Source};
use std::alloc::{AllocError, Global};
use stream_check::{Gate, RunParams};

/// The capacity of a ring, in items of two bytes each: the number of bytes that a read asks for.
const CAPACITY: usize = PIECE;

/// Makes the two jobs of the stream with the number `stream` (from 1), with the two halves of one
/// ring. The code allocates all memory here, except for the identities that the stream drops.
pub fn jobs<R: Source + Drop, G: Gate + Drop>(
    alloc: Global,
    reader: R,
    gate: G,
    stream: u64,
    run_params: &RunParams<'_>,
) -> Result<(ReadingJob<R>, CheckingJob<G>), AllocError>
    requires running { R.has_failed reader ≡ false }
    requires stream { IsStream run_params.now.layout stream }
    ensures pair { IfOk result (λ both.
        IsPair both.0.sender.producer both.1.receiver.consumer) }
    ensures reader { IfOk result (λ both. both.0.reader ≡ reader) }
    ensures gate { IfOk result (λ both. both.1.gate ≡ gate) }
    ensures checker { IfOk result (λ both. let t = run_params.now in
        IsNew t.layout t.cube stream t.tries both.1.checker) }
{
    let (sender, receiver) = ring(alloc, CAPACITY)?;
    let reading = ReadingJob::new(alloc, reader, sender)?;
    let checking = CheckingJob::new(alloc, receiver, gate, stream, run_params)?;
    Ok((reading, checking))
}

/// Compares what both threads returned. It is for the proof only, and changes nothing: by its
/// contract, what was received is a prefix of what was sent, and the bytes that were judged are all
/// that the reader's reads gave.
pub fn jobs_agree<R: Source + Drop>(sent: &mut Sent<R>, checked: &mut Checked)
    requires { IsPair sent.old.producer checked.old.consumer }
    ensures reader { sent.new.reader ≡ sent.old.reader }
    ensures report { checked.new.report ≡ checked.old.report }
    ensures dropped { checked.new.dropped ≡ checked.old.dropped }
    ensures beginning { (left : List ℕ)
        × (Rattle.rtrb.specs.Ring.sent sent.old.producer
        ≡ received checked.old.consumer ++ left) }
    ensures read { (first : R)
        → SendsAll _ (readers_view R.Source) first sent.old.reader
        (Rattle.rtrb.specs.Ring.sent sent.old.producer)
        → (stream : Stream) × IsSome stream.end
        × IsStreamOf (readers_view R.Source) first sent.old.reader stream }
    ensures judged { (first : R) (v : CheckerValue) (room : ℕ)
        (blocks : List History) (dropped : DroppedIdsValue) (report : Report)
        → SendsAll _ (readers_view R.Source) first sent.old.reader
        (Rattle.rtrb.specs.Ring.sent sent.old.producer)
        → JudgesAtMark v room (received checked.old.consumer) blocks dropped report
        → ReachesState v.params [] [] (checker_state v room)
        → (stream : Stream) × IsSome stream.end
        × IsStreamOf (readers_view R.Source) first sent.old.reader stream
        × JudgesStream v.params stream blocks report
        × DropsBy v room stream.bytes blocks dropped report }
{
    halves_agree(&mut sent.producer, &mut checked.consumer);
}
