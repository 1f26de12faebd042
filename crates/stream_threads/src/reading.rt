//! The job of the thread that reads a stream.
ghost use Rattle.std.specs.Prelude.{◌≡◌, ◌<◌, [], false, vec_len, IfOk, IfErr};
ghost use Rattle.rtrb.specs.Ring.{sent, SameProducer};
ghost use Rattle.stream_threads.specs.Items.{SendsAll};
ghost use Rattle.stream_check.specs.Readings.{readers_view};

use crate::channel::Sender;
use crate::signal::wait_for_start;
use lrup_text::{PIECE, Source};
use rtrb::Producer;
use std::alloc::{AllocError, Global};
use std::sync::{OnceLock, OnceToken, Wait};

/// The maximum number of bytes that are converted to items before a push, so that the checking
/// thread can start before a whole piece is pushed.
const PUSH_BATCH: usize = 4_096;

/// What a reading thread starts with: a reader that hasn't failed, and the sending half of the
/// ring. Nothing has been sent yet.
#[derive(Drop)]
pub struct ReadingJob<R: Source + Drop> {
    /// The stream's reader.
    pub reader: R,
    /// The half of the ring into which the reader's bytes go.
    pub sender: Sender,
    piece: Vec<u8>,
    items: Vec<u16>,
    ghost room: { (0 < vec_len piece) × (0 < vec_len items) },
    ghost running: { R.has_failed reader ≡ false },
    ghost nothing: { sent sender.producer ≡ [] },
}

/// What a reading thread returns: the reader, and the thread's half of the ring.
#[derive(Drop)]
pub struct Sent<R: Source + Drop> {
    /// The reader, at its end or after a read that failed.
    pub reader: R,
    /// The sending half, into which all bytes of the reader were sent, and one mark.
    pub producer: Producer<u16>,
}

impl<R: Source + Drop> ReadingJob<R> {
    /// The job of a reader. The code allocates all memory here.
    pub(crate) fn new(alloc: Global, reader: R, sender: Sender) -> Result<ReadingJob<R>, AllocError>
        requires running { R.has_failed reader ≡ false }
        requires nothing { sent sender.producer ≡ [] }
        ensures reader { IfOk result (λ job. job.reader ≡ reader) }
        ensures sender { IfOk result (λ job. job.sender ≡ sender) }
    {
        let piece = vec![in alloc; 0u8; PIECE]?;
        let items = vec![in alloc; 0u16; PUSH_BATCH]?;
        Ok(ReadingJob {
            reader,
            sender,
            piece,
            items,
        })
    }
}

/// Waits for the start signal, and then sends all bytes that the reader gives, and one mark. If the
/// signal says to leave, nothing is read, and the signal's token is returned, which proves that the
/// signal said so. The call blocks while the reader does, and while the ring is full.
pub fn read_on_signal<'a, W: Wait, R: Source + Drop>(
    wait: &W,
    signal: &'a OnceLock<bool>,
    job: ReadingJob<R>,
) -> Result<Sent<R>, OnceToken<'a, bool>>
    ensures leaves { IfErr result (λ token. (token.of ≡ signal.now.id) × (token.value ≡ false)) }
    ensures ring { IfOk result (λ sent. SameProducer job.sender.producer sent.producer) }
    ensures sent { IfOk result (λ s. SendsAll _ (readers_view R.Source)
        job.reader s.reader (sent s.producer)) }
{
    let token = wait_for_start(wait, signal);
    if !*signal.value(&token) {
        return Err(token);
    }
    let ReadingJob {
        mut reader,
        mut sender,
        mut piece,
        mut items,
    } = job;
    // How the reader ended isn't needed here, since the mark says it.
    sender.send_all(
        wait,
        &mut reader,
        piece.as_mut_slice(),
        items.as_mut_slice(),
    );
    Ok(Sent {
        reader,
        producer: sender.into_producer(),
    })
}
