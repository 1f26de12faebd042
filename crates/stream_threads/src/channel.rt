//! The two halves of a ring of items, and what each thread does with its half.
//!
//! A thread that has to wait spins for a while, and then parks. Each thread pushes or pops before
//! it wakes the other one, and looks at the ring before it parks. If the wake-up comes between the
//! look and the park, the park returns at once, so no wake-up is lost. All steps of the kit's
//! `rtrb` are `SeqCst`: a thread that was woken, or that finds the producer gone, then finds all
//! that was pushed.
//!
//! A loop over `wait.forever()` has no end; for any other loop the prover requires a proof that it
//! ends. The `unreachable!` after an endless loop is never reached.
ghost use Rattle.std.specs.Prelude.{◌≡◌, ◌<◌, ◌≤◌, ℕ, List, [], ◌++◌, ◌∷◌, false, length, take, map, All, IfOk};
ghost use Rattle.rtrb.specs.Ring.{sent, received, producer_capacity, consumer_capacity, SameProducer, SameConsumer, IsPair};
ghost use Rattle.lrup_text.specs.ReadOut.{EndsSo, source_view};
ghost use Rattle.stream_threads.specs.Items.{EndsAtMark, EndsBeforeMark, IsSentOf, SendsAll, byte_of, end_of_mark};

use crate::blocks::{narrow, widen};
use crossbeam_utils::Backoff;
use crossbeam_utils::sync::{Parker, Unparker};
use lrup_text::{Source, StreamEnd};
use rtrb::{Consumer, Producer, RingBuffer};
use std::alloc::{AllocError, Global};
use std::sync::Wait;

/// The mark of a stream that ended: the item after its last byte. Bytes are the items 0 to 255.
const END: u16 = 256;

/// The mark of a stream whose read failed: the item after its last byte.
const FAILURE: u16 = 257;

/// Wakes the thread at the other half: at each call, and once more when the waker is dropped, so
/// that the other thread doesn't sleep forever.
struct Waker(Unparker);

impl Waker {
    fn wake(&self) {
        self.0.unpark();
    }
}

impl Drop for Waker {
    fn drop(self) {
        let Waker(unparker) = self;
        unparker.unpark();
    }
}

/// The reading thread's half of the ring. If it is dropped as a whole, the producer is dropped
/// before the waker: so when the drop of the waker wakes the receiver, the receiver finds the
/// producer gone.
#[derive(Drop)]
pub struct Sender {
    pub producer: Producer<u16>,
    /// The reading thread parks here while the ring is full; the receiver's `wake_sender` unparks
    /// it.
    when_not_full: Parker,
    wake_receiver: Waker,
}

/// The checking thread's half of the ring. The order of its drops makes no difference: the sender
/// never checks whether the consumer is gone.
#[derive(Drop)]
pub struct Receiver {
    pub consumer: Consumer<u16>,
    /// The checking thread parks here while the ring is empty; the sender's `wake_receiver` unparks
    /// it.
    when_not_empty: Parker,
    wake_sender: Waker,
}

/// What a call of `receive` gave the checking thread.
#[derive(Clone, Copy, Debug, PartialEq, Eq)]
pub enum Received {
    /// This many bytes, and more may come.
    Bytes(usize),
    /// This many bytes, and then the mark that says how the stream ended: nothing more comes.
    Mark(usize, StreamEnd),
    /// The reading thread dropped its half. All items that it pushed were received before this, and
    /// none of them was a mark.
    Abandoned,
}

/// Makes the two halves of a ring that has room for `capacity` items of two bytes each.
pub fn ring(alloc: Global, capacity: usize) -> Result<(Sender, Receiver), AllocError>
    ensures pair { IfOk result (λ r. IsPair r.0.producer r.1.consumer) }
    ensures sent { IfOk result (λ r. sent r.0.producer ≡ []) }
    ensures received { IfOk result (λ r. received r.1.consumer ≡ []) }
    ensures capacity { IfOk result (λ r. (producer_capacity r.0.producer ≡ capacity)
        × (consumer_capacity r.1.consumer ≡ capacity)) }
{
    let (producer, consumer) = RingBuffer::new(alloc, capacity)?;
    let when_not_full = Parker::new(alloc)?;
    let when_not_empty = Parker::new(alloc)?;
    let wake_sender = Waker(when_not_full.unparker().clone()?);
    let wake_receiver = Waker(when_not_empty.unparker().clone()?);
    let sender = Sender {
        producer,
        when_not_full,
        wake_receiver,
    };
    let receiver = Receiver {
        consumer,
        when_not_empty,
        wake_sender,
    };
    Ok((sender, receiver))
}

impl Sender {
    /// Returns the producer. This drops the waker, which wakes the receiver once more.
    pub fn into_producer(self) -> Producer<u16>
        ensures { result ≡ self.producer }
    {
        let Sender { producer, .. } = self;
        producer
    }

    /// Pushes all items, and blocks while the ring is full. It doesn't check whether the consumer
    /// is gone: the checking thread receives everything up to the mark, even after a bad line, and
    /// its `Consumer` is kept until both threads are joined.
    fn push_all<W: Wait>(&mut self, wait: &W, items: &[u16])
        ensures ring { SameProducer self.old.producer self.new.producer }
        ensures sent { sent self.new.producer ≡ sent self.old.producer ++ items.now }
    {
        let backoff = Backoff::new();
        let mut rest = items;
        for _ in wait.forever() {
            if rest.is_empty() {
                return;
            }
            let (pushed, left) = self.producer.push_partial_slice(rest);
            if !pushed.is_empty() {
                self.wake_receiver.wake();
                backoff.reset();
            } else if backoff.is_completed() {
                self.when_not_full.park(wait);
            } else {
                backoff.snooze();
            }
            rest = left;
        }
        unreachable!()
    }

    /// Pushes bytes, in slices of at most `items.len()`.
    fn push_bytes<W: Wait>(&mut self, wait: &W, bytes: &[u8], items: &mut [u16])
        requires { 0 < length items.old }
        ensures ring { SameProducer self.old.producer self.new.producer }
        ensures sent { sent self.new.producer ≡ sent self.old.producer ++ bytes.now }
        ensures small { All (λ b. b < 256) bytes.now }
        ensures room { length items.new ≡ length items.old }
    {
        let mut rest = bytes;
        for _ in wait.forever() {
            if rest.is_empty() {
                return;
            }
            let count = rest.len().min(items.len());
            let (front, back) = rest.split_at(count);
            widen(front, &mut items[..count]);
            self.push_all(wait, &items[..count]);
            rest = back;
        }
        unreachable!()
    }

    /// Reads a source to its end, or to a read that fails, and sends what was read and then one
    /// mark. It returns which of the two happened. `piece` is the buffer of a read, `items` the
    /// buffer of a push. The call blocks while the source does, and while the ring is full.
    pub fn send_all<W: Wait, R: Source>(
        &mut self,
        wait: &W,
        reader: &mut R,
        piece: &mut [u8],
        items: &mut [u16],
    ) -> StreamEnd
        requires running { R.has_failed reader.old ≡ false }
        requires fresh { sent self.old.producer ≡ [] }
        requires room { (0 < length piece.old) × (0 < length items.old) }
        ensures ring { SameProducer self.old.producer self.new.producer }
        ensures ends { EndsSo result (R.left reader.new) (R.has_failed reader.new) }
        ensures sent { SendsAll _ (source_view R.left R.has_failed R.reads) reader.old reader.new
            (sent self.new.producer) }
    {
        for _ in wait.forever() {
            match reader.read(piece) {
                Ok(0) => {
                    self.push_all(wait, &[END]);
                    return StreamEnd::Ended;
                }
                Ok(count) => self.push_bytes(wait, &piece[..count], items),
                Err(_) => {
                    self.push_all(wait, &[FAILURE]);
                    return StreamEnd::Failed;
                }
            }
        }
        unreachable!()
    }
}

impl Receiver {
    /// Returns the consumer. This drops the waker, which wakes the sender once more.
    pub fn into_consumer(self) -> Consumer<u16>
        ensures { result ≡ self.consumer }
    {
        let Receiver { consumer, .. } = self;
        consumer
    }

    /// Pops at least one item, and blocks while there is none. If a pop finds nothing, and the
    /// producer then turns out to be dropped, the call pops once more, since items may have been
    /// pushed in between. It returns 0 if that pop finds nothing, either.
    fn pop_some<W: Wait>(&mut self, wait: &W, items: &mut [u16]) -> usize
        requires { 0 < length items.old }
        ensures ring { SameConsumer self.old.consumer self.new.consumer }
        ensures room { (result ≤ length items.new) × (length items.new ≡ length items.old) }
        ensures received { received self.new.consumer
            ≡ received self.old.consumer ++ take result items.new }
    {
        let backoff = Backoff::new();
        let mut abandoned = false;
        for _ in wait.forever() {
            let count = self.consumer.pop_partial_slice(items);
            if count > 0 {
                self.wake_sender.wake();
                return count;
            }
            if abandoned {
                return 0;
            }
            abandoned = self.consumer.is_abandoned();
            if abandoned {
                continue;
            }
            if backoff.is_completed() {
                self.when_not_empty.park(wait);
            } else {
                backoff.snooze();
            }
        }
        unreachable!()
    }

    /// Receives what there is, and blocks while there is nothing. The bytes go to the front of
    /// `bytes`; `items` is the buffer of a pop.
    pub fn receive<W: Wait>(&mut self, wait: &W, items: &mut [u16], bytes: &mut [u8]) -> Received
        requires some { 0 < length items.old }
        requires room { length items.old ≡ length bytes.old }
        ensures ring { SameConsumer self.old.consumer self.new.consumer }
        ensures items { length items.new ≡ length items.old }
        ensures room { length bytes.new ≡ length bytes.old }
        ensures bytes { (count : ℕ) → result ≡ Received.Bytes count →
            (count ≤ length bytes.new) × (map byte_of (received self.new.consumer)
            ≡ map byte_of (received self.old.consumer) ++ take count bytes.new) }
        ensures mark { (count : ℕ) (end : StreamEnd) → result ≡ Received.Mark count end →
            (count ≤ length bytes.new) × EndsAtMark
            (map byte_of (received self.old.consumer) ++ take count bytes.new)
            end (received self.new.consumer) }
        ensures no_mark { (count : ℕ) → result ≡ Received.Bytes count →
            EndsBeforeMark (received self.new.consumer) }
        ensures abandoned { result ≡ Received.Abandoned →
            received self.new.consumer ≡ received self.old.consumer }
    {
        let count = self.pop_some(wait, items);
        if count == 0 {
            return Received::Abandoned;
        }
        // A mark is the last item that is pushed, so it can only be the last of the popped items.
        let last = items[count - 1];
        narrow(&items[..count], &mut bytes[..count]);
        if last < END {
            return Received::Bytes(count);
        }
        Received::Mark(count - 1, end_of(last))
    }
}

/// How a stream with this mark ended.
fn end_of(mark: u16) -> StreamEnd
    ensures { result ≡ end_of_mark mark }
{
    if mark == FAILURE {
        StreamEnd::Failed
    } else {
        StreamEnd::Ended
    }
}

/// Compares the two halves, once both threads have returned them. It is for the proof only, and
/// changes nothing: by its contract, what was received is a prefix of what was sent; if it ends
/// with a mark, it is all that was sent.
pub fn halves_agree(producer: &mut Producer<u16>, consumer: &mut Consumer<u16>)
    requires { IsPair producer.old consumer.old }
    ensures beginning { (left : List ℕ)
        × (sent producer.old ≡ received consumer.old ++ left) }
    ensures same { (bytes came : List ℕ) (sent_end end : StreamEnd)
        → IsSentOf bytes sent_end (sent producer.old)
        → EndsAtMark came end (received consumer.old)
        → (came ≡ bytes) × (end ≡ sent_end) }
{
    consumer.slots_beside(producer);
}
