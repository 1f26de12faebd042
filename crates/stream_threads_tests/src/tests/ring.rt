//! Two threads at the two ends of a ring. No contract says what these tests show: that bytes arrive
//! at all, and that a sleeping end is woken.
ghost use Rattle.std.specs.Prelude.{◌≡◌, ◌<◌, [], None, false, length};
ghost use Rattle.rtrb.specs.Ring.{sent};

use super::{pause, same, waits_for};
use lrup_text::{ReadFault, Source, StreamEnd};
use std::alloc::{AllocError, Global};
use std::process::Abort;
use std::sync::Wait;
use std::sync::atomic::{AtomicU64, Ordering};
use std::test::Fail;
use std::thread::{Threads, join};
use std::time::Clock;
use stream_threads::{Received, Receiver, Sender, halves_agree, ring};

/// The byte at an index of a stream; all 256 values occur.
fn byte_at(place: u64) -> u8 {
    (place.wrapping_mul(0x9e37_79b9_7f4a_7c15) >> 56) as u8
}

/// Fills a piece of the stream that begins at this index.
fn fill(piece: &mut [u8], place: u64) {
    for i in 0..piece.len() {
        piece[i] = byte_at(place.wrapping_add(i as u64));
    }
}

/// How many bytes of a piece differ from the stream's bytes from this index on.
fn wrong_bytes(piece: &[u8], place: u64) -> u64 {
    let mut wrong = 0u64;
    for i in 0..piece.len() {
        if piece[i] != byte_at(place.wrapping_add(i as u64)) {
            wrong = wrong.saturating_add(1);
        }
    }
    wrong
}

/// A stream of a given length, with at most `most` bytes per read, and then its end or a read that
/// fails.
#[derive(Drop)]
struct Stream {
    place: u64,
    left: usize,
    most: usize,
    fails: bool,
    failed: bool,
}

impl Stream {
    fn new(count: usize, most: usize, fails: bool) -> Stream
        ensures { result.failed ≡ false }
    {
        Stream {
            place: 0,
            left: count,
            most,
            fails,
            failed: false,
        }
    }
}

impl Source for Stream {
    ghost left = { λ _. None };

    ghost has_failed = { λ s. s.failed };

    ghost reads = { λ _ _ _ _. Unit {0} };

    fn read(&mut self, buffer: &mut [u8]) -> Result<usize, ReadFault> {
        if self.left == 0 && self.fails {
            self.failed = true;
            return Err(ReadFault);
        }
        let count = buffer.len().min(self.most.max(1)).min(self.left);
        fill(&mut buffer[..count], self.place);
        self.place = self.place.wrapping_add(count as u64);
        self.left -= count;
        Ok(count)
    }

    fn failed(&self) -> bool {
        self.failed
    }
}

/// How many items the ring, a push and a pop have room for.
#[derive(Clone, Copy, Debug, PartialEq, Eq)]
struct Sizes {
    ring: usize,
    pushed: usize,
    popped: usize,
}

/// The most bytes that a read asks for.
const PIECE: usize = 65_536;

/// The most items of a push.
const PUSH_BATCH: usize = 4_096;

/// Sends everything, and returns how the reader ended.
fn send<W: Wait, R: Source>(
    wait: &W,
    mut sender: Sender,
    reader: &mut R,
    pushed: usize,
) -> StreamEnd
    requires running { R.has_failed reader.old ≡ false }
    requires fresh { sent sender.producer ≡ [] }
{
    let mut piece = [0u8; PIECE];
    let mut items = [0u16; PUSH_BATCH];
    let pushed = pushed.clamp(1, PUSH_BATCH);
    sender.send_all(wait, reader, &mut piece, &mut items[..pushed])
}

/// How many bytes arrived, and how many of them were wrong.
#[derive(Clone, Copy, Debug, PartialEq, Eq)]
struct Heard {
    count: u64,
    wrong: u64,
}

/// Counts what arrives, and shows the count to the other thread. If `is_late`, the receiver pauses
/// before it receives.
#[derive(Drop)]
struct Ear<'a> {
    heard: Heard,
    counter: &'a AtomicU64,
    is_late: bool,
}

impl Ear<'_> {
    fn new(counter: &AtomicU64, is_late: bool) -> Ear<'_> {
        Ear {
            heard: Heard { count: 0, wrong: 0 },
            counter,
            is_late,
        }
    }

    fn hear(&mut self, bytes: &[u8]) {
        let Heard { count, wrong } = self.heard;
        self.heard = Heard {
            count: count.saturating_add(bytes.len() as u64),
            wrong: wrong.saturating_add(wrong_bytes(bytes, count)),
        };
        self.counter.store(self.heard.count, Ordering::SeqCst);
    }
}

/// Receives up to the mark, and returns the ending that it means; `None` if no mark came.
fn hear_all<T: Wait + Clock>(
    rt: &T,
    receiver: &mut Receiver,
    items: &mut [u16],
    bytes: &mut [u8],
    ear: &mut Ear<'_>,
) -> Option<StreamEnd>
    requires some { 0 < length items.old }
    requires room { length items.old ≡ length bytes.old }
{
    for _ in rt.forever() {
        if ear.is_late {
            pause(rt);
        }
        match receiver.receive(rt, items, bytes) {
            Received::Bytes(count) => ear.hear(&bytes[..count]),
            Received::Mark(count, end) => {
                ear.hear(&bytes[..count]);
                return Some(end);
            }
            Received::Abandoned => return None,
        }
    }
    unreachable!()
}

/// Receives up to the mark, with pops of at most this many items.
fn hear<T: Wait + Clock>(
    rt: &T,
    alloc: Global,
    mut receiver: Receiver,
    popped: usize,
    ear: &mut Ear<'_>,
) -> Result<Option<StreamEnd>, AllocError> {
    let mut items = vec![in alloc; 0u16; popped.max(1)]?;
    let mut bytes = vec![in alloc; 0u8; popped.max(1)]?;
    Ok(hear_all(rt, &mut receiver, &mut items, &mut bytes, ear))
}

/// Reads and sends in one thread, and receives in another. Returns the ending on both sides.
fn exchange<T: Threads + Wait + Clock + Sync, R: Source + Send>(
    rt: &T,
    alloc: Global,
    sizes: Sizes,
    reader: &mut R,
    ear: &mut Ear<'_>,
) -> Result<(StreamEnd, Option<StreamEnd>), AllocError>
    requires { R.has_failed reader.old ≡ false }
{
    let (sender, receiver) = ring(alloc, sizes.ring)?;
    let (end, mark) = join(
        rt,
        || send(rt, sender, reader, sizes.pushed),
        || hear(rt, alloc, receiver, sizes.popped, ear),
    );
    Ok((end, mark?))
}

/// How a stream ended for its sender, what arrived, and how it ended for the receiver.
type Came = (StreamEnd, (Heard, Option<StreamEnd>));

/// Sends a stream, and receives it, possibly late.
fn through<T: Threads + Wait + Clock + Sync>(
    rt: &T,
    alloc: Global,
    sizes: Sizes,
    mut stream: Stream,
    is_late: bool,
) -> Result<Came, AllocError>
    requires { stream.failed ≡ false }
{
    let counter = AtomicU64::new(0);
    let mut ear = Ear::new(&counter, is_late);
    let (end, mark) = exchange(rt, alloc, sizes, &mut stream, &mut ear)?;
    Ok((end, (ear.heard, mark)))
}

/// Whether the read after the last byte fails, and how the stream then ends.
static ENDS: [(bool, StreamEnd); 2] = [(false, StreamEnd::Ended), (true, StreamEnd::Failed)];

/// Checks that the stream arrives whole, with its mark.
fn comes_through<T: Threads + Wait + Clock + Sync + Abort>(
    rt: &T,
    alloc: Global,
    sizes: Sizes,
    count: usize,
    most: usize,
) -> Result<(), Fail> {
    let heard = Heard {
        count: count as u64,
        wrong: 0,
    };
    for &(fails, end) in &ENDS {
        let came = through(rt, alloc, sizes, Stream::new(count, most, fails), false)?;
        let wanted = (end, (heard, Some(end)));
        same(rt, (sizes, count, most, came), (sizes, count, most, wanted));
    }
    Ok(())
}

/// The sizes that the program uses.
const STANDARD: Sizes = Sizes {
    ring: 65_536,
    pushed: 4_096,
    popped: 65_536,
};

static COUNTS: [usize; 6] = [0, 1, 2, 65_535, 65_536, 65_537];

/// The most bytes that a read gives.
static MOST_A_READ: [usize; 4] = [1, 2, 65_535, 65_536];

/// Streams of these lengths, with an end or a failed read after the last byte. This test would fail
/// if every ring failed at a stream's end.
#[test]
fn always_a_ring_fault(rt: HostRuntime) -> Result<(), Fail> {
    for count in &COUNTS {
        for most in &MOST_A_READ {
            comes_through(&rt, rt.alloc(), STANDARD, *count, *most)?;
        }
    }
    comes_through(&rt, rt.alloc(), STANDARD, 3_000_000, 60_000)
}

/// Rings with room for few items, and one with room for many, whose pushes and pops take one item
/// each.
static FEW_ITEMS: [Sizes; 4] = [
    Sizes {
        ring: 1,
        pushed: 1,
        popped: 1,
    },
    Sizes {
        ring: 1,
        pushed: 4_096,
        popped: 65_536,
    },
    Sizes {
        ring: 3,
        pushed: 2,
        popped: 5,
    },
    Sizes {
        ring: 65_536,
        pushed: 1,
        popped: 1,
    },
];

/// How many bytes are sent through each of these rings.
static FEW_BYTES_AND_MANY: [usize; 7] = [0, 1, 2, 3, 4, 5, 10_000];

#[test]
fn streams_come_through_small_rings(rt: HostRuntime) -> Result<(), Fail> {
    for sizes in &FEW_ITEMS {
        for count in &FEW_BYTES_AND_MANY {
            comes_through(&rt, rt.alloc(), *sizes, *count, 65_536)?;
        }
    }
    Ok(())
}

/// Delivers each byte only after the one before has been received. Before the first few bytes it
/// pauses, so that the receiver falls asleep.
#[derive(Drop)]
struct Steps<'a, C: Clock> {
    clock: &'a C,
    heard: &'a AtomicU64,
    given: u64,
    count: u64,
    pauses: u64,
    late: bool,
}

impl<C: Clock> Source for Steps<'_, C> {
    ghost left = { λ _. None };

    ghost has_failed = { λ _. false };

    ghost reads = { λ _ _ _ _. Unit {0} };

    fn read(&mut self, buffer: &mut [u8]) -> Result<usize, ReadFault> {
        if !waits_for(self.heard, self.given) {
            self.late = true;
        }
        if self.late || self.given == self.count {
            return Ok(0);
        }
        if self.given < self.pauses {
            pause(self.clock);
        }
        let count = buffer.len().min(1);
        fill(&mut buffer[..count], self.given);
        self.given = self.given.saturating_add(1);
        Ok(count)
    }

    fn failed(&self) -> bool {
        false
    }
}

/// Sends bytes, each only after the one before has been received. Returns whether a byte was late,
/// and what arrived.
fn step_through<T: Threads + Wait + Clock + Sync>(
    rt: &T,
    alloc: Global,
    ring: usize,
    count: u64,
    pauses: u64,
) -> Result<(bool, (Heard, Option<StreamEnd>)), AllocError> {
    let counter = AtomicU64::new(0);
    let mut steps = Steps {
        clock: rt,
        heard: &counter,
        given: 0,
        count,
        pauses,
        late: false,
    };
    let mut ear = Ear::new(&counter, false);
    let sizes = Sizes { ring, ..STANDARD };
    let (_, mark) = exchange(rt, alloc, sizes, &mut steps, &mut ear)?;
    Ok((steps.late, (ear.heard, mark)))
}

/// The size of a ring, how many bytes are sent, and before how many of them the sender pauses.
static WOKEN: [(usize, u64, u64); 3] = [(65_536, 300, 300), (1, 300, 300), (65_536, 100_000, 0)];

/// Another byte would hide that a wake-up was lost at an empty ring, so each byte comes only after
/// the one before has been received.
#[test]
fn a_receiver_that_sleeps_is_woken(rt: HostRuntime) -> Result<(), Fail> {
    for &(ring, count, pauses) in &WOKEN {
        let came = step_through(&rt, rt.alloc(), ring, count, pauses)?;
        let heard = Heard { count, wrong: 0 };
        same(
            &rt,
            (ring, count, came),
            (ring, count, (false, (heard, Some(StreamEnd::Ended)))),
        );
    }
    Ok(())
}

/// The sizes of a ring and of a pop, and how many bytes are sent.
static RINGS_THAT_FILL: [(usize, usize, usize); 4] = [
    (1, 1, 300),
    (2, 1, 300),
    (64, 64, 20_000),
    (64, 1, 300),
];

/// The receiver is late, so the sender sleeps at a full ring.
#[test]
fn a_sender_that_sleeps_is_woken(rt: HostRuntime) -> Result<(), Fail> {
    for &(ring, popped, count) in &RINGS_THAT_FILL {
        let sizes = Sizes {
            ring,
            pushed: 4_096,
            popped,
        };
        let came = through(
            &rt,
            rt.alloc(),
            sizes,
            Stream::new(count, 65_536, true),
            true,
        )?;
        let heard = Heard {
            count: count as u64,
            wrong: 0,
        };
        let wanted = (StreamEnd::Failed, (heard, Some(StreamEnd::Failed)));
        same(&rt, (sizes, came), (sizes, wanted));
    }
    Ok(())
}

/// Pushes this many bytes, and after a pause drops the sender without a mark.
fn go<C: Clock>(clock: &C, mut sender: Sender, count: u64) {
    for place in 0..count {
        if sender.producer.push(u16::from(byte_at(place))).is_err() {
            return;
        }
    }
    pause(clock);
}

/// What arrives from a sender that pushes this many bytes and is then dropped.
fn heard_of_one_that_goes<T: Threads + Wait + Clock + Sync>(
    rt: &T,
    alloc: Global,
    count: u64,
) -> Result<(Heard, Option<StreamEnd>), AllocError> {
    let (sender, receiver) = ring(alloc, 8)?;
    let counter = AtomicU64::new(0);
    let mut ear = Ear::new(&counter, false);
    let (_, mark) = join(
        rt,
        || go(rt, sender, count),
        || hear(rt, alloc, receiver, 8, &mut ear),
    );
    Ok((ear.heard, mark?))
}

/// The receiver sleeps, and a sender that is dropped wakes it.
#[test]
fn a_sender_that_goes_wakes_the_receiver(rt: HostRuntime) -> Result<(), Fail> {
    for round in 0..200u64 {
        let count = round % 4;
        let came = heard_of_one_that_goes(&rt, rt.alloc(), count)?;
        same(&rt, came, (Heard { count, wrong: 0 }, None));
    }
    Ok(())
}

/// `make sweep` refuses each allocation of this test in turn; the second attempt then succeeds.
#[test]
fn a_refused_ring_can_be_made_again(rt: HostRuntime) -> Result<(), Fail> {
    let (mut sender, mut receiver) = match ring(rt.alloc(), 4) {
        Ok(ends) => ends,
        Err(_) => ring(rt.alloc(), 4)?,
    };
    halves_agree(&mut sender.producer, &mut receiver.consumer);
    same(&rt, sender.producer.slots(), 4);
    let mut consumer = receiver.into_consumer();
    same(&rt, consumer.is_abandoned(), false);
    drop(sender.into_producer());
    same(&rt, consumer.is_abandoned(), true);
    Ok(())
}
