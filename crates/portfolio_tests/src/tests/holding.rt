//! Gates and readers that hold their threads until other threads have reached given calls.
ghost use Rattle.std.specs.Prelude.{◌≡◌, None, false, IfOk};
ghost use Rattle.std.specs.List.{AllByRecursion};

use super::{Found, Machine, Mode, counters, readers_of, run_with, same};
use lrup_model::Id;
use lrup_text::{ReadFault, Source};
use portfolio::Options;
use std::alloc::{AllocError, Global};
use std::sync::atomic::{AtomicU64, Ordering};
use std::test::Fail;
use std::thread::yield_now;
use stream_check::{Gate, Report};
use test_support::Pieces;

/// The stream, identity and attempt of a fetch; attempt 0 means a publish. If the identity is 0,
/// the last number is the number of a read of the stream, and 0 means the stream's end.
type Call = [u64; 3];

/// A thread waits at the first call until the second has been made this many times.
pub(super) type Hold = (Call, Call, u64);

/// How many times a thread polls before it gives up.
const TURNS: u64 = 10_000_000;

/// Holds threads at calls, and counts the calls that are waited for and the waits that timed out.
#[derive(Drop)]
pub(super) struct Holds<'a> {
    holds: &'a [Hold],
    made: Vec<AtomicU64>,
    late: AtomicU64,
}

impl<'a> Holds<'a> {
    pub(super) fn new(alloc: Global, holds: &'a [Hold]) -> Result<Holds<'a>, AllocError> {
        Ok(Holds {
            holds,
            made: counters(alloc, holds.len())?,
            late: AtomicU64::new(0),
        })
    }

    /// How many waits timed out.
    pub(super) fn late(&self) -> u64 {
        self.late.load(Ordering::SeqCst)
    }

    /// How many times the second call of the first hold was made.
    pub(super) fn made(&self) -> u64 {
        let first = self.made.first();
        first.map_or(0, |count| count.load(Ordering::SeqCst))
    }

    /// Counts a call, and holds its thread if a hold says so.
    fn call(&self, call: Call) {
        for ((_, awaited, _), made) in self.holds.iter().zip(&self.made) {
            if *awaited == call {
                made.fetch_add(1, Ordering::SeqCst);
            }
        }
        for ((at, _, times), made) in self.holds.iter().zip(&self.made) {
            if *at == call && !comes_to(made, *times) {
                self.late.fetch_add(1, Ordering::SeqCst);
            }
        }
    }
}

/// Waits until the counter has this value; returns whether it got there in time.
fn comes_to(counter: &AtomicU64, wanted: u64) -> bool {
    for _ in 0..TURNS {
        if counter.load(Ordering::SeqCst) >= wanted {
            return true;
        }
        yield_now();
    }
    false
}

/// Holds a checking thread at the calls of its gate.
#[derive(Clone, Copy)]
pub(super) struct HoldingGate<'a>(pub(super) &'a Holds<'a>);

impl Gate for HoldingGate<'_> {
    fn before_fetch(&mut self, stream: u64, id: Id, attempt: u64) {
        self.0.call([stream, id, attempt]);
    }

    fn after_publish(&mut self, stream: u64, id: Id) {
        self.0.call([stream, id, 0]);
    }

    fn when_finished(&mut self, stream: u64, _report: &Report) {
        self.0.call([stream, 0, 0]);
    }
}

/// Gives one text per read, after holding its thread; an empty text is the end.
#[derive(Drop)]
pub(super) struct HoldingReader<'a> {
    texts: &'static [&'static str],
    stream: u64,
    pub(super) reads: usize,
    holds: &'a Holds<'a>,
}

impl Source for HoldingReader<'_> {
    ghost left = { λ _. None };

    ghost has_failed = { λ _. false };

    ghost reads = { λ _ _ _ _. Unit {0} };

    fn read(&mut self, buffer: &mut [u8]) -> Result<usize, ReadFault> {
        let text = self.texts.get(self.reads).copied().unwrap_or("").as_bytes();
        self.reads = self.reads.saturating_add(1);
        self.holds.call([self.stream, 0, self.reads as u64]);
        let count = text.len().min(buffer.len());
        buffer[..count].copy_from_slice(&text[..count]);
        Ok(count)
    }

    fn failed(&self) -> bool {
        false
    }
}

/// A reader for each stream's texts.
pub(super) fn holding_readers<'a>(
    alloc: Global,
    streams: &[&'static [&'static str]],
    holds: &'a Holds<'a>,
) -> Result<Vec<HoldingReader<'a>>, AllocError>
    ensures { IfOk result (λ readers. AllByRecursion (λ _. false ≡ false) readers.items) }
{
    let mut readers = Vec::new(alloc);
    for (stream, texts) in (1..=u64::MAX).zip(streams) {
        readers.push(HoldingReader {
            texts,
            stream,
            reads: 0,
            holds,
        })?;
    }
    Ok(readers)
}

/// A run with threads that its gates hold. Fails if a wait timed out.
pub(super) fn run_held<'a, T: Machine>(
    rt: &T,
    options: Options,
    streams: &[&'a str],
    holds: &[Hold],
) -> Result<Found<Pieces<'a>>, Fail> {
    let holding = Holds::new(rt.alloc(), holds)?;
    let readers = readers_of(rt.alloc(), streams, 5)?;
    let gate = HoldingGate(&holding);
    let found = run_with(rt, Mode::Threads, options, readers, gate)?;
    same(rt, (streams, holding.late()), (streams, 0));
    Ok(found)
}
