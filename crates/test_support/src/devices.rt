//! A reader and a writer that handle few bytes per call, and fail at one call.
ghost use Rattle.std.specs.Prelude.{◌≡◌, [], Some, false};
ghost use Rattle.lrup_text.specs.Reads.{GivesLeft};

use lrup_text::{ReadFault, Sink, Source, WriteFault};
use std::alloc::Global;

/// A text of which a read delivers at most `most` bytes (1 if that is 0). Read number `fails_at`,
/// counted from 1, fails.
#[derive(Drop)]
pub struct Pieces<'a> {
    /// The bytes that weren't read yet.
    pub left: &'a [u8],
    /// The number of reads, including the failed one.
    pub reads: usize,
    /// The largest number of bytes that a read asked for.
    pub asked: usize,
    most: usize,
    fails_at: usize,
    failed: bool,
}

impl<'a> Pieces<'a> {
    /// Reads deliver at most `most` bytes. Read number `fails_at` fails; if `fails_at` is 0, no
    /// read fails.
    pub fn new(text: &'a str, most: usize, fails_at: usize) -> Pieces<'a>
        ensures left { result.left.now ≡ text.now }
        ensures most { result.most ≡ most }
        ensures fails_at { result.fails_at ≡ fails_at }
        ensures reads { (result.reads ≡ 0) × (result.asked ≡ 0) }
        ensures failed { result.failed ≡ false }
    {
        Pieces {
            left: text.as_bytes(),
            reads: 0,
            asked: 0,
            most,
            fails_at,
            failed: false,
        }
    }
}

impl Source for Pieces<'_> {
    ghost left = { λ s. Some s.left.now };

    ghost has_failed = { λ s. s.failed };

    ghost reads = { λ before room given after.
        GivesLeft (Some before.left.now) room given (Some after.left.now) };

    fn read(&mut self, buffer: &mut [u8]) -> Result<usize, ReadFault> {
        self.reads = self.reads.saturating_add(1);
        self.asked = self.asked.max(buffer.len());
        if self.reads == self.fails_at {
            self.failed = true;
            return Err(ReadFault);
        }
        let count = buffer.len().min(self.most.max(1)).min(self.left.len());
        let (front, rest) = self.left.split_at(count);
        buffer[..count].copy_from_slice(front);
        self.left = rest;
        Ok(count)
    }

    fn failed(&self) -> bool {
        self.failed
    }
}

/// A sink that takes at most `most` bytes per write (1 if that is 0). Write number `fails_at`,
/// counted from 1, fails.
#[derive(Drop)]
pub struct Paper {
    /// The bytes that were written.
    pub bytes: Vec<u8>,
    /// The number of writes, including the failed one.
    pub writes: usize,
    most: usize,
    fails_at: usize,
    failed: bool,
}

impl Paper {
    /// Writes take at most `most` bytes. Write number `fails_at` fails; if `fails_at` is 0, no
    /// write fails.
    pub fn new(alloc: Global, most: usize, fails_at: usize) -> Paper
        ensures bytes { result.bytes.items ≡ [] }
        ensures most { result.most ≡ most }
        ensures fails_at { result.fails_at ≡ fails_at }
        ensures writes { result.writes ≡ 0 }
        ensures failed { result.failed ≡ false }
    {
        Paper {
            bytes: Vec::new(alloc),
            writes: 0,
            most,
            fails_at,
            failed: false,
        }
    }
}

impl Sink for Paper {
    ghost written = { λ p. Some p.bytes.items };

    ghost has_failed = { λ p. p.failed };

    fn write(&mut self, bytes: &[u8]) -> Result<usize, WriteFault> {
        self.writes = self.writes.saturating_add(1);
        let count = bytes.len().min(self.most.max(1));
        if self.writes == self.fails_at || self.bytes.extend_from_slice(&bytes[..count]).is_err() {
            self.failed = true;
            return Err(WriteFault);
        }
        Ok(count)
    }

    fn failed(&self) -> bool {
        self.failed
    }
}
