//! Devices: sources of bytes, and sinks. Only contracts use the `ghost` items of a trait.
ghost use Rattle.std.specs.Prelude.{◌≡◌, ◌<◌, ◌≤◌, ℕ, List, Bool, false, Option, IfOk, is_err, length, option_map, take};
ghost use Rattle.std.specs.Io.KnownBytes.{ReadConsumes, WriteAppends};
ghost use Rattle.std.specs.Result.{result_ok};

use std::io;
use thiserror::Error;

/// The maximum number of bytes that one read of a stream or of a formula's file asks for.
pub const PIECE: usize = 65_536;

/// A read failed.
#[derive(Clone, Copy, Debug, PartialEq, Eq, Error)]
#[error("read failed")]
pub struct ReadFault;

/// How the reading of a stream ended.
#[derive(Clone, Copy, Debug, PartialEq, Eq)]
pub enum StreamEnd {
    /// A read gave no bytes: the end of the stream.
    Ended,
    /// A read failed.
    Failed,
}

/// A write failed.
#[derive(Clone, Copy, Debug, PartialEq, Eq, Error)]
#[error("write failed")]
pub struct WriteFault;

/// A device that gives bytes.
pub trait Source {
    /// The bytes left, if they are known.
    ghost left: { Self → Option (List ℕ) };

    /// Whether a read has failed.
    ghost has_failed: { Self → Bool };

    /// The effect of a read: it relates the source before, the buffer's length, the bytes given
    /// (none after a fault), and the source after.
    ghost reads: { Self → ℕ → Option (List ℕ) → Self → Type 0 };

    /// Reads bytes into the front of a buffer, and returns how many. If the buffer isn't empty, 0
    /// bytes mean the end.
    ///
    /// A failed read gives no bytes, and no read may follow.
    fn read(&mut self, buffer: &mut [u8]) -> Result<usize, ReadFault>
        requires { has_failed self.old ≡ false }
        ensures bound { IfOk result (λ count. count ≤ length buffer.new) }
        ensures bytes { ReadConsumes (left self.old) (left self.new) result buffer.new }
        ensures failed { has_failed self.new ≡ is_err result }
        ensures reads { reads self.old (length buffer.new)
            (option_map (λ count. take count buffer.new) (result_ok result)) self.new };

    /// Whether a read has failed.
    fn failed(&self) -> bool
        ensures { result ≡ has_failed self.now };
}

/// A device that takes bytes.
pub trait Sink {
    /// The bytes written, if they are known.
    ghost written: { Self → Option (List ℕ) };

    /// Whether a write has failed.
    ghost has_failed: { Self → Bool };

    /// Writes bytes from the front of a slice, and returns how many: at least one, if the slice
    /// isn't empty.
    ///
    /// A failed write writes nothing, and no write may follow.
    fn write(&mut self, bytes: &[u8]) -> Result<usize, WriteFault>
        requires { has_failed self.old ≡ false }
        ensures bound { IfOk result (λ count. count ≤ length bytes.now) }
        ensures some { IfOk result (λ count. 0 < length bytes.now → 0 < count) }
        ensures bytes { WriteAppends (written self.old) (written self.new) result bytes.now }
        ensures failed { has_failed self.new ≡ is_err result };

    /// Whether a write has failed.
    fn failed(&self) -> bool
        ensures { result ≡ has_failed self.now };
}

/// A source that reads from an `io::Read`.
#[derive(Drop)]
pub struct Reading<R> {
    inner: R,
    failed: bool,
}

impl<R: io::Read> Reading<R> {
    /// A source that hasn't failed.
    pub fn new(inner: R) -> Reading<R>
        ensures left { ⟦<Reading<R> as Source>⟧.left result ≡ R.remaining inner }
        ensures failed { ⟦<Reading<R> as Source>⟧.has_failed result ≡ false }
    {
        Reading {
            inner,
            failed: false,
        }
    }

    /// The inner reader, after the reads so far.
    pub fn into_inner(self) -> R
        ensures { R.remaining result ≡ ⟦<Reading<R> as Source>⟧.left self }
    {
        let Reading { inner, failed: _ } = self;
        inner
    }
}

impl<R: io::Read> Source for Reading<R> {
    ghost use Rattle.lrup_text.specs.Reads.{GivesLeft};

    ghost left = { λ s. R.remaining s.inner };

    ghost has_failed = { λ s. s.failed };

    ghost reads = { λ before room given after.
        GivesLeft (R.remaining before.inner) room given (R.remaining after.inner) };

    fn read(&mut self, buffer: &mut [u8]) -> Result<usize, ReadFault> {
        match self.inner.read(buffer) {
            Ok(count) => Ok(count),
            Err(_) => {
                self.failed = true;
                Err(ReadFault)
            }
        }
    }

    fn failed(&self) -> bool {
        self.failed
    }
}

/// A sink that writes to an `io::Write`. A write that takes no byte of a nonempty slice is a fault.
#[derive(Drop)]
pub struct Writing<W> {
    inner: W,
    failed: bool,
}

impl<W: io::Write> Writing<W> {
    /// A sink that hasn't failed.
    pub fn new(inner: W) -> Writing<W>
        ensures written { ⟦<Writing<W> as Sink>⟧.written result ≡ W.contents inner }
        ensures failed { ⟦<Writing<W> as Sink>⟧.has_failed result ≡ false }
    {
        Writing {
            inner,
            failed: false,
        }
    }

    /// The writer, with what was written.
    pub fn into_inner(self) -> W
        ensures { W.contents result ≡ ⟦<Writing<W> as Sink>⟧.written self }
    {
        let Writing { inner, failed: _ } = self;
        inner
    }
}

impl<W: io::Write> Sink for Writing<W> {
    ghost written = { λ s. W.contents s.inner };

    ghost has_failed = { λ s. s.failed };

    fn write(&mut self, bytes: &[u8]) -> Result<usize, WriteFault> {
        match self.inner.write(bytes) {
            Ok(0) if !bytes.is_empty() => {
                self.failed = true;
                Err(WriteFault)
            }
            Ok(count) => Ok(count),
            Err(_) => {
                self.failed = true;
                Err(WriteFault)
            }
        }
    }

    fn failed(&self) -> bool {
        self.failed
    }
}
