//! The reader of a stream's lines.
ghost use Rattle.std.specs.Prelude.{◌≡◌, ◌≤◌, [], Ok, IfOk, length};
ghost use Rattle.lrup_text.specs.Feeding.{Feeds, ReaderEnds};
ghost use Rattle.lrup_text.specs.Lines.{IsPending};

use crate::partial_line::{ByteStep, PartialLine};
use crate::{Line, LineFault};
use std::alloc::{AllocError, Global};
use std::marker::Model;

/// How many bytes of a piece a call of `feed` used, and with what result.
#[derive(Clone, Copy, Debug, PartialEq, Eq)]
pub struct Fed<'a> {
    /// How many bytes of the piece were used.
    pub used: usize,
    /// The result for these bytes.
    pub status: ReaderStatus<'a>,
}

/// The result for the bytes that a call of `feed` used.
#[derive(Clone, Copy, Debug, PartialEq, Eq)]
pub enum ReaderStatus<'a> {
    /// The bytes end this line, which is lent until the next call.
    Line(Line<'a>),
    /// All bytes were used, and no line ended.
    NeedMore,
    /// No line within the limits begins like the bytes. The last byte used decided this.
    Fault(LineFault),
}

/// What the end of a stream means for a reader of lines.
#[derive(Clone, Copy, Debug, PartialEq, Eq)]
pub enum End {
    /// The stream ended after its last line.
    Clean,
    /// A fault was given before, or the stream ended inside a line.
    Fault(LineFault),
}

/// Cuts a stream, which comes in pieces of any length, into lines.
///
/// For contracts, a reader is the part of the next line that it has read, or the fault that it
/// gave. After a fault each call gives that fault again, and uses nothing.
#[derive(Drop)]
pub struct LineReader {
    line: PartialLine,
    fault: Option<LineFault>,
}

impl Model for LineReader {
    ghost use Rattle.std.specs.Prelude.{IfNone};
    ghost use Rattle.lrup_text.specs.Feeding.{ReaderState};
    ghost use Rattle.lrup_text.specs.internal.Reading.{reader_state, IsPartialLine, pending};

    ghost Value = { ReaderState };

    ghost view = { λ r. reader_state r.fault (pending r.line) };

    ghost invariant = { λ r. IfNone r.fault (IsPartialLine r.line) };
}

impl LineReader {
    ghost use Rattle.std.specs.Borrow.{sem};
    ghost use Rattle.lrup_text.specs.Lending.{FeedEnds};

    /// A reader before the first byte, with all its buffers, so that reading allocates nothing.
    pub fn new(alloc: Global) -> Result<LineReader, AllocError>
        ensures { IfOk result (λ reader. (reader ≡ Ok []) × IsPending []) }
    {
        let line = PartialLine::new(alloc)?;
        Ok(LineReader { line, fault: None })
    }

    /// Takes bytes of a piece up to and including the LF of a line, or the first byte after which
    /// the text can't become a line; otherwise takes all of them. It allocates nothing.
    pub fn feed(&mut self, piece: &[u8]) -> Fed<'_>
        ensures gives { Feeds self.old piece.now result.used result.status }
        ensures bound { result.used ≤ length piece.now }
        ensures* reaches { sem 𝓛 (FeedEnds self.entry piece.now result.status) }
    {
        if let Some(fault) = self.fault {
            return Fed {
                used: 0,
                status: ReaderStatus::Fault(fault),
            };
        }
        let taken = self.line.read(piece);
        let status = match taken.step {
            ByteStep::More => ReaderStatus::NeedMore,
            ByteStep::Done => ReaderStatus::Line(self.line.line()),
            ByteStep::Refused(fault) => {
                self.fault = Some(fault);
                ReaderStatus::Fault(fault)
            }
        };
        Fed {
            used: taken.used,
            status,
        }
    }

    /// What it means if the stream ends here. After `Clean` the stream may still continue.
    pub fn end(&mut self) -> End
        ensures { ReaderEnds self.old result self.new }
    {
        if let Some(fault) = self.fault {
            return End::Fault(fault);
        }
        if self.line.is_empty() {
            return End::Clean;
        }
        self.fault = Some(LineFault::Truncated);
        End::Fault(LineFault::Truncated)
    }
}
