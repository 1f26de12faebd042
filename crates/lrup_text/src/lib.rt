//! Reads and writes the lines of a proof stream: the RUP part of LRAT text (Cruz-Filipe et al.,
//! CADE 2017), in one exact spelling, and imports, a kind of line that only this project has.
#![tactic(auto)]

ghost use Rattle.std.specs.Prelude.{◌↔◌, IsTrue};
ghost use Rattle.lrup_text.specs.Grammar.{AreFew};
ghost use Rattle.lrup_text.specs.Lines.{line_of, IsWithinLimits, IsStreamNumber, IsStreamLiteral};

mod cube;
mod device;
mod kernel;
pub mod laws;
mod partial_line;
mod reader;
mod writer;

pub use cube::{CubeFault, read_cube};
pub use device::{PIECE, ReadFault, Reading, Sink, Source, StreamEnd, WriteFault, Writing};
pub use partial_line::MAX_LITERALS;
use partial_line::{MAX_IDENTITIES, MAX_NUMBER};
pub use reader::{End, Fed, LineReader, ReaderStatus};
use thiserror::Error;
pub use writer::{WriteBuffer, write_all, write_line};

/// A line of a stream, whose lists are borrowed.
#[derive(Clone, Copy, Debug, PartialEq, Eq)]
pub enum Line<'a> {
    /// A derived clause: its identity, its literals, and the identities of its hints.
    Add {
        id: u64,
        lits: &'a [i64],
        hints: &'a [u64],
    },
    /// A deletion: a leading number without meaning, and the identities to delete.
    Delete {
        lead: u64,
        ids: &'a [u64],
    },
    /// An imported clause, of another stream or of the formula: its identity and its literals.
    Import {
        id: u64,
        lits: &'a [i64],
    },
}

impl Line<'_> {
    /// Whether the line has a text: its numbers aren't 0 and have at most 18 digits, and it has at
    /// most 65,535 literals and at most 65,536 hints or identities to delete.
    pub fn fits(&self) -> bool
        ensures { IsTrue result ↔ IsWithinLimits (line_of self.now) }
    {
        match *self {
            Line::Add { id, lits, hints } => {
                is_stream_number(id) && are_few_literals(lits) && are_few_identities(hints)
            }
            Line::Delete { lead, ids } => is_stream_number(lead) && are_few_identities(ids),
            Line::Import { id, lits } => is_stream_number(id) && are_few_literals(lits),
        }
    }
}

fn is_stream_number(number: u64) -> bool
    ensures { IsTrue result ↔ IsStreamNumber number }
{
    number > 0 && number <= MAX_NUMBER
}

fn are_few_literals(lits: &[i64]) -> bool
    ensures { IsTrue result ↔ AreFew 65535 IsStreamLiteral lits.now }
{
    lits.len() <= MAX_LITERALS
        && lits
            .iter()
            .all(|literal| is_stream_number(literal.unsigned_abs()))
}

fn are_few_identities(ids: &[u64]) -> bool
    ensures { IsTrue result ↔ AreFew 65536 IsStreamNumber ids.now }
{
    ids.len() <= MAX_IDENTITIES && ids.iter().all(|id| is_stream_number(*id))
}

/// Why a text isn't a line within the limits of a stream.
#[derive(Clone, Copy, Debug, PartialEq, Eq, Error)]
pub enum LineFault {
    /// No line begins like the text, whatever the limits, and a signed hint isn't the reason.
    #[error("spelling")]
    Spelling,
    /// Without limits on digits, literals, hints and identities, the text would be the beginning of
    /// a line.
    #[error("too long")]
    TooLong,
    /// The stream ended inside a line.
    #[error("truncated")]
    Truncated,
    /// A hint has a sign, as in RAT lines of LRAT. With signed hints allowed and without limits,
    /// the text would be the beginning of a line.
    #[error("rat hint")]
    RatHint,
}
