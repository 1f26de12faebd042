//! The report of a stream.
use crate::fault::Fault;

/// How a stream ended. Lines are numbered from 1, and the number stops at 2^64 - 1.
#[derive(Clone, Copy, Debug, PartialEq, Eq)]
pub enum Ending {
    /// All lines are good, and the stream ended after the last one.
    Ended,
    /// This line is bad, because of this fault. The bytes after it weren't read as lines.
    Bad(u64, Fault),
    /// The reader failed while this line was read, or before its first byte. All lines before it
    /// are good.
    ReadFailed(u64),
    /// Memory was refused for an identity that this line drops. All lines before it are good.
    Memory(u64),
}

/// The report of a stream.
#[derive(Clone, Copy, Debug, PartialEq, Eq)]
pub struct Report {
    /// How many additions were good.
    pub added: u64,
    /// How many identities were retired or dropped by deletions, including those before a bad
    /// identity in the same line. The count stops at 2^64 - 1.
    pub deleted: u64,
    /// Whether a good addition added the empty clause.
    pub empty: bool,
    /// Whether the cube falsifies the clause of a good addition, that is, contains the complement
    /// of each of its literals.
    pub within: bool,
    /// How the stream ended.
    pub ending: Ending,
}
