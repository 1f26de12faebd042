//! The sizes of a round, read from their text.
ghost use Rattle.std.specs.Prelude.{◌≡◌, ◌<◌, ◌↔◌, IfNone, IfSome, IsSomeAnd, IsTrue, List, ℕ};
ghost use Rattle.command_line.specs.Sizes.{AreWithinSizes, HaveNoSizes, IsSizesText};
ghost use Rattle.command_line.specs.internal.Numbers.{BeginsAsNumber, IsNumberBefore};

use crate::arguments::{MAX_LINES, MAX_ROOM};
use std::str;

/// The largest number of streams.
const MAX_STREAMS: u64 = 64;

/// The sizes of a round.
#[derive(Debug, Clone, Copy, PartialEq, Eq)]
pub struct Sizes {
    /// The number of streams, 1 to 64.
    pub streams: u64,
    /// The identities of each stream, at most 268,435,456.
    pub lines: u64,
    /// The literals of each stream's own clauses, at most 268,435,456.
    pub room: u64,
}

impl Sizes {
    /// Whether each number is in its range.
    fn are_within(self) -> bool
        ensures { IsTrue result ↔ AreWithinSizes self }
    {
        1 <= self.streams
            && self.streams <= MAX_STREAMS
            && self.lines <= MAX_LINES
            && self.room <= MAX_ROOM
    }
}

/// Reads sizes: `STREAMS LINES ROOM` and LF, in decimal, without a leading 0. `None` if the bytes
/// are anything else, or a number is out of its range.
pub fn read_sizes(bytes: &[u8]) -> Option<Sizes>
    ensures some { IfSome result (IsSizesText bytes.now) }
    ensures none { IfNone result (HaveNoSizes bytes.now) }
{
    let Ok(text) = str::from_utf8(bytes) else {
        return None;
    };
    let (streams, text) = number_before(text, ' ')?;
    let (lines, text) = number_before(text, ' ')?;
    let (room, text) = number_before(text, '\n')?;
    let sizes = Sizes {
        streams,
        lines,
        room,
    };
    if text.is_empty() && sizes.are_within() {
        Some(sizes)
    } else {
        None
    }
}

/// Whether the text is `0`, or begins with a digit from 1 to 9.
fn begins_as_number(text: &str) -> bool
    ensures { IsTrue result ↔ BeginsAsNumber text.now }
{
    match text.as_bytes() {
        [b'0'] | [b'1'..=b'9', ..] => true,
        _ => false,
    }
}

/// The number at the beginning of the text, in decimal without a leading 0, and the text after
/// `end`, the character that has to follow the number.
fn number_before(text: &str, end: char) -> Option<(u64, &str)>
    requires { end < 48 }
    ensures some { IfSome result (λ found. IsNumberBefore text.now end found.0 found.1.now) }
    ensures all { (number : ℕ) (rest : List ℕ) → IsNumberBefore text.now end number rest
        → IsSomeAnd result (λ found. (found.0 ≡ number) × (found.1.now ≡ rest)) }
{
    let (number, rest) = text.split_once(end)?;
    if !begins_as_number(number) {
        return None;
    }
    Some((number.parse::<u64>().ok()?, rest))
}
