//! The fast path of the line reader: a whole line at once, and long lists.
ghost use Rattle.std.specs.Prelude.{◌≡◌, ◌<◌, ◌≤◌, ◌+◌, List, ℕ, get_or, length, IfSome};
ghost use Rattle.std.specs.Fmt.{decimal, signed_decimal};
ghost use Rattle.lrup_text.specs.Lines.{IsStreamNumber, IsStreamLiteral};
ghost use Rattle.lrup_text.specs.internal.Reading.{literal_front};
ghost use Rattle.lrup_text.specs.internal.Kernel.{EndsLine, EndsWord, ReadsNumber, ReadsWord, ReadsWords, ReadsList, IsWhole};

use crate::partial_line::{MAX_DIGITS, literal_of};
use memchr::memrchr;

const SPACE: u8 = b' ';

const MINUS: u8 = b'-';

const ZERO: u8 = b'0';

const ONE: u8 = b'1';

const NINE: u8 = b'9';

const LETTER_D: u8 = b'd';

const LETTER_I: u8 = b'i';

/// What was found in a line that was read as a whole, besides its lists.
#[derive(Clone, Copy)]
pub struct Whole {
    /// The line's first number.
    pub lead: u64,
    /// Whether the line is an import.
    pub imports: bool,
    /// Whether the line is a deletion.
    pub deletes: bool,
    /// The number of literals.
    pub literal_count: usize,
    /// The number of hints, or of identities to delete.
    pub identity_count: usize,
}

/// Reads a slice that may be a line's text, and puts the line's lists into the front of the
/// buffers. If the result is `None`, the slice may still be a line, and the caller reads it byte by
/// byte.
#[inline(never)]
pub fn read_line(line: &[u8], literals: &mut [i64], identities: &mut [u64]) -> Option<Whole>
    requires ends { EndsLine line.now }
    requires literals { length literals.old ≡ 65535 }
    requires identities { length identities.old ≡ 65536 }
    ensures { IfSome result (IsWhole line.now literals.new identities.new) }
{
    let (lead, end) = read_number(line, 0)?;
    if line[end] != SPACE {
        return None;
    }
    let body = end + 1;
    // Of the bytes that are possible here, only the letters of a deletion and of an import are
    // above `9`.
    if line[body] > NINE {
        return read_marked(line, lead, end, literals, identities);
    }
    let (literal_count, close) = read_words(line, body, literals, 0);
    if close >= line.len() || line[close] != ZERO {
        return None;
    }
    let identity_count = read_list(line, close + 1, identities)?;
    Some(Whole {
        lead,
        imports: false,
        deletes: false,
        literal_count,
        identity_count,
    })
}

/// Reads the rest of a deletion or an import, after its first number.
fn read_marked(
    line: &[u8],
    lead: u64,
    end: usize,
    literals: &mut [i64],
    identities: &mut [u64],
) -> Option<Whole>
    requires ends { EndsLine line.now }
    requires number { ReadsNumber line.now 0 lead end }
    requires space { get_or line.now end 0 ≡ 32 }
    requires inside { end + 1 < length line.now }
    requires literals { length literals.old ≡ 65535 }
    requires identities { length identities.old ≡ 65536 }
    ensures { IfSome result (IsWhole line.now literals.new identities.new) }
{
    let mark = end + 1;
    if line[mark] == LETTER_D {
        let identity_count = read_list(line, mark + 1, identities)?;
        return Some(Whole {
            lead,
            imports: false,
            deletes: true,
            literal_count: 0,
            identity_count,
        });
    }
    if line[mark] != LETTER_I {
        return None;
    }
    let literal_count = read_list(line, mark + 1, literals)?;
    Some(Whole {
        lead,
        imports: true,
        deletes: false,
        literal_count,
        identity_count: 0,
    })
}

/// Reads the words of a list, with the space before each, and the end of the line.
#[inline(always)]
fn read_list<T: Word>(line: &[u8], start: usize, out: &mut [T]) -> Option<usize>
    requires ends { EndsLine line.now }
    requires inside { start < length line.now }
    ensures { IfSome result (ReadsList T.text T.fits line.now start out.new) }
{
    if line[start] != SPACE {
        return None;
    }
    let (count, end) = read_words(line, start + 1, out, 0);
    if end + 2 == line.len() && line[end] == ZERO {
        Some(count)
    } else {
        None
    }
}

/// Reads a number of at most 18 digits. Returns it and the index of the byte after it, which may be
/// any byte; there is such a byte, since the text ends with a space or LF. A number with more
/// digits wraps around, and is then refused for its count of digits.
#[inline(always)]
fn read_number(text: &[u8], start: usize) -> Option<(u64, usize)>
    requires ends { EndsWord text.now }
    requires inside { start < length text.now }
    ensures { IfSome result (λ found. ReadsNumber text.now start found.0 found.1) }
{
    let first = text[start];
    if first < ONE || first > NINE {
        return None;
    }
    let mut number = u64::from(first - ZERO);
    let mut end = start + 1;
    while text[end] >= ZERO && text[end] <= NINE {
        number = number
            .wrapping_mul(10)
            .wrapping_add(u64::from(text[end] - ZERO));
        end += 1;
    }
    if end - start > MAX_DIGITS {
        return None;
    }
    Some((number, end))
}

/// A word of a list: a literal, or an identity.
pub trait Word: Copy {
    /// How the word is spelled.
    ghost text: { Self → List ℕ };

    /// Whether the word may occur in a line.
    ghost fits: { Self → Type 0 };

    /// Reads a word. Returns it and the index of the byte after it, which may be any byte.
    fn read(bytes: &[u8], start: usize) -> Option<(Self, usize)>
        requires ends { EndsWord bytes.now }
        requires inside { start < length bytes.now }
        ensures { IfSome result (λ found. ReadsWord text fits bytes.now start found.0 found.1) };

    /// Returns whether the word has a sign, and the word's magnitude.
    fn parts(self) -> (bool, u64)
        ensures { text self ≡ literal_front result.0 result.1 };
}

impl Word for i64 {
    ghost text = { signed_decimal };

    ghost fits = { IsStreamLiteral };

    #[inline(always)]
    fn read(bytes: &[u8], start: usize) -> Option<(i64, usize)> {
        let negative = bytes[start] == MINUS;
        let digits = if negative { start + 1 } else { start };
        let (magnitude, end) = read_number(bytes, digits)?;
        Some((literal_of(negative, magnitude), end))
    }

    fn parts(self) -> (bool, u64) {
        (self < 0, self.unsigned_abs())
    }
}

impl Word for u64 {
    ghost text = { decimal };

    ghost fits = { IsStreamNumber };

    #[inline(always)]
    fn read(bytes: &[u8], start: usize) -> Option<(u64, usize)> {
        read_number(bytes, start)
    }

    fn parts(self) -> (bool, u64) {
        (false, self)
    }
}

/// Reads words, with the space after each, into `out` from index `first` on, while there are words
/// and `out` has room.
///
/// Returns how many elements of `out` are then in use, and the index up to which the text was read.
#[inline(always)]
fn read_words<T: Word>(text: &[u8], start: usize, out: &mut [T], first: usize) -> (usize, usize)
    requires ends { EndsWord text.now }
    requires inside { start ≤ length text.now }
    requires room { first ≤ length out.old }
    ensures { ReadsWords T.text T.fits text.now start out.old first out.new result.0 result.1 }
{
    let mut at = start;
    let mut count = first;
    while at < text.len() && count < out.len() {
        let Some(found) = T::read(text, at) else {
            break;
        };
        let (word, end) = found;
        if text[end] != SPACE {
            break;
        }
        out[count] = word;
        count += 1;
        at = end + 1;
    }
    (count, at)
}

/// Reads words as `read_words` does, from the front of a piece up to its last space, since the text
/// that `read_words` gets has to end with a space or LF.
pub fn read_words_ahead<T: Word>(piece: &[u8], out: &mut [T], first: usize) -> (usize, usize)
    requires { first ≤ length out.old }
    ensures { ReadsWords T.text T.fits piece.now 0 out.old first out.new result.0 result.1 }
{
    match memrchr(SPACE, piece) {
        Some(last) => read_words(&piece[..last + 1], 0, out, first),
        None => (first, 0),
    }
}
