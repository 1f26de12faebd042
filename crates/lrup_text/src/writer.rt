//! Writes texts and lines.
ghost use Rattle.std.specs.Prelude.{◌≡◌, ◌<◌, ◌≤◌, ◌+◌, ◌-◌, [], ◌∷◌, ◌++◌, length, take, drop, false, is_err, IsTrue, ◌↔◌, OnErr};
ghost use Rattle.std.specs.Fmt.{decimal, signed_decimal};
ghost use Rattle.lrup_text.specs.Writing.{space, PutsAll, WritesText};
ghost use Rattle.lrup_text.specs.Lines.{line_of, line_text, IsWithinLimits};
ghost use Rattle.lrup_text.specs.internal.ByteNames.{zero_digit, line_feed};
ghost use Rattle.lrup_text.specs.internal.Reading.{words_text, literal_front};

use crate::kernel::Word;
use crate::{Line, Sink, WriteFault};
use itoa::write_digits;
use std::marker::Model;

/// The maximum number of bytes that a buffer holds.
const CAPACITY: usize = 4_096;

/// The largest size of a word, with the space after it.
const WORD: usize = 22;

/// The size of the array in which a word is spelled. `WORD` bytes of it are copied.
const PLACES: usize = 44;

/// Spells a number with its sign, so that the text ends where the space will be, and returns the
/// index of the text's first byte. Signs are unpredictable, so a minus is always written, and
/// skipped if it isn't needed.
#[inline]
fn spell(bytes: &mut [u8], negative: bool, magnitude: u64) -> usize
    requires { 21 ≤ length bytes.old }
    ensures start { result + length (literal_front negative magnitude) ≡ 21 }
    ensures text { drop result bytes.new
        ≡ literal_front negative magnitude ++ drop 21 bytes.old }
{
    let digits = write_digits(magnitude, bytes, WORD - 1);
    bytes[digits - 1] = b'-';
    if negative { digits - 1 } else { digits }
}

/// Bytes on their way to a sink. Up to 4,096 are held, so that many short texts need few writes.
#[derive(Drop)]
pub struct WriteBuffer {
    bytes: [u8; CAPACITY],
    len: usize,
}

impl Model for WriteBuffer {
    ghost use Rattle.std.specs.Prelude.{List, ℕ, ◌≤◌, take};

    ghost Value = { List ℕ };

    ghost view = { λ c. take c.len c.bytes };

    ghost invariant = { λ c. c.len ≤ 4096 };
}

impl WriteBuffer {
    /// An empty buffer.
    pub fn new() -> WriteBuffer
        ensures { result ≡ [] }
    {
        WriteBuffer {
            bytes: [0; CAPACITY],
            len: 0,
        }
    }

    /// Writes all that is held, or a prefix of it if the sink fails. Afterwards nothing is held.
    pub fn flush<W: Sink>(&mut self, sink: &mut W) -> Result<(), WriteFault>
        requires { W.has_failed sink.old ≡ false }
        ensures text { WritesText result (W.written sink.old) (W.written sink.new) self.old }
        ensures failed { W.has_failed sink.new ≡ is_err result }
        ensures empty { self.new ≡ [] }
    {
        let len = self.len;
        self.len = 0;
        write_all(&self.bytes[..len], sink)
    }

    /// Appends bytes to what is held.
    #[inline]
    fn append(&mut self, bytes: &[u8])
        requires { length self.old + length bytes.now ≤ 4096 }
        ensures { self.new ≡ self.old ++ bytes.now }
    {
        let end = self.len + bytes.len();
        self.bytes[self.len..end].copy_from_slice(bytes);
        self.len = end;
    }

    fn is_full(&self) -> bool
        ensures full { IsTrue result ↔ (length self.now ≡ 4096) }
        ensures bound { length self.now ≤ 4096 }
    {
        self.len == CAPACITY
    }

    fn push(&mut self, byte: u8)
        requires { length self.old < 4096 }
        ensures { self.new ≡ self.old ++ byte ∷ [] }
    {
        self.bytes[self.len] = byte;
        self.len += 1;
    }

    /// Appends a byte to what is held. If the buffer is full, what it holds is written first.
    fn put_byte<W: Sink>(&mut self, byte: u8, sink: &mut W) -> Result<(), WriteFault>
        requires { W.has_failed sink.old ≡ false }
        ensures puts { PutsAll result (W.written sink.old) (W.written sink.new)
            self.old self.new (byte ∷ []) }
        ensures failed { W.has_failed sink.new ≡ is_err result }
        ensures empty { OnErr result (self.new ≡ []) }
    {
        if self.is_full() {
            self.flush(sink)?;
        }
        self.push(byte);
        Ok(())
    }

    /// Appends bytes to what is held, and writes what is held whenever the buffer is full. If the
    /// sink fails, a prefix of the held and the new bytes was written, and nothing is held.
    pub fn put<W: Sink>(&mut self, bytes: &[u8], sink: &mut W) -> Result<(), WriteFault>
        requires { W.has_failed sink.old ≡ false }
        ensures puts { PutsAll result (W.written sink.old) (W.written sink.new)
            self.old self.new bytes.now }
        ensures failed { W.has_failed sink.new ≡ is_err result }
        ensures empty { OnErr result (self.new ≡ []) }
    {
        if bytes.len() <= CAPACITY - self.len {
            self.append(bytes);
            return Ok(());
        }
        for byte in bytes {
            self.put_byte(*byte, sink)?;
        }
        Ok(())
    }

    /// Appends a number in decimal, as `put` does for bytes.
    pub fn put_number<W: Sink>(&mut self, number: u64, sink: &mut W) -> Result<(), WriteFault>
        requires { W.has_failed sink.old ≡ false }
        ensures puts { PutsAll result (W.written sink.old) (W.written sink.new)
            self.old self.new (decimal number) }
        ensures failed { W.has_failed sink.new ≡ is_err result }
        ensures empty { OnErr result (self.new ≡ []) }
    {
        self.put(itoa::Buffer::new().format(number).as_bytes(), sink)
    }

    /// Appends a literal and a space, as `put` does for bytes.
    #[inline]
    pub fn put_literal<W: Sink>(&mut self, literal: i64, sink: &mut W) -> Result<(), WriteFault>
        requires { W.has_failed sink.old ≡ false }
        ensures puts { PutsAll result (W.written sink.old) (W.written sink.new)
            self.old self.new (signed_decimal literal ++ space ∷ []) }
        ensures failed { W.has_failed sink.new ≡ is_err result }
        ensures empty { OnErr result (self.new ≡ []) }
    {
        self.put_word(literal, sink)
    }

    /// Whether there is room for a word and a space.
    #[inline]
    fn has_room(&self) -> bool
        ensures { IsTrue result ↔ (length self.now + 22 ≤ 4096) }
    {
        self.len <= CAPACITY - WORD
    }

    /// Drops this many bytes at the end of what is held.
    #[inline]
    fn cut(&mut self, count: usize)
        requires { count ≤ length self.old }
        ensures { self.new ≡ take (length self.old - count) self.old }
    {
        self.len -= count;
    }

    /// Appends a number with its sign, and a space. It always copies 22 bytes, since copies of a
    /// fixed size are fast, and then drops those after the space.
    #[inline]
    fn push_word(&mut self, negative: bool, magnitude: u64)
        requires { length self.old + 22 ≤ 4096 }
        ensures { self.new ≡ self.old ++ (literal_front negative magnitude ++ space ∷ []) }
    {
        let mut places = [b' '; PLACES];
        let start = spell(&mut places, negative, magnitude);
        self.append(&places[start..start + WORD]);
        self.cut(start);
    }

    /// Appends a word and a space, as `put` does for bytes.
    #[inline]
    fn put_word<T: Word, W: Sink>(&mut self, word: T, sink: &mut W) -> Result<(), WriteFault>
        requires { W.has_failed sink.old ≡ false }
        ensures puts { PutsAll result (W.written sink.old) (W.written sink.new)
            self.old self.new (T.text word ++ space ∷ []) }
        ensures failed { W.has_failed sink.new ≡ is_err result }
        ensures empty { OnErr result (self.new ≡ []) }
    {
        if !self.has_room() {
            self.flush(sink)?;
        }
        let (negative, magnitude) = word.parts();
        self.push_word(negative, magnitude);
        Ok(())
    }

    /// Appends words, and a space after each.
    fn put_words<T: Word, W: Sink>(&mut self, words: &[T], sink: &mut W) -> Result<(), WriteFault>
        requires { W.has_failed sink.old ≡ false }
        ensures puts { PutsAll result (W.written sink.old) (W.written sink.new)
            self.old self.new (words_text T.text words.now) }
        ensures failed { W.has_failed sink.new ≡ is_err result }
    {
        for word in words {
            self.put_word(*word, sink)?;
        }
        Ok(())
    }

    /// Appends the words of a list, a space after each, and the end of the line.
    fn put_list<T: Word, W: Sink>(&mut self, words: &[T], sink: &mut W) -> Result<(), WriteFault>
        requires { W.has_failed sink.old ≡ false }
        ensures puts { PutsAll result (W.written sink.old) (W.written sink.new)
            self.old self.new (words_text T.text words.now ++ zero_digit ∷ line_feed ∷ []) }
        ensures failed { W.has_failed sink.new ≡ is_err result }
    {
        self.put_words(words, sink)?;
        self.put(b"0\n", sink)
    }

    /// Appends a whole line.
    fn put_line<W: Sink>(&mut self, line: &Line, sink: &mut W) -> Result<(), WriteFault>
        requires { W.has_failed sink.old ≡ false }
        ensures puts { PutsAll result (W.written sink.old) (W.written sink.new)
            self.old self.new (line_text (line_of line.now)) }
        ensures failed { W.has_failed sink.new ≡ is_err result }
    {
        match *line {
            Line::Add { id, lits, hints } => {
                self.put_word(id, sink)?;
                self.put_words(lits, sink)?;
                self.put(b"0 ", sink)?;
                self.put_list(hints, sink)
            }
            Line::Delete { lead, ids } => {
                self.put_word(lead, sink)?;
                self.put(b"d ", sink)?;
                self.put_list(ids, sink)
            }
            Line::Import { id, lits } => {
                self.put_word(id, sink)?;
                self.put(b"i ", sink)?;
                self.put_list(lits, sink)
            }
        }
    }
}

/// Writes all bytes of a slice. If the sink fails, a prefix of them was written.
pub fn write_all<W: Sink>(bytes: &[u8], sink: &mut W) -> Result<(), WriteFault>
    requires { W.has_failed sink.old ≡ false }
    ensures text { WritesText result (W.written sink.old) (W.written sink.new) bytes.now }
    ensures failed { W.has_failed sink.new ≡ is_err result }
{
    let mut at = 0;
    while at < bytes.len() {
        at += sink.write(&bytes[at..])?;
    }
    Ok(())
}

/// Writes a line. If the sink fails, a prefix of its text was written.
pub fn write_line<W: Sink>(line: &Line, sink: &mut W) -> Result<(), WriteFault>
    requires fits { IsWithinLimits (line_of line.now) }
    requires running { W.has_failed sink.old ≡ false }
    ensures text { WritesText result (W.written sink.old) (W.written sink.new)
        (line_text (line_of line.now)) }
    ensures failed { W.has_failed sink.new ≡ is_err result }
{
    let mut buffer = WriteBuffer::new();
    buffer.put_line(line, sink)?;
    buffer.flush(sink)
}
