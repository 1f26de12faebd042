//! What is printed: comments, and the answer.
ghost use Rattle.std.specs.Prelude.{◌≡◌, ◌++◌, ◌∷◌, [], codes, false, is_err, map, pos, true};
ghost use Rattle.std.specs.Fmt.{signed_decimal};
ghost use Rattle.lrup_text.specs.Writing.{PutsAll, WritesText};
ghost use Rattle.solve.specs.Answers.{printed_text};
ghost use Rattle.solve.specs.Printing.{PrintsComments, comment_text, model_lines, room_after, shown, value_front, values_text};

use crate::answer::Answer;
use lrup_model::Lit;
use lrup_text::{Sink, WriteBuffer, WriteFault};

/// How many values a line of a model has.
const VALUES: u64 = 10;

/// A byte of the helper's, as it is printed.
fn shown(byte: u8) -> u8
    ensures { result ≡ shown byte }
{
    if byte < b' ' || byte > b'~' {
        b'?'
    } else {
        byte
    }
}

/// Turns the helper's bytes into what is printed of them.
fn clean(words: &mut [u8])
    ensures { words.new ≡ map shown words.old }
{
    for byte in words.iter_mut() {
        *byte = shown(*byte);
    }
}

/// Prints a comment with the helper's words, unless the sink has failed. Afterwards the words are
/// as they were printed.
pub(crate) fn print_comment<O: Sink>(words: &mut [u8], out: &mut O)
    ensures { PrintsComments O.Sink out.old out.new }
{
    if out.failed() {
        return;
    }
    let _ = write_comment(words, out);
}

/// Writes a comment with the helper's words.
fn write_comment<O: Sink>(words: &mut [u8], out: &mut O) -> Result<(), WriteFault>
    requires { O.has_failed out.old ≡ false }
    ensures text { WritesText result (O.written out.old) (O.written out.new)
        (comment_text words.old) }
    ensures failed { O.has_failed out.new ≡ is_err result }
{
    clean(words);
    let mut buffer = WriteBuffer::new();
    buffer.put(b"c ", out)?;
    buffer.put(words, out)?;
    buffer.put(b"\n", out)?;
    buffer.flush(out)
}

/// Writes an answer.
pub(crate) fn write_answer<O: Sink>(answer: &Answer, out: &mut O) -> Result<(), WriteFault>
    requires { O.has_failed out.old ≡ false }
    ensures text { WritesText result (O.written out.old) (O.written out.new)
        (printed_text answer.now) }
    ensures failed { O.has_failed out.new ≡ is_err result }
{
    match answer {
        Answer::Unsatisfiable => write_line(b"s UNSATISFIABLE\n", out),
        Answer::UnsatisfiableUnder => write_line(b"s UNSATISFIABLE UNDER ASSUMPTIONS\n", out),
        Answer::Satisfiable(literals) => write_model(literals, out),
        Answer::Unknown => write_line(b"s UNKNOWN\n", out),
    }
}

/// Writes a line.
fn write_line<O: Sink>(line: &[u8], out: &mut O) -> Result<(), WriteFault>
    requires { O.has_failed out.old ≡ false }
    ensures text { WritesText result (O.written out.old) (O.written out.new) line.now }
    ensures failed { O.has_failed out.new ≡ is_err result }
{
    lrup_text::write_all(line, out)
}

/// Writes that there is a model, and its lines.
fn write_model<O: Sink>(literals: &[Lit], out: &mut O) -> Result<(), WriteFault>
    requires { O.has_failed out.old ≡ false }
    ensures text { WritesText result (O.written out.old) (O.written out.new)
        (codes "s SATISFIABLE\n" ++ model_lines literals.now) }
    ensures failed { O.has_failed out.new ≡ is_err result }
{
    let mut buffer = WriteBuffer::new();
    buffer.put(b"s SATISFIABLE\nv", out)?;
    put_values(&mut buffer, literals, out)?;
    buffer.flush(out)
}

/// Puts the literals and a 0 into the buffer, after the first line's `v`.
fn put_values<O: Sink>(
    buffer: &mut WriteBuffer,
    literals: &[Lit],
    out: &mut O,
) -> Result<(), WriteFault>
    requires { O.has_failed out.old ≡ false }
    ensures puts { PutsAll result (O.written out.old) (O.written out.new)
        buffer.old buffer.new (values_text (literals.now ++ pos 0 ∷ []) 10) }
    ensures failed { O.has_failed out.new ≡ is_err result }
{
    let mut room = VALUES;
    for literal in literals {
        put_value(buffer, literal.value(), room, out)?;
        room = room_after(room);
    }
    put_value(buffer, 0, room, out)?;
    buffer.put(b"\n", out)
}

/// Puts a value into the buffer, on a line that has room for so many, or else on the next one.
fn put_value<O: Sink>(
    buffer: &mut WriteBuffer,
    value: i64,
    room: u64,
    out: &mut O,
) -> Result<(), WriteFault>
    requires { O.has_failed out.old ≡ false }
    ensures puts { PutsAll result (O.written out.old) (O.written out.new)
        buffer.old buffer.new (value_front room ++ signed_decimal value) }
    ensures failed { O.has_failed out.new ≡ is_err result }
{
    buffer.put(value_front(room), out)?;
    put_number(buffer, value, out)
}

/// Puts a number into the buffer.
fn put_number<O: Sink>(buffer: &mut WriteBuffer, number: i64, out: &mut O) -> Result<(), WriteFault>
    requires { O.has_failed out.old ≡ false }
    ensures puts { PutsAll result (O.written out.old) (O.written out.new)
        buffer.old buffer.new (signed_decimal number) }
    ensures failed { O.has_failed out.new ≡ is_err result }
{
    buffer.put(itoa::Buffer::new().format(number).as_bytes(), out)
}

/// What comes before a value, on a line that has room for so many.
fn value_front(room: u64) -> &'static [u8]
    ensures { result.now ≡ value_front room }
{
    if room == 0 {
        b"\nv ".as_slice()
    } else {
        b" ".as_slice()
    }
}

/// For how many further values there is room, after one more value.
fn room_after(room: u64) -> u64
    ensures { result ≡ room_after room }
{
    if room == 0 { VALUES - 1 } else { room - 1 }
}
