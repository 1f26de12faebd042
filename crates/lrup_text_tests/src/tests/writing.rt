//! Lines, numbers and literals that are written.
ghost use Rattle.std.specs.Prelude.{◌≡◌, false};

use super::reading::feed_every_way;
use super::{Given, holds, same};
use lrup_text::{Line, Sink, WriteBuffer, WriteFault, Writing, write_all, write_line};
use std::alloc::Global;
use std::process::Abort;
use std::test::Fail;
use test_support::Paper;

/// The largest number of a stream.
const MOST: u64 = 999_999_999_999_999_999;

/// The largest number of a stream, as a literal.
const LAST: i64 = 999_999_999_999_999_999;

/// Lines, and whether each has a text.
static FITTING: &[(Given, bool)] = &[
    (Given::Add(MOST, &[LAST], &[1]), true),
    (Given::Add(1, &[-LAST], &[MOST]), true),
    (Given::Add(0, &[1], &[1]), false),
    (Given::Add(MOST + 1, &[1], &[1]), false),
    (Given::Add(1, &[0], &[1]), false),
    (Given::Add(1, &[LAST + 1], &[1]), false),
    (Given::Add(1, &[-LAST - 1], &[1]), false),
    (Given::Add(1, &[1], &[0]), false),
    (Given::Add(1, &[1], &[MOST + 1]), false),
    (Given::Add(1, &[1; 65_535], &[1; 65_536]), true),
    (Given::Add(1, &[1; 65_536], &[]), false),
    (Given::Add(1, &[], &[1; 65_537]), false),
    (Given::Delete(MOST, &[MOST; 65_536]), true),
    (Given::Delete(0, &[1]), false),
    (Given::Delete(1, &[0]), false),
    (Given::Delete(1, &[1; 65_537]), false),
    (Given::Import(MOST, &[LAST]), true),
    (Given::Import(1, &[-LAST]), true),
    (Given::Import(1, &[]), true),
    (Given::Import(0, &[1]), false),
    (Given::Import(MOST + 1, &[1]), false),
    (Given::Import(1, &[0]), false),
    (Given::Import(1, &[LAST + 1]), false),
    (Given::Import(1, &[-LAST - 1]), false),
    (Given::Import(1, &[1; 65_535]), true),
    (Given::Import(1, &[1; 65_536]), false),
];

#[test]
fn lines_within_limits_fit(rt: HostRuntime) -> Result<(), Fail> {
    for (row, &(given, fits)) in FITTING.iter().enumerate() {
        let line = given.line().ok_or("no line")?;
        same(&rt, (row, line.fits()), (row, fits));
    }
    Ok(())
}

/// Writes a line, if it has a text, and returns whether the sink failed.
pub(super) fn write_fails<W: Sink>(line: &Line, sink: &mut W) -> bool
    requires { W.has_failed sink.old ≡ false }
{
    line.fits() && write_line(line, sink).is_err()
}

/// Writes a line three bytes at a time to a sink that fails at write number `fails_at`.
fn write_in_threes(rt: &impl Abort, alloc: Global, line: &Line, text: &[u8], fails_at: usize) {
    let mut paper = Paper::new(alloc, 3, fails_at);
    let fails = write_fails(line, &mut paper);
    let breaks = fails_at <= text.len().div_ceil(3);
    let beginning = &text[..fails_at.saturating_sub(1).saturating_mul(3).min(text.len())];
    let found = (fails, paper.failed(), paper.bytes.as_slice());
    same(rt, found, (breaks, breaks, beginning));
}

/// Lines and their texts.
static WRITTEN: &[(&str, Given)] = &[
    ("17 -20 3 0 9 100 0\n", Given::Add(17, &[-20, 3], &[9, 100])),
    ("5 d 5 6 0\n", Given::Delete(5, &[5, 6])),
    ("17 i -20 3 0\n", Given::Import(17, &[-20, 3])),
    ("1 i 0\n", Given::Import(1, &[])),
    ("5 i 2 -2 2 0\n", Given::Import(5, &[2, -2, 2])),
    (
        "999999999999999999 i -999999999999999999 1 0\n",
        Given::Import(MOST, &[-LAST, 1]),
    ),
];

/// Each write to the sink fails in turn, and then no write fails. The written text is read back.
#[test]
fn lines_are_written(rt: HostRuntime) -> Result<(), Fail> {
    for &(text, given) in WRITTEN {
        let line = given.line().ok_or("no line")?;
        for fails_at in 1..=text.len().div_ceil(3).saturating_add(1) {
            write_in_threes(&rt, rt.alloc(), &line, text.as_bytes(), fails_at);
        }
        feed_every_way(&rt, rt.alloc(), (text, text.len(), given))?;
    }
    Ok(())
}

/// Numbers around changes in the number of digits, and the largest.
static NUMBERS: [u64; 12] = [
    0,
    9,
    10,
    99,
    100,
    999,
    1_000,
    9_999,
    10_000,
    99999999,
    100000000,
    u64::MAX,
];

/// Literals around changes in the number of digits, 0, the largest variable, and the least number.
static LITERALS: [i64; 10] = [
    0,
    1,
    -1,
    -10,
    9_999,
    -10_000,
    16777215,
    -16777215,
    100000000,
    i64::MIN,
];

/// The text of these numbers and literals, which doesn't depend on what the buffer already holds.
const NUMBERS_AND_LITERALS: &[u8] = b"\
0 9 10 99 100 999 1000 9999 10000 99999999 100000000 18446744073709551615 \
0 1 -1 -10 9999 -10000 16777215 -16777215 100000000 -9223372036854775808 ";

/// Writes the numbers, each with a space after it.
fn put_numbers<W: Sink>(
    rt: &impl Abort,
    buffer: &mut WriteBuffer,
    sink: &mut W,
) -> Result<(), WriteFault> {
    for &number in &NUMBERS {
        holds(rt, !sink.failed());
        buffer.put_number(number, sink)?;
        buffer.put(b" ", sink)?;
    }
    Ok(())
}

/// Writes the literals, and flushes the buffer.
fn put_literals<W: Sink>(
    rt: &impl Abort,
    buffer: &mut WriteBuffer,
    sink: &mut W,
) -> Result<(), WriteFault> {
    for &literal in &LITERALS {
        holds(rt, !sink.failed());
        buffer.put_literal(literal, sink)?;
    }
    holds(rt, !sink.failed());
    buffer.flush(sink)
}

/// Writes these bytes, the numbers and the literals.
fn write_after<W: Sink>(rt: &impl Abort, front: &[u8], sink: &mut W) -> Result<(), WriteFault>
    requires { W.has_failed sink.old ≡ false }
{
    write_all(b"front: ", sink)?;
    let mut buffer = WriteBuffer::new();
    buffer.put(front, sink)?;
    put_numbers(rt, &mut buffer, sink)?;
    put_literals(rt, &mut buffer, sink)
}

/// What `write_after` writes.
fn written_after(rt: &impl Abort, alloc: Global, front: &[u8]) -> Result<Vec<u8>, WriteFault> {
    let mut sink = Writing::new(Vec::new(alloc));
    write_after(rt, front, &mut sink)?;
    Ok(sink.into_inner())
}

/// Bytes that fill the beginning of a buffer.
static FRONT: [u8; 4_097] = [b'x'; 4_097];

/// Writes numbers and literals at each index near the end of a buffer of 4,096 bytes.
#[test]
fn numbers_are_written(rt: HostRuntime) -> Result<(), Fail> {
    for held in 4_000..4_100usize {
        let front = &FRONT[..held % 4_097];
        let text = written_after(&rt, rt.alloc(), front)?;
        let rest = text.strip_prefix(b"front: ").ok_or("no front")?;
        let found = (held, rest.strip_prefix(front));
        same(&rt, found, (held, Some(NUMBERS_AND_LITERALS)));
    }
    Ok(())
}
