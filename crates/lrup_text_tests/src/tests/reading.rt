//! Texts, cut at every index.
use super::{Given, has_text, repeated, same};
use lrup_text::{End, LineFault, LineReader};
use std::alloc::{AllocError, Global};
use std::process::Abort;
use std::test::Fail;

/// A text, how many of its bytes are used, and the result.
type Row<'a> = (&'a str, usize, Given<'a>);

/// Feeds a piece.
fn feed(rt: &impl Abort, reader: &mut LineReader, piece: &[u8], used: usize, given: Given<'_>) {
    let fed = reader.feed(piece);
    same(rt, (fed.used, fed.status), (used, given.status()));
}

/// Feeds a text in two pieces, cut at an index.
fn feed_pieces(rt: &impl Abort, reader: &mut LineReader, row: Row<'_>, cut: usize) {
    let (text, used, given) = row;
    let bytes = text.as_bytes();
    let (front, rest) = bytes.split_at(cut.min(bytes.len()));
    if used <= front.len() && !matches!(given, Given::More) {
        feed(rt, reader, front, used, given);
        return;
    }
    feed(rt, reader, front, front.len(), Given::More);
    feed(rt, reader, rest, used.saturating_sub(front.len()), given);
}

/// Feeds a text byte by byte, up to the last byte that is used.
fn feed_bytes(rt: &impl Abort, reader: &mut LineReader, row: Row<'_>) {
    let (text, used, given) = row;
    let bytes = text.as_bytes();
    let (front, rest) = bytes.split_at(used.saturating_sub(1).min(bytes.len()));
    for byte in front {
        feed(rt, reader, &[*byte], 1, Given::More);
    }
    feed(rt, reader, &rest[..rest.len().min(1)], used.min(1), given);
}

/// What the end of the stream means after this result.
fn end_after(text: &str, given: Given<'_>) -> End {
    match given {
        Given::Bad(fault) => End::Fault(fault),
        Given::More if !text.is_empty() => End::Fault(LineFault::Truncated),
        _ => End::Clean,
    }
}

/// Feeds a new reader a text in two pieces, or byte by byte, and then ends the stream.
fn feed_one_way(
    rt: &impl Abort,
    alloc: Global,
    row: Row<'_>,
    cut: Option<usize>,
) -> Result<(), AllocError> {
    let mut reader = LineReader::new(alloc)?;
    match cut {
        Some(cut) => feed_pieces(rt, &mut reader, row, cut),
        None => feed_bytes(rt, &mut reader, row),
    }
    let (text, _, given) = row;
    same(rt, reader.end(), end_after(text, given));
    Ok(())
}

/// Feeds a text cut into two pieces at each index, and byte by byte, and ends the stream each time.
pub(super) fn feed_every_way(
    rt: &impl Abort,
    alloc: Global,
    row: Row<'_>,
) -> Result<(), AllocError> {
    for cut in 0..=row.0.len() {
        feed_one_way(rt, alloc, row, Some(cut))?;
    }
    feed_one_way(rt, alloc, row, None)
}

static LINES: &[Row] = &[
    ("5 2 0 1 2 0\n", 12, Given::Add(5, &[2], &[1, 2])),
    ("5 2 0 1 2 0\n6 0", 12, Given::Add(5, &[2], &[1, 2])),
    ("6 0 5 3 4 0\n", 12, Given::Add(6, &[], &[5, 3, 4])),
    ("5 d 0\n", 6, Given::Delete(5, &[])),
    ("9 d 5 6 0\n", 10, Given::Delete(9, &[5, 6])),
    ("5 2 0 0\n", 8, Given::Add(5, &[2], &[])),
    (
        "999999999999999999 -1 999999999999999999 -999999999999999999 0 10 0\n",
        68,
        Given::Add(
            999_999_999_999_999_999,
            &[-1, 999_999_999_999_999_999, -999_999_999_999_999_999],
            &[10],
        ),
    ),
    ("5 i 2 0\n", 8, Given::Import(5, &[2])),
    ("5 i 2 0\n6 0", 8, Given::Import(5, &[2])),
    ("5 i 0\n", 6, Given::Import(5, &[])),
    ("5 i -2 0\n", 9, Given::Import(5, &[-2])),
    // The reader keeps repeated literals, and a literal with its complement.
    ("1 i 2 1 2 -2 0\n", 15, Given::Import(1, &[2, 1, 2, -2])),
    (
        "999999999999999999 i 10 -999999999999999999 0\n",
        46,
        Given::Import(999_999_999_999_999_999, &[10, -999_999_999_999_999_999]),
    ),
];

const SPELLING: Given = Given::Bad(LineFault::Spelling);

const TOO_LONG: Given = Given::Bad(LineFault::TooLong);

const RAT_HINT: Given = Given::Bad(LineFault::RatHint);

/// Texts that aren't the beginning of a line, how many bytes it takes to see that, and the fault.
static FAULTY: &[Row] = &[
    ("\n", 1, SPELLING),
    ("05 2 0 0\n", 1, SPELLING),
    ("0 d 5 0\n", 1, SPELLING),
    ("5  2 0 1 2 0\n", 3, SPELLING),
    ("5 +2 0 0\n", 3, SPELLING),
    ("5 -0 0 0\n", 4, SPELLING),
    ("5 2 0 1 0\r\n", 10, SPELLING),
    ("5 2 0 1 0 \n", 10, SPELLING),
    ("5 d -1 0\n", 5, SPELLING),
    ("5 1 0 -2 0\n", 7, RAT_HINT),
    ("1000000000000000000 0 0\n", 19, TOO_LONG),
    ("5 1111111111111111111111111111111111111111", 21, TOO_LONG),
    ("5 -1111111111111111111111111111111111111111", 22, TOO_LONG),
];

/// Rows like those of `FAULTY`, for imports.
static FAULTY_IMPORTS: &[Row] = &[
    ("5 i -0", 6, SPELLING),
    ("5 i 2 0 1", 8, SPELLING),
    ("5 i 2 0 -1 0\n", 8, SPELLING),
    ("5 i 2 0\r\n", 8, SPELLING),
    ("5 i 2 0 \n", 8, SPELLING),
    ("5 i 2\n", 6, SPELLING),
    ("5 i 2 \n", 7, SPELLING),
    ("5 i\n", 4, SPELLING),
    ("5 i \n", 5, SPELLING),
    ("5 i  2 0\n", 5, SPELLING),
    ("5 i +2 0\n", 5, SPELLING),
    ("5 i 02 0\n", 6, SPELLING),
    ("5 i --2 0\n", 6, SPELLING),
    ("5 i - 2 0\n", 6, SPELLING),
    ("5 i d 0\n", 5, SPELLING),
    ("5 i i 0\n", 5, SPELLING),
    ("5 i 2 d 0\n", 7, SPELLING),
    ("5 i 2 i 0\n", 7, SPELLING),
    ("5 d i 0\n", 5, SPELLING),
    ("5 ii 0\n", 4, SPELLING),
    ("5 id 0\n", 4, SPELLING),
    ("5 i2 0\n", 4, SPELLING),
    ("5 I 2 0\n", 3, SPELLING),
    ("5i 2 0\n", 2, SPELLING),
    ("5 2 i 0\n", 5, SPELLING),
    ("5 2 0 i\n", 7, SPELLING),
    ("i 2 0\n", 1, SPELLING),
    ("0 i 2 0\n", 1, SPELLING),
    ("-5 i 2 0\n", 1, SPELLING),
    ("5 i 1111111111111111111 0\n", 23, TOO_LONG),
    ("5 i -1111111111111111111 0\n", 24, TOO_LONG),
    ("1111111111111111111 i 0\n", 19, TOO_LONG),
];

#[test]
fn texts_are_read_in_every_cutting(rt: HostRuntime) -> Result<(), Fail> {
    for rows in [LINES, FAULTY, FAULTY_IMPORTS] {
        for row in rows {
            feed_every_way(&rt, rt.alloc(), *row)?;
        }
    }
    Ok(())
}

/// Lines whose last byte is missing.
static UNFINISHED: [&str; 3] = ["5 2 0 1 2 0", "15 i -23 4 0", "15 d 23 4 0"];

#[test]
fn unfinished_lines_need_more(rt: HostRuntime) -> Result<(), Fail> {
    for text in &UNFINISHED {
        for end in 0..=text.len() {
            let front = text.get(..end).ok_or("a cut letter")?;
            feed_every_way(&rt, rt.alloc(), (front, end, Given::More))?;
        }
    }
    Ok(())
}

/// A beginning, a part and an end, how many times the part occurs, how many bytes are used, and the
/// result.
type LongRow = (
    (&'static str, &'static str, &'static str),
    usize,
    usize,
    Given<'static>,
);

/// Lines with too many numbers, and the longest clause, deletion and import.
static LONG_LINES: &[LongRow] = &[
    (("5 ", "1 ", ""), 65_536, 131_073, TOO_LONG),
    (("5 2 0", " 1", ""), 65_537, 131_079, TOO_LONG),
    (("5 d", " 1", ""), 65_537, 131_077, TOO_LONG),
    (("5 2 0", " 1", " -"), 65_536, 131_079, RAT_HINT),
    (("5 i", " 1", ""), 65_536, 131_075, TOO_LONG),
    (("5 i", " 1", " -"), 65_535, 131_075, TOO_LONG),
    (("5 i", " 1", " d"), 65_535, 131_075, SPELLING),
    (
        ("5 ", "1 ", "0 0\n"),
        65_535,
        131_076,
        Given::Add(5, &[1; 65_535], &[]),
    ),
    (
        ("5 2 0", " 1", " 0\n"),
        65_536,
        131_080,
        Given::Add(5, &[2], &[1; 65_536]),
    ),
    (
        ("5 d", " 1", " 0\n"),
        65_536,
        131_078,
        Given::Delete(5, &[1; 65_536]),
    ),
    (
        ("5 i", " 1", " 0\n"),
        65_535,
        131_076,
        Given::Import(5, &[1; 65_535]),
    ),
];

/// Feeds each text in one piece, cut after 65,536 bytes, and byte by byte.
#[test]
fn lines_have_limits(rt: HostRuntime) -> Result<(), Fail> {
    for &(parts, count, used, given) in LONG_LINES {
        let text = repeated(rt.alloc(), parts, count)?;
        for cut in [Some(0), Some(65_536), None] {
            feed_one_way(&rt, rt.alloc(), (&text, used, given), cut)?;
        }
    }
    Ok(())
}

/// A line of each kind.
static KINDS: &[Row] = &[
    ("5 2 0 1 3 0\n", 12, Given::Add(5, &[2], &[1, 3])),
    ("6 d 4 7 0\n", 10, Given::Delete(6, &[4, 7])),
    ("8 i -9 3 0\n", 11, Given::Import(8, &[-9, 3])),
];

/// Feeds a new reader a line, and then another in two pieces.
fn feed_two(
    rt: &impl Abort,
    alloc: Global,
    first: Row<'_>,
    second: Row<'_>,
    cut: usize,
) -> Result<(), AllocError> {
    let mut reader = LineReader::new(alloc)?;
    let (text, used, given) = first;
    feed(rt, &mut reader, text.as_bytes(), used, given);
    feed_pieces(rt, &mut reader, second, cut);
    Ok(())
}

#[test]
fn kinds_follow_one_another(rt: HostRuntime) -> Result<(), Fail> {
    for &first in KINDS {
        for &second in KINDS {
            for cut in 0..second.1 {
                feed_two(&rt, rt.alloc(), first, second, cut)?;
            }
        }
    }
    Ok(())
}

/// A piece, how many of its bytes are used, the result, and what the end of the stream would then
/// mean.
type Step = (&'static str, usize, Given<'static>, End);

const CLEAN: End = End::Clean;

const TRUNCATED: LineFault = LineFault::Truncated;

/// Two lines and the beginning of a third.
static TWO_AND_A_PART: &[Step] = &[
    ("", 0, Given::More, CLEAN),
    ("5 2 0 0\n6 0 5 0\n7", 8, Given::Add(5, &[2], &[]), CLEAN),
    ("6 0 5 0\n7", 8, Given::Add(6, &[], &[5]), CLEAN),
    ("7", 1, Given::More, End::Fault(TRUNCATED)),
    ("5 2 0 0\n", 0, Given::Bad(TRUNCATED), End::Fault(TRUNCATED)),
];

static AFTER_A_FAULT: &[Step] = &[
    ("5 2 0 0\n", 8, Given::Add(5, &[2], &[]), CLEAN),
    ("5 1 0 -2 0\n", 7, RAT_HINT, End::Fault(LineFault::RatHint)),
    ("5 2 0 0\n", 0, RAT_HINT, End::Fault(LineFault::RatHint)),
];

/// Feeds a new reader these pieces, one after the other.
fn feed_steps(rt: &impl Abort, alloc: Global, steps: &[Step]) -> Result<(), AllocError> {
    let mut reader = LineReader::new(alloc)?;
    for &(piece, used, given, end) in steps {
        feed(rt, &mut reader, piece.as_bytes(), used, given);
        same(rt, (piece, reader.end()), (piece, end));
    }
    Ok(())
}

#[test]
fn streams_end(rt: HostRuntime) -> Result<(), Fail> {
    feed_steps(&rt, rt.alloc(), TWO_AND_A_PART)?;
    feed_steps(&rt, rt.alloc(), AFTER_A_FAULT)?;
    Ok(())
}

static FAULT_TEXTS: [(LineFault, &str); 4] = [
    (LineFault::Spelling, "spelling"),
    (LineFault::TooLong, "too long"),
    (LineFault::Truncated, "truncated"),
    (LineFault::RatHint, "rat hint"),
];

#[test]
fn fault_texts(rt: HostRuntime) -> Result<(), Fail> {
    for (fault, text) in &FAULT_TEXTS {
        has_text(&rt, rt.alloc(), fault, text)?;
    }
    Ok(())
}
