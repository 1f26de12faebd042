//! Runs of both kinds: streams that end or fail after any byte, long streams, sizes without a
//! layout; and turns.
use super::holding::{Hold, Holds, holding_readers};
use super::{
    ADDS, APART, BOTH, CITING, Machine, Mode, NOTHING, Open, REFUTATION, REFUTES, Said, defaults,
    failing_readers, options, readers_of, run_with, same, says,
};
use lrup_model::LayoutFault;
use lrup_text::{LineFault, Source};
use portfolio::Verdict::{Unknown, Unsatisfiable};
use portfolio::{Options, RunFault};
use std::alloc::Global;
use std::test::Fail;
use stream_check::Ending::{Bad, Ended, ReadFailed};
use stream_check::Fault;

/// Streams, and their reports.
static ROWS: [(&[&str], &[Said]); 3] = [
    (&[REFUTATION], &[REFUTES]),
    (&APART, &[REFUTES, ADDS]),
    (
        &["5 d 1 0\n5 2 0 1 2 0\n"],
        &[(0, 1, Unknown, Bad(2, Fault::Dropped(1)))],
    ),
];

/// This test would fail if every run reported that memory ran out, that a thread couldn't be
/// started, or that a ring failed at a stream's end.
#[test]
fn always_want_of_memory(rt: HostRuntime) -> Result<(), Fail> {
    for mode in BOTH {
        for &(streams, said) in &ROWS {
            let readers = readers_of(rt.alloc(), streams, 5)?;
            let found = run_with(&rt, mode, defaults(), readers, Open)?;
            says(&rt, (mode, streams), &found, said)?;
        }
    }
    Ok(())
}

/// Counts the first read of stream 1.
const FIRST_READ: [Hold; 1] = [([0, 0, 0], [1, 0, 1], 0)];

/// This test would fail if a run read and checked everything, and then dropped the reports and said
/// that a thread couldn't be started. If one really can't be started, no stream was read.
#[test]
fn spawn_after_a_whole_run(rt: HostRuntime) -> Result<(), Fail> {
    let holds = Holds::new(rt.alloc(), &FIRST_READ)?;
    let streams: [&'static [&'static str]; 1] = [&[REFUTATION]];
    let readers = holding_readers(rt.alloc(), &streams, &holds)?;
    match run_with(&rt, Mode::Threads, defaults(), readers, Open) {
        Ok(found) => says(&rt, holds.made(), &found, &[REFUTES]),
        Err(fault) => {
            same(&rt, (fault, holds.made()), (fault, 0));
            Err(fault.into())
        }
    }
}

/// Checks the stream's report in both kinds of run. With threads, the stream is read to its end or
/// to the read that fails.
fn one_says<T: Machine>(
    rt: &T,
    options: Options,
    text: &str,
    most: usize,
    fails_at: usize,
    said: Said,
) -> Result<(), Fail> {
    for mode in BOTH {
        let row = (mode, text.len(), most, fails_at);
        let readers = failing_readers(rt.alloc(), &[text], most, &[fails_at])?;
        let found = run_with(rt, mode, options, readers, Open)?;
        says(rt, row, &found, &[said])?;
        for reader in &found.readers {
            same(rt, (row, reader.asked <= 65_536), (row, true));
            if mode == Mode::Threads {
                let ended = (reader.failed(), reader.failed() || reader.left.is_empty());
                same(rt, (row, ended), (row, (fails_at > 0, true)));
            }
        }
    }
    Ok(())
}

/// The reports of a prefix of the refutation: if the stream ends there, and if a read fails there.
fn said_of_cut(bytes: usize) -> [Said; 2] {
    let truncated = Fault::Text(LineFault::Truncated);
    match bytes {
        0 => [NOTHING, (0, 0, Unknown, ReadFailed(1))],
        1..=11 => [
            (0, 0, Unknown, Bad(1, truncated)),
            (0, 0, Unknown, ReadFailed(1)),
        ],
        12 => [ADDS, (1, 0, Unknown, ReadFailed(2))],
        13..=23 => [
            (1, 0, Unknown, Bad(2, truncated)),
            (1, 0, Unknown, ReadFailed(2)),
        ],
        _ => [REFUTES, (2, 0, Unsatisfiable, ReadFailed(3))],
    }
}

#[test]
fn cut_anywhere(rt: HostRuntime) -> Result<(), Fail> {
    for bytes in 0..=24usize {
        let text = REFUTATION.get(..bytes).ok_or("a cut letter")?;
        let [at_end, at_failure] = said_of_cut(bytes);
        for most in [1, 7, usize::MAX] {
            let fails_at = bytes.div_ceil(most) + 1;
            one_says(&rt, options(0, 8, 64), text, most, 0, at_end)?;
            one_says(&rt, options(0, 8, 64), text, most, fails_at, at_failure)?;
        }
    }
    Ok(())
}

/// A text, repeated.
fn repeated(alloc: Global, text: &str, times: usize) -> Result<String, Fail> {
    let mut all = String::new(alloc);
    for _ in 0..times {
        all.push_str(text)?;
    }
    Ok(all)
}

/// The largest number of literals, all equal, with room for one literal; and the largest number of
/// hints, of which the first is bad.
#[test]
fn longest_lines(rt: HostRuntime) -> Result<(), Fail> {
    let alloc = rt.alloc();
    let literals = format!(in alloc; "5{} 0 1 2 0\n", repeated(alloc, " 2", 65_535)?)?;
    let hints = format!(in alloc; "5 2 0{} 0\n", repeated(alloc, " 1", 65_536)?)?;
    let not_unit = (0, 0, Unknown, Bad(1, Fault::NotUnit(1)));
    for most in [1, 7, usize::MAX] {
        one_says(&rt, options(0, 1, 1), &literals, most, 0, ADDS)?;
        one_says(&rt, defaults(), &hints, most, 0, not_unit)?;
    }
    Ok(())
}

/// The most bytes that a read gives, around the size of a ring.
const SIZES: [usize; 6] = [1, 2, 65_535, 65_536, 65_537, usize::MAX];

#[test]
fn long_bytes(rt: HostRuntime) -> Result<(), Fail> {
    let text = repeated(rt.alloc(), "\n", 200_000)?;
    let bad = (0, 0, Unknown, Bad(1, Fault::Text(LineFault::Spelling)));
    for most in SIZES {
        let last = 200_000usize.div_ceil(most.min(65_536));
        for fails_at in [0, 2, last, last + 1] {
            one_says(&rt, defaults(), &text, most, fails_at, bad)?;
        }
    }
    Ok(())
}

/// All lines that came whole are counted, no matter how the bytes were divided. In the first run no
/// read fails.
#[test]
fn many_lines_before_a_failing_read(rt: HostRuntime) -> Result<(), Fail> {
    let mut text = String::new(rt.alloc());
    for id in 5..20_005u64 {
        write!(text, "{id} 2 0 1 2 0\n")?;
    }
    for most in SIZES {
        let many = (20_000, 0, Unknown, Ended);
        one_says(&rt, defaults(), &text, most, 0, many)?;
        let piece = most.min(65_536);
        let reads = text.len().div_ceil(piece);
        for good in [0, 1, reads / 2, reads] {
            let came = text.as_bytes().iter().take(good.saturating_mul(piece));
            let lines = came.filter(|byte| **byte == b'\n').count() as u64;
            let failed = (lines, 0, Unknown, ReadFailed(lines.saturating_add(1)));
            one_says(&rt, defaults(), &text, most, good + 1, failed)?;
        }
    }
    Ok(())
}

/// What each stream's reads give, where an empty text is an end; how many reads are made; and the
/// report, which a read after the end would change.
static GROWING: [(&'static [&'static str], usize, Said); 4] = [
    (&["5 2 0 1 2 0\n", "", "9 0 5 3 4 0\n"], 2, ADDS),
    (&["6 -2 0 3 4 0\n", "", "6 6\n"], 2, ADDS),
    (
        &["7 2 0 1", " 2 0", "", "\n"],
        3,
        (0, 0, Unknown, Bad(1, Fault::Text(LineFault::Truncated))),
    ),
    (&["", "8 2 0 1 2 0\n"], 1, NOTHING),
];

#[test]
fn no_read_after_the_first_end(rt: HostRuntime) -> Result<(), Fail> {
    let (streams, wanted) = (GROWING.map(|row| row.0), GROWING.map(|row| row.2));
    for mode in BOTH {
        let holding = Holds::new(rt.alloc(), &[])?;
        let readers = holding_readers(rt.alloc(), &streams, &holding)?;
        let found = run_with(&rt, mode, defaults(), readers, Open)?;
        says(&rt, mode, &found, &wanted)?;
        for (reader, (texts, reads, _)) in found.readers.iter().zip(&GROWING) {
            same(&rt, (mode, *texts, reader.reads), (mode, *texts, *reads));
        }
    }
    Ok(())
}

/// The number of streams, the identities of each, and the fault.
static LAYOUTS: [(usize, u64, Option<LayoutFault>); 5] = [
    (0, 1, Some(LayoutFault::BadStreamCount)),
    (1, 1, None),
    (64, 1, None),
    (65, 1, Some(LayoutFault::BadStreamCount)),
    (1, 268_435_456, Some(LayoutFault::RowTooLong)),
];

#[test]
fn no_layout_no_read(rt: HostRuntime) -> Result<(), Fail> {
    for mode in BOTH {
        for &(count, lines, fault) in &LAYOUTS {
            let stream: &'static [&'static str] = &[""];
            let streams = vec![in rt.alloc(); stream; count]?;
            let holds: [Hold; 1] = [([0, 0, 0], [1, 0, 1], 1)];
            let holding = Holds::new(rt.alloc(), &holds)?;
            let readers = holding_readers(rt.alloc(), &streams, &holding)?;
            let found = run_with(&rt, mode, options(0, lines, 0), readers, Open).err();
            let reads = if fault.is_some() { 0 } else { 1 };
            same(
                &rt,
                (mode, count, lines, found, holding.made()),
                (mode, count, lines, fault.map(RunFault::Layout), reads),
            );
        }
    }
    Ok(())
}

/// Each cited clause comes in time if stream 1 is first and each turn takes one line.
static TURNS: [(&[&str], &[Said]); 3] = [
    // With two lines per turn, line 2 of the first stream would miss 6.
    (&CITING, &[REFUTES, ADDS]),
    // In reverse order, each stream but the first would miss the clause of the one before it.
    (
        &["5 2 0 1 2 0\n", "6 2 0 5 0\n", "7 2 0 6 0\n"],
        &[ADDS, ADDS, ADDS],
    ),
    // Each line cites the one before it, which is the other stream's.
    (
        &[
            "5 2 0 1 2 0\n7 2 0 6 0\n9 2 0 8 0\n",
            "6 2 0 5 0\n8 2 0 7 0\n",
        ],
        &[(3, 0, Unknown, Ended), (2, 0, Unknown, Ended)],
    ),
];

#[test]
fn serial_takes_streams_whole(rt: HostRuntime) -> Result<(), Fail> {
    for &(streams, said) in &TURNS {
        for most in [1, 2, usize::MAX] {
            let readers = readers_of(rt.alloc(), streams, most)?;
            let found = run_with(&rt, Mode::Serial, options(0, 9, 9), readers, Open)?;
            says(&rt, (streams, most), &found, said)?;
        }
    }
    Ok(())
}

/// A stream, and how many of its bytes are read, plus one if its end is read, too.
static NEEDED: [(&str, usize); 5] = [
    ("5 2 0 1 0\n5 2 0 1 2 0\n", 10),
    ("5 2 0 1 2 0\n7 0 5 3 0\n9 2 0 1 2 0\n", 22),
    ("5  2 0 1 2 0\n", 3),
    ("5 2 0 1 2 0\n5 1 0 -2 0\n", 19),
    (REFUTATION, 25),
];

/// A stream is read up to and including the byte that makes it bad; a good stream is read once
/// more, for its end.
#[test]
fn nothing_is_read_after_a_bad_line(rt: HostRuntime) -> Result<(), Fail> {
    for &(stream, needed) in &NEEDED {
        for most in [1, 4, 64] {
            let reads = if needed > stream.len() {
                stream.len().div_ceil(most) + 1
            } else {
                needed.div_ceil(most)
            };
            let readers = readers_of(rt.alloc(), &[stream], most)?;
            let found = run_with(&rt, Mode::Serial, options(0, 9, 9), readers, Open)?;
            let reader = found.readers.first().ok_or("no reader")?;
            same(&rt, (stream, most, reader.reads), (stream, most, reads));
        }
    }
    Ok(())
}
