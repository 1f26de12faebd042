//! Texts of reports, whole and in pieces, on sinks that may fail; texts of faults; options.
use super::{Machine, Said, report, reports, same};
use lrup_model::LayoutFault::{BadStreamCount, RowTooLong, TooManyClauses, TooManyVariables};
use lrup_text::{LineFault, Sink, WriteFault};
use portfolio::RunFault::{Layout, Memory, Ring, Spawn};
use portfolio::Verdict::{Unknown, Unsatisfiable, UnsatisfiableUnder};
use portfolio::{Options, RunFault, Verdict, write_report};
use std::test::Fail;
use stream_check::Ending::{self, Bad, Ended, ReadFailed};
use stream_check::{Fault, Report};
use test_support::Paper;

/// Writes the text to a sink that takes this many bytes per write. If a write fails, a prefix of
/// the text was written, and no write follows.
fn writes<T: Machine>(
    rt: &T,
    reports: &[Report],
    verdict: Verdict,
    text: &str,
    most: usize,
) -> Result<(), Fail> {
    let (text, count) = (text.as_bytes(), text.len().div_ceil(most.max(1)));
    let mut paper = Paper::new(rt.alloc(), most, 0);
    write_report(reports, verdict, &mut paper)?;
    let ended = (most, paper.bytes.as_slice(), paper.writes, paper.failed());
    same(rt, ended, (most, text, count, false));
    for fails_at in 1..=count {
        let mut paper = Paper::new(rt.alloc(), most, fails_at);
        let wrote = write_report(reports, verdict, &mut paper);
        let ended = (wrote, paper.failed(), paper.writes);
        same(rt, (most, ended), (most, (Err(WriteFault), true, fails_at)));
        let before = (fails_at - 1).saturating_mul(most).min(text.len());
        same(rt, paper.bytes.as_slice(), &text[..before]);
    }
    Ok(())
}

static VERDICTS: [(Verdict, &str); 3] = [
    (Unknown, "UNKNOWN"),
    (UnsatisfiableUnder, "UNSATISFIABLE UNDER ASSUMPTIONS"),
    (Unsatisfiable, "UNSATISFIABLE"),
];

/// A stream's report and its line.
static LINES: [(Said, &str); 5] = [
    ((0, 0, Unknown, Ended), "0 added, 0 deleted, ended"),
    ((2, 1, Unknown, Ended), "2 added, 1 deleted, ended"),
    (
        (u64::MAX, 0, Unknown, ReadFailed(u64::MAX)),
        "18446744073709551615 added, 0 deleted, read failed at line 18446744073709551615",
    ),
    (
        (0, u64::MAX, Unknown, Ending::Memory(1)),
        "0 added, 18446744073709551615 deleted, out of memory at line 1",
    ),
    (
        (1, 0, Unknown, Bad(u64::MAX, Fault::Identity)),
        "1 added, 0 deleted, bad line 18446744073709551615 (identity)",
    ),
];

static FAULTS: [(Fault, &str); 16] = [
    (Fault::Text(LineFault::Spelling), "spelling"),
    (Fault::Text(LineFault::TooLong), "too long"),
    (Fault::Text(LineFault::Truncated), "truncated"),
    (Fault::Text(LineFault::RatHint), "rat hint"),
    (Fault::Identity, "identity"),
    (Fault::Literal, "literal"),
    (Fault::Tautology, "tautology"),
    (Fault::NoRoom, "no room"),
    (Fault::Dropped(1), "dropped 1"),
    (Fault::Missing(u64::MAX), "missing 18446744073709551615"),
    (Fault::Retired(5), "retired 5"),
    (Fault::NotUnit(3), "not unit 3"),
    (Fault::Excess(3), "excess 3"),
    (Fault::NoConflict, "no conflict"),
    (Fault::NotLive(5), "not live 5"),
    (Fault::Differs(u64::MAX), "differs 18446744073709551615"),
];

/// Checks the line of a stream's report, with each verdict.
fn writes_line<T: Machine>(rt: &T, said: Said, line: &str) -> Result<(), Fail> {
    for &(verdict, words) in &VERDICTS {
        let text = format!(in rt.alloc(); "c stream 1: {line}\ns {words}\n")?;
        for most in [1, 512] {
            writes(rt, &[report(said)], verdict, text.as_str(), most)?;
        }
    }
    Ok(())
}

#[test]
fn reports_of_one_stream(rt: HostRuntime) -> Result<(), Fail> {
    for &(said, line) in &LINES {
        writes_line(&rt, said, line)?;
    }
    for &(fault, words) in &FAULTS {
        let line = format!(in rt.alloc(); "0 added, 0 deleted, bad line 1 ({words})")?;
        writes_line(&rt, (0, 0, Unknown, Bad(1, fault)), line.as_str())?;
    }
    Ok(())
}

/// A stream that added the empty clause, and one whose line 1 is bad.
static TWO: [Said; 2] = [
    (2, 0, Unsatisfiable, Bad(3, Fault::NoConflict)),
    (0, 0, Unknown, Bad(1, Fault::Missing(6))),
];

const TEXT_OF_TWO: &str = "c stream 1: 2 added, 0 deleted, bad line 3 (no conflict)
c stream 2: 0 added, 0 deleted, bad line 1 (missing 6)
s UNSATISFIABLE
";

#[test]
fn reports_of_two_streams(rt: HostRuntime) -> Result<(), Fail> {
    let [first, second] = TWO;
    for (said, verdict) in [
        ([].as_slice(), Unknown),
        ([second].as_slice(), Unknown),
        ([first, second].as_slice(), Unsatisfiable),
        ([second, first].as_slice(), Unsatisfiable),
    ] {
        same(&rt, Verdict::of(&reports(rt.alloc(), said)?), verdict);
    }
    writes(&rt, &[], Unknown, "s UNKNOWN\n", 512)?;
    let two = reports(rt.alloc(), &TWO)?;
    for most in [1, 7, 600] {
        writes(&rt, &two, Unsatisfiable, TEXT_OF_TWO, most)?;
    }
    Ok(())
}

/// 64 lines of 75 or 76 bytes fill the buffer several times; each write fails in turn.
#[test]
fn long_reports(rt: HostRuntime) -> Result<(), Fail> {
    let most = u64::MAX;
    let reports = [report((most, most, Unknown, Ended)); 64];
    let mut text = String::new(rt.alloc());
    for stream in 1..=64u64 {
        let line = "18446744073709551615 added, 18446744073709551615 deleted, ended";
        write!(text, "c stream {stream}: {line}\n")?;
    }
    text.push_str("s UNKNOWN\n")?;
    for most in [64, 512] {
        writes(&rt, &reports, Unknown, text.as_str(), most)?;
    }
    Ok(())
}

static FAULTS_OF_RUNS: [(RunFault, &str); 7] = [
    (Layout(TooManyVariables), "formula refused: limit"),
    (Layout(TooManyClauses), "formula refused: limit"),
    (Layout(BadStreamCount), "stream count"),
    (Layout(RowTooLong), "row too long"),
    (Memory, "out of memory"),
    (Spawn(64), "worker 64 not started"),
    (Ring(64), "ring of stream 64"),
];

#[test]
fn run_fault_texts(rt: HostRuntime) -> Result<(), Fail> {
    for &(fault, text) in &FAULTS_OF_RUNS {
        same(&rt, fault.to_string(rt.alloc())?.as_str(), text);
    }
    Ok(())
}

#[test]
fn options_have_a_limit(rt: HostRuntime) {
    for (tries, some) in [
        (0, true),
        (1_000_000, true),
        (1_000_001, false),
        (u64::MAX, false),
    ] {
        let taken = Options::new(tries, 65_536, u64::MAX).is_some();
        same(&rt, (tries, taken), (tries, some));
    }
}
