// What tests of runs share: one function for both kinds of run, streams, and short forms of
// reports.
ghost use Rattle.std.specs.Prelude.{◌≡◌, ◌≤◌, false, IfOk};
ghost use Rattle.std.specs.List.{AllByRecursion};
ghost use Rattle.stream_check.specs.StreamParams.{max_tries};
ghost use Rattle.portfolio_tests.specs.Alone.{usual};

use lrup_model::{Cube, Id};
use lrup_text::Source;
use portfolio::Verdict::{Unknown, Unsatisfiable};
use portfolio::{Options, RunFault, Verdict, run, run_serial};
use std::alloc::{AllocError, Global};
use std::fmt;
use std::process::Abort;
use std::sync::Wait;
use std::sync::atomic::AtomicU64;
use std::test::Fail;
use std::thread::Threads;
use std::time::Clock;
use stream_check::Ending::{self, Ended};
use stream_check::{Gate, Report};
use test_support::{Pieces, four_clauses};

mod assumptions;
mod gates;
mod holding;
mod interleavings;
mod isolation;
mod line_orders;
mod memory;
mod report_texts;
mod rows;
mod saving;
mod watching;

/// What tests need from the machine.
trait Machine: Threads + Wait + Clock + Abort + AllocGlobal + Sync {}

impl<T: Threads + Wait + Clock + Abort + AllocGlobal + Sync> Machine for T {}

/// Stops the test if two values differ. This is a function, so the assertion is proved only once.
fn same<T: PartialEq + fmt::Debug + Drop>(rt: &impl Abort, value: T, wanted: T) {
    assert_eq!(rt; value, wanted);
}

/// Counters at 0, which threads share.
fn counters(alloc: Global, count: usize) -> Result<Vec<AtomicU64>, AllocError> {
    let mut counters = Vec::new(alloc);
    for _ in 0..count {
        counters.push(AtomicU64::new(0))?;
    }
    Ok(counters)
}

/// A gate that does nothing.
#[derive(Clone, Copy)]
struct Open;

impl Gate for Open {
    fn before_fetch(&mut self, _stream: u64, _id: Id, _attempt: u64) {}

    fn after_publish(&mut self, _stream: u64, _id: Id) {}
}

/// The kind of a run: with two threads for each stream, or all on one.
#[derive(Clone, Copy, Debug, PartialEq, Eq)]
enum Mode {
    Threads,
    Serial,
}

const BOTH: [Mode; 2] = [Mode::Threads, Mode::Serial];

/// The results of a run of either kind.
#[derive(Drop)]
struct Found<R: Drop> {
    reports: Vec<Report>,
    verdict: Verdict,
    readers: Vec<R>,
}

/// A run over the four clauses. It has no `ensures`, so that proofs of tests don't carry the
/// contracts of runs.
fn run_in<T: Machine, R: Source + Send + Drop, G: Gate + Send + Drop>(
    rt: &T,
    mode: Mode,
    cube: &Cube,
    options: Options,
    readers: Vec<R>,
    gates: Vec<G>,
) -> Result<Found<R>, RunFault>
    requires { AllByRecursion (λ r. R.has_failed r ≡ false) readers.items }
{
    let alloc = rt.alloc();
    assert!(rt; gates.len() == readers.len());
    let formula = four_clauses(alloc)?;
    let (reports, verdict, readers) = match mode {
        Mode::Threads => {
            let outcome = run(rt, alloc, &formula, cube, options, readers, gates)?;
            (outcome.reports, outcome.verdict, outcome.readers)
        }
        Mode::Serial => {
            let outcome = run_serial(rt, alloc, &formula, cube, options, readers, gates)?;
            (outcome.reports, outcome.verdict, outcome.readers)
        }
    };
    Ok(Found {
        reports,
        verdict,
        readers,
    })
}

/// `run_in` without assumptions, and with this gate for each stream.
fn run_with<T: Machine, R: Source + Send + Drop, G: Gate + Copy + Send + Drop>(
    rt: &T,
    mode: Mode,
    options: Options,
    readers: Vec<R>,
    gate: G,
) -> Result<Found<R>, RunFault>
    requires { AllByRecursion (λ r. R.has_failed r ≡ false) readers.items }
{
    let gates = vec![in rt.alloc(); gate; readers.len()]?;
    run_in(rt, mode, &Cube::empty(rt.alloc()), options, readers, gates)
}

/// Options with this many tries, but at most the largest allowed number.
fn options(tries: u64, lines: u64, room: u64) -> Options
    ensures { tries ≤ max_tries → result ≡ record { tries = tries; lines = lines; room = room } }
{
    Options::new(tries.min(Options::MAX_TRIES), lines, room).unwrap()
}

/// The program's default options.
fn defaults() -> Options
    ensures { result ≡ usual }
{
    options(1_000, 65_536, 1_048_576)
}

/// A reader for each stream, whose reads give at most `most` bytes. `fails_at` lists, for the first
/// streams, the number of the read that fails, or 0 if no read fails.
fn failing_readers<'a>(
    alloc: Global,
    streams: &[&'a str],
    most: usize,
    fails_at: &[usize],
) -> Result<Vec<Pieces<'a>>, AllocError>
    ensures { IfOk result (λ readers. AllByRecursion (λ r. r.failed ≡ false) readers.items) }
{
    let mut readers = Vec::new(alloc);
    for (stream, text) in streams.iter().enumerate() {
        let fails_at = fails_at.get(stream).copied().unwrap_or(0);
        readers.push(Pieces::new(text, most, fails_at))?;
    }
    Ok(readers)
}

/// Readers that never fail.
fn readers_of<'a>(
    alloc: Global,
    streams: &[&'a str],
    most: usize,
) -> Result<Vec<Pieces<'a>>, AllocError>
    ensures { IfOk result (λ readers. AllByRecursion (λ r. r.failed ≡ false) readers.items) }
{
    failing_readers(alloc, streams, most, &[])
}

/// A stream's report: additions, deletions, the verdict from this report only, and the ending.
type Said = (u64, u64, Verdict, Ending);

fn report(said: Said) -> Report {
    let (added, deleted, verdict, ending) = said;
    Report {
        added,
        deleted,
        empty: verdict == Unsatisfiable,
        within: verdict != Unknown,
        ending,
    }
}

fn reports(alloc: Global, said: &[Said]) -> Result<Vec<Report>, AllocError> {
    let mut reports = Vec::new(alloc);
    for one in said {
        reports.push(report(*one))?;
    }
    Ok(reports)
}

const NOTHING: Said = (0, 0, Unknown, Ended);

const ADDS: Said = (1, 0, Unknown, Ended);

const REFUTES: Said = (2, 0, Unsatisfiable, Ended);

/// A refutation of the four clauses.
const REFUTATION: &str = "5 2 0 1 2 0\n6 0 5 3 4 0\n";

/// A refutation by two streams; the first cites the clause that the second derives.
const CITING: [&str; 2] = ["5 2 0 1 2 0\n7 0 5 6 0\n", "6 -2 0 3 4 0\n"];

/// A refutation by two streams, neither of which cites the other.
const APART: [&str; 2] = ["5 2 0 1 2 0\n7 0 5 3 4 0\n", "6 -2 0 3 4 0\n"];

/// Checks that the run of this row has these reports, and the strongest of their verdicts.
fn says<R: Drop, D: Copy + PartialEq + fmt::Debug + Drop>(
    rt: &(impl Abort + AllocGlobal),
    row: D,
    found: &Found<R>,
    wanted: &[Said],
) -> Result<(), Fail> {
    let mut verdict = Unknown;
    for said in wanted {
        if said.2 == Unsatisfiable || verdict == Unknown {
            verdict = said.2;
        }
    }
    let reports = reports(rt.alloc(), wanted)?;
    let wanted = (row, reports.as_slice(), verdict);
    same(rt, (row, found.reports.as_slice(), found.verdict), wanted);
    Ok(())
}
