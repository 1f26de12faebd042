//! Saves the clauses that are live after a run, and starts a second run from them.
ghost use Rattle.std.specs.Prelude.{◌≡◌, false};
ghost use Rattle.std.specs.List.{AllByRecursion};

use super::{APART, BOTH, Machine, Mode, NOTHING, Open, options, readers_of, report, same};
use checkpoint::SaveFault;
use lrup_model::{Cube, Formula};
use portfolio::Verdict::Unsatisfiable;
use portfolio::{Clauses, Outcome, SerialOutcome, run, run_serial};
use std::test::Fail;
use stream_check::Ending::Ended;
use stream_check::Report;
use test_support::{Paper, Pieces, four_clauses};

/// Saves the clauses that are live after a run over the four clauses, and returns their formula if
/// the run continues.
fn saved_after<'a, T: Machine>(
    rt: &T,
    mode: Mode,
    readers: Vec<Pieces<'a>>,
    goes_on: bool,
    paper: &mut Paper,
) -> Result<Result<Option<Formula>, SaveFault>, Fail>
    requires readers { AllByRecursion (λ r. r.failed ≡ false) readers.items }
    requires paper { paper.old.failed ≡ false }
{
    let alloc = rt.alloc();
    let formula = four_clauses(alloc)?;
    let cube = Cube::empty(alloc);
    let gates = vec![in alloc; Open; readers.len()]?;
    match mode {
        Mode::Threads => {
            let outcome = run(rt, alloc, &formula, &cube, options(0, 4, 8), readers, gates)?;
            let Outcome {
                passes,
                store,
                dropped,
                ..
            } = outcome;
            // Saving doesn't need the run's formula any more.
            drop(formula);
            if passes.is_empty() {
                return Err("no pass".into());
            }
            Ok(Clauses::Shared(store, passes).save(alloc, &dropped, goes_on, paper))
        }
        Mode::Serial => {
            let outcome = run_serial(rt, alloc, &formula, &cube, options(0, 4, 8), readers, gates)?;
            let SerialOutcome { map, dropped, .. } = outcome;
            Ok(Clauses::Plain(map).save(alloc, &dropped, goes_on, paper))
        }
    }
}

/// The reports of a second run, of one stream over the next formula.
fn reports_of_next<T: Machine>(rt: &T, next: &Formula, stream: &str) -> Result<Vec<Report>, Fail> {
    let alloc = rt.alloc();
    let readers = readers_of(alloc, &[stream], 7)?;
    let gates = vec![in alloc; Open; readers.len()]?;
    let none = Cube::empty(alloc);
    let outcome = run_serial(rt, alloc, next, &none, options(0, 1, 0), readers, gates)?;
    let SerialOutcome { reports, .. } = outcome;
    Ok(reports)
}

/// The four clauses; the four clauses and `2`; and these five without the first.
const FOUR: &str = "p cnf 2 4\n1 2 0\n-1 2 0\n1 -2 0\n-1 -2 0\n";

const WITH_5: &str = "p cnf 2 5\n1 2 0\n-1 2 0\n1 -2 0\n-1 -2 0\n2 0\n";

const WITHOUT_1: &str = "p cnf 2 4\nc id 2\n-1 2 0\nc id 3\n1 -2 0\nc id 4\n-1 -2 0\nc id 5\n2 0\n";

/// Streams, the saved text, and a stream that refutes the saved formula, or an empty text.
static SAVED: [(&[&str], &str, &str); 9] = [
    (
        &APART,
        "p cnf 2 7\n1 2 0\n-1 2 0\n1 -2 0\n-1 -2 0\n2 0\n-2 0\n0\n",
        "8 0 7 0\n",
    ),
    // A clause that its stream retired is left out.
    (
        &["5 2 0 1 2 0\n5 d 5 0\n", "6 -2 0 3 4 0\n"],
        "p cnf 2 5\n1 2 0\n-1 2 0\n1 -2 0\n-1 -2 0\nc id 6\n-2 0\n",
        "6 0 5 1 2 0\n",
    ),
    // A clause that wasn't added isn't saved.
    (&["", "5 2 0 1 2 0\n"], FOUR, ""),
    // Clauses that all streams dropped are left out, even if a bad line follows.
    (&["5 2 0 1 2 0\n7 d 1 0\n"], WITHOUT_1, "5 0 4 2 3 0\n"),
    (
        &["5 2 0 1 2 0\n5 d 1 0\n", "6 d 1 0\n"],
        WITHOUT_1,
        "5 0 4 2 3 0\n",
    ),
    (
        &["5 2 0 1 2 0\n5 d 1 0\n", "6 d 1 0\n6 d 1 0\n"],
        WITHOUT_1,
        "5 0 4 2 3 0\n",
    ),
    // A clause is saved if either stream keeps it. Three cases: only one stream drops a clause;
    // each stream drops a different clause; one stream drops a clause of the other.
    (&["5 2 0 1 2 0\n5 d 1 0\n", ""], WITH_5, "6 0 5 3 4 0\n"),
    (&["5 d 1 0\n", "6 d 2 0\n"], FOUR, ""),
    (
        &["5 2 0 1 2 0\n", "6 -2 0 3 4 0\n6 d 5 0\n"],
        "p cnf 2 6\n1 2 0\n-1 2 0\n1 -2 0\n-1 -2 0\n2 0\n-2 0\n",
        "7 0 5 6 0\n",
    ),
];

/// The text is saved whether the run continues or not, and the stream refutes the next formula.
#[test]
fn what_is_live_is_saved(rt: HostRuntime) -> Result<(), Fail> {
    for mode in BOTH {
        for goes_on in [false, true] {
            for &(streams, text, next_stream) in &SAVED {
                let row = (mode, goes_on, streams);
                let readers = readers_of(rt.alloc(), streams, 7)?;
                let mut paper = Paper::new(rt.alloc(), 9, 0);
                let next = saved_after(&rt, mode, readers, goes_on, &mut paper)??;
                let saved = (next.is_some(), paper.bytes.as_slice());
                same(&rt, (row, saved), (row, (goes_on, text.as_bytes())));
                if let Some(next) = next {
                    let reports = reports_of_next(&rt, &next, next_stream)?;
                    let refutes = (1, 0, Unsatisfiable, Ended);
                    let said = if next_stream.is_empty() {
                        NOTHING
                    } else {
                        refutes
                    };
                    same(&rt, (row, reports.as_slice()), (row, &[report(said)]));
                }
            }
        }
    }
    Ok(())
}
