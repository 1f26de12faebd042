//! Interleavings of threads: gates and readers hold some threads until others have made given
//! calls.
use super::holding::{Hold, HoldingGate, Holds, holding_readers, run_held};
use super::{
    ADDS, BOTH, CITING, Machine, Mode, REFUTES, Said, defaults, options, run_with, same, says,
};
use lrup_text::LineFault;
use portfolio::Verdict::{Unknown, Unsatisfiable};
use std::test::Fail;
use stream_check::Ending::{Bad, Ended};
use stream_check::Fault;

/// Stream 1 fetches 6 only after stream 2 has published it.
#[test]
fn a_held_stream_finds_the_others_clause(rt: HostRuntime) -> Result<(), Fail> {
    let found = run_held(&rt, defaults(), &CITING, &[([1, 6, 1], [2, 6, 0], 1)])?;
    says(&rt, CITING, &found, &[REFUTES, ADDS])
}

/// Each stream's first fetch waits for the other stream's. If one thread checked both streams, the
/// first wait would time out.
#[test]
fn workers_one_after_the_other(rt: HostRuntime) -> Result<(), Fail> {
    let holds = [([1, 1, 1], [2, 3, 1], 1), ([2, 3, 1], [1, 1, 1], 1)];
    let _found = run_held(&rt, defaults(), &CITING, &holds)?;
    Ok(())
}

const EIGHT: [&str; 8] = [
    "5 2 0 1 2 0\n",
    "6 2 0 1 2 0\n",
    "7 2 0 1 2 0\n",
    "8 2 0 1 2 0\n",
    "9 2 0 1 2 0\n",
    "10 2 0 1 2 0\n",
    "11 2 0 1 2 0\n",
    "12 2 0 1 2 0\n",
];

/// Each stream's first fetch waits for the first fetches of all others. A stream has one identity
/// and room for one literal.
#[test]
fn eight_threads_are_at_work_at_once(rt: HostRuntime) -> Result<(), Fail> {
    let mut holds = Vec::new(rt.alloc());
    for stream in 1..9u64 {
        for other in 1..9u64 {
            holds.push(([stream, 1, 1], [other, 1, 1], 1))?;
        }
    }
    let found = run_held(&rt, options(1_000, 1, 1), &EIGHT, &holds)?;
    says(&rt, EIGHT, &found, &[ADDS; 8])
}

/// Checks the reports of a run whose readers give these texts, and are held, too.
fn held_says<T: Machine>(
    rt: &T,
    mode: Mode,
    streams: &[&'static [&'static str]],
    holds: &[Hold],
    said: &[Said],
) -> Result<(), Fail> {
    let holding = Holds::new(rt.alloc(), holds)?;
    let readers = holding_readers(rt.alloc(), streams, &holding)?;
    let found = run_with(rt, mode, defaults(), readers, HoldingGate(&holding))?;
    says(rt, (mode, streams), &found, said)?;
    same(rt, (mode, streams, holding.late()), (mode, streams, 0));
    Ok(())
}

/// The second line of stream 1 comes only once the last lines of streams 2 and 3 have been checked.
#[test]
fn a_blocked_reader_holds_up_no_other(rt: HostRuntime) -> Result<(), Fail> {
    let streams: [&'static [&'static str]; 3] = [
        &["5 2 0 1 2 0\n", "8 0 5 6 0\n"],
        &["6 -2 0 3 4 0\n", "9 2 0 1 2 0\n"],
        &["7 2 0 1 2 0\n", "10 -2 0 3 4 0\n"],
    ];
    let holds = [([1, 0, 2], [2, 9, 0], 1), ([1, 0, 2], [3, 10, 0], 1)];
    let two = (2, 0, Unknown, Ended);
    held_says(&rt, Mode::Threads, &streams, &holds, &[REFUTES, two, two])
}

/// While a line is checked, the next one is read.
#[test]
fn reads_and_checks_on_one_thread(rt: HostRuntime) -> Result<(), Fail> {
    let stream: &'static [&'static str] = &["5 2 0 1 2 0\n", "6 0 5 3 4 0\n"];
    let holds = [([1, 1, 1], [1, 0, 2], 1)];
    held_says(&rt, Mode::Threads, &[stream], &holds, &[REFUTES])
}

/// The gate gets the report of a bad line before its stream or the other one ends.
#[test]
fn a_bad_line_is_reported_while_streams_are_open(rt: HostRuntime) -> Result<(), Fail> {
    let streams: [&'static [&'static str]; 2] = [&["6 6\n5 2 0 1 2 0\n"], &["6 -2 0 3 4 0\n"]];
    let holds = [([1, 0, 2], [1, 0, 0], 1), ([2, 0, 2], [1, 0, 0], 1)];
    let bad = (0, 0, Unknown, Bad(1, Fault::Text(LineFault::Spelling)));
    for mode in BOTH {
        held_says(&rt, mode, &streams, &holds, &[bad, ADDS])?;
    }
    Ok(())
}

/// Streams, tries, holds, and the streams' reports.
type Row<'a> = (&'a [&'a str], u64, &'a [Hold], &'a [Said]);

/// The first stream deletes a clause that the second cites.
const RETIRING: [&str; 2] = ["5 2 0 1 2 0\n5 d 5 0\n7 2 0 1 2 0\n", "6 0 5 3 4 0\n"];

/// The reports of these streams if the second finds the clause live, and if it finds the clause
/// retired.
const FOUND: [Said; 2] = [(2, 1, Unknown, Ended), (1, 0, Unsatisfiable, Ended)];

const RETIRED: [Said; 2] = [
    (2, 1, Unknown, Ended),
    (0, 0, Unknown, Bad(1, Fault::Retired(5))),
];

/// The first two streams publish under neighbouring identities, and the third reads both clauses.
const NEIGHBOURS: [&str; 3] = [
    "5 2 0 1 2 0\n",
    "6 -2 0 3 4 0\n",
    "7 2 0 5 0\n10 -2 0 6 0\n13 0 5 6 0\n",
];

/// Checks the reports of a hundred runs with these holds.
fn always_says<T: Machine>(rt: &T, row: Row<'_>) -> Result<(), Fail> {
    let (streams, tries, holds, said) = row;
    for _ in 0..100 {
        let found = run_held(rt, options(tries, 3, 16), streams, holds)?;
        says(rt, streams, &found, said)?;
    }
    Ok(())
}

/// Stream 1 finds 6 vacant before stream 2 begins, and fetches it again once it is published. The
/// last wait ends immediately; it only checks that attempt 1 was made before attempt 2.
static SECOND_TRY: Row = (
    &CITING,
    1,
    &[
        ([2, 3, 1], [1, 6, 2], 1),
        ([1, 6, 2], [2, 6, 0], 1),
        ([1, 6, 2], [1, 6, 1], 1),
    ],
    &[REFUTES, ADDS],
);

#[test]
fn a_hint_that_comes_at_the_second_try(rt: HostRuntime) -> Result<(), Fail> {
    always_says(&rt, SECOND_TRY)
}

static FOUND_FIRST: Row = (
    &RETIRING,
    0,
    &[([2, 5, 1], [1, 5, 0], 1), ([1, 5, 0], [2, 3, 1], 1)],
    &FOUND,
);

#[test]
fn found_before_it_was_retired(rt: HostRuntime) -> Result<(), Fail> {
    always_says(&rt, FOUND_FIRST)
}

/// Stream 1's second fetch of 1 is for the line after the deletion.
static RETIRED_FIRST: Row = (&RETIRING, 0, &[([2, 5, 1], [1, 1, 1], 2)], &RETIRED);

#[test]
fn retired_before_it_was_found(rt: HostRuntime) -> Result<(), Fail> {
    always_says(&rt, RETIRED_FIRST)
}

/// The first two streams wait for each other at their last fetch, and the third waits until both
/// have published.
static AT_ONCE: Row = (
    &NEIGHBOURS,
    0,
    &[
        ([1, 2, 1], [2, 4, 1], 1),
        ([2, 4, 1], [1, 2, 1], 1),
        ([3, 5, 1], [1, 5, 0], 1),
        ([3, 5, 1], [2, 6, 0], 1),
    ],
    &[ADDS, ADDS, (3, 0, Unsatisfiable, Ended)],
);

#[test]
fn neighbours_publish_at_once(rt: HostRuntime) -> Result<(), Fail> {
    always_says(&rt, AT_ONCE)
}

/// One stream retires the clause while the other fetches it and finds it live or retired.
#[test]
fn a_retire_and_a_fetch_at_once(rt: HostRuntime) -> Result<(), Fail> {
    let holds = [([2, 5, 1], [1, 5, 0], 1), ([1, 5, 0], [2, 5, 1], 1)];
    for _ in 0..100 {
        let found = run_held(&rt, options(0, 2, 16), &RETIRING, &holds)?;
        let said = if found.verdict == Unsatisfiable {
            FOUND
        } else {
            RETIRED
        };
        says(&rt, RETIRING, &found, &said)?;
    }
    Ok(())
}

/// Each stream cites what the next one has published, and the last cites the first's clause.
const RING: [&str; 8] = [
    "5 2 0 1 2 0\n13 2 0 6 0\n",
    "6 2 0 1 2 0\n14 2 0 7 0\n",
    "7 2 0 1 2 0\n15 2 0 8 0\n",
    "8 2 0 1 2 0\n16 2 0 9 0\n",
    "9 2 0 1 2 0\n17 2 0 10 0\n",
    "10 2 0 1 2 0\n18 2 0 11 0\n",
    "11 2 0 1 2 0\n19 2 0 12 0\n",
    "12 2 0 1 2 0\n20 2 0 5 0\n",
];

/// Each stream is held, before it fetches the next one's clause, until all have published theirs.
#[test]
fn eight_streams_in_a_ring(rt: HostRuntime) -> Result<(), Fail> {
    let mut holds = Vec::new(rt.alloc());
    for stream in 1..9u64 {
        for other in 1..9u64 {
            holds.push(([stream, 5 + stream % 8, 1], [other, 4 + other, 0], 1))?;
        }
    }
    for _ in 0..100 {
        let found = run_held(&rt, options(0, 2, 16), &RING, &holds)?;
        says(&rt, RING, &found, &[(2, 0, Unknown, Ended); 8])?;
    }
    Ok(())
}
