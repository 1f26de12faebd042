//! Runs in which `make sweep` refuses each allocation and each start of a thread in turn. A test
//! that then fails shows the run's fault, or its reports.
use super::{
    ADDS, APART, Machine, Mode, Open, REFUTES, Said, defaults, readers_of, reports, run_with,
};
use portfolio::Verdict::Unknown;
use std::test::Fail;
use stream_check::Ending::Bad;
use stream_check::Fault;

/// Checks the reports of a run; if they differ, the test fails and shows them.
fn says_or_fails<T: Machine>(
    rt: &T,
    mode: Mode,
    streams: &[&str],
    said: &[Said],
) -> Result<(), Fail> {
    let readers = readers_of(rt.alloc(), streams, 7)?;
    let found = run_with(rt, mode, defaults(), readers, Open)?;
    let wanted = reports(rt.alloc(), said)?;
    if found.reports.as_slice() == wanted.as_slice() {
        return Ok(());
    }
    Err(found.reports.into())
}

/// A stream that drops a clause of the formula and then cites it, and another stream.
const DROPS: [&str; 2] = ["5 d 1 0\n5 2 0 1 2 0\n", "6 -2 0 3 4 0\n"];

const DROPPED: Said = (0, 1, Unknown, Bad(2, Fault::Dropped(1)));

#[test]
fn two_streams_by_threads(rt: HostRuntime) -> Result<(), Fail> {
    says_or_fails(&rt, Mode::Threads, &APART, &[REFUTES, ADDS])
}

#[test]
fn two_streams_on_one_thread(rt: HostRuntime) -> Result<(), Fail> {
    says_or_fails(&rt, Mode::Serial, &APART, &[REFUTES, ADDS])
}

#[test]
fn a_dropped_clause_by_threads(rt: HostRuntime) -> Result<(), Fail> {
    says_or_fails(&rt, Mode::Threads, &DROPS[..1], &[DROPPED])
}

#[test]
fn a_dropped_clause_on_one_thread(rt: HostRuntime) -> Result<(), Fail> {
    says_or_fails(&rt, Mode::Serial, &DROPS[..1], &[DROPPED])
}

#[test]
fn a_dropped_clause_beside_another_by_threads(rt: HostRuntime) -> Result<(), Fail> {
    says_or_fails(&rt, Mode::Threads, &DROPS, &[DROPPED, ADDS])
}

#[test]
fn a_dropped_clause_beside_another_on_one_thread(rt: HostRuntime) -> Result<(), Fail> {
    says_or_fails(&rt, Mode::Serial, &DROPS, &[DROPPED, ADDS])
}
