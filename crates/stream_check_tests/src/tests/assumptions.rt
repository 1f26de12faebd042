//! Streams that derive clauses within a cube of assumed literals.
use super::{ONE_STREAM, have_reports};
use std::test::Fail;

static WITHIN: &[&str] = &[
    "cube=-2: 5 2 0 1 2 0\n => 1 added, 0 deleted, ended, within; fetches 2",
    "cube=-2,1,-2: 5 2 0 1 2 0\n => 1 added, 0 deleted, ended, within; fetches 2",
    "cube=-2: 5 2 2 0 1 2 0\n => 1 added, 0 deleted, ended, within; fetches 2",
    "cube=2: 5 2 0 1 2 0\n => 1 added, 0 deleted, ended; fetches 2",
    "5 2 0 1 2 0\n => 1 added, 0 deleted, ended; fetches 2",
    "cube=1,-1: 5 2 0 1 2 0\n => 1 added, 0 deleted, ended; fetches 2",
    "cube=1: 5 2 0 1 2 0\n => 1 added, 0 deleted, ended; fetches 2",
    "cube=1,-1: 5 1 0 1 3 0\n => 1 added, 0 deleted, ended, within; fetches 2",
    "cube=1,-1: 5 -1 0 2 4 0\n => 1 added, 0 deleted, ended, within; fetches 2",
    "cube=-2,-1: 5 1 2 0 1 0\n => 1 added, 0 deleted, ended, within; fetches 1",
    "cube=-2: 5 1 2 0 1 0\n => 1 added, 0 deleted, ended; fetches 1",
];

#[test]
fn clauses_within_the_cube_are_reported(rt: HostRuntime) -> Result<(), Fail> {
    have_reports(&rt, rt.alloc(), ONE_STREAM, WITHIN)
}

/// What a good line added stays in the report, whatever follows; a bad line adds nothing.
static LATER_LINES: &[&str] = &[
    "cube=-2: 5 2 0 1 2 0\n6 1 0 1 3 0\n => 2 added, 0 deleted, ended, within; fetches 4",
    "cube=-2: 5 2 0 1 2 0\n6 1 0 1 0\n \
     => 1 added, 0 deleted, bad line 2 (no conflict), within; fetches 3",
    "cube=-2: 5 2 0 1 0\n => 0 added, 0 deleted, bad line 1 (no conflict); fetches 1",
    "cube=-1: 5 2 0 1 2 0\n6 1 0 1 0\n => 1 added, 0 deleted, bad line 2 (no conflict); fetches 3",
    "cube=2: 5 2 0 1 2 0\n6 0 5 3 4 0\n => 2 added, 0 deleted, ended, empty, within; fetches 5",
];

#[test]
fn later_lines_take_nothing_back(rt: HostRuntime) -> Result<(), Fail> {
    have_reports(&rt, rt.alloc(), ONE_STREAM, LATER_LINES)
}
