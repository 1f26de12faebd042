//! At the end of a stream, or after a failed read, the gate gets the report once.
use super::same;
use lrup_model::{Cube, Id, Layout};
use lrup_text::StreamEnd;
use std::alloc::Global;
use std::process::Abort;
use std::test::Fail;
use stream_check::{Checker, Ending, Gate, Report};

/// How many times a gate got a report, and the stream and ending of the last report.
#[derive(Clone, Copy, Debug, PartialEq, Eq)]
struct LastReport {
    calls: u64,
    stream: u64,
    ending: Option<Ending>,
}

impl Gate for LastReport {
    fn before_fetch(&mut self, _stream: u64, _id: Id, _attempt: u64) {}

    fn after_publish(&mut self, _stream: u64, _id: Id) {}

    fn when_finished(&mut self, stream: u64, report: &Report) {
        self.calls = self.calls.saturating_add(1);
        self.stream = stream;
        self.ending = Some(report.ending);
    }
}

/// A checker without a map.
fn new_checker(alloc: Global) -> Result<Checker, Fail> {
    let layout = Layout::new(2, 4, 8, 1, 9, 9)?;
    Ok(Checker::new(alloc, 1, &layout, &Cube::empty(alloc), 0)?)
}

/// Checks that the checker is finished, with this ending and no good line.
fn has_ended(rt: &impl Abort, checker: &Checker, ending: Ending) {
    let wanted = Report {
        added: 0,
        deleted: 0,
        empty: false,
        within: false,
        ending,
    };
    assert!(rt; checker.is_over());
    same(rt, checker.report(), wanted);
}

/// Finishes a checker twice; the first ending counts.
fn finish_twice(rt: &impl Abort, checker: &mut Checker, ends: [StreamEnd; 2], ending: Ending) {
    let mut gate = LastReport {
        calls: 0,
        stream: 0,
        ending: None,
    };
    let [first, second] = ends;
    checker.finish(&mut gate, first);
    checker.finish(&mut gate, second);
    let wanted = LastReport {
        calls: 1,
        stream: 1,
        ending: Some(ending),
    };
    same(rt, gate, wanted);
    has_ended(rt, checker, ending);
}

#[test]
fn finish_calls_the_gate_once(rt: HostRuntime) -> Result<(), Fail> {
    let (ended, failed) = (StreamEnd::Ended, StreamEnd::Failed);
    let mut checker = new_checker(rt.alloc())?;
    finish_twice(&rt, &mut checker, [ended, failed], Ending::Ended);
    let mut checker = new_checker(rt.alloc())?;
    finish_twice(&rt, &mut checker, [failed, ended], Ending::ReadFailed(1));
    Ok(())
}

#[test]
fn a_failed_read_is_reported(rt: HostRuntime) -> Result<(), Fail> {
    let mut checker = new_checker(rt.alloc())?;
    same(&rt, checker.is_over(), false);
    checker.read_failed();
    has_ended(&rt, &checker, Ending::ReadFailed(1));
    checker.end();
    has_ended(&rt, &checker, Ending::ReadFailed(1));
    Ok(())
}
