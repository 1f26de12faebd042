//! The checker of one stream.
ghost use Rattle.std.specs.Prelude.{◌≡◌, ◌↔◌, ◌≤◌, ◌<◌, IsTrue, IsSome, IfSome, IfOk, List, take, length};
ghost use Rattle.lrup_model.specs.Event.{History};
ghost use Rattle.lrup_model.specs.Layout.{IsStream};
ghost use Rattle.stream_check.specs.StreamParams.{max_tries};
ghost use Rattle.lrup_text.specs.declared.device.StreamEnd.TheVariants as stream_ends;
ghost use Rattle.stream_check.specs.Judging.{joined};
ghost use Rattle.stream_check.specs.CheckerValue.{report_of_tally};
ghost use Rattle.stream_check.specs.Stopping.{IsFullAtMemory};
ghost use Rattle.stream_check.specs.Checker.{checker_state, IsReadyAt, Extends, AreBlocksOf, FeedsChecker, StaysFinished, IsNew, Ends, ReportsEnd};

use crate::addition::LineScratch;
use crate::dropped_ids::DroppedIds;
use crate::fault::Fault;
use crate::gate::Gate;
use crate::laws::{fresh_left, good_line_taken};
use crate::line::take_line;
use crate::params::StreamParams;
use crate::progress::{CheckStatus, Progress};
use crate::report::{Ending, Report};
use crate::stream_state::StreamState;
use lrup_model::{ClauseMap, Cube, Layout};
use lrup_text::{End, LineReader, ReaderStatus, StreamEnd};
use std::alloc::{AllocError, Global};
use std::marker::Model;

/// Checks the lines of one stream, which comes in pieces, against a clause map, and finally gives
/// the stream's report.
///
/// A checker is *finished* (`is_over`) once its ending is known: after a bad line, a line that ran
/// out of memory, the end of the stream, or a failed read. Nothing changes it after that.
#[derive(Drop)]
pub struct Checker {
    state: StreamState,
    scratch: LineScratch,
    reader: LineReader,
    ending: Option<Ending>,
}

impl Model for Checker {
    ghost use Rattle.stream_check.specs.CheckerValue.{CheckerValue};

    ghost Value = { CheckerValue };

    ghost use Rattle.stream_check.specs.internal.CheckerInside.{value_of, read_of, IsSound};

    ghost view = { λ c. value_of c.state (read_of c.reader) c.ending };

    ghost invariant = { λ c. IsSound c.state.params c.state.dropped c.scratch.vars
        c.reader c.ending };
}

impl Checker {
    /// The largest number of tries, i.e. of repeated fetches of a vacant hint.
    pub const MAX_TRIES: u64 = 1_000_000;

    /// Makes a checker for the stream with the number `stream` (from 1), before its first byte. A
    /// hint of another stream is fetched again while it is vacant, up to `tries` times (at most
    /// 1,000,000). The report will say whether the cube of assumed literals falsifies an added
    /// clause. The code allocates all memory here, a copy of the cube included, except for the
    /// identities that the stream drops.
    pub fn new(
        alloc: Global,
        stream: u64,
        layout: &Layout,
        cube: &Cube,
        tries: u64,
    ) -> Result<Checker, AllocError>
        requires stream { IsStream layout.now stream }
        requires tries { tries ≤ max_tries }
        ensures { IfOk result (IsNew layout.now cube.now stream tries) }
    {
        // A law, with no effect at run time: before any bytes, a checker is in this state.
        fresh_left();
        let params = StreamParams::new(layout, cube.try_clone()?, stream, tries);
        Ok(Checker {
            state: StreamState::new(alloc, params),
            scratch: LineScratch::new(alloc, layout.vars())?,
            reader: LineReader::new(alloc)?,
            ending: None,
        })
    }

    /// Takes bytes of a piece up to and including the LF of one line, or the first byte after which
    /// the text can't become a line; otherwise takes all of them. A line that ends is checked: for
    /// an addition, the hints are fetched and the clause is published; for a deletion, the
    /// identities are retired or dropped; for an import, the identity is fetched and the literals
    /// are compared. After a good line the caller feeds the rest of the piece. After a bad line, or
    /// if memory ran out, the checker is finished, and the gate gets the report. Later calls use no
    /// bytes.
    pub fn feed<M: ClauseMap, G: Gate>(
        &mut self,
        map: &mut M,
        gate: &mut G,
        piece: &[u8],
    ) -> Progress
        requires { IsReadyAt self.old (M.caller_view map.old) }
        // If some bytes and blocks led to the old checker, then they lead to the new one once the
        // bytes used and the blocks of this call's events are appended.
        ensures left { let old = checker_state self.old (M.caller_view map.old).room in
            let new = checker_state self.new (M.caller_view map.new).room in
            (blocks : List History) × M.moves map.old map.new (joined blocks)
            × AreBlocksOf result.status blocks
            × Extends self.old.params old (take result.used piece.now) blocks new }
        ensures status { FeedsChecker result.status self.old self.new piece.now
            (take result.used piece.now) }
        ensures used { result.used ≤ length piece.now }
        ensures moves_on { result.status ≡ CheckStatus.Line → 0 < result.used }
        // Memory runs out only if there is no room left for a dropped identity.
        ensures memory { IfSome self.new.ending (λ ending.
            IsFullAtMemory ending self.new.dropped) }
        ensures finished { StaysFinished self.old self.new (take result.used piece.now) }
        ensures ready { IsReadyAt self.new (M.caller_view map.new) }
        ensures params { self.new.params ≡ self.old.params }
    {
        if self.ending.is_some() {
            return Progress {
                used: 0,
                status: CheckStatus::Over,
            };
        }
        // A law, with no effect at run time: after one more good line, a checker is as `take_line`
        // leaves it.
        good_line_taken();
        let fed = self.reader.feed(piece);
        let used = fed.used;
        match fed.status {
            ReaderStatus::NeedMore => Progress {
                used,
                status: CheckStatus::More,
            },
            ReaderStatus::Line(line) => {
                match take_line(&mut self.state, &mut self.scratch, map, gate, line) {
                    Ok(()) => Progress {
                        used,
                        status: CheckStatus::Line,
                    },
                    Err(stop) => {
                        self.ending = Some(stop.ending(self.state.line()));
                        self.notify_gate(gate, used)
                    }
                }
            }
            ReaderStatus::Fault(fault) => {
                self.ending = Some(Ending::Bad(self.state.line(), Fault::Text(fault)));
                self.notify_gate(gate, used)
            }
        }
    }

    /// Gives the gate the report of the stream, whose checker is finished. `used` bytes of the
    /// piece were used. This function is called once per stream, so it is marked as cold: the
    /// compiler then optimizes for good lines.
    #[cold]
    #[inline(never)]
    fn notify_gate<G: Gate>(&self, gate: &mut G, used: usize) -> Progress
        requires { IsSome self.now.ending }
        ensures { result ≡ record { used = used; status = CheckStatus.Over } }
    {
        gate.when_finished(self.stream(), &self.report());
        Progress {
            used,
            status: CheckStatus::Over,
        }
    }

    /// Takes the end of the stream as `end` does, or the failure of a read as `read_failed` does,
    /// and gives the gate the report, unless the checker was finished before: then the gate already
    /// has it.
    #[cold]
    pub fn finish<G: Gate>(&mut self, gate: &mut G, end: StreamEnd)
        ensures ends { Ends end self.old self.new }
        ensures reports { ReportsEnd end self.old self.new }
    {
        let was_finished = self.is_over();
        match end {
            StreamEnd::Ended => self.end(),
            StreamEnd::Failed => self.read_failed(),
        }
        if !was_finished {
            gate.when_finished(self.stream(), &self.report());
        }
    }

    /// Takes the end of the stream, after which the checker is finished. If bytes of a line are
    /// pending, that line is bad: it is truncated. The gate isn't called: `finish` does that.
    pub fn end(&mut self)
        ensures ends { Ends stream_ends.Ended self.old self.new }
        ensures reports { ReportsEnd stream_ends.Ended self.old self.new }
    {
        if self.ending.is_some() {
            return;
        }
        self.ending = Some(match self.reader.end() {
            End::Clean => Ending::Ended,
            End::Fault(fault) => Ending::Bad(self.state.line(), Fault::Text(fault)),
        });
    }

    /// Takes the failure of a read, after which the checker is finished. The gate isn't called:
    /// `finish` does that.
    pub fn read_failed(&mut self)
        ensures ends { Ends stream_ends.Failed self.old self.new }
        ensures reports { ReportsEnd stream_ends.Failed self.old self.new }
    {
        if self.ending.is_some() {
            return;
        }
        self.ending = Some(Ending::ReadFailed(self.state.line()));
    }

    /// The number (from 1) of the stream whose lines are checked.
    pub fn stream(&self) -> u64
        ensures { result ≡ self.now.params.stream }
    {
        self.state.params.stream()
    }

    /// Whether the checker is finished: it takes nothing more, and has a report.
    pub fn is_over(&self) -> bool
        ensures { IsTrue result ↔ IsSome self.now.ending }
    {
        self.ending.is_some()
    }

    /// The stream's report. The checker has to be finished.
    pub fn report(&self) -> Report
        requires { IsSome self.now.ending }
        ensures says { IfSome self.now.ending (λ ending.
            result ≡ report_of_tally self.now.tally ending) }
        ensures memory { IsFullAtMemory result.ending self.now.dropped }
    {
        self.state.report(self.ending.unwrap())
    }

    /// The identities of the formula and of other streams that the stream dropped.
    pub fn into_dropped(self) -> DroppedIds
        ensures { result ≡ self.dropped }
    {
        let Checker { state, .. } = self;
        state.into_dropped()
    }
}
