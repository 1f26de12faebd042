//! The outcome of a run, its verdict, and why there may be no outcome.
ghost use Rattle.std.specs.Prelude.{◌≡◌};
ghost use Rattle.run_outcome.specs.Outcomes.{verdict_of};

use crate::saving::Clauses;
use clause_store::{Pass, Store};
use lrup_model::{LayoutFault, PlainMap};
use std::alloc::AllocError;
use stream_check::{DroppedIds, Report};
use thiserror::Error;

/// What a run says about its formula, from the reports of all streams.
#[derive(Clone, Copy, Debug, PartialEq, Eq)]
pub enum Verdict {
    /// No assignment satisfies the formula: a stream added the empty clause.
    Unsatisfiable,
    /// No assignment satisfies the formula together with all literals of the cube: a stream added a
    /// clause that the cube falsifies, and no stream added the empty clause.
    UnsatisfiableUnder,
    /// No stream added such a clause. This says nothing about the formula.
    Unknown,
}

impl Verdict {
    /// The verdict of the reports of all streams.
    pub fn of(reports: &[Report]) -> Verdict
        ensures { result ≡ verdict_of reports.now }
    {
        if reports.iter().any(|report| report.empty) {
            Verdict::Unsatisfiable
        } else if reports.iter().any(|report| report.within) {
            Verdict::UnsatisfiableUnder
        } else {
            Verdict::Unknown
        }
    }
}

/// Why a run has no outcome.
#[derive(Clone, Copy, Debug, PartialEq, Eq, Error)]
pub enum RunFault {
    /// The formula, the options and the number of streams have no layout. This fault comes before
    /// any other.
    #[error("{0}")]
    Layout(LayoutFault),
    /// Out of memory. In the code, this happens only before the first read; no contract says so.
    #[error("out of memory")]
    Memory,
    /// A thread of the stream with this number (from 1) couldn't be started. In the code, no stream
    /// is read in this case: the threads started so far leave without a read, as a test of one
    /// stream's two threads shows.
    #[error("worker {0} not started")]
    Spawn(u64),
    /// The checking thread of the stream with this number (from 1) found its ring abandoned without
    /// the mark for the end, although the stream was read to its end. The reading thread pushes the
    /// mark, and its `Producer` is kept until both threads are joined. No contract of `rtrb` says
    /// that this is enough, so this fault exists. In tests it never occurs.
    #[error("ring of stream {0}")]
    Ring(u64),
}

impl From<LayoutFault> for RunFault {
    ghost use Rattle.run_outcome.specs.declared.outcome.RunFault.TheVariants.{Layout};

    ghost from_gives = { λ fault run. run ≡ Layout fault };

    fn from(fault: LayoutFault) -> RunFault {
        RunFault::Layout(fault)
    }
}

impl From<AllocError> for RunFault {
    ghost use Rattle.run_outcome.specs.declared.outcome.RunFault.TheVariants.{Memory};

    ghost from_gives = { λ _ run. run ≡ Memory };

    fn from(_error: AllocError) -> RunFault {
        RunFault::Memory
    }
}

/// The results of a run on one thread.
#[derive(Drop)]
pub struct SerialOutcome<R: Drop> {
    /// The report of each stream, in order.
    pub reports: Vec<Report>,
    /// The verdict of the reports.
    pub verdict: Verdict,
    /// The map of all clauses, as the run left it.
    pub map: PlainMap,
    /// The readers, in order, as the run left them.
    pub readers: Vec<R>,
    /// The identities that each stream dropped, in order.
    pub dropped: Vec<DroppedIds>,
}

/// The results of a run with threads.
#[derive(Drop)]
pub struct Outcome<R: Drop> {
    /// The report of each stream, in order.
    pub reports: Vec<Report>,
    /// The verdict of the reports.
    pub verdict: Verdict,
    /// The streams' passes, in order. They have met: all have seen the same history.
    pub passes: Vec<Pass>,
    /// The store of all clauses, as the run left it.
    pub store: Store,
    /// The readers, in order, as the run left them.
    pub readers: Vec<R>,
    /// The identities that each stream dropped, in order.
    pub dropped: Vec<DroppedIds>,
}

/// The results of a run, on one thread or with threads, without the readers.
#[derive(Drop)]
pub struct Checked {
    /// The report of each stream, in order.
    pub reports: Vec<Report>,
    /// The verdict of the reports.
    pub verdict: Verdict,
    /// The clauses, as the run left them.
    pub clauses: Clauses,
    /// The identities that each stream dropped, in order.
    pub dropped: Vec<DroppedIds>,
}

impl<R: Drop> SerialOutcome<R> {
    /// The results without the readers.
    pub fn into_checked(self) -> Checked
        ensures { result ≡ record {
          reports = self.reports;
          verdict = self.verdict;
          clauses = Clauses.Plain self.map;
          dropped = self.dropped;
        } }
    {
        Checked {
            reports: self.reports,
            verdict: self.verdict,
            clauses: Clauses::Plain(self.map),
            dropped: self.dropped,
        }
    }
}

impl<R: Drop> Outcome<R> {
    /// The results without the readers.
    pub fn into_checked(self) -> Checked
        ensures { result ≡ record {
          reports = self.reports;
          verdict = self.verdict;
          clauses = Clauses.Shared self.store self.passes;
          dropped = self.dropped;
        } }
    {
        Checked {
            reports: self.reports,
            verdict: self.verdict,
            clauses: Clauses::Shared(self.store, self.passes),
            dropped: self.dropped,
        }
    }
}
