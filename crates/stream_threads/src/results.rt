//! What the threads of streams return.
ghost use Rattle.std.specs.Prelude.{◌≡◌, ◌<◌, IfOk};
ghost use Rattle.stream_threads.specs.internal.Workers.{more_results, no_results};

use clause_store::Pass;
use lrup_text::Source;
use std::alloc::{AllocError, Global};
use std::marker::Model;
use stream_check::{DroppedIds, Report};

/// The result of a stream whose two threads have ended.
#[derive(Drop)]
pub(crate) struct StreamResult<R: Source + Drop> {
    pub(crate) report: Report,
    pub(crate) reader: R,
    pub(crate) pass: Pass,
    pub(crate) dropped: DroppedIds,
}

impl<R: Source + Drop> Model for StreamResult<R> {
    ghost use Rattle.stream_threads.specs.Jobs.{StreamResultValue};

    ghost Value = { StreamResultValue R };

    ghost view = { λ found. record {
      report = found.report;
      reader = found.reader;
      pass = found.pass;
      dropped = found.dropped;
    } };
}

/// The results of streams, in order, as one list for each part. They have room for the results of
/// more streams, so appending these allocates nothing.
#[derive(Drop)]
pub struct StreamResults<R: Source + Drop> {
    /// The report of each stream.
    pub reports: Vec<Report>,
    /// The readers, each at its end or after a read that failed.
    pub readers: Vec<R>,
    /// The streams' passes. In contracts they hold the calls that the streams made.
    pub passes: Vec<Pass>,
    /// The identities that each stream dropped.
    pub dropped: Vec<DroppedIds>,
}

impl<R: Source + Drop> Model for StreamResults<R> {
    ghost use Rattle.std.specs.Prelude.{◌≡◌, ◌-◌, vec_capacity, vec_len};
    ghost use Rattle.stream_threads.specs.Jobs.{StreamResultsValue};

    ghost Value = { StreamResultsValue R };

    ghost view = { λ found. record {
      reports = found.reports.items;
      readers = found.readers.items;
      passes = found.passes.items;
      dropped = found.dropped.items;
      room = vec_capacity found.reports - vec_len found.reports;
    } };

    ghost invariant = { λ found. let room = vec_capacity found.reports - vec_len found.reports in
        (vec_capacity found.readers - vec_len found.readers ≡ room)
        × (vec_capacity found.passes - vec_len found.passes ≡ room)
        × (vec_capacity found.dropped - vec_len found.dropped ≡ room) };
}

impl<R: Source + Drop> StreamResults<R> {
    /// Empty lists with room for the results of `count` streams.
    pub(crate) fn with_room(alloc: Global, count: usize) -> Result<StreamResults<R>, AllocError>
        ensures { IfOk result (λ found. found ≡ no_results count) }
    {
        Ok(StreamResults {
            reports: Vec::with_capacity(alloc, count)?,
            readers: Vec::with_capacity(alloc, count)?,
            passes: Vec::with_capacity(alloc, count)?,
            dropped: Vec::with_capacity(alloc, count)?,
        })
    }

    /// Appends the result of a stream.
    pub(crate) fn push(&mut self, one: StreamResult<R>)
        requires { 0 < self.old.room }
        ensures { self.new ≡ more_results self.old one }
    {
        let StreamResult {
            report,
            reader,
            pass,
            dropped,
        } = one;
        self.reports.push_reserved(report);
        self.readers.push_reserved(reader);
        self.passes.push_reserved(pass);
        self.dropped.push_reserved(dropped);
    }
}
