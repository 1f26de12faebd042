//! What a checker keeps of the good lines so far.
ghost use Rattle.std.specs.Prelude.{◌≡◌, ◌<◌, ◌^◌, ◌+◌, ◌||◌, [], length, IsErrOf};
ghost use Rattle.stream_check.specs.internal.Checking.{DropsShared, counted};
ghost use Rattle.stream_check.specs.internal.CheckerInside.{fresh_state};
ghost use Rattle.stream_check.specs.StreamContext.{capped, is_among};

use crate::dropped_ids::DroppedIds;
use crate::fault::Fault;
use crate::line_stop::LineStop;
use crate::params::StreamParams;
use crate::report::{Ending, Report};
use lrup_model::Id;
use std::alloc::Global;
use std::marker::Model;

/// What a checker keeps of the good lines so far, and of the identities that a bad deletion deleted
/// before its fault; and the parameters by which lines are checked.
#[derive(Drop)]
pub struct StreamState {
    /// The stream, its layout and its cube, which never change.
    pub params: StreamParams,
    /// The last identity that was added, or the formula's last one if none was added.
    last: Id,
    dropped: DroppedIds,
    /// How many of the stream's own identities were retired. The count stops at 2^64 - 1.
    retired: u64,
    /// How many clauses were added.
    added: u64,
    /// Whether one of the added clauses was empty.
    empty: bool,
    /// Whether the cube falsifies one of the added clauses.
    within: bool,
    /// The number of the next line, counted from 1. It stops at 2^64 - 1.
    line: u64,
}

impl Model for StreamState {
    ghost use Rattle.std.specs.Prelude.{◌≤◌, ◌<◌, ◌^◌};
    ghost use Rattle.stream_check.specs.internal.CheckerInside.{StreamStateValue};

    ghost Value = { StreamStateValue };

    ghost view = { λ s. record {
      params = s.params;
      last = s.last;
      dropped = s.dropped;
      retired = s.retired;
      added = s.added;
      empty = s.empty;
      within = s.within;
      line = s.line;
    } };

    ghost invariant = { λ s. (s.added ≤ s.last) × (s.last < 2 ^ 63) };
}

impl StreamState {
    /// The state before the first line.
    pub fn new(alloc: Global, params: StreamParams) -> StreamState
        ensures fresh { result ≡ fresh_state params result.dropped }
        ensures dropped { result.dropped.ids ≡ [] }
    {
        StreamState {
            last: u64::from(params.clauses()),
            params,
            dropped: DroppedIds::new(alloc),
            retired: 0,
            added: 0,
            empty: false,
            within: false,
            line: 1,
        }
    }

    /// The last identity that was added, or the formula's last one if none was added.
    pub fn last(&self) -> Id
        ensures { result ≡ self.now.last }
    {
        self.last
    }

    /// The number of the next line, counted from 1. It stops at 2^64 - 1.
    pub fn line(&self) -> u64
        ensures { result ≡ self.now.line }
    {
        self.line
    }

    /// Whether the stream dropped this identity.
    pub fn has_dropped(&self, id: Id) -> bool
        ensures { result ≡ is_among self.now.dropped.ids id }
    {
        self.dropped.has(id)
    }

    /// Counts a good addition of this identity. `is_empty`: its clause is empty; `is_within`: the
    /// cube falsifies it.
    pub fn count_addition(&mut self, id: Id, is_empty: bool, is_within: bool)
        requires above { self.old.last < id }
        requires small { id < 2 ^ 63 }
        ensures { self.new ≡ record self.old {
          last = id;
          added = self.old.added + 1;
          empty = self.old.empty || is_empty;
          within = self.old.within || is_within;
          line = capped (self.old.line + 1);
        } }
    {
        self.added += 1;
        self.last = id;
        self.empty = self.empty || is_empty;
        self.within = self.within || is_within;
        self.line = self.line.saturating_add(1);
    }

    /// Counts a good line that adds nothing: a deletion, or an import.
    pub fn count_line(&mut self)
        ensures { self.new ≡ record self.old { line = capped (self.old.line + 1) } }
    {
        self.line = self.line.saturating_add(1);
    }

    /// Counts one of the stream's own identities that was retired. The count stops at 2^64 - 1.
    pub fn count_retired(&mut self)
        ensures { self.new ≡ record self.old { retired = capped (self.old.retired + 1) } }
    {
        self.retired = self.retired.saturating_add(1);
    }

    /// Drops an identity that isn't the stream's own, unless it was dropped before, which is a
    /// fault. The set is searched first, so that reporting this fault needs no memory.
    pub fn drop_shared(&mut self, id: Id) -> Result<(), LineStop>
        ensures drops { DropsShared id self.old.dropped.ids self.new.dropped.ids result }
        ensures count { length self.new.dropped.ids ≡ length self.old.dropped.ids + counted result }
        ensures full { IsErrOf result LineStop.Memory → self.new.dropped.spare ≡ 0 }
        ensures unchanged { IsErrOf result LineStop.Memory → self.new.dropped ≡ self.old.dropped }
        ensures kept { self.new ≡ record self.old { dropped = self.new.dropped } }
    {
        if self.dropped.has(id) {
            return Err(LineStop::Bad(Fault::NotLive(id)));
        }
        self.dropped.add(id).map_err(|_| LineStop::Memory)
    }

    /// The report of the stream, if it ends in this way.
    pub fn report(&self, ending: Ending) -> Report
        ensures { result ≡ record {
          added = self.now.added;
          deleted = capped (self.now.retired + length self.now.dropped.ids);
          empty = self.now.empty;
          within = self.now.within;
          ending = ending;
        } }
    {
        Report {
            added: self.added,
            deleted: self.retired.saturating_add(self.dropped.count()),
            empty: self.empty,
            within: self.within,
            ending,
        }
    }

    /// The identities of the formula and of other streams that the stream dropped.
    pub fn into_dropped(self) -> DroppedIds
        ensures { result ≡ self.dropped }
    {
        let StreamState { dropped, .. } = self;
        dropped
    }
}
