//! The set of identities that a stream dropped.
ghost use Rattle.std.specs.Prelude.{◌≡◌, ◌↔◌, ◌||◌, ◌==◌, ◌+◌, ◌<◌, ◌^◌, ℕ, [], false, length, OnOk, OnErr, IsTrue};
ghost use Rattle.stream_check.specs.StreamContext.{is_among};

use lrup_model::Id;
use std::alloc::{AllocError, Global};
use std::collections::HashSet;
use std::marker::Model;

/// The identities of the formula and of other streams that a stream deleted. The other streams keep
/// them; this stream may no longer use them as hints. The set allocates nothing before the first
/// identity.
#[derive(Drop)]
pub struct DroppedIds {
    ids: HashSet<Id>,
}

impl Model for DroppedIds {
    ghost use Rattle.std.specs.HashSet.{spare};
    ghost use Rattle.stream_check.specs.DroppedIdsValue.{DroppedIdsValue};

    ghost Value = { DroppedIdsValue };

    ghost view = { λ d. record { ids = d.ids.keys; spare = spare d.ids } };
}

impl DroppedIds {
    pub(crate) fn new(alloc: Global) -> DroppedIds
        ensures { result.ids ≡ [] }
    {
        DroppedIds {
            ids: HashSet::new(alloc),
        }
    }

    /// Whether the stream dropped this identity.
    pub fn has(&self, id: Id) -> bool
        ensures { result ≡ is_among self.now.ids id }
    {
        self.ids.contains(&id)
    }

    /// Adds an identity. Memory is refused only if there was no room; then nothing changes.
    pub(crate) fn add(&mut self, id: Id) -> Result<(), AllocError>
        requires { is_among self.old.ids id ≡ false }
        ensures members { OnOk result
            ((j : ℕ) → is_among self.new.ids j ≡ (is_among self.old.ids j || id == j)) }
        ensures count { OnOk result (length self.new.ids ≡ length self.old.ids + 1) }
        ensures err { OnErr result (self.new ≡ self.old) }
        ensures full { OnErr result (self.new.spare ≡ 0) }
    {
        let added = self.insert(id);
        // There may be room after a refused growth: `HashSet` only promises that there isn't less
        // than before.
        if added.is_err() && self.has_room() {
            return self.insert(id);
        }
        added
    }

    /// Adds an identity. Memory is refused only if there was no room; then no identity is added.
    fn insert(&mut self, id: Id) -> Result<(), AllocError>
        requires { is_among self.old.ids id ≡ false }
        ensures members { OnOk result
            ((j : ℕ) → is_among self.new.ids j ≡ (is_among self.old.ids j || id == j)) }
        ensures count { OnOk result (length self.new.ids ≡ length self.old.ids + 1) }
        ensures err { OnErr result (self.new.ids ≡ self.old.ids) }
        ensures full { OnErr result (self.old.spare ≡ 0) }
    {
        self.ids.insert(id)?;
        Ok(())
    }

    /// Whether there is room for one more identity.
    fn has_room(&self) -> bool
        ensures { IsTrue result ↔ (0 < self.now.spare) }
    {
        self.ids.len() < self.ids.capacity()
    }

    /// How many identities there are.
    pub(crate) fn count(&self) -> u64
        ensures count { result ≡ length self.now.ids }
        ensures small { result < 2 ^ 63 }
    {
        self.ids.len() as u64
    }
}
