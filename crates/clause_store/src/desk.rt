//! A desk: a pass and its store, as a clause map.
ghost use Rattle.std.specs.Prelude.{◌≡◌};
ghost use Rattle.clause_store.specs.Passes.{store_of};

use crate::pass::Pass;
use crate::store::Store;
use lrup_model::{ClauseMap, Clip, Fetched, Id, Lit, Published, Retired};

/// A pass and the store that opened it: the clause map of the pass's stream. Checkers call the
/// store through a desk.
#[derive(Drop)]
pub struct Desk<'a> {
    store: &'a Store,
    pass: Pass,
    ghost same: { store_of pass ≡ store.now },
}

impl<'a> Desk<'a> {
    /// Makes a desk from this pass and the store that opened the pass.
    pub fn new(store: &'a Store, pass: Pass) -> Desk<'a>
        requires { store_of pass ≡ store.now }
        ensures { result.pass ≡ pass }
    {
        Desk { store, pass }
    }

    /// Returns the desk's pass.
    pub fn into_pass(self) -> Pass
        ensures { result ≡ self.entry.pass }
    {
        let Desk { store: _, pass } = self;
        pass
    }
}

impl ClauseMap for Desk<'_> {
    ghost use Rattle.clause_store.specs.Desks.{desk_caller_view, DeskMoves};
    ghost use Rattle.clause_store.specs.lemmas.DeskLemmas.{desk_none, desk_append, desk_step};

    ghost caller_view = { desk_caller_view };

    ghost moves = { DeskMoves };

    #[inline]
    fn stream(&self) -> u64 {
        self.pass.stream()
    }

    #[inline]
    fn covers(&self, id: Id) -> bool {
        self.store.covers(id)
    }

    #[inline]
    fn owns(&self, id: Id) -> bool {
        self.store.owns(&self.pass, id)
    }

    #[inline]
    fn room(&self) -> u64 {
        self.store.room(&self.pass)
    }

    #[inline]
    fn fetch(&mut self, id: Id) -> Fetched {
        self.store.fetch(&mut self.pass, id)
    }

    #[inline]
    fn literal(&mut self, clip: &Clip, k: u32) -> Lit {
        self.store.literal(&mut self.pass, clip, k)
    }

    #[inline]
    fn pair(&mut self, clip: &Clip, i: u32) -> (Lit, Option<Lit>) {
        self.store.pair(&mut self.pass, clip, i)
    }

    #[inline]
    fn publish(&mut self, id: Id, clause: &[Lit]) -> Published {
        self.store.publish(&mut self.pass, id, clause)
    }

    #[inline]
    fn retire(&mut self, id: Id) -> Retired {
        self.store.retire(&mut self.pass, id)
    }

    ghost moves_none = { desk_none };

    ghost moves_append = { desk_append };

    ghost moves_are_step = { desk_step };
}
