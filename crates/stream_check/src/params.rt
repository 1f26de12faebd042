//! The parameters by which a stream's lines are checked.
ghost use Rattle.std.specs.Prelude.{◌≡◌, ◌↔◌, IsTrue};
ghost use Rattle.lrup_model.specs.Layout.{IsIdentity};
ghost use Rattle.stream_check.specs.StreamParams.{ownership_of, is_shared};
ghost use Rattle.stream_check.specs.internal.CheckerInside.{tries_on};
ghost use Rattle.stream_check.specs.StreamContext.{is_within};

use lrup_model::{Cube, Id, Layout, Lit, Owner};
use std::marker::Model;

/// The parameters by which a stream's lines are checked: the layout, the cube of assumed literals,
/// the stream's number (from 1), and how many times a hint of another stream is fetched again while
/// it is vacant.
#[derive(Drop)]
pub struct StreamParams {
    layout: Layout,
    cube: Cube,
    stream: u64,
    tries: u64,
    // The layout's last identity. It is stored, since each hint is compared with it, and
    // `Layout::last_identity` multiplies.
    last: u64,
}

impl Model for StreamParams {
    ghost use Rattle.std.specs.Prelude.{◌≡◌, ℕ};
    ghost use Rattle.std.proofs.Common.{sym, ap};
    ghost use Rattle.lrup_model.specs.Layout.{last_identity};
    ghost use Rattle.stream_check.specs.StreamParams.{StreamParams};

    ghost Value = { StreamParams };

    ghost view = { λ s. record { layout = s.layout; cube = s.cube; stream = s.stream; tries = s.tries } };

    ghost invariant = { λ s. s.last ≡ last_identity s.layout };

    ghost inverse = { λ s. record { layout = s.layout; cube = s.cube; stream = s.stream; tries = s.tries; last = last_identity s.layout } };

    ghost inverse_ok = { λ s h. ap (λ (n : ℕ). record s { last = n }) (sym h) };
}

/// Who owns an identity, as the stream sees it.
#[derive(Clone, Copy)]
pub enum Ownership {
    /// Nobody: it is a clause of the formula.
    Formula,
    /// The stream owns it.
    Own,
    /// Another stream owns it.
    Foreign,
    /// Nobody: the number isn't an identity.
    Outside,
}

impl StreamParams {
    pub fn new(layout: &Layout, cube: Cube, stream: u64, tries: u64) -> StreamParams
        ensures { result ≡ record {
          layout = layout.now;
          cube = cube;
          stream = stream;
          tries = tries;
        } }
    {
        StreamParams {
            layout: *layout,
            cube,
            stream,
            tries,
            last: layout.last_identity(),
        }
    }

    /// The number of the formula's clauses.
    pub fn clauses(&self) -> u32
        ensures { result ≡ self.now.layout.clauses }
    {
        self.layout.clauses()
    }

    pub fn stream(&self) -> u64
        ensures { result ≡ self.now.stream }
    {
        self.stream
    }

    /// Whether the cube falsifies the clause. With the empty cube this is one test.
    pub fn refutes(&self, clause: &[Lit]) -> bool
        ensures { result ≡ is_within self.now.cube clause.now }
    {
        self.cube.refutes(clause)
    }

    /// How many times a vacant hint is fetched again: a hint of another stream up to `tries` times,
    /// and any other hint never, since only the stream itself publishes its own identities, and the
    /// formula's are live.
    #[cold]
    pub fn tries_for(&self, hint: Id) -> u64
        ensures { result ≡ tries_on (ownership_of self.now hint) self.now.tries }
    {
        match self.ownership(hint) {
            Ownership::Foreign => self.tries,
            Ownership::Formula | Ownership::Own | Ownership::Outside => 0,
        }
    }

    /// Whether this number is an identity: at least 1, and at most the last one.
    pub fn covers(&self, id: Id) -> bool
        ensures { IsTrue result ↔ IsIdentity self.now.layout id }
    {
        0 < id && id <= self.last
    }

    /// Whether the identity is shared, that is, the formula's or another stream's.
    pub fn shares(&self, id: Id) -> bool
        ensures { result ≡ is_shared (ownership_of self.now id) }
    {
        match self.ownership(id) {
            Ownership::Formula | Ownership::Foreign => true,
            Ownership::Own | Ownership::Outside => false,
        }
    }

    /// Who owns the identity.
    pub fn ownership(&self, id: Id) -> Ownership
        ensures { ownership_of self.now id ≡ result }
    {
        match self.layout.owner(id) {
            Owner::Formula => Ownership::Formula,
            Owner::Stream(owner) if owner == self.stream => Ownership::Own,
            Owner::Stream(_) => Ownership::Foreign,
            Owner::Outside => Ownership::Outside,
        }
    }
}
