//! The clause map as one caller sees it.
ghost use Rattle.std.specs.Prelude.{◌≡◌, ◌↔◌, ◌≤◌, ◌<◌, ◌+◌, ◌*◌, ◌/◌, [], ◌∷◌, ◌++◌, IsTrue, Some, length, slice_get};
ghost use Rattle.lrup_model.specs.Layout.{IsIdentity, Owns};
ghost use Rattle.lrup_model.specs.State.{IsLive, absent};
ghost use Rattle.lrup_model.specs.Event.{History, fetch, publish, retire};
ghost use Rattle.lrup_model.specs.History.{IsPublishable};
ghost use Rattle.lrup_model.specs.CallerView.{CallerView, CallerStep, IsKnown, AllFollow, clip_clause};
ghost use Rattle.lrup_model.specs.Replies.{IsFetched, AnswersOwn, AnswersFormula, reply_of};

use crate::Id;
use crate::lit::Lit;
use std::marker::Model;

/// A handle to a clause in one clause map: the clause's identity, its number of literals, and the
/// start of its literals, which only the map uses.
#[derive(Clone, Copy, Debug, PartialEq, Eq)]
pub struct Clip {
    id: Id,
    len: u32,
    start: u32,
}

impl Model for Clip {
    ghost use Rattle.lrup_model.specs.CallerView.{ClipValue};

    ghost Value = { ClipValue };

    ghost view = { λ c. record { id = c.id; len = c.len; start = c.start } };

    ghost inverse = { λ n. record { id = n.id; len = n.len; start = n.start } };
}

impl Clip {
    /// A clip with this identity, length and start. A map accepts only clips that its caller knows,
    /// such as those that fetches from this map returned.
    pub fn new(id: Id, len: u32, start: u32) -> Clip
        ensures { result ≡ record { id = id; len = len; start = start } }
    {
        Clip { id, len, start }
    }

    /// The clause's identity.
    pub fn id(&self) -> Id
        ensures { result ≡ self.now.id }
    {
        self.id
    }

    /// The number of literals of the clause.
    pub fn len(&self) -> u32
        ensures { result ≡ self.now.len }
    {
        self.len
    }

    /// The number of pairs of literals. If the clause has an odd number of literals, the last pair
    /// has only one.
    #[inline]
    pub fn pairs(&self) -> u32
        ensures { result ≡ (self.now.len + 1) / 2 }
    {
        self.len / 2 + self.len % 2
    }

    /// Whether the clause is empty.
    pub fn is_empty(&self) -> bool
        ensures { IsTrue result ↔ (self.now.len ≡ 0) }
    {
        self.len == 0
    }

    /// Where the literals begin: in the row, the index of a word, which holds two literals; in a
    /// plain map, the index of a literal.
    pub fn start(&self) -> u32
        ensures { result ≡ self.now.start }
    {
        self.start
    }
}

/// The result of a fetch.
#[derive(Clone, Copy, Debug, PartialEq, Eq)]
pub enum Fetched {
    /// Nothing was published under the identity.
    Vacant,
    /// The clause can be used: it is a clause of the formula, or was published and hasn't been
    /// retired.
    Live(Clip),
    /// The clause was retired.
    Retired,
}

/// The result of a publish.
#[derive(Clone, Copy, Debug, PartialEq, Eq)]
pub enum Published {
    /// The clause is now live under the identity, and the caller's room has shrunk by the clause's
    /// length.
    Done,
    /// A clause has already been published under the identity. Nothing changed.
    Taken,
}

/// The result of a retire.
#[derive(Clone, Copy, Debug, PartialEq, Eq)]
pub enum Retired {
    /// The clause was live and is now retired.
    Done,
    /// No clause is live under the identity. Nothing changed.
    NotLive,
}

/// A clause map (the clause database) as one stream uses it. Each call of fetch, publish or retire
/// is one event; the other calls are not events. No call allocates memory.
pub trait ClauseMap {
    /// What the caller knows of the map.
    ghost caller_view: { Self → CallerView };

    /// The caller's events between two moments.
    ghost moves: { Self → Self → History → Type 0 };

    /// The number of the caller's stream, counted from 1.
    fn stream(&self) -> u64
        ensures { result ≡ (caller_view self.now).caller.stream };

    /// Whether this number is an identity: at least 1, and at most the last one.
    fn covers(&self, id: Id) -> bool
        ensures { IsTrue result ↔ IsIdentity (caller_view self.now).caller.layout id };

    /// Whether the caller's stream owns this identity.
    fn owns(&self, id: Id) -> bool
        ensures { IsTrue result
            ↔ Owns (caller_view self.now).caller.layout (caller_view self.now).caller.stream id };

    /// The room that the caller has left, in literals. A publish that returns `Done` uses up as
    /// much room as the clause has literals, and no call gives room back.
    fn room(&self) -> u64
        ensures { result ≡ (caller_view self.now).room };

    /// Looks up what the map has at this moment under an identity, which is at least 1 and at most
    /// the last one. A clause of the formula is always live, the caller's own identities have what
    /// the caller's calls left there, and other streams may change theirs at any time. Each clause
    /// that a fetch finds follows from the formula.
    fn fetch(&mut self, id: Id) -> Fetched
        requires { IsIdentity (caller_view self.old).caller.layout id }
        ensures event { moves self.old self.new
            (fetch (caller_view self.old).caller.stream id
            (reply_of (caller_view self.new) result) ∷ []) }
        ensures fetched { IsFetched (caller_view self.new) id result }
        ensures own { AnswersOwn (caller_view self.old) id
            (reply_of (caller_view self.new) result) }
        ensures formula { AnswersFormula (caller_view self.old) id
            (reply_of (caller_view self.new) result) }
        ensures variables { (caller_view self.new).caller.formula.vars
            ≡ (caller_view self.new).caller.layout.vars }
        ensures follow { AllFollow (caller_view self.new) };

    /// Reads literal `k`, counted from 0, of a clause whose clip the caller knows. The literals are
    /// in the order in which the map stores them, which never changes.
    fn literal(&mut self, clip: &Clip, k: u32) -> Lit
        requires known { IsKnown (caller_view self.old) clip.now }
        requires within { k < clip.now.len }
        ensures value { slice_get (clip_clause (caller_view self.old) clip.now) k ≡ Some result }
        ensures event { moves self.old self.new [] }
        ensures stays { caller_view self.new ≡ caller_view self.old };

    /// Reads pair `i`, counted from 0, of a clause whose clip the caller knows: literal `2 * i`
    /// and, if there is one, literal `2 * i + 1`, as two calls of `literal` would return them.
    #[inline]
    fn pair(&mut self, clip: &Clip, i: u32) -> (Lit, Option<Lit>)
        requires known { IsKnown (caller_view self.old) clip.now }
        requires within { 2 * i < clip.now.len }
        ensures first { slice_get (clip_clause (caller_view self.old) clip.now) (2 * i)
            ≡ Some result.0 }
        ensures second { slice_get (clip_clause (caller_view self.old) clip.now) (2 * i + 1)
            ≡ result.1 }
        ensures event { moves self.old self.new [] }
        ensures stays { caller_view self.new ≡ caller_view self.old }
    {
        let len = clip.len();
        let k = 2 * i;
        let first = self.literal(clip, k);
        if k + 1 < len {
            (first, Some(self.literal(clip, k + 1)))
        } else {
            (first, None)
        }
    }

    /// Publishes a clause under an identity that the caller's stream owns. The clause must follow
    /// from the formula, have no literal twice and at most 65,535 literals, and fit into the room
    /// left.
    fn publish(&mut self, id: Id, clause: &[Lit]) -> Published
        requires owns { Owns (caller_view self.old).caller.layout
            (caller_view self.old).caller.stream id }
        requires clause { IsPublishable (caller_view self.old).caller.formula clause.now }
        requires room { length clause.now ≤ (caller_view self.old).room }
        ensures event { moves self.old self.new
            (publish (caller_view self.old).caller.stream id clause.now result ∷ []) }
        ensures done { (result ≡ Published.Done) ↔ ((caller_view self.old).own id ≡ absent) };

    /// Retires the clause under an identity that the caller's stream owns: no later fetch finds it
    /// live.
    fn retire(&mut self, id: Id) -> Retired
        requires { Owns (caller_view self.old).caller.layout
            (caller_view self.old).caller.stream id }
        ensures event { moves self.old self.new
            (retire (caller_view self.old).caller.stream id result ∷ []) }
        ensures done { (result ≡ Retired.Done) ↔ IsLive ((caller_view self.old).own id) };

    /// There are no events between a moment and itself.
    ghost moves_none: { (a : Self) → moves a a [] };

    /// The events of consecutive calls are appended.
    ghost moves_append: { (a b c : Self) (es fs : History) → moves a b es → moves b c fs → moves a c (es ++ fs) };

    /// What the events change in the caller's view.
    ghost moves_are_step: { (a b : Self) (es : History) → moves a b es → CallerStep (caller_view a) (caller_view b) es };
}
