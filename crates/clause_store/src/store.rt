//! The store and the calls of its passes. Each call takes a few atomic steps on the row, all of
//! them `SeqCst` (see `row.rt` of `idwords`).
ghost use Rattle.std.specs.Prelude.{◌≡◌, ◌↔◌, ◌+◌, ◌-◌, ◌*◌, ◌≤◌, ◌<◌, ℕ, IfOk, IsTrue, Some, length, slice_get, vec_len};
ghost use Rattle.lrup_model.specs.Event as events;
ghost use Rattle.lrup_model.specs.History.{IsPublishable};
ghost use Rattle.lrup_model.specs.Layout.{Fits, IsIdentity, IsStream, Owns};
ghost use Rattle.lrup_model.specs.Pass.{SyncViews, pass_caller_view};
ghost use Rattle.lrup_model.specs.CallerView.{IsKnown, clip_clause};
ghost use Rattle.lrup_model.specs.Replies.{IsFetched, reply_of};
ghost use Rattle.lrup_model.specs.State.{state, absent, IsLive};
ghost use Rattle.clause_store.specs.Passes.{AreOf, IsOpened, PassValue, store_of};
ghost use Rattle.idwords.specs.RowCalls.{Calls};

use crate::pass::{Pass, passes_of};
use idwords::{LIVE, RETIRED, Row, len, lit, start, state as state_in};
use lrup_model::{Clip, Fetched, Formula, Id, Layout, Lit, Owner, Published, Retired};
use std::alloc::{AllocError, Global};
use std::marker::Model;

/// The clauses of a formula, which stay live, and the clauses that the streams publish and retire.
/// All threads share a store without a lock. In the code only `open` allocates memory, and no call
/// waits or retries.
#[derive(Drop)]
pub struct Store {
    row: Row,
    layout: Layout,
}

impl Model for Store {
    ghost use Rattle.clause_store.specs.Passes.{StoreValue};

    ghost Value = { StoreValue };

    ghost view = { λ s. record { row = s.row; layout = s.layout } };
}

impl Store {
    /// Opens a store of a formula's clauses, with a layout that fits the formula, and makes a pass
    /// for each stream, in the order of the streams. Allocates all the memory that the store will
    /// need, 8 bytes for each word of the row, and temporarily as much again. If an allocation
    /// fails, everything is freed.
    pub fn open(
        alloc: Global,
        formula: &Formula,
        layout: Layout,
    ) -> Result<(Store, Vec<Pass>), AllocError>
        requires { Fits layout formula.now }
        ensures layout { IfOk result (λ opened. opened.0.layout ≡ layout) }
        ensures count { IfOk result (λ opened. vec_len opened.1 ≡ layout.streams) }
        ensures passes { IfOk result (λ opened. (s : ℕ) (pass : PassValue) → IsStream layout s
            → slice_get opened.1.items (s - 1) ≡ Some pass → IsOpened opened.0 formula.now s pass) }
        ensures store { IfOk result (λ opened. AreOf opened.0 opened.1.items) }
    {
        let (row, seats) = Row::open(alloc, formula, &layout)?;
        let passes = passes_of(alloc, seats)?;
        Ok((Store { row, layout }, passes))
    }

    /// The layout that the store was opened with.
    pub fn layout(&self) -> &Layout
        ensures { result.now ≡ self.now.layout }
    {
        &self.layout
    }

    /// Whether this number is an identity: at least 1, and at most the layout's last one.
    pub fn covers(&self, id: Id) -> bool
        ensures { IsTrue result ↔ IsIdentity self.now.layout id }
    {
        self.layout.covers(id)
    }

    /// Whether the pass's stream owns this identity.
    pub fn owns(&self, pass: &Pass, id: Id) -> bool
        requires { store_of pass.now ≡ self.now }
        ensures { IsTrue result ↔ Owns pass.now.view.caller.layout pass.now.view.caller.stream id }
    {
        self.layout.owner(id) == Owner::Stream(pass.stream())
    }

    /// The room that the pass's stream has left, in literals.
    pub fn room(&self, pass: &Pass) -> u64
        requires { store_of pass.now ≡ self.now }
        ensures { result ≡ (pass_caller_view pass.now.view).room }
    {
        pass.seat.room()
    }

    /// Looks up an identity, which is at least 1 and at most the last one. One load of its word
    /// gives the state, the length and the start of the clause. The reply is what the store had
    /// there at that moment. The call changes nothing; the pass is `&mut` since contracts record in
    /// it what was seen.
    #[inline]
    #[tactic(auto, using(crate::proofs::LiteralsRead::start_read))]
    pub fn fetch(&self, pass: &mut Pass, id: Id) -> Fetched
        requires store { store_of pass.old ≡ self.now }
        requires identity { IsIdentity pass.old.view.caller.layout id }
        ensures store { store_of pass.new ≡ self.now }
        ensures calls { let reply = reply_of (pass_caller_view pass.new.view) result in
            Calls pass.old.view pass.new.view (events.fetch pass.old.view.caller.stream id reply) }
        ensures fetched { IsFetched (pass_caller_view pass.new.view) id result }
    {
        let word = self.row.look(&mut pass.seat, id);
        match state_in(word) {
            // No cast loses a bit: a row has at most 2^28 words, and a clause has fewer than 2^20
            // literals.
            LIVE => Fetched::Live(Clip::new(id, len(word) as u32, start(word) as u32)),
            RETIRED => Fetched::Retired,
            _ => Fetched::Vacant,
        }
    }

    /// With one load, reads literal `k`, counted from 0, of a clause whose clip the pass has
    /// fetched. The literals are in the order in which they were published or occur in the formula.
    /// The clause may be retired: its literals stay in the row.
    #[inline]
    pub fn literal(&self, pass: &mut Pass, clip: &Clip, k: u32) -> Lit
        requires store { store_of pass.old ≡ self.now }
        requires known { IsKnown (pass_caller_view pass.old.view) clip.now }
        requires within { k < clip.now.len }
        ensures value { slice_get (clip_clause (pass_caller_view pass.old.view) clip.now) k
            ≡ Some result }
        ensures same { pass.new ≡ pass.old }
    {
        let place = place_of(clip, k / 2);
        lit(self.row.word(&mut pass.seat, place), k % 2)
    }

    /// With one load, reads pair `i`, counted from 0, of a clause whose clip the pass has fetched:
    /// literal `2 * i` and, if the clause has it, literal `2 * i + 1`.
    #[inline]
    pub fn pair(&self, pass: &mut Pass, clip: &Clip, i: u32) -> (Lit, Option<Lit>)
        requires store { store_of pass.old ≡ self.now }
        requires known { IsKnown (pass_caller_view pass.old.view) clip.now }
        requires within { 2 * i < clip.now.len }
        ensures first { slice_get (clip_clause (pass_caller_view pass.old.view) clip.now) (2 * i)
            ≡ Some result.0 }
        ensures second { slice_get
            (clip_clause (pass_caller_view pass.old.view) clip.now) (2 * i + 1)
            ≡ result.1 }
        ensures same { pass.new ≡ pass.old }
    {
        let len = clip.len();
        let word = self.row.word(&mut pass.seat, place_of(clip, i));
        let first = lit(word, 0);
        if 2 * i + 1 < len {
            (first, Some(lit(word, 1)))
        } else {
            (first, None)
        }
    }

    /// Publishes a clause under an identity that the pass's stream owns. The clause must follow
    /// from the formula, have at most 65,535 literals and fit into the room left. The literals are
    /// written first, in the given order, two with each atomic store. Then one compare-exchange
    /// makes the clause live. If a clause has already been published under the identity, the reply
    /// is `Taken`, and nothing changes.
    pub fn publish(&self, pass: &mut Pass, id: Id, clause: &[Lit]) -> Published
        requires store { store_of pass.old ≡ self.now }
        requires owns { Owns pass.old.view.caller.layout pass.old.view.caller.stream id }
        requires clause { IsPublishable pass.old.view.caller.formula clause.now }
        requires room { length clause.now ≤ (pass_caller_view pass.old.view).room }
        ensures store { store_of pass.new ≡ self.now }
        ensures calls { let stream = pass.old.view.caller.stream in
            Calls pass.old.view pass.new.view (events.publish stream id clause.now result) }
        ensures done { (result ≡ Published.Done)
            ↔ (state pass.old.view.caller.formula pass.old.view.mine id ≡ absent) }
    {
        let mut left = clause;
        'pairs: while let [first, second, rest @ ..] = left {
            self.row.write(&mut pass.seat, *first, Some(*second));
            left = rest;
        }
        if let [last] = left {
            self.row.write(&mut pass.seat, *last, None);
        }
        self.row.claim(&mut pass.seat, id)
    }

    /// Retires the clause under an identity that the pass's stream owns: one load, and one
    /// compare-exchange if the clause is live. If no clause is live there, the reply is `NotLive`,
    /// and nothing changes.
    pub fn retire(&self, pass: &mut Pass, id: Id) -> Retired
        requires store { store_of pass.old ≡ self.now }
        requires owns { Owns pass.old.view.caller.layout pass.old.view.caller.stream id }
        ensures store { store_of pass.new ≡ self.now }
        ensures calls { let stream = pass.old.view.caller.stream in
            Calls pass.old.view pass.new.view (events.retire stream id result) }
        ensures done { (result ≡ Retired.Done)
            ↔ IsLive (state pass.old.view.caller.formula pass.old.view.mine id) }
    {
        self.row.withdraw(&mut pass.seat, id)
    }

    /// Lets two passes share what they have seen: afterwards both have seen the same history, which
    /// begins with what each had seen before. If one of them had already seen everything that the
    /// other had, its history stays the same. The call is not an event, and changes no clause.
    pub fn meet(&self, first: &mut Pass, second: &mut Pass)
        requires first { store_of first.old ≡ self.now }
        requires second { store_of second.old ≡ self.now }
        ensures first { store_of first.new ≡ self.now }
        ensures second { store_of second.new ≡ self.now }
        ensures meets { SyncViews first.old.view second.old.view first.new.view second.new.view }
    {
        self.row.meet(&mut first.seat, &mut second.seat);
    }
}

/// The row index of word `k` (counted from 0) of a clip's clause.
#[inline]
fn place_of(clip: &Clip, k: u32) -> u64
    ensures { result ≡ clip.now.start + k }
{
    u64::from(clip.start()) + u64::from(k)
}
