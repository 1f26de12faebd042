//! The row and the steps on it.
//!
//! Every step is `SeqCst`, the only ordering that `atomic_table` has: all threads see all steps in
//! the same order, and the row's rule (`rule.rt`) holds between any two of them. So a thread that
//! loads a live word also finds the literals that were stored before the compare-exchange that made
//! it live. No fence is needed.
ghost use Rattle.std.specs.Prelude.{◌≡◌, ◌↔◌, ◌+◌, ◌-◌, ◌%◌, ◌≤◌, ◌<◌, ◌++◌, ℕ, [], Some, IfOk, length, slice_get, vec_len};
ghost use Rattle.lrup_model.specs.Event as events;
ghost use Rattle.lrup_model.specs.History.{IsPublishable};
ghost use Rattle.lrup_model.specs.Layout.{Fits, IsIdentity, IsStream, Owns, row_words};
ghost use Rattle.lrup_model.specs.Pass.{stored_in, pass_caller_view, IsFair, SyncViews};
ghost use Rattle.lrup_model.specs.State.{state, absent, IsLive};
ghost use Rattle.idwords.specs.Words.{ShowsStored, reply_in, pair_of};
ghost use Rattle.idwords.specs.internal.Rule.{IsPlan, opening_threads};
ghost use Rattle.idwords.specs.Seats.{opening_seat};
ghost use Rattle.idwords.specs.Spelling.{LieWithin, spelling_of};
ghost use Rattle.idwords.specs.RowCalls.{Calls, IsText, top_after_reply};

use crate::opening::all_words;
use crate::rule::{
    Claim, Find, JoinAll, Look, Meet, Plan, Read, Retire, SplitAll, SplitFirst, SplitRest,
    StepToken, WordTable, Write,
};
use crate::seat::Seat;
use crate::word::{LIVE, VACANT, live_word, pair_word, state};
use lrup_model::{Formula, Layout, Lit, Published, Retired};
use std::alloc::{AllocError, Global};
use std::marker::Model;
use std::snapshot::Snapshot;

/// Makes a seat for each stream, in the streams' order, from the one token that has the thread
/// states of all streams.
fn seats_of(
    alloc: Global,
    table: &WordTable,
    mut token: StepToken,
    layout: &Layout,
) -> Result<Vec<Seat>, AllocError>
    requires plan { IsPlan table.now.shared.key.formula.value layout.now }
    requires layout { table.now.shared.key.layout ≡ layout.now }
    requires words { table.now.shared.table_id.words ≡ row_words layout.now }
    requires table { token.table_id ≡ table.now.shared.table_id }
    requires threads { let formula = table.now.shared.key.formula.value in
        token.me ≡ (opening_threads formula layout.now 1 layout.now.streams, []) }
    ensures count { IfOk result (λ seats. vec_len seats ≡ layout.now.streams) }
    ensures seats { let formula = table.now.shared.key.formula.value in
        IfOk result (λ seats. (k : ℕ) → k < layout.now.streams
        → slice_get seats.items k
        ≡ Some (opening_seat table.now.shared.table_id formula layout.now (k + 1))) }
{
    let mut seats = Vec::with_capacity(alloc, layout.streams() as usize)?;
    // The last words of the row are the streams' rooms, in the streams' order. A room of n literals
    // has n words.
    let mut top = layout.row_words() - layout.all_room();
    for _s in 0..layout.streams() {
        // A new token (`atomic_table` calls it a seat) with the thread state of the next stream.
        let own = table.shared.split_seat::<SplitFirst>(&mut token);
        seats.push_reserved(Seat {
            token: own,
            top,
            drafted: 0,
            room: layout.room(),
        });
        top += layout.room();
    }
    Ok(seats)
}

/// The row of words, which all streams share: word 0, which is always 0, a word for each identity,
/// and a word for each literal of the formula and of the streams' room. A word holds two literals,
/// so a clause of n literals takes (n + 1) / 2 words: with a word for each literal there is enough
/// room even if all clauses are unit clauses. Words that aren't needed stay 0: the length of the
/// row follows from the layout, which doesn't say how long each clause is. In contracts the row is
/// only the name of its table.
#[derive(Drop)]
pub struct Row {
    table: WordTable,
}

impl Model for Row {
    ghost use Rattle.atomic_table.specs.Seated.{TableId, table_id_coded};

    ghost Value = { TableId };

    ghost coded = { table_id_coded };

    ghost view = { λ r. r.table.shared.table_id };
}

impl Row {
    /// Makes the row for a formula and a layout that fits it, and a seat for each stream, in the
    /// streams' order. Allocates 8 bytes for each word of the row, and temporarily as much again.
    /// If an allocation fails, everything is freed.
    pub fn open(
        alloc: Global,
        formula: &Formula,
        layout: &Layout,
    ) -> Result<(Row, Vec<Seat>), AllocError>
        requires { Fits layout.now formula.now }
        ensures count { IfOk result (λ opened. vec_len opened.1 ≡ layout.now.streams) }
        ensures seats { IfOk result (λ opened. (s : ℕ) → IsStream layout.now s
            → slice_get opened.1.items (s - 1)
            ≡ Some (opening_seat opened.0 formula.now layout.now s)) }
        ensures fair { IfOk result (λ opened. (s : ℕ) → IsStream layout.now s
            → IsFair (opening_seat opened.0 formula.now layout.now s).view) }
        ensures within { IfOk result (λ _.
            LieWithin (row_words layout.now) (spelling_of formula.now layout.now [])) }
    {
        let words = all_words(alloc, formula, layout)?;
        let plan = Plan {
            formula: Snapshot::of(formula),
            layout: *layout,
        };
        let (table, token) = WordTable::of_words(alloc, words.as_slice(), &plan)?;
        drop(words);
        let seats = seats_of(alloc, &table, token, layout)?;
        Ok((Row { table }, seats))
    }

    /// Loads the word of an identity, which is at least 1 and at most the last one. This load is
    /// the event of a fetch, and the word determines the reply.
    #[inline]
    pub fn look(&self, seat: &mut Seat, id: u64) -> u64
        requires row { seat.old.table ≡ self.now }
        requires identity { IsIdentity seat.old.view.caller.layout id }
        ensures row { seat.new.table ≡ seat.old.table }
        ensures shows { ShowsStored (stored_in seat.new.view.spelt id) result }
        ensures calls { let reply = reply_in (stored_in seat.new.view.spelt id) result in
            Calls seat.old.view seat.new.view (events.fetch seat.old.view.caller.stream id reply) }
        ensures top { seat.new.top ≡ seat.old.top }
        ensures draft { seat.new.draft ≡ seat.old.draft }
    {
        let shared = &self.table.shared;
        shared.load::<Look>(&mut seat.token, id as usize)
    }

    /// Loads the word at an index of the row, which is not an event. If the word belongs to a
    /// clause that the seat's stream has fetched, it has the codes of one or two of the clause's
    /// literals. Such a word never changes, not even when the clause is retired.
    #[inline]
    pub fn word(&self, seat: &mut Seat, place: u64) -> u64
        requires row { seat.old.table ≡ self.now }
        requires within { place < row_words seat.old.view.caller.layout }
        ensures same { seat.new ≡ seat.old }
        ensures text { IsText seat.old.view.spelt place result }
    {
        let shared = &self.table.shared;
        shared.load::<Read>(&mut seat.token, place as usize)
    }

    /// With one store, adds two literals to the draft, or one last literal. The word is in the
    /// stream's own room, after all clauses that the stream has published.
    #[inline]
    pub fn write(&self, seat: &mut Seat, first: Lit, second: Option<Lit>)
        requires row { seat.old.table ≡ self.now }
        requires even { length seat.old.draft % 2 ≡ 0 }
        requires room { length seat.old.draft + length (pair_of first second)
            ≤ (pass_caller_view seat.old.view).room }
        ensures { seat.new ≡ record seat.old { draft = seat.old.draft ++ pair_of first second } }
    {
        let place = (seat.top + seat.drafted / 2) as usize;
        let word = pair_word(first, second);
        let shared = &self.table.shared;
        shared.store::<Write>(&mut seat.token, place, word);
        seat.drafted += if second.is_some() { 2 } else { 1 };
    }

    /// Publishes the draft under an identity that the stream owns: one compare-exchange of the
    /// identity's word, from vacant to live. Afterwards the draft is empty, even if the reply is
    /// `Taken`.
    pub fn claim(&self, seat: &mut Seat, id: u64) -> Published
        requires row { seat.old.table ≡ self.now }
        requires owns { Owns seat.old.view.caller.layout seat.old.view.caller.stream id }
        requires clause { IsPublishable seat.old.view.caller.formula seat.old.draft }
        ensures row { seat.new.table ≡ seat.old.table }
        ensures calls { let stream = seat.old.view.caller.stream in
            Calls seat.old.view seat.new.view (events.publish stream id seat.old.draft result) }
        ensures done { (result ≡ Published.Done)
            ↔ (state seat.old.view.caller.formula seat.old.view.mine id ≡ absent) }
        ensures top { seat.new.top ≡ top_after_reply result seat.old.top seat.old.draft }
        ensures draft { seat.new.draft ≡ [] }
    {
        let len = seat.drafted;
        let word = live_word(len, seat.top);
        let shared = &self.table.shared;
        let found = shared.compare_exchange::<Claim>(&mut seat.token, id as usize, VACANT, word);
        seat.drafted = 0;
        if found == VACANT {
            seat.top += (len + 1) / 2;
            seat.room -= len;
            Published::Done
        } else {
            Published::Taken
        }
    }

    /// Retires the clause under an identity that the stream owns: one load, and one
    /// compare-exchange if the clause is live. The compare-exchange always succeeds, since no other
    /// stream changes the word.
    pub fn withdraw(&self, seat: &mut Seat, id: u64) -> Retired
        requires row { seat.old.table ≡ self.now }
        requires owns { Owns seat.old.view.caller.layout seat.old.view.caller.stream id }
        ensures row { seat.new.table ≡ seat.old.table }
        ensures calls { let stream = seat.old.view.caller.stream in
            Calls seat.old.view seat.new.view (events.retire stream id result) }
        ensures done { (result ≡ Retired.Done)
            ↔ IsLive (state seat.old.view.caller.formula seat.old.view.mine id) }
        ensures top { seat.new.top ≡ seat.old.top }
        ensures draft { seat.new.draft ≡ seat.old.draft }
    {
        let shared = &self.table.shared;
        let found = shared.load::<Find>(&mut seat.token, id as usize);
        if state(found) != LIVE {
            return Retired::NotLive;
        }
        // Adding 1 makes the state retired, and keeps the length and the start.
        shared.compare_exchange::<Retire>(&mut seat.token, id as usize, found, found + 1);
        Retired::Done
    }

    /// Lets two seats share what they have seen: afterwards both have seen the same history, which
    /// begins with what each had seen before. If one of them had already seen everything that the
    /// other had, its history stays the same. Used for contracts only: the one load changes nothing
    /// in the row, and is not an event.
    pub fn meet(&self, first: &mut Seat, second: &mut Seat)
        requires first { first.old.table ≡ self.now }
        requires second { second.old.table ≡ self.now }
        ensures first { first.new.table ≡ first.old.table }
        ensures second { second.new.table ≡ second.old.table }
        ensures meets { SyncViews first.old.view second.old.view first.new.view second.new.view }
        ensures within { let words = row_words first.new.view.caller.layout in
            LieWithin words first.new.view.spelt }
        ensures within_too { let words = row_words second.new.view.caller.layout in
            LieWithin words second.new.view.spelt }
        ensures tops { (first.new.top ≡ first.old.top) × (second.new.top ≡ second.old.top) }
        ensures drafts { (first.new.draft ≡ first.old.draft)
            × (second.new.draft ≡ second.old.draft) }
    {
        // One token has the thread states of both streams while word 0 is loaded: at this load each
        // stream learns what the other has seen. Then the second thread state goes back to its own
        // token.
        let shared = &self.table.shared;
        let token = shared.split_seat::<SplitAll>(&mut second.token);
        shared.join_seat::<JoinAll>(&mut first.token, token);
        shared.load::<Meet>(&mut first.token, 0);
        second.token = shared.split_seat::<SplitRest>(&mut first.token);
    }
}
