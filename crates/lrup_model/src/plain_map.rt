//! The clause map of one thread.
ghost use Rattle.std.specs.Prelude.{◌≡◌, ◌+◌, ◌-◌, ◌^◌, ◌≤◌, ◌<◌, Some, [], length, IfOk, slice_get, slice_index, replicate, ◌++◌, vec_len, vec_capacity};
ghost use Rattle.lrup_model.specs.Layout.{IsLayout, Fits, IsStream, Owns, last_identity};
ghost use Rattle.lrup_model.specs.Formula.{formula_literals};
ghost use Rattle.lrup_model.specs.State.{opening};
ghost use Rattle.lrup_model.specs.internal.PlainInside.{flat, entries_from, fetched_of, IsFormulaLive, AfterPublish, AfterRetire};
ghost use Rattle.lrup_model.specs.Desk.{IsDesk};
ghost use Rattle.lrup_model.specs.Plain.{plain_slot_at, formula_of, plain_state, plain_caller_view};
ghost use Rattle.lrup_model.specs.History.{IsPublishable};
ghost use Rattle.lrup_model.specs.CallerView.{IsKnown, AllFollow, clip_clause};

use crate::Id;
use crate::clause_map::{ClauseMap, Clip, Fetched, Published, Retired};
use crate::formula::Formula;
use crate::layout::{Layout, Owner};
use crate::lit::Lit;
use std::alloc::{AllocError, Global};
use std::marker::Model;

/// What the map has under an identity: for a clause, the index of its first literal and its number
/// of literals. An entry takes 12 bytes.
#[derive(Clone, Copy)]
enum Entry {
    Vacant,
    Live { start: u32, len: u32 },
    Retired { start: u32, len: u32 },
}

/// The clause map of one thread: an entry for each identity, and all literals in one list.
#[derive(Drop)]
pub struct PlainMap {
    layout: Layout,
    entries: Vec<Entry>,
    literals: Vec<Lit>,
    free: Vec<u64>,
}

impl Model for PlainMap {
    ghost use Rattle.lrup_model.specs.Plain.{Plain};
    ghost use Rattle.std.specs.Prelude.{vec_capacity};

    ghost Value = { Plain };

    ghost use Rattle.lrup_model.specs.internal.PlainInside.{plain_of, IsPlainSound};

    ghost view = { λ m. plain_of m.layout m.entries.items m.literals.items m.free.items };

    ghost invariant = { λ m. IsPlainSound m.layout m.entries.items m.literals.items m.free.items (vec_capacity m.literals) };
}

const _: () = prove!(size_of::<Entry>() == 12);

impl PlainMap {
    /// The result of a fetch of the identity. Each clause follows from the formula, whichever
    /// stream fetches it, so the contract uses the view of stream 1.
    fn look(&self, id: Id) -> Fetched
        requires { id ≤ last_identity self.now.layout }
        ensures answer { result ≡ fetched_of id (plain_slot_at self.now id) }
        ensures follow { AllFollow (plain_caller_view self.now 1) }
        ensures formula { IsFormulaLive self.now }
    {
        match self.entries[id as usize] {
            Entry::Vacant => Fetched::Vacant,
            Entry::Live { start, len } => Fetched::Live(Clip::new(id, len, start)),
            Entry::Retired { .. } => Fetched::Retired,
        }
    }

    /// Literal `k`, counted from 0, of the clause that is stored under the clip's identity. All
    /// streams know the same clips, so the contract uses the view of stream 1.
    fn literal_of(&self, clip: &Clip, k: u32) -> Lit
        requires known { IsKnown (plain_caller_view self.now 1) clip.now }
        requires within { k < clip.now.len }
        ensures { slice_get (clip_clause (plain_caller_view self.now 1) clip.now) k ≡ Some result }
    {
        self.literals[clip.start() as usize + k as usize]
    }

    /// Stores the clause under an identity of stream `index + 1` if the identity is vacant.
    fn publish_at(&mut self, index: u32, id: Id, clause: &[Lit]) -> Published
        requires owns { Owns self.old.layout (index + 1) id }
        requires clause { IsPublishable (formula_of self.old) clause.now }
        requires room { length clause.now ≤ slice_index self.old.free index }
        ensures { AfterPublish self.old self.new index id clause.now result }
    {
        let Entry::Vacant = self.entries[id as usize] else {
            return Published::Taken;
        };
        let start = self.literals.as_slice().len() as u32;
        let len = clause.len() as u32;
        let Ok(()) = self.literals.extend_from_slice(clause) else {
            unreachable!()
        };
        self.entries[id as usize] = Entry::Live { start, len };
        self.free[index as usize] -= len as u64;
        Published::Done
    }

    /// Retires the clause under an identity of stream `index + 1` if the clause is live.
    fn retire_at(&mut self, index: u32, id: Id) -> Retired
        requires { Owns self.old.layout (index + 1) id }
        ensures { AfterRetire self.old self.new id result }
    {
        let Entry::Live { start, len } = self.entries[id as usize] else {
            return Retired::NotLive;
        };
        self.entries[id as usize] = Entry::Retired { start, len };
        Retired::Done
    }
}

impl PlainMap {
    /// Opens the map with a formula's clauses. Allocates all the memory that the map will need: 12
    /// bytes for each identity and for one extra entry, 4 for each literal of the formula and of
    /// the streams' room, and 8 for each stream. If an allocation fails, everything is freed.
    pub fn open(alloc: Global, formula: &Formula, layout: &Layout) -> Result<PlainMap, AllocError>
        requires { Fits layout.now formula.now }
        ensures layout { IfOk result (λ map. map.layout ≡ layout.now) }
        ensures formula { IfOk result (λ map. formula_of map ≡ formula.now) }
        ensures state { IfOk result (λ map. plain_state map ≡ opening formula.now) }
        ensures room { IfOk result
            (λ map. map.free ≡ replicate layout.now.streams layout.now.room) }
    {
        let mut literals = Vec::with_capacity(
            alloc,
            formula.literals() + layout.all_room() as usize,
        )?;
        let mut entries = Vec::with_capacity(alloc, layout.last_identity() as usize + 1)?;
        entries.push_reserved(Entry::Vacant);
        keep_clauses(formula, &mut entries, &mut literals);
        keep_vacant(
            layout.last_identity() as usize - formula.len(),
            &mut entries,
        );
        let free = rooms(alloc, layout)?;
        Ok(PlainMap {
            layout: *layout,
            entries,
            literals,
            free,
        })
    }

    /// The layout that the map was opened with.
    pub fn layout(&self) -> &Layout
        ensures { result.now ≡ self.now.layout }
    {
        &self.layout
    }

    /// The room that stream `index + 1` has left, in literals, or 0 if there is no such stream.
    fn room_at(&self, index: u32) -> u64
        ensures { result ≡ slice_index self.now.free index }
    {
        self.free.get(index as usize).copied().unwrap_or(0)
    }

    /// The `ClauseMap` of the stream with number `s` (from 1). It borrows this map.
    pub fn desk(&mut self, s: u64) -> PlainDesk<'_>
        requires { IsStream self.old.layout s }
        ensures { IsDesk self.entry s result }
    {
        // For the proof only: a layout has at most 64 streams, so the cast below loses nothing.
        let _ = &self.layout;
        PlainDesk {
            map: self,
            index: (s - 1) as u32,
        }
    }
}

/// The initial room of each stream, in literals.
fn rooms(alloc: Global, layout: &Layout) -> Result<Vec<u64>, AllocError>
    ensures rooms { IfOk result
        (λ free. free.items ≡ replicate layout.now.streams layout.now.room) }
    ensures limits { IsLayout layout.now }
{
    vec![in alloc; layout.room(); layout.streams() as usize]
}

/// Adds the formula's clauses as live entries.
fn keep_clauses(formula: &Formula, entries: &mut Vec<Entry>, literals: &mut Vec<Lit>)
    requires none { literals.old.items ≡ [] }
    requires entries { vec_len entries.old + length formula.now.clauses ≤ vec_capacity entries.old }
    requires literals { formula_literals formula.now ≤ vec_capacity literals.old }
    requires small { formula_literals formula.now < 2 ^ 32 }
    ensures entries { entries.new.items ≡ entries.old.items ++ entries_from 0 formula.now.clauses }
    ensures literals { literals.new.items ≡ flat formula.now.clauses }
    ensures count { vec_len entries.new ≡ vec_len entries.old + length formula.now.clauses }
    ensures room { vec_capacity entries.old ≤ vec_capacity entries.new }
    ensures capacity { vec_capacity literals.old ≤ vec_capacity literals.new }
{
    for i in 0..formula.len() {
        let clause = formula.clause(i + 1);
        let start = literals.as_slice().len() as u32;
        let len = clause.len() as u32;
        let Ok(()) = literals.extend_from_slice(clause) else {
            unreachable!()
        };
        entries.push_reserved(Entry::Live { start, len });
    }
}

/// Adds vacant entries.
fn keep_vacant(count: usize, entries: &mut Vec<Entry>)
    requires { vec_len entries.old + count ≤ vec_capacity entries.old }
    ensures { entries.new.items ≡ entries.old.items ++ replicate count Entry.Vacant }
{
    for _i in 0..count {
        entries.push_reserved(Entry::Vacant);
    }
}

/// A stream's `ClauseMap`. Until it is dropped, it borrows the `PlainMap`.
pub struct PlainDesk<'a> {
    map: &'a mut PlainMap,
    index: u32,
}

impl Drop for PlainDesk<'_> {
    ghost use Rattle.lrup_model.specs.Desk.{map_of};

    fn drop(self)
        ensures { self.exit.0.now ≡ map_of self.entry }
    {
        let PlainDesk { map: _, index: _ } = self;
    }
}

impl ClauseMap for PlainDesk<'_> {
    ghost use Rattle.lrup_model.specs.Desk.{plain_desk_caller_view, PlainDeskMoves};
    ghost use Rattle.lrup_model.specs.lemmas.DeskLemmas.{plain_desk_none, plain_desk_append, plain_desk_step};

    ghost caller_view = { plain_desk_caller_view };

    ghost moves = { PlainDeskMoves };

    fn stream(&self) -> u64 {
        self.index as u64 + 1
    }

    fn covers(&self, id: Id) -> bool {
        self.map.layout().covers(id)
    }

    fn owns(&self, id: Id) -> bool {
        self.map.layout().owner(id) == Owner::Stream(self.stream())
    }

    fn room(&self) -> u64 {
        self.map.room_at(self.index)
    }

    fn fetch(&mut self, id: Id) -> Fetched {
        self.map.look(id)
    }

    fn literal(&mut self, clip: &Clip, k: u32) -> Lit {
        self.map.literal_of(clip, k)
    }

    fn publish(&mut self, id: Id, clause: &[Lit]) -> Published {
        self.map.publish_at(self.index, id, clause)
    }

    fn retire(&mut self, id: Id) -> Retired {
        self.map.retire_at(self.index, id)
    }

    ghost moves_none = { plain_desk_none };

    ghost moves_append = { plain_desk_append };

    ghost moves_are_step = { plain_desk_step };
}
