//! The literals that are false.
ghost use Rattle.std.specs.Prelude.{◌≡◌, ◌↔◌, ◌⊎◌, ◌≤◌, ◌<◌, ◌+◌, ◌*◌, ◌++◌, [], ◌∷◌, ℕ, ℤ, Bool, List, Some, false, true, neg_ℤ, length, take, slice_get, slice_index_or, IsTrue, IsFalse, IfOk, IsErr, OnOk};
ghost use Rattle.std.specs.List.{AllByRecursion};
ghost use Rattle.lrup_model.specs.Literal.{IsLiteral, code_of};
ghost use Rattle.lrup_model.specs.Clause.{Has, EachOnce, IsTautology};
ghost use Rattle.lrup_model.specs.CallerView.{IsKnown, AllFollow, clip_clause};
ghost use Rattle.lrup_model.specs.Distinct.{distinct};
ghost use Rattle.propagate.specs.internal.Trail.{AreTaken, HaveMarks, IsMarked};

use crate::tautology::Tautology;
use lrup_model::{ClauseMap, Clip, Lit};
use std::alloc::{AllocError, Global};
use std::marker::Model;

/// The false literals in the order in which they became false, with no variable twice, and a mark
/// for each of them.
#[derive(Drop)]
pub struct Trail {
    vars: u32,
    marks: Vec<bool>,
    literals: Vec<Lit>,
}

impl Model for Trail {
    ghost use Rattle.propagate.specs.internal.Trail.{FalseLiterals, AreMarks};
    ghost use Rattle.std.specs.Prelude.{vec_capacity};

    ghost Value = { FalseLiterals };

    ghost view = { λ t. record { vars = t.vars; literals = t.literals.items } };

    ghost invariant = { λ t. AreMarks t.vars t.marks.items t.literals.items (vec_capacity t.literals) };
}

impl Trail {
    /// A trail without false literals. The code allocates all memory here.
    pub fn new(alloc: Global, vars: u32) -> Result<Trail, AllocError>
        ensures { IfOk result (λ t. t ≡ record { vars = vars; literals = [] }) }
    {
        let vars_in_places = vars as usize;
        Ok(Trail {
            vars,
            // A code is at most 2 * vars + 1.
            marks: vec![in alloc; false; 2 * vars_in_places + 2]?,
            // Room for one more literal than the trail can have, so that `add` needs no proof that
            // a variable is left.
            literals: Vec::with_capacity(alloc, vars_in_places + 1)?,
        })
    }

    /// Whether the literal is false.
    #[inline]
    pub fn has(&self, lit: Lit) -> bool
        requires { IsLiteral self.now.vars lit }
        ensures { IsTrue result ↔ Has self.now.literals lit }
    {
        self.marks[lit.code() as usize]
    }

    /// Makes a literal false. Before the call it is neither false nor true.
    #[inline]
    pub fn add(&mut self, lit: Lit)
        requires literal { IsLiteral self.old.vars lit }
        requires not_false { ¬ Has self.old.literals lit }
        requires not_true { ¬ Has self.old.literals (neg_ℤ lit) }
        ensures { self.new ≡ record self.old { literals = self.old.literals ++ lit ∷ [] } }
    {
        self.marks[lit.code() as usize] = true;
        self.literals.push_reserved(lit);
    }

    /// Makes the literals of a clause false, each once. It stops at a literal that is true already,
    /// and fails then.
    pub fn add_all(&mut self, clause: &[Lit]) -> Result<(), Tautology>
        requires empty { self.old.literals ≡ [] }
        requires literals { AllByRecursion (IsLiteral self.old.vars) clause.now }
        ensures tautology { IsErr result ↔ IsTautology clause.now }
        ensures ok { OnOk result (self.new.literals ≡ distinct clause.now) }
        ensures vars { self.new.vars ≡ self.old.vars }
    {
        for &lit in clause {
            if self.has(lit.complement()) {
                return Err(Tautology);
            }
            if !self.has(lit) {
                self.add(lit);
            }
        }
        Ok(())
    }

    /// Resets the trail, so that no literal is false: it clears the marks of the literals that the
    /// trail lists.
    pub fn clear(&mut self)
        ensures { self.new ≡ record self.old { literals = [] } }
    {
        unmark(&mut self.marks, &self.literals);
        self.literals.clear();
    }

    /// Whether the clip's clause has exactly the literals of the list. The trail is empty before
    /// and afterwards: the call sets marks, and clears all of them.
    pub fn same<M: ClauseMap>(&mut self, map: &mut M, clip: &Clip, literals: &[Lit]) -> bool
        requires empty { self.old.literals ≡ [] }
        requires known { IsKnown (M.caller_view map.old) clip.now }
        requires follow { AllFollow (M.caller_view map.old) }
        requires variables { (M.caller_view map.old).caller.formula.vars ≤ self.old.vars }
        requires literals { AllByRecursion (IsLiteral self.old.vars) literals.now }
        ensures same { IsTrue result
            ↔ ((l : ℤ) → Has (clip_clause (M.caller_view map.old) clip.now) l
            ↔ Has literals.now l) }
        ensures idle { self.new ≡ self.old }
        ensures event { M.moves map.old map.new [] }
        ensures stays { M.caller_view map.new ≡ M.caller_view map.old }
    {
        is_same(&mut self.marks, map, clip, literals)
    }

    /// The number of false literals.
    #[inline]
    pub fn len(&self) -> usize
        ensures { result ≡ length self.now.literals }
    {
        self.literals.len()
    }

    /// The first `count` false literals.
    #[inline]
    pub fn first(&self, count: usize) -> &[Lit]
        requires { count ≤ length self.now.literals }
        ensures { result.now ≡ take count self.now.literals }
    {
        &self.literals[..count]
    }
}

/// Clears the marks of these literals, and changes no other mark.
fn unmark(marks: &mut [bool], literals: &[Lit])
    requires { HaveMarks marks.old literals.now }
    ensures cleared { (l : ℤ) → Has literals.now l
        → slice_index_or marks.new (code_of l) false ≡ false }
    ensures others { (k : ℕ) → slice_index_or marks.new k false ≡ true
        → slice_index_or marks.old k false ≡ true }
{
    for &lit in literals {
        marks[lit.code() as usize] = false;
    }
}

/// Whether the clip's clause, none of whose literals is marked, has exactly the literals of the
/// list. It sets the marks of the list's literals, clears the marks of the clause's literals, and
/// checks whether a mark is left. Afterwards no mark is set that wasn't set before.
fn is_same<M: ClauseMap>(marks: &mut [bool], map: &mut M, clip: &Clip, literals: &[Lit]) -> bool
    requires known { IsKnown (M.caller_view map.old) clip.now }
    requires follow { AllFollow (M.caller_view map.old) }
    requires clause { HaveMarks marks.old (clip_clause (M.caller_view map.old) clip.now) }
    requires literals { HaveMarks marks.old literals.now }
    requires unmarked { (l : ℤ) → Has (clip_clause (M.caller_view map.old) clip.now) l
        → ¬ IsMarked marks.old l }
    ensures same { IsTrue result
        ↔ ((l : ℤ) → Has (clip_clause (M.caller_view map.old) clip.now) l ↔ Has literals.now l) }
    ensures others { (l : ℤ) → IsMarked marks.new l → IsMarked marks.old l }
    ensures event { M.moves map.old map.new [] }
    ensures stays { M.caller_view map.new ≡ M.caller_view map.old }
{
    mark_all(marks, literals);
    let same = take_clause(marks, map, clip) && !any_marked(marks, literals);
    unmark(marks, literals);
    same
}

/// Sets the marks of these literals, and changes no other mark.
fn mark_all(marks: &mut [bool], literals: &[Lit])
    requires { HaveMarks marks.old literals.now }
    ensures { (l : ℤ) → IsMarked marks.new l ↔ (IsMarked marks.old l ⊎ Has literals.now l) }
{
    for &lit in literals {
        marks[lit.code() as usize] = true;
    }
}

/// Whether one of these literals is marked.
fn any_marked(marks: &[bool], literals: &[Lit]) -> bool
    requires { HaveMarks marks.now literals.now }
    ensures { IsTrue result ↔ ((l : ℤ) × Has literals.now l × IsMarked marks.now l) }
{
    for &lit in literals {
        if marks[lit.code() as usize] {
            return true;
        }
    }
    false
}

/// Clears the marks of the clause's literals, up to the first that isn't marked, and returns
/// whether all were marked.
fn take_clause<M: ClauseMap>(marks: &mut [bool], map: &mut M, clip: &Clip) -> bool
    requires known { IsKnown (M.caller_view map.old) clip.now }
    requires follow { AllFollow (M.caller_view map.old) }
    requires marks { HaveMarks marks.old (clip_clause (M.caller_view map.old) clip.now) }
    ensures yes { IsTrue result
        → AreTaken marks.old marks.new (clip_clause (M.caller_view map.old) clip.now) }
    ensures no { IsFalse result
        → (l : ℤ) × Has (clip_clause (M.caller_view map.old) clip.now) l
        × (¬ IsMarked marks.old l) }
    ensures others { (l : ℤ) → IsMarked marks.new l → IsMarked marks.old l }
    ensures event { M.moves map.old map.new [] }
    ensures stays { M.caller_view map.new ≡ M.caller_view map.old }
{
    for i in 0..clip.pairs() {
        let (first, second) = map.pair(clip, i);
        if !take_pair(marks, first, second) {
            return false;
        }
    }
    true
}

/// Clears the mark of a literal and, if there is a second literal, its mark, too, and returns
/// whether all were marked. The clause has each literal once.
#[inline]
fn take_pair(marks: &mut [bool], first: Lit, second: Option<Lit>) -> bool
    requires first { code_of first < length marks.old }
    requires second { (l : ℤ) → second ≡ Some l → code_of l < length marks.old }
    ensures yes { (before : List Bool) (d : List ℤ) (i : ℕ)
        → slice_get d (2 * i) ≡ Some first → slice_get d (2 * i + 1) ≡ second
        → AreTaken before marks.old (take (2 * i) d)
        → IsTrue result → AreTaken before marks.new (take (2 * (i + 1)) d) }
    ensures no { (before : List Bool) (d : List ℤ) (i : ℕ) → EachOnce d
        → slice_get d (2 * i) ≡ Some first → slice_get d (2 * i + 1) ≡ second
        → AreTaken before marks.old (take (2 * i) d)
        → IsFalse result → (l : ℤ) × Has d l × (¬ IsMarked before l) }
    ensures others { (l : ℤ) → IsMarked marks.new l → IsMarked marks.old l }
{
    take_mark(marks, first)
        && match second {
            Some(second) => take_mark(marks, second),
            None => true,
        }
}

/// Clears the mark of a literal, changes no other mark, and returns whether it was marked.
#[inline]
fn take_mark(marks: &mut [bool], lit: Lit) -> bool
    requires { code_of lit < length marks.old }
    ensures found { IsTrue result ↔ IsMarked marks.old lit }
    ensures left { (l : ℤ) → IsMarked marks.new l ↔ (IsMarked marks.old l × (¬ (l ≡ lit))) }
{
    let place = lit.code() as usize;
    let found = marks[place];
    marks[place] = false;
    found
}
