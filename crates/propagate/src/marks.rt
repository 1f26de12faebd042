//! Checks hints, one after the other.
ghost use Rattle.std.specs.Prelude.{◌≡◌, ◌↔◌, ◌≤◌, ◌+◌, ◌*◌, ◌++◌, ℕ, List, [], ◌∷◌, ℤ, Some, slice_get, take, false, true, IsTrue, IsFalse, ◌⊎◌, IfOk, IsErr, OnOk, OnErr};
ghost use Rattle.std.specs.List.{AllByRecursion};
ghost use Rattle.lrup_model.specs.Literal.{IsLiteral, max_variable};
ghost use Rattle.lrup_model.specs.Clause.{Has, EachOnce, IsClause, IsTautology};
ghost use Rattle.lrup_model.specs.CallerView.{IsKnown, AllFollow, clip_clause};
ghost use Rattle.lrup_model.specs.Propagation.{IsConflict, IsUnit};
ghost use Rattle.lrup_model.specs.Distinct.{distinct};
ghost use Rattle.propagate.specs.Marks.{Propagation, Steps};
ghost use Rattle.propagate.specs.internal.ClauseStatus.{HasStatus};

use crate::tautology::Tautology;
use crate::trail::Trail;
use lrup_model::{ClauseMap, Clip, Lit};
use std::alloc::{AllocError, Global};
use std::marker::Model;

/// What a hinted clause is while the literals of the trail are false.
#[derive(Clone, Copy, Debug, PartialEq, Eq)]
pub enum Step {
    /// All literals but one are false, and that one is neither false nor true. Its complement is
    /// false from now on.
    Unit,
    /// All its literals are false.
    Conflict,
    /// Neither of the two: a literal is true, or at least two aren't false.
    NotUnit,
}

/// Which literals of a clause aren't false, among those read so far.
#[derive(Clone, Copy, Debug, PartialEq, Eq)]
enum ClauseStatus {
    /// All literals are false.
    Nothing,
    /// All literals but this one are false, and this one is neither false nor true.
    One(Lit),
    /// A literal is true, or at least two aren't false: the clause is neither unit nor a conflict.
    More,
}

/// A clause whose hints are being checked, and the literals that are false: those of the clause,
/// and those that its hints made false. Only the code of `new` allocates memory.
#[derive(Drop)]
pub struct Marks {
    trail: Trail,
    clause_len: usize,
    ready: bool,
}

impl Model for Marks {
    ghost use Rattle.propagate.specs.Marks.{Propagation};
    ghost use Rattle.std.specs.Prelude.{length, take, ◌≤◌};

    ghost Value = { Propagation };

    ghost view = { λ m. record { vars = m.trail.vars; clause = take m.clause_len m.trail.literals; falses = m.trail.literals; ready = m.ready } };

    ghost invariant = { λ m. m.clause_len ≤ length m.trail.literals };
}

impl Marks {
    /// Allocates all buffers, for clauses over the variables 1 to `vars`, at most 16,777,215: about
    /// 6 bytes per variable.
    pub fn new(alloc: Global, vars: u32) -> Result<Marks, AllocError>
        requires { vars ≤ max_variable }
        ensures { IfOk result
            (λ m. m ≡ record { vars = vars; clause = []; falses = []; ready = false }) }
    {
        Ok(Marks {
            trail: Trail::new(alloc, vars)?,
            clause_len: 0,
            ready: false,
        })
    }

    /// Begins a clause over the variables: its literals, which may occur several times, are false,
    /// and no other literals are. It fails exactly if the clause contains a literal and its
    /// complement; then no clause is begun.
    pub fn begin(&mut self, clause: &[Lit]) -> Result<(), Tautology>
        requires { AllByRecursion (IsLiteral self.old.vars) clause.now }
        ensures tautology { IsErr result ↔ IsTautology clause.now }
        ensures ok { OnOk result
            (self.new ≡ record {
              vars = self.old.vars;
              clause = distinct clause.now;
              falses = distinct clause.now;
              ready = true;
            }) }
        ensures err { OnErr result
            (self.new ≡ record { vars = self.old.vars; clause = []; falses = []; ready = false }) }

        // The clause has the literals of the argument, each once.
        ensures clause { OnOk result (IsClause self.old.vars self.new.clause) }
        ensures members { OnOk result ((l : ℤ) → Has self.new.clause l ↔ Has clause.now l) }
        ensures consistent { OnOk result (¬ IsTautology self.new.clause) }
    {
        self.trail.clear();
        self.clause_len = 0;
        self.ready = false;
        if let Err(fault) = self.trail.add_all(clause) {
            self.trail.clear();
            return Err(fault);
        }
        self.clause_len = self.trail.len();
        self.ready = true;
        Ok(())
    }

    /// The literals of the clause that was begun, each once, in the order of their first
    /// occurrences.
    #[inline]
    pub fn clause(&self) -> &[Lit]
        ensures { result.now ≡ self.now.clause }
    {
        self.trail.first(self.clause_len)
    }

    /// Whether a hint may follow: a clause was begun, and each hint since then was unit.
    #[inline]
    pub fn ready(&self) -> bool
        ensures { result ≡ self.now.ready }
    {
        self.ready
    }

    /// Returns whether the clause of a hint is unit, a conflict, or neither. If it is unit, the
    /// complement of its only literal that isn't false becomes false. The code reads each literal
    /// at most once.
    pub fn hint<M: ClauseMap>(&mut self, map: &mut M, clip: &Clip) -> Step
        requires ready { IsTrue self.old.ready }
        requires known { IsKnown (M.caller_view map.old) clip.now }
        requires follow { AllFollow (M.caller_view map.old) }
        requires variables { (M.caller_view map.old).caller.formula.vars ≤ self.old.vars }
        ensures conflict { (result ≡ Step.Conflict)
            ↔ IsConflict self.old.falses (clip_clause (M.caller_view map.old) clip.now) }
        ensures unit { (result ≡ Step.Unit)
            ↔ ((l : ℤ) × IsUnit self.old.falses (clip_clause (M.caller_view map.old) clip.now) l) }
        ensures step { Steps self.old (clip_clause (M.caller_view map.old) clip.now)
            result self.new }

        // These reads are not events.
        ensures event { M.moves map.old map.new [] }
        ensures stays { M.caller_view map.new ≡ M.caller_view map.old }
    {
        match clause_status(&self.trail, map, clip) {
            ClauseStatus::Nothing => {
                self.ready = false;
                Step::Conflict
            }
            ClauseStatus::One(lit) => {
                self.trail.add(lit.complement());
                Step::Unit
            }
            ClauseStatus::More => {
                self.ready = false;
                Step::NotUnit
            }
        }
    }

    /// Whether the clip's clause has exactly the literals of the list. In the list a literal may
    /// occur several times, also together with its complement. The clause is read at most once, and
    /// after the call no clause counts as begun.
    pub fn same<M: ClauseMap>(&mut self, map: &mut M, clip: &Clip, lits: &[Lit]) -> bool
        requires known { IsKnown (M.caller_view map.old) clip.now }
        requires follow { AllFollow (M.caller_view map.old) }
        requires variables { (M.caller_view map.old).caller.formula.vars ≤ self.old.vars }
        requires literals { AllByRecursion (IsLiteral self.old.vars) lits.now }
        ensures same { IsTrue result
            ↔ ((l : ℤ) → Has (clip_clause (M.caller_view map.old) clip.now) l ↔ Has lits.now l) }
        ensures idle { self.new
            ≡ record { vars = self.old.vars; clause = []; falses = []; ready = false } }

        // These reads are not events.
        ensures event { M.moves map.old map.new [] }
        ensures stays { M.caller_view map.new ≡ M.caller_view map.old }
    {
        self.trail.clear();
        self.clause_len = 0;
        self.ready = false;
        self.trail.same(map, clip, lits)
    }
}

/// Reads the clause, pair by pair, until it turns out to be neither unit nor a conflict. While all
/// literals are false, the call reads one mark for each. For the first literal that isn't false it
/// reads the mark of the complement, too; after that a second literal that isn't false decides
/// (`status_after`).
fn clause_status<M: ClauseMap>(falses: &Trail, map: &mut M, clip: &Clip) -> ClauseStatus
    requires known { IsKnown (M.caller_view map.old) clip.now }
    requires follow { AllFollow (M.caller_view map.old) }
    requires variables { (M.caller_view map.old).caller.formula.vars ≤ falses.now.vars }
    ensures status { HasStatus falses.now.literals
        (clip_clause (M.caller_view map.old) clip.now) result }
    ensures event { M.moves map.old map.new [] }
    ensures stays { M.caller_view map.new ≡ M.caller_view map.old }
{
    for i in 0..clip.pairs() {
        let (first, second) = map.pair(clip, i);
        if are_false(falses, first, &second) {
            continue;
        }
        match status_with_pair(falses, first, second) {
            // Can't happen, since one of the two isn't false.
            ClauseStatus::Nothing => {}
            ClauseStatus::One(lit) => return status_after(falses, map, clip, i + 1, lit),
            ClauseStatus::More => return ClauseStatus::More,
        }
    }
    ClauseStatus::Nothing
}

/// Continues after the first `pairs` pairs, whose literals are false except `lit`, which is neither
/// false nor true.
fn status_after<M: ClauseMap>(
    falses: &Trail,
    map: &mut M,
    clip: &Clip,
    pairs: u32,
    lit: Lit,
) -> ClauseStatus
    requires known { IsKnown (M.caller_view map.old) clip.now }
    requires follow { AllFollow (M.caller_view map.old) }
    requires variables { (M.caller_view map.old).caller.formula.vars ≤ falses.now.vars }
    requires status { let clause = clip_clause (M.caller_view map.old) clip.now in
        IsUnit falses.now.literals (take (2 * pairs) clause) lit }
    ensures status { HasStatus falses.now.literals
        (clip_clause (M.caller_view map.old) clip.now) result }
    ensures event { M.moves map.old map.new [] }
    ensures stays { M.caller_view map.new ≡ M.caller_view map.old }
{
    for i in pairs..clip.pairs() {
        let (first, second) = map.pair(clip, i);
        if !are_false(falses, first, &second) {
            return ClauseStatus::More;
        }
    }
    ClauseStatus::One(lit)
}

/// Whether the first literal is false and, if there is a second one, that is false, too.
#[inline]
fn are_false(falses: &Trail, first: Lit, second: &Option<Lit>) -> bool
    requires first { IsLiteral falses.now.vars first }
    requires second { (l : ℤ) → second.now ≡ Some l → IsLiteral falses.now.vars l }
    ensures yes { IsTrue result → Has falses.now.literals first
        × ((l : ℤ) → second.now ≡ Some l → Has falses.now.literals l) }
    ensures no { IsFalse result → (¬ Has falses.now.literals first)
        ⊎ ((l : ℤ) × (second.now ≡ Some l) × (¬ Has falses.now.literals l)) }
{
    falses.has(first)
        && match second {
            Some(second) => falses.has(*second),
            None => true,
        }
}

/// The status after the next one or two literals of a clause whose literals so far are false. The
/// clause has each literal once.
#[inline]
fn status_with_pair(falses: &Trail, first: Lit, second: Option<Lit>) -> ClauseStatus
    requires first { IsLiteral falses.now.vars first }
    requires second { (l : ℤ) → second ≡ Some l → IsLiteral falses.now.vars l }
    ensures { (d : List ℤ) (i : ℕ) → EachOnce d
        → slice_get d (2 * i) ≡ Some first → slice_get d (2 * i + 1) ≡ second
        → IsConflict falses.now.literals (take (2 * i) d)
        → HasStatus falses.now.literals (take (2 * (i + 1)) d) result }
{
    let status = status_with(falses, ClauseStatus::Nothing, first);
    match second {
        Some(second) => status_with(falses, status, second),
        None => status,
    }
}

/// The status after one more literal, which isn't one of those before it.
#[inline]
fn status_with(falses: &Trail, status: ClauseStatus, lit: Lit) -> ClauseStatus
    requires { IsLiteral falses.now.vars lit }
    ensures { (d : List ℤ) → HasStatus falses.now.literals d status → (¬ Has d lit)
        → HasStatus falses.now.literals (d ++ lit ∷ []) result }
{
    if falses.has(lit) {
        return status;
    }
    if falses.has(lit.complement()) {
        return ClauseStatus::More;
    }
    match status {
        ClauseStatus::Nothing => ClauseStatus::One(lit),
        ClauseStatus::One(_) | ClauseStatus::More => ClauseStatus::More,
    }
}
