//! Checks an addition against a clause map.
ghost use Rattle.std.specs.Prelude.{◌≡◌, ◌↔◌, ◌≤◌, ◌<◌, ◌^◌, IsTrue, length, IfOk, OnOk, vec_capacity};
ghost use Rattle.std.specs.Bool.{OnTrue};
ghost use Rattle.std.specs.List.{AllByRecursion};
ghost use Rattle.lrup_model.specs.Literal.{IsLiteral, max_variable};
ghost use Rattle.lrup_model.specs.Event.{History};
ghost use Rattle.lrup_model.specs.History.{max_line_literals};
ghost use Rattle.lrup_model.specs.CallerView.{IsVacantAbove};
ghost use Rattle.lrup_text.specs.Lines.{IsStreamLiteral};
ghost use Rattle.lrup_model.specs.Distinct.{distinct};
ghost use Rattle.stream_check.specs.Additions.{JudgesAddition};
ghost use Rattle.stream_check.specs.Checker.{IsViewOf};
ghost use Rattle.stream_check.specs.internal.Checking.{line_verdict};
ghost use Rattle.stream_check.specs.internal.CheckerInside.{context_at, AdmitsBy};

use crate::fault::Fault;
use crate::gate::Gate;
use crate::hints::try_hints;
use crate::stream_state::StreamState;
use lrup_model::{ClauseMap, Id, Lit, Published};
use lrup_text::MAX_LITERALS;
use propagate::Marks;
use std::alloc::{AllocError, Global};

/// The buffers for a stream's additions and imports. They are made once, so that no line allocates.
#[derive(Drop)]
pub struct LineScratch {
    pub marks: Marks,
    pub literals: Vec<Lit>,
    pub vars: u32,
    ghost same_variables: { vars ≡ marks.vars },
    ghost few_variables: { vars ≤ max_variable },
    ghost reserved: { max_line_literals ≤ vec_capacity literals },
}

impl LineScratch {
    /// Makes the buffers for lines over the variables 1 to `vars`, at most 16,777,215.
    pub fn new(alloc: Global, vars: u32) -> Result<LineScratch, AllocError>
        requires { vars ≤ max_variable }
        ensures { IfOk result (λ scratch. scratch.vars ≡ vars) }
    {
        Ok(LineScratch {
            marks: Marks::new(alloc, vars)?,
            literals: Vec::with_capacity(alloc, MAX_LITERALS)?,
            vars,
        })
    }

    /// Runs those tests of an addition that fetch no clause, in the order of their faults. If the
    /// addition passes them all, `marks` has its clause.
    fn admit<M: ClauseMap>(
        &mut self,
        state: &StreamState,
        map: &M,
        id: Id,
        lits: &[i64],
    ) -> Result<(), Fault>
        requires at { IsViewOf state.now.params (M.caller_view map.now) }
        requires variables { state.now.params.layout.vars ≡ self.old.vars }
        requires count { length lits.now ≤ max_line_literals }
        requires nonzero { AllByRecursion IsStreamLiteral lits.now }
        ensures vars { self.new.vars ≡ self.old.vars }
        ensures admitted { let context = context_at state.now (M.caller_view map.now).room in
            AdmitsBy state.now.params context id lits.now self.new.marks result }
    {
        if !map.owns(id) || id <= state.last() {
            return Err(Fault::Identity);
        }
        if !make_literals(&mut self.literals, lits, self.vars) {
            return Err(Fault::Literal);
        }
        if self.marks.begin(&self.literals).is_err() {
            return Err(Fault::Tautology);
        }
        if self.marks.clause().len() as u64 > map.room() {
            return Err(Fault::NoRoom);
        }
        Ok(())
    }

    /// The clause of the last addition, if it was published: its literals, each once.
    pub fn clause(&self) -> &[Lit]
        ensures { result.now ≡ self.now.marks.clause }
    {
        self.marks.clause()
    }

    /// Checks an addition, and publishes its clause if it has no fault.
    pub fn add<M: ClauseMap, G: Gate>(
        &mut self,
        state: &StreamState,
        map: &mut M,
        gate: &mut G,
        id: Id,
        lits: &[i64],
        hints: &[Id],
    ) -> Result<(), Fault>
        requires at { IsViewOf state.now.params (M.caller_view map.old) }
        requires variables { state.now.params.layout.vars ≡ self.old.vars }
        requires tries { state.now.params.tries < 2 ^ 63 }
        requires vacant { IsVacantAbove (M.caller_view map.old) state.now.last }
        requires count { length lits.now ≤ max_line_literals }
        requires nonzero { AllByRecursion IsStreamLiteral lits.now }
        ensures vars { self.new.vars ≡ self.old.vars }
        ensures clause { OnOk result (self.new.marks.clause ≡ distinct lits.now) }
        ensures judged { let context = context_at state.now (M.caller_view map.old).room in
            (es : History) × M.moves map.old map.new es
            × JudgesAddition state.now.params context id lits.now hints.now es
            (line_verdict result) }
    {
        self.admit(state, map, id, lits)?;
        try_hints(state, map, gate, &mut self.marks, hints)?;
        match map.publish(id, self.marks.clause()) {
            Published::Done => {
                gate.after_publish(map.stream(), id);
                Ok(())
            }
            // This can't happen: `admit` found that the identity is the stream's own and exceeds
            // all that the stream has published, and no other stream publishes under it.
            Published::Taken => unreachable!(),
        }
    }
}

/// Converts the numbers of a line to literals, and returns whether all are literals over the
/// variables 1 to `vars`.
pub fn make_literals(literals: &mut Vec<Lit>, numbers: &[i64], vars: u32) -> bool
    requires room { length numbers.now ≤ vec_capacity literals.old }
    requires variables { vars ≤ max_variable }
    ensures literals { OnTrue result (literals.new.items ≡ numbers.now) }
    ensures within { IsTrue result ↔ AllByRecursion (IsLiteral vars) numbers.now }
    ensures room { vec_capacity literals.old ≤ vec_capacity literals.new }
{
    literals.clear();
    for number in numbers {
        match Lit::new(*number) {
            Some(lit) if lit.var() <= vars => literals.push_reserved(lit),
            _ => return false,
        }
    }
    true
}
