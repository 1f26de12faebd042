//! Checks an import against a clause map.
ghost use Rattle.std.specs.Prelude.{◌≡◌, ◌≤◌, ◌<◌, ◌^◌, length};
ghost use Rattle.std.specs.List.{AllByRecursion};
ghost use Rattle.lrup_model.specs.Event.{History};
ghost use Rattle.lrup_model.specs.History.{max_line_literals};
ghost use Rattle.lrup_text.specs.Lines.{IsStreamLiteral};
ghost use Rattle.stream_check.specs.Imports.{JudgesImport};
ghost use Rattle.stream_check.specs.Checker.{IsViewOf};
ghost use Rattle.stream_check.specs.internal.Checking.{line_verdict};
ghost use Rattle.stream_check.specs.internal.CheckerInside.{context_at};

use crate::addition::{LineScratch, make_literals};
use crate::fault::Fault;
use crate::gate::Gate;
use crate::lookup::look_up;
use crate::stream_state::StreamState;
use lrup_model::{ClauseMap, Id};

impl LineScratch {
    /// Compares an import with the clause of its identity, which is fetched as a hint is.
    pub fn import<M: ClauseMap, G: Gate>(
        &mut self,
        state: &StreamState,
        map: &mut M,
        gate: &mut G,
        id: Id,
        lits: &[i64],
    ) -> Result<(), Fault>
        requires at { IsViewOf state.now.params (M.caller_view map.old) }
        requires variables { state.now.params.layout.vars ≡ self.old.vars }
        requires tries { state.now.params.tries < 2 ^ 63 }
        requires count { length lits.now ≤ max_line_literals }
        requires nonzero { AllByRecursion IsStreamLiteral lits.now }
        ensures vars { self.new.vars ≡ self.old.vars }
        ensures judged { let context = context_at state.now (M.caller_view map.old).room in
            (es : History) × M.moves map.old map.new es
            × JudgesImport state.now.params context id lits.now es (line_verdict result) }
    {
        if !state.params.shares(id) {
            return Err(Fault::Identity);
        }
        if !make_literals(&mut self.literals, lits, self.vars) {
            return Err(Fault::Literal);
        }
        let clip = look_up(state, map, gate, id)?;
        if !self.marks.same(map, &clip, &self.literals) {
            return Err(Fault::Differs(id));
        }
        Ok(())
    }
}
