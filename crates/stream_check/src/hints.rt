//! The hints of an addition.
ghost use Rattle.std.specs.Prelude.{◌≡◌, ◌≤◌, ◌<◌, ◌^◌, IsTrue};
ghost use Rattle.lrup_model.specs.Clause.{IsTautology};
ghost use Rattle.lrup_model.specs.Event.{History};
ghost use Rattle.stream_check.specs.StreamContext.{is_among};
ghost use Rattle.stream_check.specs.Checker.{IsViewOf};
ghost use Rattle.stream_check.specs.internal.Checking.{KeepsClause, Shows, excess_of};

use crate::fault::Fault;
use crate::gate::Gate;
use crate::lookup::look_up;
use crate::stream_state::StreamState;
use lrup_model::{ClauseMap, Id};
use propagate::{Marks, Step};

/// The fault of a hint that comes after the conflict, if there is one.
fn excess(left: &[Id]) -> Result<(), Fault>
    ensures { result ≡ excess_of left.now }
{
    match left.first() {
        None => Ok(()),
        Some(next) => Err(Fault::Excess(*next)),
    }
}

/// Propagates the hints, one after the other: each before the last has to be unit, and the last a
/// conflict.
pub fn try_hints<M: ClauseMap, G: Gate>(
    state: &StreamState,
    map: &mut M,
    gate: &mut G,
    marks: &mut Marks,
    hints: &[Id],
) -> Result<(), Fault>
    requires at { IsViewOf state.now.params (M.caller_view map.old) }
    requires tries { state.now.params.tries < 2 ^ 63 }
    requires ready { IsTrue marks.old.ready }
    requires variables { state.now.params.layout.vars ≤ marks.old.vars }
    requires consistent { ¬ IsTautology marks.old.falses }
    ensures shown { let formula = (M.caller_view map.old).caller.formula in
        (es : History) × M.moves map.old map.new es
        × Shows state.now.params (is_among state.now.dropped.ids) formula marks.old.falses
        hints.now es result }
    ensures kept { KeepsClause marks.old marks.new }
{
    let mut left = hints;
    'hints: while let Some((hint, rest)) = left.split_first() {
        let clip = look_up(state, map, gate, *hint)?;
        match marks.hint(map, &clip) {
            Step::Unit => left = rest,
            Step::Conflict => return excess(rest),
            Step::NotUnit => return Err(Fault::NotUnit(*hint)),
        }
    }
    Err(Fault::NoConflict)
}
