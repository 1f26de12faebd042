//! Checks a line against a clause map, and counts it if it is good.
ghost use Rattle.std.specs.Prelude.{◌≡◌, ◌<◌, ◌^◌, ℕ, IsErrOf};
ghost use Rattle.lrup_model.specs.Event.{History};
ghost use Rattle.lrup_text.specs.Lines.{IsWithinLimits, Addition, Deletion, Import, line_of};
ghost use Rattle.stream_check.specs.internal.Taking.{IsReady, TakesBy};

use crate::addition::LineScratch;
use crate::deletion::delete;
use crate::gate::Gate;
use crate::line_stop::LineStop;
use crate::stream_state::StreamState;
use lrup_model::{ClauseMap, Id};
use lrup_text::Line;

/// Checks an addition; if it is good, publishes its clause and counts it.
fn take_addition<M: ClauseMap, G: Gate>(
    state: &mut StreamState,
    scratch: &mut LineScratch,
    map: &mut M,
    gate: &mut G,
    id: Id,
    lits: &[i64],
    hints: &[Id],
) -> Result<(), LineStop>
    requires ready { IsReady state.old (M.caller_view map.old) }
    requires variables { state.old.params.layout.vars ≡ scratch.old.vars }
    requires tries { state.old.params.tries < 2 ^ 63 }
    requires fits { IsWithinLimits (Addition id lits.now hints.now) }
    ensures taken { let free = (M.caller_view map.old).room in
        let left = (M.caller_view map.new).room in
        (es : History) × M.moves map.old map.new es
        × TakesBy state.old free state.new left (Addition id lits.now hints.now) es result }
    ensures ready { IsReady state.new (M.caller_view map.new) }
    ensures params { state.new.params ≡ state.old.params }
    ensures variables { scratch.new.vars ≡ scratch.old.vars }
{
    scratch.add(state, map, gate, id, lits, hints)?;
    let within = state.params.refutes(scratch.clause());
    state.count_addition(id, lits.is_empty(), within);
    Ok(())
}

/// Deletes the identities of a deletion, and counts the line if it is good.
fn take_deletion<M: ClauseMap>(
    state: &mut StreamState,
    map: &mut M,
    ids: &[Id],
) -> Result<(), LineStop>
    requires ready { IsReady state.old (M.caller_view map.old) }
    ensures taken { let free = (M.caller_view map.old).room in
        let left = (M.caller_view map.new).room in
        (es : History) × M.moves map.old map.new es
        × ((lead : ℕ) → TakesBy state.old free state.new left (Deletion lead ids.now) es result) }
    ensures full { IsErrOf result LineStop.Memory → state.new.dropped.spare ≡ 0 }
    ensures ready { IsReady state.new (M.caller_view map.new) }
    ensures params { state.new.params ≡ state.old.params }
{
    delete(state, map, ids)?;
    state.count_line();
    Ok(())
}

/// Compares an import with the clause of its identity, and counts the line if it is good.
fn take_import<M: ClauseMap, G: Gate>(
    state: &mut StreamState,
    scratch: &mut LineScratch,
    map: &mut M,
    gate: &mut G,
    id: Id,
    lits: &[i64],
) -> Result<(), LineStop>
    requires ready { IsReady state.old (M.caller_view map.old) }
    requires variables { state.old.params.layout.vars ≡ scratch.old.vars }
    requires tries { state.old.params.tries < 2 ^ 63 }
    requires fits { IsWithinLimits (Import id lits.now) }
    ensures taken { let free = (M.caller_view map.old).room in
        let left = (M.caller_view map.new).room in
        (es : History) × M.moves map.old map.new es
        × TakesBy state.old free state.new left (Import id lits.now) es result }
    ensures ready { IsReady state.new (M.caller_view map.new) }
    ensures params { state.new.params ≡ state.old.params }
    ensures variables { scratch.new.vars ≡ scratch.old.vars }
{
    scratch.import(state, map, gate, id, lits)?;
    state.count_line();
    Ok(())
}

/// Checks a line, and counts it if it is good. If it isn't, the error says why the line ends the
/// stream.
pub fn take_line<M: ClauseMap, G: Gate>(
    state: &mut StreamState,
    scratch: &mut LineScratch,
    map: &mut M,
    gate: &mut G,
    line: Line<'_>,
) -> Result<(), LineStop>
    requires ready { IsReady state.old (M.caller_view map.old) }
    requires variables { state.old.params.layout.vars ≡ scratch.old.vars }
    requires tries { state.old.params.tries < 2 ^ 63 }
    requires fits { IsWithinLimits (line_of line) }
    ensures taken { let free = (M.caller_view map.old).room in
        let left = (M.caller_view map.new).room in
        (es : History) × M.moves map.old map.new es
        × TakesBy state.old free state.new left (line_of line.entry) es result }
    ensures full { IsErrOf result LineStop.Memory → state.new.dropped.spare ≡ 0 }
    ensures ready { IsReady state.new (M.caller_view map.new) }
    ensures params { state.new.params ≡ state.old.params }
    ensures variables { scratch.new.vars ≡ scratch.old.vars }
{
    match line {
        Line::Add { id, lits, hints } => take_addition(state, scratch, map, gate, id, lits, hints),
        Line::Delete { ids, .. } => take_deletion(state, map, ids),
        Line::Import { id, lits } => take_import(state, scratch, map, gate, id, lits),
    }
}
