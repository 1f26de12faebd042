//! Performs a deletion in a clause map.
ghost use Rattle.std.specs.Prelude.{◌≡◌, ◌+◌, ℕ, IsErrOf};
ghost use Rattle.std.specs.List.{AllByRecursion};
ghost use Rattle.lrup_model.specs.Event.{History};
ghost use Rattle.lrup_model.specs.Layout.{Owns};
ghost use Rattle.stream_check.specs.Checker.{IsViewOf};
ghost use Rattle.stream_check.specs.internal.Checking.{DeletesOwn, DeletesOne, Deletes, counted};
ghost use Rattle.stream_check.specs.Deletions.{IsRetire};
ghost use Rattle.stream_check.specs.StreamContext.{capped};
ghost use Rattle.stream_check.specs.internal.CheckerInside.{KeepsLines, deleted_at};

use crate::fault::Fault;
use crate::line_stop::LineStop;
use crate::params::Ownership;
use crate::stream_state::StreamState;
use lrup_model::{ClauseMap, Id, Retired};

/// Retires one of the stream's own identities in the map, and counts it.
fn retire_own<M: ClauseMap>(state: &mut StreamState, map: &mut M, id: Id) -> Result<(), LineStop>
    requires at { IsViewOf state.old.params (M.caller_view map.old) }
    requires owns { Owns state.old.params.layout state.old.params.stream id }
    ensures deletes { (es : History) × M.moves map.old map.new es × AllByRecursion IsRetire es
        × DeletesOwn state.old.params id state.old.dropped.ids state.new.dropped.ids es result }
    ensures count { deleted_at state.new ≡ capped (deleted_at state.old + counted result) }
    ensures kept { state.new ≡ record state.old { retired = state.new.retired } }
{
    match map.retire(id) {
        Retired::Done => {
            state.count_retired();
            Ok(())
        }
        Retired::NotLive => Err(LineStop::Bad(Fault::NotLive(id))),
    }
}

/// Deletes one identity. If it is the stream's own, it is retired in the map; if it is the
/// formula's or another stream's, this stream only drops it.
fn delete_one<M: ClauseMap>(state: &mut StreamState, map: &mut M, id: Id) -> Result<(), LineStop>
    requires at { IsViewOf state.old.params (M.caller_view map.old) }
    ensures deletes { (es : History) × M.moves map.old map.new es × AllByRecursion IsRetire es
        × DeletesOne state.old.params id state.old.dropped.ids state.new.dropped.ids es result }
    ensures full { IsErrOf result LineStop.Memory → state.new.dropped.spare ≡ 0 }
    ensures unchanged { IsErrOf result LineStop.Memory → state.new.dropped ≡ state.old.dropped }
    ensures count { deleted_at state.new ≡ capped (deleted_at state.old + counted result) }
    ensures kept { KeepsLines state.old state.new }
{
    match state.params.ownership(id) {
        Ownership::Own => retire_own(state, map, id),
        Ownership::Formula | Ownership::Foreign => state.drop_shared(id),
        Ownership::Outside => Err(LineStop::Bad(Fault::NotLive(id))),
    }
}

/// Deletes the identities, from the left, up to the first that can't be deleted.
pub fn delete<M: ClauseMap>(
    state: &mut StreamState,
    map: &mut M,
    ids: &[Id],
) -> Result<(), LineStop>
    requires at { IsViewOf state.old.params (M.caller_view map.old) }
    ensures deleted { (es : History) × M.moves map.old map.new es × AllByRecursion IsRetire es
        × ((count : ℕ) × (deleted_at state.new ≡ capped (deleted_at state.old + count))
        × Deletes state.old.params state.old.dropped.ids state.new.dropped.ids
        ids.now es count result) }
    ensures full { IsErrOf result LineStop.Memory → state.new.dropped.spare ≡ 0 }
    ensures kept { KeepsLines state.old state.new }
{
    for id in ids {
        delete_one(state, map, *id)?;
    }
    Ok(())
}
