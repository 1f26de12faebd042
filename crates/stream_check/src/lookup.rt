//! Looks up the clause of a hint, or of an import's identity.
ghost use Rattle.std.specs.Prelude.{◌∷◌, ◌<◌, ◌^◌, IfOk};
ghost use Rattle.lrup_model.specs.Event.{History, vacant, fetch};
ghost use Rattle.lrup_model.specs.Layout.{IsIdentity};
ghost use Rattle.lrup_model.specs.Replies.{reply_of};
ghost use Rattle.stream_check.specs.Lookup.{FetchesHint, FetchesUpTo, LooksUp};
ghost use Rattle.stream_check.specs.StreamContext.{is_among};
ghost use Rattle.stream_check.specs.Checker.{IsViewOf};
ghost use Rattle.stream_check.specs.internal.Checking.{Gives, found_by};

use crate::fault::Fault;
use crate::gate::Gate;
use crate::params::StreamParams;
use crate::stream_state::StreamState;
use lrup_model::{ClauseMap, Clip, Fetched, Id};

/// Fetches a vacant identity again, until it isn't vacant, and at most `most` times. Nobody wakes a
/// stream that waits for another stream's clause: it polls, and the gate may sleep before each
/// fetch.
#[inline(always)]
fn fetch_again<M: ClauseMap, G: Gate>(most: u64, map: &mut M, gate: &mut G, id: Id) -> Fetched
    requires identity { IsIdentity (M.caller_view map.old).caller.layout id }
    requires small { most < 2 ^ 63 }
    ensures asked { let stream = (M.caller_view map.old).caller.stream in
        (es : History) × M.moves map.old map.new es
        × FetchesUpTo most stream id (fetch stream id vacant ∷ es)
        (reply_of (M.caller_view map.new) result) }
    ensures gives { Gives (M.caller_view map.new) result }
{
    let stream = map.stream();
    for before in 0..most {
        // Fetches are counted from 1, and the first one was made before.
        gate.before_fetch(stream, id, before + 2);
        match map.fetch(id) {
            Fetched::Vacant => {}
            answer => return answer,
        }
    }
    Fetched::Vacant
}

/// Fetches a hint once, and up to `tries` times more while the hint is vacant and belongs to
/// another stream. Its owner is looked up only after a vacant reply, so a hint that is found at
/// once costs one fetch and no division.
#[inline(always)]
fn fetch_hint<M: ClauseMap, G: Gate>(
    params: &StreamParams,
    map: &mut M,
    gate: &mut G,
    hint: Id,
) -> Fetched
    requires at { IsViewOf params.now (M.caller_view map.old) }
    requires tries { params.now.tries < 2 ^ 63 }
    ensures asked { (es : History) × M.moves map.old map.new es
        × FetchesHint params.now hint es (reply_of (M.caller_view map.new) result) }
    ensures gives { Gives (M.caller_view map.new) result }
{
    if !params.covers(hint) {
        return Fetched::Vacant;
    }
    gate.before_fetch(map.stream(), hint, 1);
    match map.fetch(hint) {
        Fetched::Vacant => fetch_again(params.tries_for(hint), map, gate, hint),
        answer => answer,
    }
}

/// Finds the clause of a hint, or of an import's identity. It is a fault if the stream dropped the
/// identity, or if the map has no live clause for it.
#[inline(always)]
pub fn look_up<M: ClauseMap, G: Gate>(
    state: &StreamState,
    map: &mut M,
    gate: &mut G,
    id: Id,
) -> Result<Clip, Fault>
    requires at { IsViewOf state.now.params (M.caller_view map.old) }
    requires tries { state.now.params.tries < 2 ^ 63 }
    ensures looked { (es : History) × M.moves map.old map.new es
        × LooksUp state.now.params (is_among state.now.dropped.ids) id es
        (found_by (M.caller_view map.new) result) }
    ensures gives { IfOk result (λ clip. Gives (M.caller_view map.new) (Fetched.Live clip)) }
{
    if state.has_dropped(id) {
        return Err(Fault::Dropped(id));
    }
    match fetch_hint(&state.params, map, gate, id) {
        Fetched::Vacant => Err(Fault::Missing(id)),
        Fetched::Retired => Err(Fault::Retired(id)),
        Fetched::Live(clip) => Ok(clip),
    }
}
