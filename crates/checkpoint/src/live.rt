//! The clauses of a clause map that are live and wanted.
ghost use Rattle.std.specs.Prelude.{◌≡◌, ◌≤◌, ◌++◌, ℕ, Bool, List, IfOk, length};
ghost use Rattle.std.specs.List.{AllByRecursion};
ghost use Rattle.lrup_model.specs.Layout.{last_identity};
ghost use Rattle.lrup_model.specs.Entailment.{IsDerived};
ghost use Rattle.lrup_model.specs.Event.{Reply};
ghost use Rattle.lrup_model.specs.CallerView.{IsKnown};
ghost use Rattle.checkpoint.specs.Live.{Entry, clauses_of, entries_of, fetches, wanted_of, wanted_clauses};

use lrup_model::{ClauseMap, Clip, Fetched, Id};
use std::alloc::{AllocError, Global};

/// Which live clauses go into a checkpoint.
pub trait Wanted {
    ghost wants: { Self → ℕ → Bool };

    /// Whether the clause under this identity goes into the checkpoint, if it is live.
    fn wants(&self, id: Id) -> bool
        ensures { result ≡ wants self.now id };
}

/// The clips of the wanted clauses that are live under the identities 1 to `last`, in order. Each
/// identity is fetched once. If memory is refused, only a prefix of these fetches was made.
pub fn live_clauses<M: ClauseMap, K: Wanted>(
    alloc: Global,
    map: &mut M,
    last: Id,
    wanted: &K,
) -> Result<Vec<Clip>, AllocError>
    requires { last ≤ last_identity (M.caller_view map.old).caller.layout }
    // The calls fetch the identities from 1 on, with these replies, and the clips are those of the
    // live and wanted clauses.
    ensures fetched { (replies : List Reply)
        × M.moves map.old map.new (fetches (M.caller_view map.old).caller.stream 1 replies)
        × (length replies ≤ last)
        × IfOk result (λ clips. (length replies ≡ last)
        × (entries_of (M.caller_view map.new) clips.items
        ≡ wanted_of (K.wants wanted.now) 1 replies)) }
    ensures known { IfOk result (λ clips.
        AllByRecursion (IsKnown (M.caller_view map.new)) clips.items) }
    ensures follow { IfOk result (λ clips.
        AllByRecursion (IsDerived (M.caller_view map.old).caller.formula)
        (clauses_of (entries_of (M.caller_view map.new) clips.items))) }
    // The wanted clauses of the formula come first.
    ensures formula { let caller = (M.caller_view map.old).caller in
        IfOk result (λ clips. caller.layout.clauses ≡ length caller.formula.clauses
        → caller.layout.clauses ≤ last → (more : List Entry)
        × (entries_of (M.caller_view map.new) clips.items
        ≡ wanted_clauses (K.wants wanted.now) caller.formula.clauses ++ more)) }
{
    let mut clips = Vec::new(alloc);
    for before in 0..last {
        match map.fetch(before + 1) {
            Fetched::Live(clip) => {
                if wanted.wants(before + 1) {
                    clips.push(clip)?;
                }
            }
            Fetched::Vacant | Fetched::Retired => {}
        }
    }
    Ok(clips)
}
