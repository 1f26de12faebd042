//! Saves the live clauses of a clause map as the text of a formula.
ghost use Rattle.std.specs.Prelude.{◌≡◌, ◌↔◌, ◌⊎◌, ◌≤◌, ◌++◌, [], Err, IfOk, IsTrue, List, is_some, false, length, true};
ghost use Rattle.std.specs.Io.KnownBytes.{Appends};
ghost use Rattle.std.specs.List.{AllByRecursion};
ghost use Rattle.lrup_model.specs.Entailment.{IsDerived};
ghost use Rattle.lrup_model.specs.Event.{Reply};
ghost use Rattle.lrup_model.specs.Formula.{max_clause_literals, max_clauses};
ghost use Rattle.lrup_model.specs.Layout.{Fits, last_identity};
ghost use Rattle.lrup_model.specs.Literal.{max_variable};
ghost use Rattle.lrup_model.specs.CallerView.{IsKnown};
ghost use Rattle.checkpoint.specs.Checkpoints.{Saves, WritesCheckpoint};
ghost use Rattle.checkpoint.specs.Live.{Entry, clauses_of, entries_of, fetches, wanted_of, wanted_clauses};
ghost use Rattle.checkpoint.specs.Printing.{formula_text};

use crate::live::{Wanted, live_clauses};
use crate::next::next_formula;
use crate::text::write_formula;
use lrup_model::{ClauseMap, Clip, Formula, Layout};
use lrup_text::{Sink, WriteFault};
use std::alloc::{AllocError, Global};
use thiserror::Error;

/// Why a checkpoint wasn't saved.
#[derive(Clone, Copy, Debug, PartialEq, Eq, Error)]
pub enum SaveFault {
    /// Out of memory. Nothing was written.
    #[error("checkpoint not written: out of memory")]
    Memory,
    /// There are more wanted clauses than a formula may have, or a clause is too long. Nothing was
    /// written.
    #[error("checkpoint refused: limit")]
    TooLarge,
    /// A write failed, or the file couldn't be flushed to disk. A prefix of the text was written,
    /// perhaps all of it.
    #[error("checkpoint not written")]
    Unwritten,
}

impl From<AllocError> for SaveFault {
    ghost use Rattle.checkpoint.specs.declared.saving.SaveFault.TheVariants.{Memory};

    ghost from_gives = { λ _ fault. fault ≡ Memory };

    fn from(_error: AllocError) -> SaveFault {
        SaveFault::Memory
    }
}

/// Writes the formula of the clauses that are live in the map and wanted, and returns it if the run
/// continues. Each of these clauses follows from the run's formula. All identities are fetched,
/// each once, before the first write. Memory is allocated before that write, too: 16 bytes for the
/// clip of each clause, and the memory of the returned formula.
pub fn save<M: ClauseMap, K: Wanted, W: Sink>(
    alloc: Global,
    map: &mut M,
    layout: &Layout,
    wanted: &K,
    goes_on: bool,
    sink: &mut W,
) -> Result<Option<Formula>, SaveFault>
    requires layout { layout.now ≡ (M.caller_view map.old).caller.layout }
    requires fits { Fits layout.now (M.caller_view map.old).caller.formula }
    requires running { W.has_failed sink.old ≡ false }
    // What a user relies on.
    ensures checkpoint { IfOk result (WritesCheckpoint (M.caller_view map.old).caller.formula
        (W.written sink.old) (W.written sink.new)) }
    // A formula is returned exactly if the run continues.
    ensures goes_on { IfOk result (λ next. is_some next ≡ goes_on) }
    // The wanted clauses of the run's formula come first.
    ensures keeps { let f = (M.caller_view map.old).caller.formula in
        IfOk result (λ _. (more : List Entry) × Appends (W.written sink.old) (W.written sink.new)
        (formula_text f.vars (wanted_clauses (K.wants wanted.now) f.clauses ++ more))) }
    // The map's calls, what was written, and the formula.
    ensures saves { (replies : List Reply)
        × M.moves map.old map.new (fetches (M.caller_view map.old).caller.stream 1 replies)
        × (length replies ≤ last_identity layout.now)
        × ((length replies ≡ last_identity layout.now)
        × Saves result layout.now.vars (wanted_of (K.wants wanted.now) 1 replies)
        (W.written sink.old) (W.written sink.new)
        ⊎ (result ≡ Err SaveFault.Memory) × (sink.new ≡ sink.old)) }
    ensures failed { IsTrue (W.has_failed sink.new) ↔ (result ≡ Err SaveFault.Unwritten) }
{
    let clips = live_clauses(alloc, map, layout.last_identity(), wanted)?;
    save_clips(alloc, map, &clips, layout.vars(), goes_on, sink)
}

/// Writes the formula of these clauses, each of which follows from the run's formula. They may be
/// all live clauses, or only some. If the run continues, the call returns the formula; only then
/// does it allocate. It causes no events.
pub fn save_clips<M: ClauseMap, W: Sink>(
    alloc: Global,
    map: &mut M,
    clips: &[Clip],
    vars: u32,
    goes_on: bool,
    sink: &mut W,
) -> Result<Option<Formula>, SaveFault>
    requires known { AllByRecursion (IsKnown (M.caller_view map.old)) clips.now }
    requires follow { AllByRecursion (IsDerived (M.caller_view map.old).caller.formula)
        (clauses_of (entries_of (M.caller_view map.old) clips.now)) }
    requires vars { vars ≡ (M.caller_view map.old).caller.formula.vars }
    requires few { vars ≤ max_variable }
    requires running { W.has_failed sink.old ≡ false }
    ensures checkpoint { IfOk result (WritesCheckpoint (M.caller_view map.old).caller.formula
        (W.written sink.old) (W.written sink.new)) }
    ensures goes_on { IfOk result (λ next. is_some next ≡ goes_on) }
    ensures saves { Saves result vars (entries_of (M.caller_view map.old) clips.now)
        (W.written sink.old) (W.written sink.new)
        ⊎ (result ≡ Err SaveFault.Memory) × (sink.new ≡ sink.old) }
    ensures memory { result ≡ Err SaveFault.Memory → goes_on ≡ true }
    ensures failed { IsTrue (W.has_failed sink.new) ↔ (result ≡ Err SaveFault.Unwritten) }
    ensures event { M.moves map.old map.new [] }
    ensures stays { M.caller_view map.new ≡ M.caller_view map.old }
{
    if !are_few(clips) {
        return Err(SaveFault::TooLarge);
    }
    let next = next_formula(alloc, map, clips, vars, goes_on)?;
    match write_formula(map, clips, vars, sink) {
        Ok(()) => Ok(next),
        Err(WriteFault) => Err(SaveFault::Unwritten),
    }
}

/// Whether a formula may have this many clauses of these lengths.
fn are_few(clips: &[Clip]) -> bool
    ensures { IsTrue result ↔ ((length clips.now ≤ max_clauses)
        × AllByRecursion (λ clip. clip.len ≤ max_clause_literals) clips.now) }
{
    clips.len() <= Formula::MAX_CLAUSES as usize
        && clips
            .iter()
            .all(|clip| clip.len() <= Formula::MAX_CLAUSE_LITERALS)
}
