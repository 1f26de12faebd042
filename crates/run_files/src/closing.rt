//! The checkpoint's file, from creating it to closing it.
ghost use Rattle.std.specs.Prelude.{◌≡◌, ◌⊎◌, [], None, Some, false, IfErr, IfOk, IfSome, is_some, true};
ghost use Rattle.std.specs.Option.{ForSome};
ghost use Rattle.lrup_model.specs.Event.{History};
ghost use Rattle.lrup_model.specs.Formula.{Cnf};
ghost use Rattle.run_files.specs.Asked.{path_of};
ghost use Rattle.run_files.specs.Saving.{ClosesCheckpoint, CreatesCheckpoint, DiscardsIt, IsNotCreated, SavesAndCloses, SavesCheckpoint};
ghost use Rattle.run_outcome.specs.Saving.{CanBeSaved, WereLeftBy, layout_left};

use crate::fault::CommandFault;
use crate::files::{Machine, OpenFault, Viewed};
use checkpoint::SaveFault;
use lrup_model::Formula;
use lrup_text::WriteFault;
use run_outcome::{Clauses, Verdict};
use std::alloc::Global;
use stream_check::DroppedIds;

/// Creates the checkpoint's file, if there is a path.
pub fn create_checkpoint<F: Machine>(
    files: &mut F,
    path: Option<&str>,
) -> Result<Option<F::Output>, CommandFault>
    ensures created { IfOk result (λ output. CreatesCheckpoint ⟦<F as Viewed>⟧.effects files.old
        (path_of path.entry) output files.new) }
    ensures running { IfOk result (λ output.
        ForSome output (λ sink. F.Output.Sink.has_failed sink ≡ false)) }
    ensures cause { IfErr result (λ fault. IsNotCreated ⟦<F as Viewed>⟧.effects files.old
        (path_of path.entry) fault files.new) }
{
    match path {
        None => Ok(None),
        Some(path) => match create_new(files, path) {
            Ok(output) => Ok(Some(output)),
            Err(fault) => Err(fault),
        },
    }
}

/// Creates a new file at the path.
fn create_new<F: Machine>(files: &mut F, path: &str) -> Result<F::Output, CommandFault>
    ensures created { IfOk result (λ output. F.creates files.old path.now output files.new) }
    ensures empty { IfOk result (λ output.
        ForSome (F.Output.Sink.written output) (λ all. all ≡ [])) }
    ensures running { IfOk result (λ output. F.Output.Sink.has_failed output ≡ false) }
    ensures cause { IfErr result (λ fault. IsNotCreated ⟦<F as Viewed>⟧.effects files.old
        (Some path.now) fault files.new) }
{
    match files.create(path) {
        Ok(output) => Ok(output),
        Err(OpenFault::NotOpened) => Err(CommandFault::NotCreated),
        Err(OpenFault::Memory) => Err(CommandFault::Memory),
    }
}

/// Discards the checkpoint's file, if there is one.
pub fn discard_it<F: Machine>(files: &mut F, output: Option<F::Output>)
    ensures { DiscardsIt ⟦<F as Viewed>⟧.effects files.old output files.new }
{
    if let Some(output) = output {
        files.discard(output);
    }
}

/// What closing a checkpoint gives: why it wasn't saved, if it wasn't; and the next round's
/// formula, if it was saved and the run may continue.
#[derive(Drop)]
pub struct Closed {
    pub unsaved: Option<SaveFault>,
    pub next: Option<Formula>,
}

impl Closed {
    /// The result without a next formula.
    fn without_next(unsaved: Option<SaveFault>) -> Closed
        ensures unsaved { result.unsaved ≡ unsaved }
        ensures next { result.next ≡ None }
    {
        Closed {
            unsaved,
            next: None,
        }
    }
}

/// Saves the run's clauses to the checkpoint's file, if there is one, and closes it. After
/// 'unsatisfiable', discards the file instead, without writing to it.
pub fn close_checkpoint<F: Machine>(
    alloc: Global,
    files: &mut F,
    verdict: Verdict,
    clauses: Clauses,
    dropped: &[DroppedIds],
    goes_on: bool,
    output: Option<F::Output>,
) -> Closed
    requires ready { CanBeSaved clauses }
    requires running { ForSome output (λ sink. F.Output.Sink.has_failed sink ≡ false) }
    ensures closes { let its = ⟦<F as Viewed>⟧.effects in
        (f : Cnf) (h : History) → WereLeftBy f h clauses
        → ClosesCheckpoint its (SavesCheckpoint its f (layout_left clauses) h dropped.now)
        verdict files.old output result.unsaved result.next files.new }
    ensures asked { IfSome result.next (λ _. goes_on ≡ true) }
    ensures saved { IfSome result.next (λ _. result.unsaved ≡ None) }
    ensures none { is_some output ≡ true → goes_on ≡ true → result.next ≡ None
        → (verdict ≡ Verdict.Unsatisfiable)
        ⊎ ((fault : SaveFault) × (result.unsaved ≡ Some fault)) }
{
    let Some(output) = output else {
        return Closed::without_next(None);
    };
    match verdict {
        Verdict::Unsatisfiable => {
            files.discard(output);
            Closed::without_next(None)
        }
        Verdict::UnsatisfiableUnder | Verdict::Unknown => {
            save_and_close(alloc, files, clauses, dropped, goes_on, output)
        }
    }
}

/// Saves the run's clauses to the file, and closes it.
fn save_and_close<F: Machine>(
    alloc: Global,
    files: &mut F,
    clauses: Clauses,
    dropped: &[DroppedIds],
    goes_on: bool,
    mut output: F::Output,
) -> Closed
    requires ready { CanBeSaved clauses }
    requires running { F.Output.Sink.has_failed output ≡ false }
    ensures closes { let its = ⟦<F as Viewed>⟧.effects in
        (f : Cnf) (h : History) → WereLeftBy f h clauses
        → SavesAndCloses its (SavesCheckpoint its f (layout_left clauses) h dropped.now)
        files.old output result.unsaved result.next files.new }
    ensures asked { IfSome result.next (λ _. goes_on ≡ true) }
    ensures saved { IfSome result.next (λ _. result.unsaved ≡ None) }
    ensures none { goes_on ≡ true → result.next ≡ None
        → (fault : SaveFault) × (result.unsaved ≡ Some fault) }
{
    match clauses.save(alloc, dropped, goes_on, &mut output) {
        Ok(next) => match files.keep(output) {
            Ok(()) => Closed {
                unsaved: None,
                next,
            },
            Err(WriteFault) => Closed::without_next(Some(SaveFault::Unwritten)),
        },
        Err(fault) => {
            files.discard(output);
            Closed::without_next(Some(fault))
        }
    }
}
