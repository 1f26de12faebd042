//! Runs the program with the arguments that the system gives it.
ghost use Rattle.std.specs.Prelude.{◌≡◌, ◌↔◌, ◌⊎◌, IfErr, IfOk, IsOkAnd, IsTrue, drop, false, map, string_bytes};
ghost use Rattle.std.specs.IoError.{error_kind};
ghost use Rattle.std.specs.Process.{exit_status};
ghost use Rattle.std.specs.Vec.Iter.{into_iter_items};
ghost use Rattle.clap.specs.Walk.{texts};
ghost use Rattle.command_line.specs.CommandLine.{HaveFault};
ghost use Rattle.command.specs.Arguments.{EndsWithoutArguments, not_utf8, refusal_status, refusal_text, words_after_name};
ghost use Rattle.command.specs.Commands.{CheckpointEntailed, CheckpointLeftEmpty, NameUnsatisfiable, NameUnsatisfiableUnder};
ghost use Rattle.command.specs.Commands.{SinkTook, change};
ghost use Rattle.run_files.specs.Files.{WasRead, WasSaved};
ghost use Rattle.command.specs.Rounds.{ProgramEnds, RoundsEntailed};

use crate::program::{command, say};
use lrup_text::{Sink, write_all};
use run_files::{CommandFault, Machine, Viewed, words_of};
use std::alloc::{AllocError, Global};
use std::env::Args;
use std::io;
use std::process::ExitCode;
use std::sync::Wait;
use std::thread::Threads;
use std::time::Clock;

/// Runs `command` with the arguments after the first, which is the program's name, and returns the
/// exit status. If the system gives no arguments, the cause goes to `err`: out of memory, with
/// status 6, or an argument that isn't UTF-8, with status 2.
pub fn command_with_arguments<
    T: Threads + Wait + Sync,
    C: Clock + Sync,
    F: Machine,
    O: Sink,
    E: Sink,
>(
    threads: &T,
    clock: &C,
    alloc: Global,
    arguments: io::Result<Args>,
    files: &mut F,
    out: &mut O,
    err: &mut E,
) -> ExitCode
    requires out { O.has_failed out.old ≡ false }
    requires err { E.has_failed err.old ≡ false }
    // If the system gives arguments, every promise of `command` holds for those after the program's
    // name.
    ensures sound { let read = WasRead F.opens F.Input.Source.reads (F.contents files.old) in
        exit_status result ≡ 0
        → IsOkAnd arguments (λ given.
        NameUnsatisfiable _ read files.old (words_after_name given)) }
    ensures sound_under { let read = WasRead F.opens F.Input.Source.reads (F.contents files.old) in
        exit_status result ≡ 8
        → IsOkAnd arguments (λ given.
        NameUnsatisfiableUnder _ read files.old (words_after_name given)) }
    ensures ends { IfOk arguments (λ given. ProgramEnds (⟦<F as Viewed>⟧.view files.old)
        (words_after_name given) files.new (change O.Sink out.old out.new)
        (change E.Sink err.old err.new) (exit_status result)) }
    ensures saved { let read = WasRead F.opens F.Input.Source.reads (F.contents files.old) in
        let save = WasSaved F.creates F.Output.Sink.written F.keeps in
        IfOk arguments (λ given. CheckpointEntailed F.opens read save files.old
        (words_after_name given) files.new (exit_status result)) }
    ensures saved_rounds { IfOk arguments (λ given. RoundsEntailed (⟦<F as Viewed>⟧.view files.old)
        (words_after_name given) files.new (change O.Sink out.old out.new)
        (change E.Sink err.old err.new) (exit_status result)) }
    ensures none_saved { IfOk arguments (λ given. CheckpointLeftEmpty
        (⟦<F as Viewed>⟧.view files.old) (words_after_name given) files.new (exit_status result)) }
    ensures usage { IfOk arguments (λ given. HaveFault (words_after_name given)
        → (exit_status result ≡ 2) ⊎ (exit_status result ≡ 6)) }
    // If the system gives no arguments, the program reports the cause.
    ensures refused { IfErr arguments (λ error. EndsWithoutArguments (error_kind error)
        (change O.Sink out.old out.new) (change E.Sink err.old err.new) (exit_status result)) }
    // If the system gives no arguments, the files are unchanged.
    ensures untouched { IfErr arguments (λ _. files.new ≡ files.old) }
    // The status is 7 exactly if `out` has failed.
    ensures unwritten { IsTrue (O.has_failed out.new) ↔ (exit_status result ≡ 7) }
{
    let arguments = match arguments {
        Ok(arguments) => arguments,
        Err(error) => return ExitCode::from(refuse(error.kind(), err)),
    };
    let Ok(arguments) = after_name(alloc, arguments) else {
        return ExitCode::from(say(1, &CommandFault::Memory, err));
    };
    let Ok(words) = words_of(alloc, &arguments) else {
        return ExitCode::from(say(1, &CommandFault::Memory, err));
    };
    let status = command(threads, clock, alloc, &words, files, out, err);
    ExitCode::from(status)
}

/// The arguments after the program's name.
fn after_name(alloc: Global, arguments: Args) -> Result<Vec<String>, AllocError>
    ensures { IfOk result (λ rest. rest.items ≡ drop 1 (into_iter_items arguments)) }
{
    arguments.skip(1).collect(alloc)
}

/// Reports why the system gave no arguments, and returns the status.
fn refuse<E: Sink>(kind: io::ErrorKind, err: &mut E) -> u8
    requires err { E.has_failed err.old ≡ false }
    ensures said { SinkTook (change E.Sink err.old err.new) (refusal_text kind) }
    ensures status { result ≡ refusal_status kind }
{
    match kind {
        io::ErrorKind::OutOfMemory => say(1, &CommandFault::Memory, err),
        _ => say_not_utf8(err),
    }
}

/// Reports that an argument isn't UTF-8, and returns the status.
fn say_not_utf8<E: Sink>(err: &mut E) -> u8
    requires err { E.has_failed err.old ≡ false }
    ensures said { SinkTook (change E.Sink err.old err.new) not_utf8 }
    ensures status { result ≡ 2 }
{
    let text = b"error: invalid UTF-8 was detected in one or more arguments\n";
    let _ = write_all(text, err);
    2
}
