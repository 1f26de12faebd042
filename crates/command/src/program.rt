//! The whole program, over the files, threads, clock and sinks that its caller passes in.
ghost use Rattle.std.specs.Prelude.{◌≡◌, ◌↔◌, ◌⊎◌, ◌≤◌, IsTrue, List, false, is_err, true};
ghost use Rattle.std.specs.Cow.{cow_value};
ghost use Rattle.clap.specs.Walk.{texts};
ghost use Rattle.lrup_model.specs.Cube.{IsUnsatisfiableUnder};
ghost use Rattle.lrup_model.specs.Entailment.{IsUnsatisfiable};
ghost use Rattle.command_line.specs.CommandLine.{HaveFault, IsCommandLineOf};
ghost use Rattle.command.specs.Commands.{CheckpointEntailed, CheckpointLeftEmpty, NameUnsatisfiable};
ghost use Rattle.command.specs.Rounds.{ProgramEnds, RoundsEntailed, last_text, round_text};
ghost use Rattle.lrup_text.specs.Writing.{WritesText};
ghost use Rattle.command.specs.Commands.{NameUnsatisfiableUnder, SaysOfRound, SinkTook, change, report_status};
ghost use Rattle.run_files.specs.Asked.{Text};
ghost use Rattle.run_files.specs.Files.{WasRead, WasSaved, WereRead, from_first};
ghost use Rattle.run_files.specs.Faults.{round_error_text, status_of};
ghost use Rattle.stream_check.specs.StreamParams.{max_tries};

use crate::course::CheckedRound;
use crate::rounds::open_and_check;
use checkpoint::SaveFault;
use checkpoint::laws::{entails_itself, entails_onward};
use command_line::CommandLine;
use lrup_model::{Cube, Formula};
use lrup_text::{Sink, WriteBuffer, WriteFault};
use portfolio::{Verdict, write_report};
use run_files::{Asked, CommandFault, Machine, Viewed, read_asked};
use std::alloc::Global;
use std::borrow::Cow;
use std::sync::Wait;
use std::thread::Threads;
use std::time::Clock;

/// Runs `lrupd` with the words after the program's name, and returns the exit status. In this
/// order:
///
/// 1. It parses the words, reads the formula's file and parses it, and then the file of the assumed
///    literals, if there is one.
/// 2. It opens the streams. If they have a layout, and `--checkpoint` or `--rounds` was given, it
///    creates the file for the checkpoint or for the next round's formula.
/// 3. It checks the streams. With `--watch`, watchers report the streams' progress, and openings
///    that take long.
/// 4. It saves the checkpoint, unless the verdict is 'unsatisfiable'. If that fails, `err` gets the
///    cause.
/// 5. With `--rounds`, the checkpoint of a round is the next round's formula, and the folder holds
///    the next round's sizes and streams. A round is the last one if its verdict isn't 'unknown', a
///    stream didn't end, its checkpoint wasn't saved, or the folder has no stream 1 for the next
///    round.
/// 6. It writes the report of the last round to `out`.
///
/// If there is no report, nothing goes to `out`, and the cause goes to `err`. If the report can't
/// be written, `out` contains a prefix of it, and `err` gets a message. The call blocks as long as
/// an operation on a file does.
///
/// The statuses:
///
/// - 0: the report says `s UNSATISFIABLE`.
/// - 2: the words have a mistake, ask for help, or ask for both a checkpoint and rounds; there are
///   too many streams; the row would be too long; the sizes of a round have a mistake.
/// - 3: the report says `s UNKNOWN`.
/// - 4: the formula or the assumptions were refused for a cause other than memory.
/// - 5: the file of the formula, of the assumptions or of a round's sizes couldn't be opened or
///   read; a stream's file couldn't be opened; the checkpoint's file couldn't be created.
/// - 6: memory ran out, but not while checking a stream (then its report says so) or saving; a
///   thread couldn't be started; a stream's end got lost between its two threads.
/// - 7: the report couldn't be written.
/// - 8: the report says `s UNSATISFIABLE UNDER ASSUMPTIONS`.
/// - 9: instead of 3 or 8, if the checkpoint couldn't be saved.
pub fn command<T: Threads + Wait + Sync, C: Clock + Sync, F: Machine, O: Sink, E: Sink>(
    threads: &T,
    clock: &C,
    alloc: Global,
    words: &[&str],
    files: &mut F,
    out: &mut O,
    err: &mut E,
) -> u8
    requires out { O.has_failed out.old ≡ false }
    requires err { E.has_failed err.old ≡ false }
    // What a user relies on: with status 0, the bytes read from FORMULA are a text of a formula
    // that no assignment satisfies.
    ensures sound { let read = WasRead F.opens F.Input.Source.reads (F.contents files.old) in
        result ≡ 0 → NameUnsatisfiable _ read files.old (texts words.now) }
    // With status 8, no assignment satisfies both that formula and every literal in the
    // assumptions' file.
    ensures sound_under { let read = WasRead F.opens F.Input.Source.reads (F.contents files.old) in
        result ≡ 8 → NameUnsatisfiableUnder _ read files.old (texts words.now) }
    // There is either a report, or only the message for one cause; and the exit status matches.
    ensures ends { ProgramEnds (⟦<F as Viewed>⟧.view files.old) (texts words.now) files.new
        (change O.Sink out.old out.new) (change E.Sink err.old err.new) result }
    // With status 3 or 8, if the words ask for a checkpoint, what was saved is a text of a formula
    // whose clauses all follow from FORMULA.
    ensures saved { let read = WasRead F.opens F.Input.Source.reads (F.contents files.old) in
        let save = WasSaved F.creates F.Output.Sink.written F.keeps in
        CheckpointEntailed F.opens read save files.old (texts words.now) files.new result }
    // If a report was written (status 0, 3, 8 or 9), and the words ask for rounds, each round
    // before the last one saved a text of a formula for the next round. This formula has the same
    // variables, and its clauses all follow from FORMULA. With status 3 or 8 the last round saved
    // such a text, too.
    ensures saved_rounds { RoundsEntailed (⟦<F as Viewed>⟧.view files.old) (texts words.now)
        files.new (change O.Sink out.old out.new) (change E.Sink err.old err.new) result }
    // With status 0, if the words ask for a checkpoint, its file stayed empty: it was created after
    // the streams were opened, and discarded before anything was written to it. Nothing was done to
    // the files after that.
    ensures none_saved { CheckpointLeftEmpty (⟦<F as Viewed>⟧.view files.old) (texts words.now)
        files.new result }
    // If the words have a fault, the status is 2, or 6 if memory ran out.
    ensures usage { HaveFault (texts words.now) → (result ≡ 2) ⊎ (result ≡ 6) }
    // The status is 7 exactly if `out` has failed.
    ensures unwritten { IsTrue (O.has_failed out.new) ↔ (result ≡ 7) }
{
    // Laws, with no effect at run time.
    entails_itself();
    entails_onward();
    match read_asked(threads, alloc, words, files) {
        Ok(asked) => {
            let Asked {
                line,
                formula,
                cube,
            } = asked;
            let formula = Cow::Owned(formula);
            check_formula(
                threads, clock, alloc, &line, formula, &cube, files, out, err,
            )
        }
        Err(fault) => say(1, &fault, err),
    }
}

/// Checks the streams of a command line against a formula, under the assumed literals, as `command`
/// does once it has read both. In this order, the call opens the streams, creates the checkpoint's
/// file if one is asked for, checks the streams, saves the checkpoint, checks further rounds if
/// they are asked for, and writes the report to `out`. A caller who still needs the formula lends
/// it. One that is owned is freed before the checkpoint is saved. Formula and assumptions may come
/// from any source, so the clauses `sound` and `sound_under` mention no file.
pub fn check_formula<T: Threads + Wait + Sync, C: Clock + Sync, F: Machine, O: Sink, E: Sink>(
    threads: &T,
    clock: &C,
    alloc: Global,
    line: &CommandLine<'_>,
    formula: Cow<'_, Formula>,
    cube: &Cube,
    files: &mut F,
    out: &mut O,
    err: &mut E,
) -> u8
    requires out { O.has_failed out.old ≡ false }
    requires err { E.has_failed err.old ≡ false }
    // The words can't ask for more tries.
    requires tries { line.now.tries ≤ max_tries }
    // With status 0, no assignment satisfies the formula.
    ensures sound { result ≡ 0 → IsUnsatisfiable (cow_value formula.entry) }
    // With status 8, no assignment satisfies both the formula and every assumed literal.
    ensures sound_under { result ≡ 8 → IsUnsatisfiableUnder (cow_value formula.entry) cube.now }
    // Suppose that words give this command line, and that the formula and the assumed literals were
    // read from the files that it names, the first to be opened, when the files were `first`. Then
    // the program ends as `ProgramEnds` says for these words and files: with a report, or with the
    // cause instead; and the output and the status match.
    ensures ends { (words : List Text) (first : F) →
        let view = from_first (⟦<F as Viewed>⟧.view files.old) first in
        IsCommandLineOf words line.now
        → WereRead view line.now (cow_value formula.entry) cube.now files.old
        → ProgramEnds view words files.new (change O.Sink out.old out.new)
        (change E.Sink err.old err.new) result }
{
    match open_and_check(threads, clock, alloc, line, formula, cube, files) {
        Ok(last) => report(&last, out, err),
        Err(failed) => say(failed.round, &failed.fault, err),
    }
}

/// Reports why the checkpoint wasn't saved, if it wasn't, writes the report of the last round, and
/// returns the status.
fn report<O: Sink, E: Sink>(last: &CheckedRound, out: &mut O, err: &mut E) -> u8
    requires out { O.has_failed out.old ≡ false }
    requires err { E.has_failed err.old ≡ false }
    ensures printed { SinkTook (change O.Sink out.old out.new)
        (last_text last.now.number last.now.reports.items last.now.verdict) }
    ensures said { SaysOfRound last.now.number (O.has_failed out.new) last.now.unsaved
        (change E.Sink err.old err.new) }
    ensures status { result
        ≡ report_status (O.has_failed out.new) last.now.unsaved last.now.verdict }
{
    say_unsaved(last.number, last.unsaved, err);
    match write_last(last, out) {
        Ok(()) => written_status(last),
        Err(WriteFault) => say(1, &CommandFault::Unwritten, err),
    }
}

/// Writes the report of the last round; the round's number comes first if it isn't 1.
fn write_last<O: Sink>(last: &CheckedRound, out: &mut O) -> Result<(), WriteFault>
    requires running { O.has_failed out.old ≡ false }
    ensures text { WritesText result (O.written out.old) (O.written out.new)
        (last_text last.now.number last.now.reports.items last.now.verdict) }
    ensures failed { O.has_failed out.new ≡ is_err result }
{
    if last.number == 1 {
        return write_report(&last.reports, last.verdict, out);
    }
    match write_number(last.number, out) {
        Ok(()) => write_report(&last.reports, last.verdict, out),
        Err(WriteFault) => Err(WriteFault),
    }
}

/// Writes the line with a round's number.
fn write_number<O: Sink>(number: u64, out: &mut O) -> Result<(), WriteFault>
    requires running { O.has_failed out.old ≡ false }
    ensures text { WritesText result (O.written out.old) (O.written out.new) (round_text number) }
    ensures failed { O.has_failed out.new ≡ is_err result }
{
    let mut buffer = WriteBuffer::new();
    buffer.put(b"c round ", out)?;
    buffer.put_number(number, out)?;
    buffer.put(b"\n", out)?;
    buffer.flush(out)
}

/// Reports why the checkpoint of a round wasn't saved, if it wasn't.
fn say_unsaved<E: Sink>(round: u64, unsaved: Option<SaveFault>, err: &mut E)
    requires err { E.has_failed err.old ≡ false }
    ensures { SaysOfRound round false unsaved (change E.Sink err.old err.new) }
{
    if let Some(fault) = unsaved {
        let _ = say(round, &CommandFault::NotSaved(fault), err);
    }
}

/// The status once the report has been written.
fn written_status(last: &CheckedRound) -> u8
    ensures { result ≡ report_status false last.now.unsaved last.now.verdict }
{
    match last.unsaved {
        Some(_) => 9,
        None => match last.verdict {
            Verdict::Unsatisfiable => 0,
            Verdict::UnsatisfiableUnder => 8,
            Verdict::Unknown => 3,
        },
    }
}

/// Reports a fault of the round with this number (from 1), unless the sink has failed, and returns
/// its status, even if the message couldn't be written.
pub fn say<E: Sink>(round: u64, fault: &CommandFault, err: &mut E) -> u8
    ensures failed { E.has_failed err.old ≡ true → err.new ≡ err.old }
    ensures said { E.has_failed err.old ≡ false
        → SinkTook (change E.Sink err.old err.new) (round_error_text round fault.now) }
    ensures status { result ≡ status_of fault.now }
{
    if err.failed() {
        return fault.status();
    }
    let _ = fault.write(round, err);
    fault.status()
}
