//! Words and files for which the premises of the laws of outcomes hold, and what the laws say about
//! runs of these words over these files.
ghost use Rattle.std.specs.Prelude.{◌≡◌, ◌⊎◌, IfSome, IsTrue};
ghost use Rattle.checkpoint.specs.Checkpoints.{IsUnsatisfiableText};
ghost use Rattle.command.specs.Commands.{SinkChange};
ghost use Rattle.command.specs.Rounds.{ProgramEnds};
ghost use Rattle.outcome_laws.specs.Inconclusive.{InconclusiveBecause};
ghost use Rattle.outcome_laws.specs.Valid.{AreValidAlone, AskForValidRounds, IsRefutedAlone};
ghost use Rattle.command_tests.specs.ExactFiles.{ExactValue};
ghost use Rattle.command_tests.specs.Outcomes.{AddsUnit, AreUnsatisfiableTexts, FirstLinesAgree, HaveSameTexts, RefuteInRound2, TurnsAgree, saving, two_rounds};

use crate::exact_files::ExactFiles;
use checkpoint::laws::printed_is_read;
use command::{Viewed, command};
use dimacs::laws::one_formula;
use lrup_text::laws::{a_stream_is_cut_in_one_way, no_bytes_may_become_a_line};
use outcome_laws::laws::{
    one_command_line, outcome_of_valid_rounds, outcomes_agree, outcomes_refute,
    outcomes_refute_under, serial_outcomes_agree,
};
use std::alloc::Global;
use std::str;
use std::sync::Wait;
use std::thread::Threads;
use std::time::Clock;
use test_support::Paper;

/// With these files, the words ask for two rounds as the law `outcome_of_valid_rounds` wants them:
/// the stream of round 1 is valid, and that of round 2 refutes the formula that round 1 saved,
/// whatever course the run takes. A run can go on to round 2: the test of `run_two_rounds` does.
pub fn two_rounds_are_valid<'a>(files: &ExactFiles<'a>)
    ensures { RefuteInRound2 files.now → AskForValidRounds AreValidAlone (IsRefutedAlone 1 1)
        (⟦<ExactFiles<'a> as Viewed>⟧.view files.now) two_rounds 2 }
{
    printed_is_read();
    one_formula();
    one_command_line();
    a_stream_is_cut_in_one_way();
    no_bytes_may_become_a_line();
}

/// Runs two rounds. With these files, the program ends with status 0 or with an excuse.
pub fn run_two_rounds<'a, T: Threads + Wait + Sync + Clock>(
    threads: &T,
    alloc: Global,
    files: &mut ExactFiles<'a>,
) -> u8
    ensures { RefuteInRound2 files.old → (result ≡ 0) ⊎ ((out err : SinkChange)
        × InconclusiveBecause (⟦<ExactFiles<'a> as Viewed>⟧.view files.old) two_rounds 1 1 2
        files.new out err result) }
{
    two_rounds_are_valid(files);
    outcome_of_valid_rounds(files);
    let mut out = Paper::new(alloc, 7, 0);
    let mut err = Paper::new(alloc, 7, 0);
    let words = ["--rounds", "dir", "--lines=1", "--room=1", "f", "s1"];
    command(threads, threads, alloc, &words, files, &mut out, &mut err)
}

/// Two runs on one thread, whose files have the same formula and the same stream at different
/// paths, meet the premises of the law `serial_outcomes_agree`.
pub fn turns_agree<'a>(files: &ExactFiles<'a>, others: &ExactFiles<'a>)
    ensures { HaveSameTexts files.now others.now
        → TurnsAgree (⟦<ExactFiles<'a> as Viewed>⟧.view files.now)
        (⟦<ExactFiles<'a> as Viewed>⟧.view others.now) }
{
    serial_outcomes_agree(files, others);
}

/// A run on threads and a run on one thread, whose first streams have the same bytes, meet the
/// premises of the law `outcomes_agree`, whatever their second streams have.
pub fn first_lines_agree<'a>(files: &ExactFiles<'a>, others: &ExactFiles<'a>)
    ensures { AddsUnit files.now → AddsUnit others.now
        → FirstLinesAgree (⟦<ExactFiles<'a> as Viewed>⟧.view files.now)
        (⟦<ExactFiles<'a> as Viewed>⟧.view others.now) }
{
    printed_is_read();
    one_formula();
    no_bytes_may_become_a_line();
    outcomes_agree(files, others);
}

/// Runs over the formula and the stream, and saves the clauses. If this ends with status 3, returns
/// the files with what was saved.
fn save<'a, T: Threads + Wait + Sync + Clock>(
    threads: &T,
    alloc: Global,
    formula: &'a str,
    stream: &'a str,
) -> Option<ExactFiles<'a>>
    ensures { IfSome result (λ after. (start : ExactValue) × (out err : SinkChange)
        × (start.formula ≡ formula.now)
        × ProgramEnds (⟦<ExactFiles<'a> as Viewed>⟧.view start) saving after out err 3) }
{
    let mut files = ExactFiles::new(alloc, formula, stream, None, false, 0);
    let mut out = Paper::new(alloc, 7, 0);
    let mut err = Paper::new(alloc, 7, 0);
    let words = ["--checkpoint", "new", "f", "s1"];
    let status = command(
        threads, threads, alloc, &words, &mut files, &mut out, &mut err,
    );
    if status != 3 {
        return None;
    }
    Some(files)
}

/// Whether a run over the formula and the first stream ends with status 3, and a run over what it
/// saved and the second stream ends with status 0. Then these runs meet the premises of the law
/// `outcomes_refute`, so no assignment satisfies the formula.
pub fn refute_in_two_runs<'a, T: Threads + Wait + Sync + Clock>(
    threads: &T,
    alloc: Global,
    formula: &'a str,
    first: &'a str,
    second: &'a str,
) -> bool
    ensures { IsTrue result → IsUnsatisfiableText formula.now }
{
    let Some(files) = save(threads, alloc, formula, first) else {
        return false;
    };
    outcomes_refute(&files);
    let (_, bytes, _) = files.last();
    let Ok(saved) = str::from_utf8(bytes) else {
        return false;
    };
    let mut others = ExactFiles::new(alloc, saved, second, None, false, 0);
    let mut out = Paper::new(alloc, 7, 0);
    let mut err = Paper::new(alloc, 7, 0);
    let last = command(
        threads,
        threads,
        alloc,
        &["f", "s1"],
        &mut others,
        &mut out,
        &mut err,
    );
    last == 0
}

/// Whether a run over the formula and the first stream ends with status 3, and a run over what it
/// saved and the second stream, under the assumed literals, ends with status 8. Then these runs
/// meet the premises of the law `outcomes_refute_under`, so no assignment satisfies the formula and
/// makes these literals true.
pub fn refute_under_in_two_runs<'a, T: Threads + Wait + Sync + Clock>(
    threads: &T,
    alloc: Global,
    formula: &'a str,
    first: &'a str,
    second: &'a str,
    assumed: &'a str,
) -> bool
    ensures { IsTrue result → AreUnsatisfiableTexts assumed.now formula.now }
{
    let Some(files) = save(threads, alloc, formula, first) else {
        return false;
    };
    one_formula();
    outcomes_refute_under(&files);
    let (_, bytes, _) = files.last();
    let Ok(saved) = str::from_utf8(bytes) else {
        return false;
    };
    let mut others = ExactFiles::new(alloc, saved, second, Some(assumed), false, 0);
    let mut out = Paper::new(alloc, 7, 0);
    let mut err = Paper::new(alloc, 7, 0);
    let words = ["--assume", "dir/assumed-literals", "f", "s1"];
    let last = command(
        threads,
        threads,
        alloc,
        &words,
        &mut others,
        &mut out,
        &mut err,
    );
    last == 8
}
