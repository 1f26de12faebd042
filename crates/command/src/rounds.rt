//! A run as a list of rounds, each of which starts from the clauses that the previous one saved.
ghost use Rattle.std.specs.Prelude.{◌≡◌, ◌↔◌, ◌⊎◌, ◌<◌, ◌≤◌, ◌+◌, ◌∷◌, List, None, false, IfErr, IfOk, IfSome, IsTrue, Ok, Some, length, map, option_map, string_bytes};
ghost use Rattle.std.specs.Cow.{cow_str_bytes, cow_value};
ghost use Rattle.std.specs.List.{AllByRecursion};
ghost use Rattle.std.specs.Option.{ForSome};
ghost use Rattle.lrup_model.specs.Cube.{IsUnsatisfiableUnder};
ghost use Rattle.lrup_model.specs.Entailment.{IsUnsatisfiable};
ghost use Rattle.lrup_model.specs.Formula.{Cnf};
ghost use Rattle.command_line.specs.CommandLine.{IsCommandLineOf, rounds_of};
ghost use Rattle.run_files.specs.Files.{AreOpened, StreamsOpened, WereRead, from_first};
ghost use Rattle.run_files.specs.Causes.{IsOpenCause, IsRoundStartCause, IsStreamCause};
ghost use Rattle.run_files.specs.Asked.{Text, created_path, path_of, sizes_of};
ghost use Rattle.run_files.specs.Paths.{formula_path, stream_path, stream_paths};
ghost use Rattle.command.specs.Rounds.{HaveEnded, IsCauseIn, IsRoundCause};
ghost use Rattle.command_line.specs.declared.sizes.Sizes.{Sizes};
ghost use Rattle.clap.specs.Walk.{texts};
ghost use Rattle.command.specs.internal.RoundProgress.{EndsAt, FailsAt, IsAlone, IsReported, RoundsSoFar, WasFound};
ghost use Rattle.stream_check.specs.StreamParams.{max_tries};

use crate::course::{CheckedRound, Course, OpenRound, RoundFault, RoundResult};
use crate::round::check_round;
use crate::watching::report_begin;
use checkpoint::laws::{refutes_back, refutes_back_under};
use command_line::{CommandLine, Next, Sizes};
use lrup_model::{Cube, Formula};
use portfolio::Verdict;
use run_files::{CommandFault, Machine, Viewed, open_round, open_streams, sizes_of_round};
use std::alloc::{AllocError, Global};
use std::borrow::Cow;
use std::sync::Wait;
use std::thread::Threads;
use std::time::Clock;

/// Checks the round with this number, which follows `last`, if there is a file for its stream 1.
fn next_round<T: Threads + Wait + Sync, C: Clock + Sync, F: Machine>(
    threads: &T,
    clock: &C,
    alloc: Global,
    course: &Course<'_>,
    folder: &str,
    last: &CheckedRound,
    number: u64,
    formula: Formula,
    files: &mut F,
) -> Result<Option<RoundResult>, CommandFault>
    requires folder { rounds_of course.now.line.now.next ≡ Some folder.now }
    requires after { number ≡ last.now.number + 1 }
    requires number { number < u64.MAX }
    ensures so_far { let its = ⟦<F as Viewed>⟧.effects in
        (given : Cnf) (first : F)
        → RoundsSoFar its course.now.line.now course.now.cube.now given first last.now
        (Some formula) files.old → IfOk result (λ next. ForSome next (λ found. RoundsSoFar its
        course.now.line.now course.now.cube.now given first found.last found.next files.new)) }
    ensures number { IfOk result (λ next. ForSome next (λ found.
        found.last.number ≡ number)) }
    ensures finished { result ≡ Ok None
        → IsAlone ⟦<F as Viewed>⟧.effects folder.now last.now files.old
        files.new }
    ensures cause { IfErr result (λ fault. IsRoundCause ⟦<F as Viewed>⟧.effects course.now.line.now
        course.now.cube.now folder.now number last.now.sizes formula files.old fault files.new) }
{
    let watch = course.line.watch;
    let sizes = sizes_of_round(threads, alloc, watch, files, folder, number, last.sizes)?;
    let readers = match open_round(threads, alloc, watch, files, folder, number, sizes.streams) {
        Ok(None) => return Ok(None),
        Ok(Some(readers)) => readers,
        Err(fault) => return Err(fault),
    };
    if watch {
        report_begin(clock, alloc, files, number, &formula, last.ended_at);
    }
    let round = OpenRound {
        number,
        sizes,
        formula: Cow::Owned(formula),
        readers,
    };
    match check_round(threads, clock, alloc, course, round, files) {
        Ok(found) => Ok(Some(found)),
        Err(fault) => Err(fault),
    }
}

/// Checks round 1, whose streams are open, and then the later rounds, if the words ask for rounds.
fn check_rounds<T: Threads + Wait + Sync, C: Clock + Sync, F: Machine>(
    threads: &T,
    clock: &C,
    alloc: Global,
    course: &Course<'_>,
    round: OpenRound<'_, F::Input>,
    files: &mut F,
) -> Result<CheckedRound, RoundFault>
    requires running { AllByRecursion (λ r. F.Input.Source.has_failed r ≡ false)
        round.readers.items }
    requires count { length round.readers.items ≡ round.sizes.streams }
    requires one { round.number ≡ 1 }
    requires sizes { round.sizes ≡ sizes_of course.now.line.now }
    ensures finished { let its = ⟦<F as Viewed>⟧.effects in
        (first : F)
        → StreamsOpened its first course.now.line.now.streams round.entry.readers.items files.old
        → IfOk result (λ last. EndsAt its course.now.line.now course.now.cube.now
        (cow_value round.entry.formula) first last files.new) }
    ensures cause { let its = ⟦<F as Viewed>⟧.effects in
        (first : F)
        → StreamsOpened its first course.now.line.now.streams round.entry.readers.items files.old
        → IfErr result (λ failed. FailsAt its course.now.line.now course.now.cube.now
        (cow_value round.entry.formula) first round.entry.readers.items files.old failed
        files.new) }
{
    let checked = match check_round(threads, clock, alloc, course, round, files) {
        Ok(checked) => checked,
        Err(fault) => return Err(RoundFault { round: 1, fault }),
    };
    let RoundResult { mut last, mut next } = checked;
    let Next::Rounds(folder) = course.line.next else {
        return Ok(last);
    };
    for number in 2..u64::MAX {
        let formula = match next {
            None => return Ok(last),
            Some(formula) => formula,
        };
        match next_round(
            threads, clock, alloc, course, folder, &last, number, formula, files,
        ) {
            Ok(Some(found)) => {
                last = found.last;
                next = found.next;
            }
            Ok(None) => return Ok(last),
            Err(fault) => {
                return Err(RoundFault {
                    round: number,
                    fault,
                });
            }
        }
    }
    Ok(last)
}

/// Opens the streams of round 1, and checks the rounds. The call blocks as long as an operation on a
/// file does.
pub(crate) fn open_and_check<T: Threads + Wait + Sync, C: Clock + Sync, F: Machine>(
    threads: &T,
    clock: &C,
    alloc: Global,
    line: &CommandLine<'_>,
    formula: Cow<'_, Formula>,
    cube: &Cube,
    files: &mut F,
) -> Result<CheckedRound, RoundFault>
    requires tries { line.now.tries ≤ max_tries }
    ensures reported { (first : F) →
        let view = from_first (⟦<F as Viewed>⟧.view files.old) first in
        WereRead view line.now (cow_value formula.entry) cube.now files.old
        → IfOk result (λ last. IsReported view line.now last files.new) }
    ensures sound { IfOk result (λ last. last.verdict ≡ Verdict.Unsatisfiable
        → IsUnsatisfiable (cow_value formula.entry)) }
    ensures sound_under { IfOk result (λ last. last.verdict ≡ Verdict.UnsatisfiableUnder
        → IsUnsatisfiableUnder (cow_value formula.entry) cube.now) }
    ensures cause { (words : List Text) (first : F) →
        let view = from_first (⟦<F as Viewed>⟧.view files.old) first in
        IsCommandLineOf words line.now
        → WereRead view line.now (cow_value formula.entry) cube.now files.old
        → IfErr result (λ failed. IsCauseIn view words failed.round failed.fault files.new) }
{
    // Laws, with no effect at run time: if no assignment satisfies a round's checkpoint, none
    // satisfies the round's formula.
    refutes_back();
    refutes_back_under();
    let readers = match open_streams(threads, alloc, line.watch, files, line.streams.as_slice()) {
        Ok(readers) => readers,
        Err(fault) => return Err(RoundFault { round: 1, fault }),
    };
    let course = Course { line, cube };
    let sizes = Sizes {
        streams: readers.len() as u64,
        lines: line.lines,
        room: line.room,
    };
    let round = OpenRound {
        number: 1,
        sizes,
        formula,
        readers,
    };
    check_rounds(threads, clock, alloc, &course, round, files)
}
