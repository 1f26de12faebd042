//! The whole run.
ghost use Rattle.std.specs.Prelude.{◌≡◌, ◌⊎◌, [], false, true};
ghost use Rattle.lrup_model.specs.Cube.{IsCubeOver, IsUnsatisfiableUnder};
ghost use Rattle.lrup_model.specs.Entailment.{IsUnsatisfiable};
ghost use Rattle.command.specs.Commands.{SinkTook, change};
ghost use Rattle.solve.specs.Answers.{RunEnds, IsProved, IsRight, PrintsModel, SaysUnprinted, SaysZero, printed_text, status_after};
ghost use Rattle.solve.specs.Printing.{PrintsComments};

use crate::answer::{Answer, Statuses};
use crate::checking::check;
use crate::files::Watched;
use crate::hearing::listen;
use crate::helper::{HelperInput, HelperOutput};
use crate::lines::Lines;
use crate::model::{Signs, model_of};
use crate::printing::write_answer;
use crate::request::Request;
use command::Machine;
use lrup_model::{Cube, Formula};
use lrup_text::{Sink, WriteFault, write_all};
use portfolio::Verdict;
use std::alloc::Global;
use std::sync::Wait;
use std::thread::{Threads, join_mut};
use std::time::Clock;

/// What the user asks for.
#[derive(Clone, Copy, Debug, PartialEq, Eq)]
pub struct Choices {
    /// No comments are printed.
    pub quiet: bool,
    /// The helper is told of the progress of checks.
    pub watch: bool,
    /// The helper may send a model.
    pub models: bool,
    /// What the exit status says.
    pub statuses: Statuses,
}

/// Hears the helper to its end, does the checks that it asks for, prints its comments and then the
/// answer, and returns the exit status. `from` is what the helper says, `to` what it is told. It
/// may say anything, and nothing that it says makes an answer wrong:
///
/// - `c WORDS` is a comment. It is printed at once, also while a check runs.
/// - `check STREAMS LINES ROOM TRIES FOLDER` asks for a check, as `lrupd --rounds=FOLDER` does one,
///   of so many streams `FOLDER/round-1.stream-N`. The numbers are within the ranges of `lrupd`,
///   and FOLDER has no control characters; other requests are ignored. During a check the helper is
///   heard until it asks for the next one, which begins when the first has ended.
/// - `v SIGNS` has + or - for each of the next variables, and `model` says that these are all. The
///   model is checked once the helper has ended, unless a check has found a proof.
///
/// It is told `out LINE` and `err LINE`, what a check prints, `watch LINE`, what its watchers
/// report, and `checked STATUS` when a check has ended, with the status of `lrupd`.
///
/// The status is that of the answer, by what is asked for, or 1 if not all could be printed.
pub fn solve<
    T: Threads + Wait + Sync,
    C: Clock + Sync,
    F: Machine + Drop,
    H: HelperOutput + Send + Drop,
    P: HelperInput + Sync,
    O: Sink + Send,
    E: Sink,
>(
    threads: &T,
    clock: &C,
    alloc: Global,
    formula: &Formula,
    cube: &Cube,
    choices: Choices,
    files: F,
    from: H,
    to: &P,
    out: &mut O,
    err: &mut E,
) -> u8
    requires over { IsCubeOver formula.now.vars cube.now }
    requires out { O.has_failed out.old ≡ false }
    requires err { E.has_failed err.old ≡ false }
    // What a user relies on. With status 20, no assignment satisfies the formula, if nothing is
    // assumed.
    ensures unsatisfiable { result ≡ 20 → cube.now ≡ [] → IsUnsatisfiable formula.now }
    // With status 20 or 8, no assignment satisfies the formula and makes all assumed literals true.
    ensures under { result ≡ 20 → IsUnsatisfiableUnder formula.now cube.now }
    ensures eight { result ≡ 8 → IsUnsatisfiableUnder formula.now cube.now }
    // With status 10, a model was printed: every assignment that makes its literals true satisfies
    // the formula, and makes all assumed literals true.
    ensures satisfiable { result ≡ 10
        → PrintsModel formula.now cube.now (change O.Sink out.old out.new) }
    // With status 0, if statuses are those of a checker, or an answer is expected, the formula is
    // unsatisfiable, or this answer was given and is right.
    ensures zero { result ≡ 0 → SaysZero choices.statuses formula.now cube.now
        (change O.Sink out.old out.new) }
    // Comments were printed, and then one answer, which is right; and the exit status matches.
    ensures ends { RunEnds formula.now cube.now choices.statuses (change O.Sink out.old out.new)
        result }
    // If not all could be printed, `err` gets a message, and otherwise nothing.
    ensures said { SaysUnprinted (O.has_failed out.new) (change E.Sink err.old err.new) }
{
    let mut files = Watched::new(alloc, files, to);
    let mut lines = Lines::new(from);
    let mut signs = Signs::none(alloc, formula.vars());
    let verdict = hear_and_check(
        threads, clock, alloc, formula, cube, choices, &mut files, &mut lines, &mut signs, to, out,
    );
    let answer = answer_of(alloc, formula, cube, verdict, choices.models, &signs);
    conclude(choices.statuses, &answer, out, err)
}

/// Hears the helper to its end, and does the checks that it asks for. Returns what these have
/// found.
fn hear_and_check<
    T: Threads + Wait + Sync,
    C: Clock + Sync,
    F: Machine,
    H: HelperOutput + Send,
    P: HelperInput,
    O: Sink + Send,
>(
    threads: &T,
    clock: &C,
    alloc: Global,
    formula: &Formula,
    cube: &Cube,
    choices: Choices,
    files: &mut F,
    lines: &mut Lines<H>,
    signs: &mut Signs,
    to: &P,
    out: &mut O,
) -> Verdict
    ensures proved { IsProved formula.now cube.now result }
    ensures printed { PrintsComments O.Sink out.old out.new }
{
    let mut verdict = Verdict::Unknown;
    let mut next = listen(threads, alloc, choices.quiet, lines, signs, out);
    for _ in threads.forever() {
        let Some(request) = next else {
            return verdict;
        };
        let (asked, found) = hear_while_checking(
            threads, clock, alloc, formula, cube, choices, files, &request, lines, signs, to, out,
        );
        verdict = stronger(verdict, found);
        next = asked;
    }
    unreachable!()
}

/// Does the check of the request, and hears the helper meanwhile, until it asks for another check
/// or has ended. Returns that other request, and what the check has found.
fn hear_while_checking<
    T: Threads + Wait + Sync,
    C: Clock + Sync,
    F: Machine,
    H: HelperOutput + Send,
    P: HelperInput,
    O: Sink + Send,
>(
    threads: &T,
    clock: &C,
    alloc: Global,
    formula: &Formula,
    cube: &Cube,
    choices: Choices,
    files: &mut F,
    request: &Request,
    lines: &mut Lines<H>,
    signs: &mut Signs,
    to: &P,
    out: &mut O,
) -> (Option<Request>, Verdict)
    ensures proved { IsProved formula.now cube.now result.1 }
    ensures printed { PrintsComments O.Sink out.old out.new }
{
    join_mut(
        threads,
        &mut || listen(threads, alloc, choices.quiet, lines, signs, out),
        &mut || {
            check(
                threads,
                clock,
                alloc,
                formula,
                cube,
                request,
                choices.watch,
                files,
                to,
            )
        },
    )
}

/// What two checks have found together.
fn stronger(one: Verdict, other: Verdict) -> Verdict
    ensures { (result ≡ one) ⊎ (result ≡ other) }
{
    match one {
        Verdict::Unsatisfiable => one,
        Verdict::Unknown => other,
        Verdict::UnsatisfiableUnder => match other {
            Verdict::Unsatisfiable => other,
            _ => one,
        },
    }
}

/// The answer: what the checks have found, or else the model, if the helper may send one and has.
fn answer_of(
    alloc: Global,
    formula: &Formula,
    cube: &Cube,
    verdict: Verdict,
    models: bool,
    signs: &Signs,
) -> Answer
    requires over { IsCubeOver formula.now.vars cube.now }
    requires proved { IsProved formula.now cube.now verdict }
    ensures { IsRight formula.now cube.now result }
{
    match verdict {
        Verdict::Unsatisfiable => Answer::Unsatisfiable,
        Verdict::UnsatisfiableUnder => Answer::UnsatisfiableUnder,
        Verdict::Unknown => {
            if !models {
                return Answer::Unknown;
            }
            match model_of(alloc, formula, cube, signs) {
                Some(literals) => Answer::Satisfiable(literals),
                None => Answer::Unknown,
            }
        }
    }
}

/// Prints the answer, unless the sink has failed, and returns the exit status.
fn conclude<O: Sink, E: Sink>(statuses: Statuses, answer: &Answer, out: &mut O, err: &mut E) -> u8
    requires err { E.has_failed err.old ≡ false }
    ensures took { O.has_failed out.old ≡ false
        → SinkTook (change O.Sink out.old out.new) (printed_text answer.now) }
    ensures stays { O.has_failed out.old ≡ true → out.new ≡ out.old }
    ensures status { result ≡ status_after (O.has_failed out.new) statuses answer.now }
    ensures said { SaysUnprinted (O.has_failed out.new) (change E.Sink err.old err.new) }
{
    if out.failed() {
        return say_unprinted(err);
    }
    match write_answer(answer, out) {
        Ok(()) => answer.status(statuses),
        Err(WriteFault) => say_unprinted(err),
    }
}

/// Says that not all could be printed, and returns the exit status.
fn say_unprinted<E: Sink>(err: &mut E) -> u8
    requires { E.has_failed err.old ≡ false }
    ensures said { SaysUnprinted true (change E.Sink err.old err.new) }
    ensures status { result ≡ 1 }
{
    let _ = write_all(b"lrup-solve: cannot write the answer\n", err);
    1
}
