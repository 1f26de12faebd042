//! Checks streams, as the helper asks for it.
ghost use Rattle.std.specs.Prelude.{◌≡◌, IfOk};
ghost use Rattle.lrup_model.specs.Cube.{IsUnsatisfiableUnder};
ghost use Rattle.lrup_model.specs.Entailment.{IsUnsatisfiable};
ghost use Rattle.solve.specs.Answers.{IsProved};

use crate::helper::{HelperInput, Telling};
use crate::request::{Request, line_of};
use command::{Machine, check_formula};
use lrup_model::{Cube, Formula};
use portfolio::Verdict;
use run_files::{stream_paths, words_of};
use std::alloc::{AllocError, Global};
use std::borrow::Cow;
use std::sync::Wait;
use std::thread::Threads;
use std::time::Clock;

/// The status of a check for which there is no memory.
const NO_MEMORY: u8 = 6;

/// Checks the streams of the request, and tells the helper the status of the check.
pub(crate) fn check<T: Threads + Wait + Sync, C: Clock + Sync, F: Machine, P: HelperInput>(
    threads: &T,
    clock: &C,
    alloc: Global,
    formula: &Formula,
    cube: &Cube,
    request: &Request,
    watch: bool,
    files: &mut F,
    to: &P,
) -> Verdict
    ensures { IsProved formula.now cube.now result }
{
    match run(
        threads, clock, alloc, formula, cube, request, watch, files, to,
    ) {
        Ok(status) => {
            tell_status(alloc, status, to);
            verdict_by(status)
        }
        Err(_) => {
            tell_status(alloc, NO_MEMORY, to);
            Verdict::Unknown
        }
    }
}

/// Checks the streams of the request, and returns the status of the check. The helper is told what
/// the check says.
fn run<T: Threads + Wait + Sync, C: Clock + Sync, F: Machine, P: HelperInput>(
    threads: &T,
    clock: &C,
    alloc: Global,
    formula: &Formula,
    cube: &Cube,
    request: &Request,
    watch: bool,
    files: &mut F,
    to: &P,
) -> Result<u8, AllocError>
    ensures sound { IfOk result (λ status. status ≡ 0 → IsUnsatisfiable formula.now) }
    ensures sound_under { IfOk result (λ status. status ≡ 8
        → IsUnsatisfiableUnder formula.now cube.now) }
{
    let paths = stream_paths(alloc, request.folder.as_str(), 1, request.sizes.streams)?;
    let line = line_of(request, words_of(alloc, &paths)?, watch);
    let mut out = Telling::new(alloc, b"out ", to);
    let mut err = Telling::new(alloc, b"err ", to);
    let formula = Cow::Borrowed(formula);
    Ok(check_formula(
        threads, clock, alloc, &line, formula, cube, files, &mut out, &mut err,
    ))
}

/// Tells the helper that a check has ended with this status.
fn tell_status<P: HelperInput>(alloc: Global, status: u8, to: &P) {
    match format!(in alloc; "checked {status}\n") {
        Ok(line) => to.tell(line.as_bytes()),
        Err(_) => to.tell(b"checked\n"),
    }
}

/// What a check with this status has found.
fn verdict_by(status: u8) -> Verdict
    ensures unsatisfiable { result ≡ Verdict.Unsatisfiable → status ≡ 0 }
    ensures under { result ≡ Verdict.UnsatisfiableUnder → status ≡ 8 }
{
    match status {
        0 => Verdict::Unsatisfiable,
        8 => Verdict::UnsatisfiableUnder,
        _ => Verdict::Unknown,
    }
}
