//! The report on standard error when a round begins.
ghost use Rattle.std.specs.Prelude.{◌≡◌, IfOk, string_bytes};
ghost use Rattle.command.specs.internal.Watching.{begin_line, paused_line};

use lrup_model::Formula;
use lrup_text::write_all;
use run_files::Machine;
use std::alloc::{AllocError, Global};
use std::time::{Clock, Instant};

/// The time, if it is asked for and the clock gives it.
pub(crate) fn now_if<C: Clock + Sync>(clock: &C, asked: bool) -> Option<Instant> {
    if asked {
        Instant::now(clock).ok()
    } else {
        None
    }
}

/// Reports to a watcher that a round begins, with the size of its formula and the pause since the
/// previous round ended. If the clock gives no time, the pause is left out. If memory runs out,
/// nothing is reported.
pub(crate) fn report_begin<C: Clock + Sync, F: Machine>(
    clock: &C,
    alloc: Global,
    files: &F,
    number: u64,
    formula: &Formula,
    ended: Option<Instant>,
) {
    let clauses = formula.len();
    let literals = formula.literals();
    let line = match pause_since(clock, ended) {
        None => begin_line(alloc, number, clauses, literals),
        Some(pause) => paused_line(alloc, number, clauses, literals, pause),
    };
    if let Ok(line) = line {
        let mut watcher = files.watcher();
        let _ = write_all(line.as_bytes(), &mut watcher);
    }
}

/// The milliseconds since `ended`, if the clock gives the time.
fn pause_since<C: Clock + Sync>(clock: &C, ended: Option<Instant>) -> Option<u64> {
    let ended = ended?;
    let now = Instant::now(clock).ok()?;
    let pause = now.duration_since(ended);
    let milliseconds = u64::from(pause.subsec_nanos() / 1_000_000);
    Some(
        pause
            .as_secs()
            .saturating_mul(1_000)
            .saturating_add(milliseconds),
    )
}

/// The line for a round that begins, with its counts of clauses and literals.
fn begin_line(
    alloc: Global,
    number: u64,
    clauses: usize,
    literals: usize,
) -> Result<String, AllocError>
    ensures { IfOk result (λ line. string_bytes line ≡ begin_line number clauses literals) }
{
    format!(in alloc; "lrupd: round {number}: {clauses} clauses, {literals} literals\n")
}

/// The line of `begin_line` and the pause before the round, in milliseconds.
fn paused_line(
    alloc: Global,
    number: u64,
    clauses: usize,
    literals: usize,
    pause: u64,
) -> Result<String, AllocError>
    ensures { IfOk result (λ line.
        string_bytes line ≡ paused_line number clauses literals pause) }
{
    format!(in alloc;
        "lrupd: round {number}: {clauses} clauses, {literals} literals, paused for {pause} ms\n"
    )
}
