//! Turns of all streams: one line of each stream in turn.
ghost use Rattle.std.specs.Prelude.{◌≡◌, ◌+◌, ◌<◌, ◌≤◌, false, ℕ, List, [], None, IfOk, length, map, vec_len, vec_capacity};
ghost use Rattle.std.specs.List.{AllByRecursion};
ghost use Rattle.lrup_model.specs.Event.{History};
ghost use Rattle.lrup_model.specs.Layout.{IsStream};
ghost use Rattle.lrup_model.specs.Plain.{PlainMoves, formula_of, free_at, plain_caller_view};
ghost use Rattle.stream_check.specs.Checker.{IsReadyAt};
ghost use Rattle.stream_check.specs.Judging.{joined};
ghost use Rattle.stream_check.specs.Readings.{readers_view};
ghost use Rattle.stream_turns.specs.Results.{AreCheckedInTurn, IsJustOpened};
ghost use Rattle.stream_turns.specs.internal.Turns.{AreFinished, AreStarted, SerialStep, HaveReports, IsFinishedAt, IsInSerialRun};
ghost use Rattle.stream_turns.specs.internal.Working.{AreBlocksOfTurn, WorkerStep};

use crate::worker::Worker;
use lrup_model::PlainMap;
use lrup_text::Source;
use std::alloc::{AllocError, Global};
use std::sync::Wait;
use stream_check::laws::ready_beside;
use stream_check::{DroppedIds, Gate, Report, RunParams};

/// The results of streams, in order.
#[derive(Drop)]
pub struct StreamResults<R: Drop> {
    /// The report of each stream.
    pub reports: Vec<Report>,
    /// The readers, as the run left them.
    pub readers: Vec<R>,
    /// The identities that each stream dropped.
    pub dropped: Vec<DroppedIds>,
}

/// Checks all streams on this thread, round-robin from stream 1 on, and returns their results: in
/// its turn a stream is read until one line was taken or the stream is finished. Each reader has a
/// gate. The code allocates all memory before the first read, except for the identities that
/// streams drop. The call blocks while a reader does.
pub fn check_all<W: Wait, R: Source + Drop, G: Gate + Drop>(
    wait: &W,
    alloc: Global,
    map: &mut PlainMap,
    run_params: &RunParams<'_>,
    readers: Vec<R>,
    gates: Vec<G>,
) -> Result<StreamResults<R>, AllocError>
    requires gates { vec_len gates ≡ vec_len readers }
    requires running { AllByRecursion (λ r. R.has_failed r ≡ false) readers.items }
    requires streams { run_params.now.layout.streams ≡ length readers.items }
    requires opened { IsJustOpened run_params.now.layout map.old }
    ensures { IfOk result (λ found. AreCheckedInTurn (readers_view R.Source) (formula_of map.old)
        run_params.now readers.items found.readers.items found.reports.items found.dropped.items
        map.new) }
{
    let mut workers = workers_of(alloc, run_params, readers, gates)?;
    let reports = Vec::with_capacity(alloc, workers.len())?;
    let readers = Vec::with_capacity(alloc, workers.len())?;
    let dropped = Vec::with_capacity(alloc, workers.len())?;
    take_turns(wait, map, &mut workers);
    Ok(results_of(workers, reports, readers, dropped))
}

/// Makes a worker for each stream, in order.
fn workers_of<R: Source + Drop, G: Gate + Drop>(
    alloc: Global,
    run_params: &RunParams<'_>,
    readers: Vec<R>,
    gates: Vec<G>,
) -> Result<Vec<Worker<R, G>>, AllocError>
    requires gates { vec_len gates ≡ vec_len readers }
    requires running { AllByRecursion (λ r. R.has_failed r ≡ false) readers.items }
    requires streams { run_params.now.layout.streams ≡ length readers.items }
    ensures { IfOk result (λ workers. AreStarted (readers_view R.Source)
        run_params.now 1 readers.items workers.items) }
{
    let mut workers = Vec::with_capacity(alloc, readers.len())?;
    for (reader, gate) in readers.into_iter().zip(gates) {
        let stream = workers.len() as u64 + 1;
        workers.push_reserved(Worker::new(alloc, reader, gate, stream, run_params)?);
    }
    Ok(workers)
}

/// Takes turns until all streams are finished.
fn take_turns<W: Wait, R: Source + Drop, G: Gate + Drop>(
    wait: &W,
    map: &mut PlainMap,
    workers: &mut [Worker<R, G>],
)
    requires running { IsInSerialRun (readers_view R.Source) 0 map.old
        workers.old }
    ensures step { SerialStep (readers_view R.Source) 0 map.old workers.old 0
        map.new workers.new }
    ensures finished { AreFinished workers.new }
{
    for _ in wait.forever() {
        if !take_round(wait, map, workers) {
            return;
        }
    }
}

/// Takes one turn of each unfinished stream, from stream 1 on, and returns whether a turn was
/// taken.
fn take_round<W: Wait, R: Source + Drop, G: Gate + Drop>(
    wait: &W,
    map: &mut PlainMap,
    workers: &mut [Worker<R, G>],
) -> bool
    requires running { IsInSerialRun (readers_view R.Source) 0 map.old
        workers.old }
    ensures step { SerialStep (readers_view R.Source) 0 map.old workers.old 0
        map.new workers.new }
    ensures finished { result ≡ false → AreFinished workers.new }
{
    let mut going = false;
    for i in 0..workers.len() {
        going |= take_turn(wait, map, workers, i);
    }
    going
}

/// Takes one turn of stream `i + 1` unless it is finished, and returns whether it took one.
fn take_turn<W: Wait, R: Source + Drop, G: Gate + Drop>(
    wait: &W,
    map: &mut PlainMap,
    workers: &mut [Worker<R, G>],
    i: usize,
) -> bool
    requires running { IsInSerialRun (readers_view R.Source) i map.old
        workers.old }
    requires within { i < length workers.old }
    ensures step { SerialStep (readers_view R.Source) i map.old workers.old (i + 1)
        map.new workers.new }
    ensures finished { result ≡ false → IsFinishedAt workers.old i × (workers.new ≡ workers.old) }
{
    // A law, with no effect at run time: after another stream's calls, a worker's checker can still
    // be fed.
    ready_beside();
    if workers[i].is_over() {
        return false;
    }
    turn_at_desk(wait, map, i as u64 + 1, &mut workers[i]);
    true
}

/// Takes one turn of the worker of the stream with number `s` (from 1), through the stream's desk.
fn turn_at_desk<W: Wait, R: Source + Drop, G: Gate + Drop>(
    wait: &W,
    map: &mut PlainMap,
    s: u64,
    worker: &mut Worker<R, G>,
)
    requires stream { IsStream map.old.layout s }
    requires ready { IsReadyAt worker.old.checker (plain_caller_view map.old s) }
    requires going { worker.old.checker.ending ≡ None }
    ensures holds { (blocks : List History) × PlainMoves map.old map.new s (joined blocks)
        × AreBlocksOfTurn worker.new.checker.ending blocks
        × WorkerStep (readers_view R.Source) worker.old (free_at map.old s) blocks
        worker.new (free_at map.new s) }
    ensures ready { IsReadyAt worker.new.checker (plain_caller_view map.new s) }
    ensures params { worker.new.checker.params ≡ worker.old.checker.params }
{
    worker.turn(wait, &mut map.desk(s));
}

/// Collects the results of the finished streams. The lists are empty, and have room for the
/// results.
fn results_of<R: Source + Drop, G: Gate + Drop>(
    workers: Vec<Worker<R, G>>,
    mut reports: Vec<Report>,
    mut readers: Vec<R>,
    mut dropped: Vec<DroppedIds>,
) -> StreamResults<R>
    requires finished { AreFinished workers.items }
    requires none { (reports.items ≡ []) × (readers.items ≡ []) × (dropped.items ≡ []) }
    requires reports { vec_len workers ≤ vec_capacity reports }
    requires readers { vec_len workers ≤ vec_capacity readers }
    requires dropped { vec_len workers ≤ vec_capacity dropped }
    ensures reports { HaveReports workers.items result.reports.items }
    ensures readers { result.readers.items ≡ map (λ w. w.reader) workers.items }
    ensures dropped { result.dropped.items ≡ map (λ w. w.checker.dropped) workers.items }
{
    for worker in workers {
        let (report, reader, its_dropped) = worker.into_parts();
        reports.push_reserved(report);
        readers.push_reserved(reader);
        dropped.push_reserved(its_dropped);
    }
    StreamResults {
        reports,
        readers,
        dropped,
    }
}
