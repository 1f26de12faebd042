//! One stream of a run on one thread.
ghost use Rattle.std.specs.Prelude.{◌≡◌, ◌↔◌, ◌≤◌, ℕ, false, List, [], None, IfOk, IfSome, IsSome, IsTrue};
ghost use Rattle.std.specs.Bool.{OnTrue, OnFalse};
ghost use Rattle.lrup_model.specs.Event.{History};
ghost use Rattle.lrup_model.specs.Layout.{IsStream};
ghost use Rattle.stream_check.specs.CheckerValue.{report_of_tally};
ghost use Rattle.stream_check.specs.Checker.{AreBlocksOf, IsReadyAt};
ghost use Rattle.stream_check.specs.Judging.{joined};
ghost use Rattle.stream_check.specs.Readings.{readers_view};
ghost use Rattle.stream_turns.specs.internal.Working.{AreBlocksOfTurn, IsStarted, WorkerStep};

use lrup_model::ClauseMap;
use lrup_text::{PIECE, Source, StreamEnd};
use std::alloc::{AllocError, Global};
use std::marker::Model;
use std::sync::Wait;
use stream_check::{CheckStatus, Checker, DroppedIds, Gate, Report, RunParams};

/// One stream of a run on one thread: its reader, its gate, its checker, and a buffer for what was
/// read. Bytes `from` to `to` of the buffer aren't checked yet.
#[derive(Drop)]
pub struct Worker<R: Source + Drop, G: Gate + Drop> {
    reader: R,
    gate: G,
    checker: Checker,
    buffer: Vec<u8>,
    from: usize,
    to: usize,
}

impl<R: Source + Drop, G: Gate + Drop> Model for Worker<R, G> {
    ghost use Rattle.std.specs.Prelude.{◌-◌, take, drop, length};
    ghost use Rattle.stream_turns.specs.internal.Working.{WorkerValue, IsWorker};

    ghost Value = { WorkerValue R };

    ghost view = { λ worker. record {
      reader = worker.reader;
      unread = take (worker.to - worker.from) (drop worker.from worker.buffer.items);
      checker = worker.checker;
    } };

    ghost invariant = { λ worker. IsWorker (R.has_failed worker.reader) (length worker.buffer.items)
        worker.from worker.to worker.checker.ending };
}

impl<R: Source + Drop, G: Gate + Drop> Worker<R, G> {
    /// Makes a worker for the stream with the number `stream` (from 1), before its first byte. The
    /// code allocates all memory here, except for the identities that the stream drops.
    pub fn new(
        alloc: Global,
        reader: R,
        gate: G,
        stream: u64,
        run_params: &RunParams<'_>,
    ) -> Result<Worker<R, G>, AllocError>
        requires running { R.has_failed reader ≡ false }
        requires stream { IsStream run_params.now.layout stream }
        ensures { IfOk result (IsStarted (readers_view R.Source)
            run_params.now stream reader) }
    {
        Ok(Worker {
            reader,
            gate,
            checker: Checker::new(
                alloc,
                stream,
                run_params.layout(),
                run_params.cube(),
                run_params.tries(),
            )?,
            buffer: vec![in alloc; 0; PIECE]?,
            from: 0,
            to: 0,
        })
    }

    /// Whether the worker's checker is finished.
    pub fn is_over(&self) -> bool
        ensures { IsTrue result ↔ IsSome self.now.checker.ending }
    {
        self.checker.is_over()
    }

    /// Takes one turn: reads until one line was taken, or the checker is finished. The call blocks
    /// while the reader does.
    pub fn turn<W: Wait, M: ClauseMap>(&mut self, wait: &W, map: &mut M)
        requires ready { IsReadyAt self.old.checker (M.caller_view map.old) }
        requires going { self.old.checker.ending ≡ None }
        ensures holds { (blocks : List History) × M.moves map.old map.new (joined blocks)
            × AreBlocksOfTurn self.new.checker.ending blocks
            × WorkerStep (readers_view R.Source) self.old (M.caller_view map.old).room
            blocks self.new (M.caller_view map.new).room }
        ensures ready { IsReadyAt self.new.checker (M.caller_view map.new) }
        ensures params { self.new.checker.params ≡ self.old.checker.params }
    {
        for _ in wait.forever() {
            if !self.read() {
                return;
            }
            if self.feed(map) != CheckStatus::More {
                return;
            }
        }
    }

    /// Reads the next piece, if all bytes were taken. It returns `false` if there is none, because
    /// the stream ended or the read failed; then the checker is finished, and the gate has the
    /// stream's report.
    fn read(&mut self) -> bool
        requires { self.old.checker.ending ≡ None }
        ensures holds { (room : ℕ) → WorkerStep (readers_view R.Source)
            self.old room [] self.new room }
        ensures going { OnTrue result (self.new.checker.ending ≡ None) }
        ensures finished { OnFalse result (IsSome self.new.checker.ending) }
        ensures last { self.new.checker.last ≡ self.old.checker.last }
        ensures params { self.new.checker.params ≡ self.old.checker.params }
    {
        if self.from < self.to {
            return true;
        }
        match self.reader.read(&mut self.buffer) {
            Ok(0) => {
                self.checker.finish(&mut self.gate, StreamEnd::Ended);
                false
            }
            Ok(count) => {
                self.from = 0;
                self.to = count;
                true
            }
            Err(_) => {
                self.checker.finish(&mut self.gate, StreamEnd::Failed);
                false
            }
        }
    }

    /// Feeds the checker the bytes that were read, up to the end of a line.
    fn feed<M: ClauseMap>(&mut self, map: &mut M) -> CheckStatus
        requires ready { IsReadyAt self.old.checker (M.caller_view map.old) }
        requires going { self.old.checker.ending ≡ None }
        ensures holds { (blocks : List History) × M.moves map.old map.new (joined blocks)
            × AreBlocksOf result blocks
            × WorkerStep (readers_view R.Source) self.old (M.caller_view map.old).room
            blocks self.new (M.caller_view map.new).room }
        ensures going { result ≡ CheckStatus.More → self.new.checker.ending ≡ None }
        ensures finished { result ≡ CheckStatus.Over → IsSome self.new.checker.ending }
        ensures ready { IsReadyAt self.new.checker (M.caller_view map.new) }
        ensures params { self.new.checker.params ≡ self.old.checker.params }
    {
        let piece = &self.buffer[self.from..self.to];
        let progress = self.checker.feed(map, &mut self.gate, piece);
        self.from += progress.used;
        progress.status
    }

    /// The stream's report, its reader, and the identities that it dropped.
    pub fn into_parts(self) -> (Report, R, DroppedIds)
        requires { IsSome self.checker.ending }
        ensures report { IfSome self.checker.ending (λ ending.
            result.0 ≡ report_of_tally self.checker.tally ending) }
        ensures reader { result.1 ≡ self.reader }
        ensures dropped { result.2 ≡ self.checker.dropped }
    {
        let Worker {
            reader,
            checker,
            ..
        } = self;
        (checker.report(), reader, checker.into_dropped())
    }
}
