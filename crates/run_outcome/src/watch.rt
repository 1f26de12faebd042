//! The gates of streams whose progress may be reported.
use crate::report_text::{write_count, write_finished, write_wait};
use lrup_model::Id;
use lrup_text::Sink;
use std::time::{Clock, Instant};
use stream_check::{Gate, Report};

/// The clock is read once in this many publishes: a power of two, so that there is no division.
const PUBLISHES: u64 = 64;

/// The clock is read once in this many attempts at a hint: also a power of two.
const ATTEMPTS: u64 = 1_024;

/// How long a hint is vacant before the wait is reported, in seconds.
const WAIT: u64 = 1;

/// The time between two reports of how many clauses a stream added, in seconds.
const INTERVAL: u64 = 10;

/// Reports the progress of one stream on a sink. If the clock fails, the lines that need the time
/// are left out; after a write that fails, nothing more is reported.
// Its methods are cold: in a run that isn't watched, a test is all that remains of them.
#[derive(Drop)]
struct Reporter<C: Clock + Drop, S: Sink + Drop> {
    clock: C,
    sink: S,
    /// How many clauses were published.
    added: u64,
    /// When `added` was last reported or, before the first report, when the clock was first read.
    counted: Option<Instant>,
    /// When the current hint was fetched for the second time; `None` after the wait was reported.
    asked: Option<Instant>,
}

impl<C: Clock + Drop, S: Sink + Drop> Reporter<C, S> {
    /// Makes a reporter for the sink, if there is a sink.
    fn with_sink(clock: C, sink: Option<S>) -> Option<Reporter<C, S>> {
        let sink = sink?;
        Some(Reporter {
            clock,
            sink,
            added: 0,
            counted: None,
            asked: None,
        })
    }

    /// The time, if the clock gives it.
    fn now(&self) -> Option<Instant> {
        Instant::now(&self.clock).ok()
    }

    /// Counts a clause, and from time to time reports the count.
    #[cold]
    #[inline(never)]
    fn count(&mut self, stream: u64) {
        self.added = self.added.saturating_add(1);
        if self.added % PUBLISHES == 0 {
            self.report_count(stream);
        }
    }

    /// Reports how many clauses the stream has added, unless the last such report, or the first
    /// look at the clock, was less than ten seconds ago.
    fn report_count(&mut self, stream: u64) {
        let Some(now) = self.now() else {
            return;
        };
        let Some(counted) = self.counted else {
            self.counted = Some(now);
            return;
        };
        if now.duration_since(counted).as_secs() < INTERVAL {
            return;
        }
        self.counted = Some(now);
        if !self.sink.failed() {
            let _ = write_count(stream, self.added, &mut self.sink);
        }
    }

    /// Notes the time of the second attempt at a hint, and looks at the clock again at some later
    /// attempts.
    #[cold]
    #[inline(never)]
    fn note_attempt(&mut self, stream: u64, id: Id, attempt: u64) {
        if attempt == 2 {
            self.asked = self.now();
        } else if attempt % ATTEMPTS == 0 {
            self.report_wait(stream, id);
        }
    }

    /// Reports that the stream waits for an identity, if it has waited for at least a second.
    fn report_wait(&mut self, stream: u64, id: Id) {
        let (Some(asked), Some(now)) = (self.asked, self.now()) else {
            return;
        };
        if now.duration_since(asked).as_secs() < WAIT {
            return;
        }
        self.asked = None;
        if !self.sink.failed() {
            let _ = write_wait(stream, id, &mut self.sink);
        }
    }

    /// Reports that the stream is finished, with its report.
    #[cold]
    #[inline(never)]
    fn report_finished(&mut self, stream: u64, report: &Report) {
        if !self.sink.failed() {
            let _ = write_finished(stream, report, &mut self.sink);
        }
    }
}

/// A gate that reports progress on a sink while a stream is checked: that a hint has been vacant
/// for a second; about every ten seconds, how many clauses were added; and at the end, the stream's
/// report. It leaves the waiting to the inner gate. Without an inner gate nothing waits, as in a run
/// on one thread, where no other stream would publish meanwhile; then no wait is reported. Without a
/// sink it only forwards each call to the inner gate. So a run has the same type of gate, watched or
/// not, and the checker is compiled once, with its calls inlined.
#[derive(Drop)]
pub struct Watch<G: Gate + Drop, C: Clock + Drop, S: Sink + Drop> {
    gate: Option<G>,
    reporter: Option<Reporter<C, S>>,
}

impl<G: Gate + Drop, C: Clock + Drop, S: Sink + Drop> Watch<G, C, S> {
    /// The gate of one stream, before its first line. Without a sink nothing is reported.
    pub fn new(gate: Option<G>, clock: C, sink: Option<S>) -> Watch<G, C, S> {
        Watch {
            gate,
            reporter: Reporter::with_sink(clock, sink),
        }
    }
}

impl<G: Gate + Drop, C: Clock + Drop, S: Sink + Drop> Gate for Watch<G, C, S> {
    #[inline]
    fn before_fetch(&mut self, stream: u64, id: Id, attempt: u64) {
        let Some(gate) = &mut self.gate else {
            return;
        };
        if attempt > 1 {
            if let Some(reporter) = &mut self.reporter {
                reporter.note_attempt(stream, id, attempt);
            }
        }
        gate.before_fetch(stream, id, attempt);
    }

    #[inline]
    fn after_publish(&mut self, stream: u64, id: Id) {
        if let Some(reporter) = &mut self.reporter {
            reporter.count(stream);
        }
        if let Some(gate) = &mut self.gate {
            gate.after_publish(stream, id);
        }
    }

    fn when_finished(&mut self, stream: u64, report: &Report) {
        if let Some(reporter) = &mut self.reporter {
            reporter.report_finished(stream, report);
        }
        if let Some(gate) = &mut self.gate {
            gate.when_finished(stream, report);
        }
    }
}
