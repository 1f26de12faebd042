//! The report for users.
ghost use Rattle.std.specs.Prelude.{◌≡◌, ◌++◌, false, is_err};
ghost use Rattle.std.specs.Fmt.{decimal};
ghost use Rattle.lrup_text.specs.Writing.{PutsAll, WritesText};
ghost use Rattle.stream_check.specs.Faults.{fault_text};
ghost use Rattle.run_outcome.specs.internal.WatchText.{count_line, finished_line, wait_line};
ghost use Rattle.run_outcome.specs.ReportText.{ending_text, line_after, report_text, verdict_line};

use crate::outcome::Verdict;
use lrup_model::Id;
use lrup_text::{Sink, WriteBuffer, WriteFault};
use stream_check::{Ending, Fault, Report};

/// Writes the line of each stream, in order, and the line of the verdict. If the sink fails, a
/// prefix of the text was written.
pub fn write_report<W: Sink>(
    reports: &[Report],
    verdict: Verdict,
    sink: &mut W,
) -> Result<(), WriteFault>
    requires running { W.has_failed sink.old ≡ false }
    ensures text { WritesText result (W.written sink.old) (W.written sink.new)
        (report_text reports.now verdict) }
    ensures failed { W.has_failed sink.new ≡ is_err result }
{
    let mut buffer = WriteBuffer::new();
    for (i, report) in reports.iter().enumerate() {
        put_stream(&mut buffer, b"c stream ", i as u64 + 1, report, sink)?;
    }
    buffer.put(verdict_text(verdict), sink)?;
    buffer.flush(sink)
}

fn verdict_text(verdict: Verdict) -> &'static [u8]
    ensures { result.now ≡ verdict_line verdict }
{
    match verdict {
        Verdict::Unsatisfiable => b"s UNSATISFIABLE\n",
        Verdict::UnsatisfiableUnder => b"s UNSATISFIABLE UNDER ASSUMPTIONS\n",
        Verdict::Unknown => b"s UNKNOWN\n",
    }
}

/// Writes a stream's report, after `words`.
fn put_stream<W: Sink>(
    buffer: &mut WriteBuffer,
    words: &[u8],
    stream: u64,
    report: &Report,
    sink: &mut W,
) -> Result<(), WriteFault>
    requires { W.has_failed sink.old ≡ false }
    ensures puts { PutsAll result (W.written sink.old) (W.written sink.new)
        buffer.old buffer.new (line_after words.now stream report.now) }
    ensures failed { W.has_failed sink.new ≡ is_err result }
{
    put_numbered(buffer, words, stream, sink)?;
    put_numbered(buffer, b": ", report.added, sink)?;
    put_numbered(buffer, b" added, ", report.deleted, sink)?;
    buffer.put(b" deleted, ", sink)?;
    put_ending(buffer, report.ending, sink)?;
    buffer.put(b"\n", sink)
}

/// Writes the report of a finished stream, with one write if the sink accepts everything at once.
pub fn write_finished<W: Sink>(stream: u64, report: &Report, sink: &mut W) -> Result<(), WriteFault>
    requires { W.has_failed sink.old ≡ false }
    ensures text { WritesText result (W.written sink.old) (W.written sink.new)
        (finished_line stream report.now) }
    ensures failed { W.has_failed sink.new ≡ is_err result }
{
    let mut buffer = WriteBuffer::new();
    put_stream(&mut buffer, b"lrupd: stream ", stream, report, sink)?;
    buffer.flush(sink)
}

/// Writes that a stream has waited for the clause of an identity, with one write as
/// `write_finished` does.
pub fn write_wait<W: Sink>(stream: u64, id: Id, sink: &mut W) -> Result<(), WriteFault>
    requires { W.has_failed sink.old ≡ false }
    ensures text { WritesText result (W.written sink.old) (W.written sink.new)
        (wait_line stream id) }
    ensures failed { W.has_failed sink.new ≡ is_err result }
{
    let mut buffer = WriteBuffer::new();
    put_numbered(&mut buffer, b"lrupd: stream ", stream, sink)?;
    put_numbered(&mut buffer, b": waits for ", id, sink)?;
    buffer.put(b"\n", sink)?;
    buffer.flush(sink)
}

/// Writes how many clauses a stream has added so far, with one write as `write_finished` does.
pub fn write_count<W: Sink>(stream: u64, added: u64, sink: &mut W) -> Result<(), WriteFault>
    requires { W.has_failed sink.old ≡ false }
    ensures text { WritesText result (W.written sink.old) (W.written sink.new)
        (count_line stream added) }
    ensures failed { W.has_failed sink.new ≡ is_err result }
{
    let mut buffer = WriteBuffer::new();
    put_numbered(&mut buffer, b"lrupd: stream ", stream, sink)?;
    put_numbered(&mut buffer, b": ", added, sink)?;
    buffer.put(b" added\n", sink)?;
    buffer.flush(sink)
}

/// Writes how a stream ended.
fn put_ending<W: Sink>(
    buffer: &mut WriteBuffer,
    ending: Ending,
    sink: &mut W,
) -> Result<(), WriteFault>
    requires { W.has_failed sink.old ≡ false }
    ensures puts { PutsAll result (W.written sink.old) (W.written sink.new)
        buffer.old buffer.new (ending_text ending) }
    ensures failed { W.has_failed sink.new ≡ is_err result }
{
    match ending {
        Ending::Ended => buffer.put(b"ended", sink),
        Ending::Bad(line, fault) => {
            put_numbered(buffer, b"bad line ", line, sink)?;
            buffer.put(b" (", sink)?;
            put_fault(buffer, fault, sink)?;
            buffer.put(b")", sink)
        }
        Ending::ReadFailed(line) => put_numbered(buffer, b"read failed at line ", line, sink),
        Ending::Memory(line) => put_numbered(buffer, b"out of memory at line ", line, sink),
    }
}

/// Writes why a line is bad.
fn put_fault<W: Sink>(
    buffer: &mut WriteBuffer,
    fault: Fault,
    sink: &mut W,
) -> Result<(), WriteFault>
    requires { W.has_failed sink.old ≡ false }
    ensures puts { PutsAll result (W.written sink.old) (W.written sink.new)
        buffer.old buffer.new (fault_text fault) }
    ensures failed { W.has_failed sink.new ≡ is_err result }
{
    let (words, number) = fault.words();
    let text = words.as_bytes();
    match number {
        None => buffer.put(text, sink),
        Some(number) => put_numbered(buffer, text, number, sink),
    }
}

/// Writes a text, followed by a number in decimal.
fn put_numbered<W: Sink>(
    buffer: &mut WriteBuffer,
    text: &[u8],
    number: u64,
    sink: &mut W,
) -> Result<(), WriteFault>
    requires { W.has_failed sink.old ≡ false }
    ensures puts { PutsAll result (W.written sink.old) (W.written sink.new)
        buffer.old buffer.new (text.now ++ decimal number) }
    ensures failed { W.has_failed sink.new ≡ is_err result }
{
    buffer.put(text, sink)?;
    buffer.put_number(number, sink)
}
