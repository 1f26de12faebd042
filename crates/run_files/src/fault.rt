//! Why there is no report or no checkpoint, with the message and the status.
ghost use Rattle.std.specs.Prelude.{◌≡◌, [], Some, false, is_err};
ghost use Rattle.lrup_text.specs.Writing.{PutsAll, WritesText};
ghost use Rattle.lrup_model.specs.Layout.{layout_fault_text};
ghost use Rattle.run_files.specs.internal.Reading.{cause_bytes};
ghost use Rattle.run_files.specs.Faults.{cause_text, cube_fault_text, formula_fault_text};
ghost use Rattle.run_files.specs.Faults.{of_round, round_error_line, round_error_text, save_fault_text, status_of};
ghost use Rattle.stream_check.specs.Faults.{number_text};

use crate::files::OpenFault;
use checkpoint::SaveFault;
use command_line::{UsageText, WordsFault};
use dimacs::DimacsFault;
use lrup_model::LayoutFault;
use lrup_text::{CubeFault, ReadFault, Sink, WriteBuffer, WriteFault, write_all};
use run_outcome::RunFault;
use std::alloc::AllocError;

/// Why there is no report, only part of one, or no checkpoint.
#[derive(Debug, Drop)]
pub enum CommandFault {
    /// The words have a mistake, or ask for help.
    Usage(UsageText),
    /// The formula's file couldn't be opened, or couldn't be read to its end.
    Unread,
    /// The formula's file was refused; the cause is never `DimacsFault::Memory`.
    Refused(DimacsFault),
    /// The file of the assumed literals couldn't be opened, or couldn't be read to its end.
    CubeUnread,
    /// The file of the assumed literals was refused; the cause is never `CubeFault::Memory`.
    CubeRefused(CubeFault),
    /// The file of the stream with this number (from 1) couldn't be opened.
    NotOpened(u64),
    /// There is no layout for this formula, the options and this number of streams.
    Layout(LayoutFault),
    /// A thread of the stream with this number (from 1) couldn't be started.
    Spawn(u64),
    /// The ring between the two threads of the stream with this number (from 1) lost the mark for
    /// the stream's end, although the stream was read to its end.
    Ring(u64),
    /// Out of memory.
    Memory,
    /// The report couldn't be written to its end.
    Unwritten,
    /// The checkpoint's file couldn't be created.
    NotCreated,
    /// The checkpoint couldn't be saved.
    NotSaved(SaveFault),
    /// The words ask both for a checkpoint and for rounds, which name their checkpoints themselves.
    TwoCheckpoints,
    /// The file of a round's sizes exists, but couldn't be opened, or couldn't be read to its end.
    SizesUnread,
    /// The file of a round's sizes was read, but isn't a text of sizes.
    Sizes,
}

impl From<AllocError> for CommandFault {
    ghost use Rattle.run_files.specs.declared.fault.CommandFault.TheVariants.{Memory};

    ghost from_gives = { λ _ fault. fault ≡ Memory };

    fn from(_error: AllocError) -> CommandFault {
        CommandFault::Memory
    }
}

impl From<WordsFault> for CommandFault {
    ghost use Rattle.run_files.specs.FaultSources.{of_words};

    ghost from_gives = { λ words fault. fault ≡ of_words words };

    fn from(fault: WordsFault) -> CommandFault {
        match fault {
            WordsFault::Usage(text) => CommandFault::Usage(text),
            WordsFault::TwoCheckpoints => CommandFault::TwoCheckpoints,
            WordsFault::Memory => CommandFault::Memory,
        }
    }
}

impl From<OpenFault> for CommandFault {
    ghost use Rattle.run_files.specs.FaultSources.{of_open};

    ghost from_gives = { λ opening fault. fault ≡ of_open opening };

    /// The fault of the formula's file; `of_cube_file` turns it into the fault of the cube's file.
    fn from(fault: OpenFault) -> CommandFault {
        match fault {
            OpenFault::NotOpened => CommandFault::Unread,
            OpenFault::Memory => CommandFault::Memory,
        }
    }
}

impl From<ReadFault> for CommandFault {
    ghost use Rattle.run_files.specs.declared.fault.CommandFault.TheVariants.{Unread};

    ghost from_gives = { λ _ fault. fault ≡ Unread };

    /// The fault of the formula's file; `of_cube_file` turns it into the fault of the cube's file.
    fn from(_fault: ReadFault) -> CommandFault {
        CommandFault::Unread
    }
}

impl From<DimacsFault> for CommandFault {
    ghost use Rattle.run_files.specs.FaultSources.{of_formula};

    ghost from_gives = { λ refused fault. fault ≡ of_formula refused };

    fn from(fault: DimacsFault) -> CommandFault {
        match fault {
            DimacsFault::Memory => CommandFault::Memory,
            _ => CommandFault::Refused(fault),
        }
    }
}

impl From<CubeFault> for CommandFault {
    ghost use Rattle.run_files.specs.FaultSources.{of_cube};

    ghost from_gives = { λ refused fault. fault ≡ of_cube refused };

    fn from(fault: CubeFault) -> CommandFault {
        match fault {
            CubeFault::Memory => CommandFault::Memory,
            _ => CommandFault::CubeRefused(fault),
        }
    }
}

impl From<LayoutFault> for CommandFault {
    ghost use Rattle.run_files.specs.declared.fault.CommandFault.TheVariants.{Layout};

    ghost from_gives = { λ layout fault. fault ≡ Layout layout };

    fn from(fault: LayoutFault) -> CommandFault {
        CommandFault::Layout(fault)
    }
}

impl From<RunFault> for CommandFault {
    ghost use Rattle.run_files.specs.FaultSources.{of_run};

    ghost from_gives = { λ run fault. fault ≡ of_run run };

    fn from(fault: RunFault) -> CommandFault {
        match fault {
            RunFault::Layout(fault) => CommandFault::Layout(fault),
            RunFault::Memory => CommandFault::Memory,
            RunFault::Spawn(stream) => CommandFault::Spawn(stream),
            RunFault::Ring(stream) => CommandFault::Ring(stream),
        }
    }
}

impl CommandFault {
    /// The exit status.
    pub fn status(&self) -> u8
        ensures { result ≡ status_of self.now }
    {
        match self {
            CommandFault::Usage(_)
            | CommandFault::TwoCheckpoints
            | CommandFault::Sizes
            | CommandFault::Layout(LayoutFault::BadStreamCount | LayoutFault::RowTooLong) => 2,
            CommandFault::Refused(_) | CommandFault::CubeRefused(_) | CommandFault::Layout(_) => 4,
            CommandFault::Unread | CommandFault::CubeUnread | CommandFault::NotOpened(_) => 5,
            CommandFault::NotCreated | CommandFault::SizesUnread => 5,
            CommandFault::Spawn(_) | CommandFault::Ring(_) | CommandFault::Memory => 6,
            CommandFault::Unwritten => 7,
            CommandFault::NotSaved(_) => 9,
        }
    }

    /// Writes the message for this fault in the round with this number (from 1), without
    /// allocating. If the sink fails, a prefix of the message was written.
    pub fn write<W: Sink>(&self, round: u64, sink: &mut W) -> Result<(), WriteFault>
        requires running { W.has_failed sink.old ≡ false }
        ensures text { WritesText result (W.written sink.old) (W.written sink.new)
            (round_error_text round self.now) }
        ensures failed { W.has_failed sink.new ≡ is_err result }
    {
        match self {
            CommandFault::Usage(text) => write_all(text.as_str().as_bytes(), sink),
            _ => write_line(round, &self.cause(), sink),
        }
    }

    /// The cause that the fault's line gives.
    fn cause(&self) -> Cause<'_>
        ensures { cause_bytes result.text.now result.number result.rest.now ≡ cause_text self.now }
    {
        match self {
            CommandFault::Usage(text) => Cause::plain(text.as_str().as_bytes()),
            CommandFault::Unread => Cause::plain(b"cannot read formula"),
            CommandFault::Refused(fault) => formula_cause(*fault),
            CommandFault::CubeUnread => Cause::plain(b"cannot read assumptions"),
            CommandFault::CubeRefused(fault) => cube_cause(*fault),
            CommandFault::NotOpened(stream) => Cause::numbered(b"cannot open stream ", *stream),
            CommandFault::Layout(fault) => layout_cause(*fault),
            CommandFault::Spawn(stream) => Cause {
                rest: b" not started",
                ..Cause::numbered(b"worker ", *stream)
            },
            CommandFault::Ring(stream) => Cause::numbered(b"ring of stream ", *stream),
            CommandFault::Memory => Cause::plain(b"out of memory"),
            CommandFault::Unwritten => Cause::plain(b"cannot write report"),
            CommandFault::NotCreated => Cause::plain(b"cannot create checkpoint"),
            CommandFault::NotSaved(fault) => save_cause(*fault),
            CommandFault::TwoCheckpoints => {
                Cause::plain(b"--checkpoint and --rounds exclude each other")
            }
            CommandFault::SizesUnread => Cause::plain(b"cannot read sizes"),
            CommandFault::Sizes => Cause::plain(b"sizes"),
        }
    }
}

/// The cause in a line: a text, a number if there is one, and the rest.
#[derive(Clone, Copy)]
struct Cause<'a> {
    text: &'a [u8],
    number: Option<u64>,
    rest: &'a [u8],
}

impl<'a> Cause<'a> {
    /// A text without a number in it.
    fn plain(text: &'a [u8]) -> Cause<'a>
        ensures { cause_bytes result.text.now result.number result.rest.now ≡ text.now }
    {
        Cause {
            text,
            number: None,
            rest: b"",
        }
    }

    /// A text and a number.
    fn numbered(text: &'a [u8], number: u64) -> Cause<'a>
        ensures text { result.text.now ≡ text.now }
        ensures number { result.number ≡ Some number }
        ensures rest { result.rest.now ≡ [] }
    {
        Cause {
            text,
            number: Some(number),
            rest: b"",
        }
    }
}

/// Why the formula was refused.
fn formula_cause(fault: DimacsFault) -> Cause<'static>
    ensures { cause_bytes result.text.now result.number result.rest.now ≡ formula_fault_text fault }
{
    match fault {
        DimacsFault::NoHeader => Cause::plain(b"formula refused: no header"),
        DimacsFault::BadHeader => Cause::plain(b"formula refused: bad header"),
        DimacsFault::BadNumber(line) => {
            Cause::numbered(b"formula refused: bad number in line ", line)
        }
        DimacsFault::VariableRange(line) => {
            Cause::numbered(b"formula refused: variable out of range in line ", line)
        }
        DimacsFault::OpenClause => Cause::plain(b"formula refused: open clause"),
        DimacsFault::TooFew => Cause::plain(b"formula refused: too few clauses"),
        DimacsFault::TooMany(line) => {
            Cause::numbered(b"formula refused: too many clauses in line ", line)
        }
        DimacsFault::Limit => Cause::plain(b"formula refused: limit"),
        DimacsFault::Memory => Cause::plain(b"out of memory"),
    }
}

/// Why the assumed literals were refused.
fn cube_cause(fault: CubeFault) -> Cause<'static>
    ensures { cause_bytes result.text.now result.number result.rest.now ≡ cube_fault_text fault }
{
    match fault {
        CubeFault::Spelling => Cause::plain(b"assumptions refused: spelling"),
        CubeFault::TooLong => Cause::plain(b"assumptions refused: too long"),
        CubeFault::Range => Cause::plain(b"assumptions refused: variable out of range"),
        CubeFault::Memory => Cause::plain(b"out of memory"),
    }
}

/// Why there is no layout.
fn layout_cause(fault: LayoutFault) -> Cause<'static>
    ensures { cause_bytes result.text.now result.number result.rest.now ≡ layout_fault_text fault }
{
    match fault {
        LayoutFault::TooManyVariables | LayoutFault::TooManyClauses => {
            Cause::plain(b"formula refused: limit")
        }
        LayoutFault::BadStreamCount => Cause::plain(b"stream count"),
        LayoutFault::RowTooLong => Cause::plain(b"row too long"),
    }
}

/// Why the checkpoint wasn't saved.
fn save_cause(fault: SaveFault) -> Cause<'static>
    ensures { cause_bytes result.text.now result.number result.rest.now ≡ save_fault_text fault }
{
    match fault {
        SaveFault::Memory => Cause::plain(b"checkpoint not written: out of memory"),
        SaveFault::TooLarge => Cause::plain(b"checkpoint refused: limit"),
        SaveFault::Unwritten => Cause::plain(b"checkpoint not written"),
    }
}

/// Writes a line: the program's name, the round's number if it isn't 1, and the cause.
fn write_line<W: Sink>(round: u64, cause: &Cause<'_>, sink: &mut W) -> Result<(), WriteFault>
    requires running { W.has_failed sink.old ≡ false }
    ensures text { WritesText result (W.written sink.old) (W.written sink.new)
        (round_error_line round
        (cause_bytes cause.now.text.now cause.now.number cause.now.rest.now)) }
    ensures failed { W.has_failed sink.new ≡ is_err result }
{
    let mut buffer = WriteBuffer::new();
    buffer.put(b"lrupd: ", sink)?;
    put_round(&mut buffer, round, sink)?;
    put_cause(&mut buffer, cause, sink)?;
    buffer.put(b"\n", sink)?;
    buffer.flush(sink)
}

/// Writes the prefix that names the round, unless its number is 1.
fn put_round<W: Sink>(buffer: &mut WriteBuffer, round: u64, sink: &mut W) -> Result<(), WriteFault>
    requires running { W.has_failed sink.old ≡ false }
    ensures puts { PutsAll result (W.written sink.old) (W.written sink.new) buffer.old buffer.new
        (of_round round) }
    ensures failed { W.has_failed sink.new ≡ is_err result }
{
    if round == 1 {
        return Ok(());
    }
    buffer.put(b"round ", sink)?;
    buffer.put_number(round, sink)?;
    buffer.put(b": ", sink)
}

/// Writes the cause.
fn put_cause<W: Sink>(
    buffer: &mut WriteBuffer,
    cause: &Cause<'_>,
    sink: &mut W,
) -> Result<(), WriteFault>
    requires running { W.has_failed sink.old ≡ false }
    ensures puts { PutsAll result (W.written sink.old) (W.written sink.new) buffer.old buffer.new
        (cause_bytes cause.now.text.now cause.now.number cause.now.rest.now) }
    ensures failed { W.has_failed sink.new ≡ is_err result }
{
    buffer.put(cause.text, sink)?;
    put_if_any(buffer, cause.number, sink)?;
    buffer.put(cause.rest, sink)
}

/// Writes a number, if there is one.
fn put_if_any<W: Sink>(
    buffer: &mut WriteBuffer,
    number: Option<u64>,
    sink: &mut W,
) -> Result<(), WriteFault>
    requires running { W.has_failed sink.old ≡ false }
    ensures puts { PutsAll result (W.written sink.old) (W.written sink.new) buffer.old buffer.new
        (number_text number) }
    ensures failed { W.has_failed sink.new ≡ is_err result }
{
    match number {
        Some(number) => buffer.put_number(number, sink),
        None => Ok(()),
    }
}
