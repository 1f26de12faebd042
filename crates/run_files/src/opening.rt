//! Reads the files that the words name, and opens the streams.
ghost use Rattle.std.specs.Prelude.{◌≡◌, ◌<◌, false, IfErr, IfOk, Some, map};
ghost use Rattle.std.specs.List.{AllByRecursion};
ghost use Rattle.std.specs.Option.{ForSome};
ghost use Rattle.clap.specs.Walk.{texts};
ghost use Rattle.command_line.specs.CommandLine.{IsCommandLineOf};
ghost use Rattle.lrup_text.specs.Reads.{GaveAll};
ghost use Rattle.run_files.specs.Files.{AreAssumed, AreOpened, IsFormulaAt, WasReadIn, WereRead};
ghost use Rattle.run_files.specs.Causes.{IsAssumeCause, IsCause, IsFileCause, IsOpenCause, IsReadCause};
ghost use Rattle.run_files.specs.internal.Reading.{IsFailedRead, of_cube_file};
ghost use Rattle.run_files.specs.Asked.{path_of};
ghost use Rattle.stream_check.specs.Readings.{readers_view};

use crate::fault::CommandFault;
use crate::files::{Machine, OpenFault, Viewed};
use crate::watching::open_watched;
use command_line::{CommandLine, read_words};
use lrup_model::{Cube, Formula};
use lrup_text::{PIECE, Source, read_cube};
use std::alloc::Global;
use std::sync::Wait;
use std::thread::Threads;

/// A command line, and what was read from the files of its formula and of its assumed literals.
#[derive(Drop)]
pub struct Asked<'a> {
    /// What the words ask for.
    pub line: CommandLine<'a>,
    pub formula: Formula,
    /// The assumed literals.
    pub cube: Cube,
}

/// Parses the words, reads the formula's file and parses it, and then reads and parses the file of
/// the assumed literals, if there is one. It blocks as long as an operation on a file does.
pub fn read_asked<'a, T: Threads + Wait + Sync, F: Machine>(
    threads: &T,
    alloc: Global,
    words: &'a [&'a str],
    files: &mut F,
) -> Result<Asked<'a>, CommandFault>
    ensures line { IfOk result (λ asked. IsCommandLineOf (texts words.now) asked.line) }
    ensures read { IfOk result (λ asked. WereRead (⟦<F as Viewed>⟧.view files.old) asked.line
        asked.formula asked.cube files.new) }
    ensures cause { IfErr result (λ fault. IsCause (⟦<F as Viewed>⟧.view files.old)
        (texts words.now) fault files.new) }
    ensures stays { F.contents files.new ≡ F.contents files.old }
{
    let line = read_words(alloc, words)?;
    let formula = read_formula(threads, alloc, &line, files)?;
    let cube = read_assumed(threads, alloc, line.watch, files, line.assume, &formula)?;
    Ok(Asked {
        line,
        formula,
        cube,
    })
}

/// Opens, reads and parses the formula's file, and frees its text.
fn read_formula<T: Threads + Wait + Sync, F: Machine>(
    threads: &T,
    alloc: Global,
    line: &CommandLine<'_>,
    files: &mut F,
) -> Result<Formula, CommandFault>
    ensures formula { IfOk result (λ formula. IsFormulaAt (⟦<F as Viewed>⟧.view files.old)
        line.now.formula.now formula files.new) }
    ensures cause { IfErr result (λ fault. IsReadCause (⟦<F as Viewed>⟧.view files.old)
        line.now fault files.new) }
    ensures stays { F.contents files.new ≡ F.contents files.old }
{
    let bytes = read_file(threads, alloc, line.watch, files, line.formula)?;
    Ok(dimacs::parse(alloc, &bytes)?)
}

/// Opens, reads and parses the file of the assumed literals, whose variables must be the formula's.
/// Without a path, no literals are assumed.
fn read_assumed<T: Threads + Wait + Sync, F: Machine>(
    threads: &T,
    alloc: Global,
    watch: bool,
    files: &mut F,
    path: Option<&str>,
    formula: &Formula,
) -> Result<Cube, CommandFault>
    ensures cube { IfOk result (λ cube. AreAssumed (WasReadIn (⟦<F as Viewed>⟧.view files.old))
        formula.now.vars files.old (path_of path.entry) cube files.new) }
    ensures cause { IfErr result (λ fault. IsAssumeCause (⟦<F as Viewed>⟧.view files.old)
        formula.now.vars files.old (path_of path.entry) fault files.new) }
    ensures stays { F.contents files.new ≡ F.contents files.old }
{
    match path {
        None => Ok(Cube::empty(alloc)),
        Some(path) => read_cube_at(threads, alloc, watch, files, path, formula),
    }
}

/// Opens, reads and parses a cube's file.
fn read_cube_at<T: Threads + Wait + Sync, F: Machine>(
    threads: &T,
    alloc: Global,
    watch: bool,
    files: &mut F,
    path: &str,
    formula: &Formula,
) -> Result<Cube, CommandFault>
    ensures cube { IfOk result (λ cube. AreAssumed (WasReadIn (⟦<F as Viewed>⟧.view files.old))
        formula.now.vars files.old (Some path.now) cube files.new) }
    ensures cause { IfErr result (λ fault. IsAssumeCause (⟦<F as Viewed>⟧.view files.old)
        formula.now.vars files.old (Some path.now) fault files.new) }
    ensures stays { F.contents files.new ≡ F.contents files.old }
{
    match read_file(threads, alloc, watch, files, path) {
        Ok(bytes) => Ok(read_cube(alloc, &bytes, formula.vars())?),
        Err(fault) => Err(of_cube_file(fault)),
    }
}

/// Turns a fault in reading the formula's file into the same fault of a cube's file.
fn of_cube_file(fault: CommandFault) -> CommandFault
    ensures { result ≡ of_cube_file fault }
{
    match fault {
        CommandFault::Unread => CommandFault::CubeUnread,
        other => other,
    }
}

/// Opens a file and reads it to its end.
fn read_file<T: Threads + Wait + Sync, F: Machine>(
    threads: &T,
    alloc: Global,
    watch: bool,
    files: &mut F,
    path: &str,
) -> Result<Vec<u8>, CommandFault>
    ensures bytes { IfOk result (λ bytes. WasReadIn (⟦<F as Viewed>⟧.view files.old) files.old
        path.now bytes.items files.new) }
    ensures cause { IfErr result (λ fault. IsFileCause (⟦<F as Viewed>⟧.view files.old) files.old
        path.now fault files.new) }
    ensures stays { F.contents files.new ≡ F.contents files.old }
{
    let mut source = open_watched(threads, alloc, watch, files, path)?;
    read_all(threads, alloc, &mut source, PIECE)
}

/// Reads a source to its end, at most `most` bytes at a time.
fn read_all<W: Wait, S: Source>(
    wait: &W,
    alloc: Global,
    source: &mut S,
    most: usize,
) -> Result<Vec<u8>, CommandFault>
    requires running { S.has_failed source.old ≡ false }
    requires some { 0 < most }
    ensures gave { IfOk result (λ bytes. GaveAll _ S.reads source.old bytes.items) }
    ensures all { IfOk result (λ bytes. ForSome (S.left source.old) (λ all. all ≡ bytes.items)) }
    ensures fault { IfErr result
        (IsFailedRead (readers_view S.Source) source.old) }
{
    let mut bytes = Vec::new(alloc);
    let mut buffer = vec![in alloc; 0; most]?;
    let piece = buffer.as_mut_slice();
    for _ in wait.forever() {
        let count = source.read(piece)?;
        if count == 0 {
            break;
        }
        bytes.extend_from_slice(&piece[..count])?;
    }
    Ok(bytes)
}

/// Opens the files of the streams, in order. It blocks as long as an operation on a file does.
pub fn open_streams<T: Threads + Wait + Sync, F: Machine>(
    threads: &T,
    alloc: Global,
    watch: bool,
    files: &mut F,
    paths: &[&str],
) -> Result<Vec<F::Input>, CommandFault>
    ensures left { IfOk result (λ readers.
        map F.Input.Source.left readers.items ≡ map (F.contents files.old) (texts paths.now)) }
    ensures opened { IfOk result (λ readers.
        AreOpened F.opens files.old (texts paths.now) readers.items files.new) }
    ensures running { IfOk result (λ readers.
        AllByRecursion (λ r. F.Input.Source.has_failed r ≡ false) readers.items) }
    ensures cause { IfErr result (λ fault. IsOpenCause ⟦<F as Viewed>⟧.effects 0 files.old
        (texts paths.now) fault files.new) }
{
    let mut readers = Vec::with_capacity(alloc, paths.len())?;
    for path in paths {
        match open_watched(threads, alloc, watch, files, path) {
            Ok(reader) => readers.push_reserved(reader),
            Err(OpenFault::NotOpened) => {
                return Err(CommandFault::NotOpened(readers.len() as u64 + 1));
            }
            Err(OpenFault::Memory) => return Err(CommandFault::Memory),
        }
    }
    Ok(readers)
}
