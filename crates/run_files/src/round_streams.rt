//! Opens the streams of a later round.
ghost use Rattle.std.specs.Prelude.{◌≡◌, ◌<◌, ◌∷◌, List, false, IfErr, IfOk, IfSome, Ok, None, length, map, string_bytes};
ghost use Rattle.std.specs.List.{AllByRecursion};
ghost use Rattle.clap.specs.Walk.{texts};
ghost use Rattle.run_files.specs.Causes.{IsOpenCause, IsStreamCause};
ghost use Rattle.run_files.specs.Files.{AreOpened, StreamsOpened};
ghost use Rattle.run_files.specs.Paths.{stream_path, stream_paths};

use crate::fault::CommandFault;
use crate::files::{Machine, OpenFault, Viewed};
use crate::opening::open_streams;
use crate::watching::open_watched_if_there;
use std::alloc::{AllocError, Global};
use std::sync::Wait;
use std::thread::Threads;

/// Opens the streams of a round, if there is a file for its stream 1. It blocks as long as an
/// operation on a file does.
pub fn open_round<T: Threads + Wait + Sync, F: Machine>(
    threads: &T,
    alloc: Global,
    watch: bool,
    files: &mut F,
    folder: &str,
    number: u64,
    streams: u64,
) -> Result<Option<Vec<F::Input>>, CommandFault>
    requires some { 0 < streams }
    ensures opened { let its = ⟦<F as Viewed>⟧.effects in
        IfOk result (λ found. IfSome found (λ readers. StreamsOpened its files.old
        (stream_paths folder.now number streams) readers.items files.new)) }
    ensures running { IfOk result (λ found. IfSome found (λ readers.
        AllByRecursion (λ r. F.Input.Source.has_failed r ≡ false) readers.items)) }
    ensures count { IfOk result (λ found. IfSome found (λ readers.
        length readers.items ≡ streams)) }
    ensures lacks { result ≡ Ok None
        → F.lacks files.old (stream_path folder.now number 1) files.new }
    ensures cause { IfErr result
        (λ fault. IsStreamCause ⟦<F as Viewed>⟧.effects files.old folder.now
        number streams fault files.new) }
{
    let paths = stream_paths(alloc, folder, number, streams)?;
    let words = words_of(alloc, &paths)?;
    match open_watched_if_there(threads, alloc, watch, files, words[0]) {
        Ok(None) => Ok(None),
        Ok(Some(first)) => match open_others(threads, alloc, watch, files, first, &words[1..]) {
            Ok(readers) => Ok(Some(readers)),
            Err(fault) => Err(fault),
        },
        Err(OpenFault::NotOpened) => Err(CommandFault::NotOpened(1)),
        Err(OpenFault::Memory) => Err(CommandFault::Memory),
    }
}

/// Opens the streams after stream 1, in order, and puts their readers after stream 1's.
fn open_others<T: Threads + Wait + Sync, F: Machine>(
    threads: &T,
    alloc: Global,
    watch: bool,
    files: &mut F,
    first: F::Input,
    paths: &[&str],
) -> Result<Vec<F::Input>, CommandFault>
    requires running { F.Input.Source.has_failed first ≡ false }
    ensures readers { IfOk result (λ readers. (others : List F.Input)
        × (readers.items ≡ first ∷ others)
        × AreOpened F.opens files.old (texts paths.now) others files.new
        × (map F.Input.Source.left others ≡ map (F.contents files.old) (texts paths.now))) }
    ensures running { IfOk result (λ readers.
        AllByRecursion (λ r. F.Input.Source.has_failed r ≡ false) readers.items) }
    ensures cause { IfErr result (λ fault. IsOpenCause ⟦<F as Viewed>⟧.effects 1 files.old
        (texts paths.now) fault files.new) }
{
    let mut readers = match open_streams(threads, alloc, watch, files, paths) {
        Ok(readers) => readers,
        Err(CommandFault::NotOpened(stream)) => return Err(CommandFault::NotOpened(stream + 1)),
        Err(fault) => return Err(fault),
    };
    match readers.insert(0, first) {
        Ok(()) => Ok(readers),
        Err(_) => Err(CommandFault::Memory),
    }
}

/// The paths of a round's streams.
pub fn stream_paths(
    alloc: Global,
    folder: &str,
    number: u64,
    count: u64,
) -> Result<Vec<String>, AllocError>
    ensures { IfOk result (λ paths.
        map string_bytes paths.items ≡ stream_paths folder.now number count) }
{
    let mut paths = Vec::new(alloc);
    for before in 0..count {
        paths.push(stream_path(alloc, folder, number, before + 1)?)?;
    }
    Ok(paths)
}

/// The path of stream `stream` (from 1) of round `number`.
fn stream_path(alloc: Global, folder: &str, number: u64, stream: u64) -> Result<String, AllocError>
    ensures { IfOk result (λ path. string_bytes path ≡ stream_path folder.now number stream) }
{
    format!(in alloc; "{folder}/round-{number}.stream-{stream}")
}

/// The strings as slices.
pub fn words_of<'a>(alloc: Global, arguments: &'a [String]) -> Result<Vec<&'a str>, AllocError>
    ensures { IfOk result (λ words. texts words.items ≡ map string_bytes arguments.now) }
{
    let mut words = Vec::with_capacity(alloc, arguments.len())?;
    for argument in arguments {
        words.push_reserved(argument.as_str());
    }
    Ok(words)
}
