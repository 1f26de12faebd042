//! Reads the sizes of a round from their file.
ghost use Rattle.std.specs.Prelude.{◌≡◌, false, IfErr, IfNone, IfOk, IfSome, string_bytes};
ghost use Rattle.stream_check.specs.Readings.{readers_view};
ghost use Rattle.run_files.specs.Paths.{sizes_path};
ghost use Rattle.run_files.specs.Files.{AreSized};
ghost use Rattle.run_files.specs.Causes.{IsSizesCause};
ghost use Rattle.run_files.specs.internal.Reading.{IsUnsized, ReadsSizes};

use crate::fault::CommandFault;
use crate::files::{Machine, OpenFault, Viewed};
use crate::watching::open_watched_if_there;
use command_line::{Sizes, read_sizes};
use lrup_text::{ReadFault, Source};
use std::alloc::{AllocError, Global};
use std::sync::Wait;
use std::thread::Threads;

/// More bytes than any text of sizes has.
const MOST: usize = 64;

/// Reads the sizes of a round from their file, if there is one; otherwise returns `sizes`. It
/// blocks as long as an operation on the file does.
pub fn sizes_of_round<T: Threads + Wait + Sync, F: Machine>(
    threads: &T,
    alloc: Global,
    watch: bool,
    files: &mut F,
    folder: &str,
    number: u64,
    sizes: Sizes,
) -> Result<Sizes, CommandFault>
    ensures sized { IfOk result (λ new. AreSized ⟦<F as Viewed>⟧.effects
        (sizes_path folder.now number) sizes files.old new files.new) }
    ensures cause { IfErr result (λ fault. IsSizesCause ⟦<F as Viewed>⟧.effects files.old
        (sizes_path folder.now number) fault files.new) }
{
    let path = sizes_path(alloc, folder, number)?;
    match open_watched_if_there(threads, alloc, watch, files, path.as_str()) {
        Ok(None) => Ok(sizes),
        Ok(Some(mut source)) => sizes_in(alloc, &mut source),
        Err(OpenFault::NotOpened) => Err(CommandFault::SizesUnread),
        Err(OpenFault::Memory) => Err(CommandFault::Memory),
    }
}

/// The path of a round's sizes.
fn sizes_path(alloc: Global, folder: &str, number: u64) -> Result<String, AllocError>
    ensures { IfOk result (λ path. string_bytes path ≡ sizes_path folder.now number) }
{
    format!(in alloc; "{folder}/round-{number}.sizes")
}

/// Reads sizes from a file, at most 64 bytes of it.
fn sizes_in<S: Source>(alloc: Global, source: &mut S) -> Result<Sizes, CommandFault>
    requires running { S.has_failed source.old ≡ false }
    ensures sizes { IfOk result (ReadsSizes (readers_view S.Source) source.old) }
    ensures cause { IfErr result (IsUnsized (readers_view S.Source) source.old) }
{
    let mut bytes = Vec::with_capacity(alloc, MOST)?;
    let mut buffer = [0; MOST];
    while bytes.len() < MOST {
        let piece = &mut buffer[bytes.len()..];
        let count = match source.read(piece) {
            Ok(count) => count,
            Err(ReadFault) => return Err(CommandFault::SizesUnread),
        };
        if count == 0 {
            return match read_sizes(bytes.as_slice()) {
                Some(sizes) => Ok(sizes),
                None => Err(CommandFault::Sizes),
            };
        }
        bytes.extend_from_slice(&piece[..count])?;
    }
    Err(CommandFault::Sizes)
}
