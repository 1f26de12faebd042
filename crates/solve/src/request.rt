//! What the helper asks for by the line `check STREAMS LINES ROOM TRIES FOLDER`. Whatever it says,
//! it only chooses how the formula is checked.
ghost use Rattle.std.specs.Prelude.{◌≡◌, ◌↔◌, ◌≤◌, IfSome, IsTrue, None, Some, false, string_bytes};
ghost use Rattle.std.specs.List.{AllByRecursion};
ghost use Rattle.clap.specs.Walk.{texts};
ghost use Rattle.command_line.specs.CommandLine.{checkpoint_of, rounds_of};
ghost use Rattle.command_line.specs.Sizes.{AreWithinSizes};
ghost use Rattle.stream_check.specs.StreamParams.{max_tries};
ghost use Rattle.solve.specs.Requests.{IsPath, IsPathByte};

use command_line::{CommandLine, Next, Paths, Sizes};
use std::alloc::Global;

/// The largest number of streams.
const MAX_STREAMS: u64 = 64;

/// The largest number of lines, and the largest room.
const MAX_SIZE: u64 = 268_435_456;

/// The largest number of tries.
const MAX_TRIES: u64 = 1_000_000;

/// A check that the helper asks for: of the streams that are in a folder.
#[derive(Drop)]
pub(crate) struct Request {
    pub(crate) sizes: Sizes,
    pub(crate) tries: u64,
    pub(crate) folder: String,
    ghost within: { AreWithinSizes sizes },
    ghost few: { tries ≤ max_tries },
}

/// The request that a line is; `None` if it isn't one, a number is out of its range, the folder's
/// name is empty or has a control character, or memory runs out.
pub(crate) fn request_of(alloc: Global, line: &[u8]) -> Option<Request>
    ensures { IfSome result (λ request. IsPath (string_bytes request.folder)) }
{
    let Ok(line) = str::from_utf8(line) else {
        return None;
    };
    let mut parts = line.splitn(6, ' ');
    let (Some(word), Some(streams), Some(lines), Some(room), Some(tries), Some(folder)) = (
        parts.next(),
        parts.next(),
        parts.next(),
        parts.next(),
        parts.next(),
        parts.next(),
    ) else {
        return None;
    };
    if word != "check" || !is_path(folder) {
        return None;
    }
    let streams = number(streams, 1, MAX_STREAMS)?;
    let lines = number(lines, 0, MAX_SIZE)?;
    let room = number(room, 0, MAX_SIZE)?;
    let tries = number(tries, 0, MAX_TRIES)?;
    let folder = copy(alloc, folder)?;
    Some(Request {
        sizes: Sizes {
            streams,
            lines,
            room,
        },
        tries,
        folder,
    })
}

/// The number that the word is, if it is within this range.
fn number(word: &str, least: u64, most: u64) -> Option<u64>
    ensures least { IfSome result (λ number. least ≤ number) }
    ensures most { IfSome result (λ number. number ≤ most) }
{
    let Ok(number) = word.parse::<u64>() else {
        return None;
    };
    if least <= number && number <= most {
        Some(number)
    } else {
        None
    }
}

/// Whether the word is a path without control characters.
fn is_path(word: &str) -> bool
    ensures { IsTrue result ↔ IsPath word.now }
{
    !word.is_empty() && word.as_bytes().iter().all(|byte| is_path_byte(*byte))
}

/// Whether the byte is none of a control character in ASCII.
fn is_path_byte(byte: u8) -> bool
    ensures { IsTrue result ↔ IsPathByte byte }
{
    byte >= b' ' && byte != 127
}

/// A copy of the word, if there is memory for it.
fn copy(alloc: Global, word: &str) -> Option<String>
    ensures { IfSome result (λ copy. string_bytes copy ≡ word.now) }
{
    format!(in alloc; "{word}").ok()
}

/// The command line of the check that was requested, for these streams. Only numbers and the folder
/// come from the helper: nothing is assumed but what the caller assumes, no checkpoint is asked
/// for, and no formula is named.
pub(crate) fn line_of<'a>(
    request: &'a Request,
    streams: Vec<&'a str>,
    watch: bool,
) -> CommandLine<'a>
    ensures tries { result.tries ≡ request.now.tries }
    ensures assume { result.assume ≡ None }
    ensures checkpoint { checkpoint_of result.next ≡ None }
    ensures rounds { rounds_of result.next ≡ Some (string_bytes request.now.folder) }
    ensures streams { result.streams ≡ texts streams.entry.items }
{
    CommandLine {
        tries: request.tries,
        lines: request.sizes.lines,
        room: request.sizes.room,
        assume: None,
        next: Next::Rounds(request.folder.as_str()),
        serial: false,
        watch,
        formula: "",
        streams: Paths::new(streams),
    }
}
