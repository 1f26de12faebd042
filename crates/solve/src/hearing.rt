//! Hears the helper.
ghost use Rattle.solve.specs.Printing.{PrintsComments};

use crate::helper::HelperOutput;
use crate::lines::Lines;
use crate::model::Signs;
use crate::printing::print_comment;
use crate::request::{Request, request_of};
use lrup_text::Sink;
use std::alloc::Global;
use std::sync::Wait;

/// Hears the helper's lines until one asks for a check, which is returned, or there are no more. It
/// prints the comments, unless they are unwanted or the sink has failed, and collects the signs of
/// the model.
pub(crate) fn listen<W: Wait, H: HelperOutput, O: Sink>(
    wait: &W,
    alloc: Global,
    quiet: bool,
    lines: &mut Lines<H>,
    signs: &mut Signs,
    out: &mut O,
) -> Option<Request>
    ensures { PrintsComments O.Sink out.old out.new }
{
    let mut line = Vec::new(alloc);
    for _ in wait.forever() {
        if !lines.read_line(wait, &mut line) {
            return None;
        }
        if let Some(request) = hear(alloc, quiet, line.as_mut_slice(), signs, out) {
            return Some(request);
        }
    }
    unreachable!()
}

/// Hears a line. Returns the request, if it is one.
fn hear<O: Sink>(
    alloc: Global,
    quiet: bool,
    line: &mut [u8],
    signs: &mut Signs,
    out: &mut O,
) -> Option<Request>
    ensures { PrintsComments O.Sink out.old out.new }
{
    match kind_of(line) {
        Kind::Check => request_of(alloc, line),
        Kind::Comment => {
            hear_comment(quiet, after_word(line), out);
            None
        }
        Kind::Signs => {
            signs.take(after_word(line));
            None
        }
        Kind::Model => {
            signs.end();
            None
        }
        Kind::Other => None,
    }
}

/// Prints a comment, if it is wanted.
fn hear_comment<O: Sink>(quiet: bool, words: &mut [u8], out: &mut O)
    ensures { PrintsComments O.Sink out.old out.new }
{
    if quiet {
        return;
    }
    print_comment(words, out)
}

/// What a line of the helper's is.
#[derive(Clone, Copy)]
enum Kind {
    /// `check ..` asks for a check.
    Check,
    /// `c WORDS` is a comment.
    Comment,
    /// `v SIGNS` has the signs of the next variables: + and -.
    Signs,
    /// `model`: the signs are whole.
    Model,
    /// Any other line is ignored.
    Other,
}

/// What the line is.
fn kind_of(line: &[u8]) -> Kind {
    if line.starts_with(b"check ") {
        return Kind::Check;
    }
    if line.starts_with(b"c ") {
        return Kind::Comment;
    }
    if line.starts_with(b"v ") {
        return Kind::Signs;
    }
    if line == b"model".as_slice() {
        return Kind::Model;
    }
    Kind::Other
}

/// The bytes after a word of one letter and a blank.
fn after_word(line: &mut [u8]) -> &mut [u8] {
    let start = line.len().min(2);
    &mut line[start..]
}
