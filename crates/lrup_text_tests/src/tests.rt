//! Handwritten lines and cubes, devices, and the results of each.
ghost use Rattle.std.specs.Prelude.{IsTrue};

use lrup_text::{Line, LineFault, ReaderStatus};
use std::alloc::{AllocError, Global};
use std::fmt;
use std::process::Abort;

mod cube_texts;
mod cubes;
mod devices;
mod reading;
mod writing;

/// Stops the test if two values differ. This is a function, so the assertion is proved only once.
fn same<T: PartialEq + fmt::Debug + Drop>(rt: &impl Abort, value: T, wanted: T) {
    assert_eq!(rt; value, wanted);
}

/// Stops the test if the fact is false.
fn holds(rt: &impl Abort, fact: bool)
    ensures { IsTrue fact }
{
    assert!(rt; fact);
}

/// Checks a fault's text.
fn has_text<F: fmt::Display>(
    rt: &impl Abort,
    alloc: Global,
    fault: &F,
    text: &str,
) -> Result<(), AllocError> {
    same(rt, fault.to_string(alloc)?.as_str(), text);
    Ok(())
}

/// What a reader returns: the numbers of a line, or why there is no line.
#[derive(Clone, Copy)]
enum Given<'a> {
    Add(u64, &'a [i64], &'a [u64]),
    Delete(u64, &'a [u64]),
    Import(u64, &'a [i64]),
    More,
    Bad(LineFault),
}

impl<'a> Given<'a> {
    fn status(self) -> ReaderStatus<'a> {
        match self {
            Given::Add(id, lits, hints) => ReaderStatus::Line(Line::Add { id, lits, hints }),
            Given::Delete(lead, ids) => ReaderStatus::Line(Line::Delete { lead, ids }),
            Given::Import(id, lits) => ReaderStatus::Line(Line::Import { id, lits }),
            Given::More => ReaderStatus::NeedMore,
            Given::Bad(fault) => ReaderStatus::Fault(fault),
        }
    }

    fn line(self) -> Option<Line<'a>> {
        match self.status() {
            ReaderStatus::Line(line) => Some(line),
            _ => None,
        }
    }
}

/// A beginning, a part `count` times, and an end.
fn repeated(
    alloc: Global,
    (start, part, end): (&str, &str, &str),
    count: usize,
) -> Result<String, AllocError> {
    let parts = part.repeat(alloc, count)?;
    format!(in alloc; "{start}{parts}{end}")
}
