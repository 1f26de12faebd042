//! Files in memory, by path. As with the machine's files, contracts don't know the files' bytes,
//! and allow the files to behave in any way.
ghost use Rattle.std.specs.Prelude.{◌≡◌, None, Some, false, true};
ghost use Rattle.lrup_text.specs.Reads.{GivesLeft};

use super::FOUR;
use super::readings::Reads;
use super::watching::{WatchLog, Watcher};
use command::{Files, Machine, OpenFault};
use lrup_text::{ReadFault, Source, WriteFault};
use std::alloc::Global;
use test_support::{Paper, Pieces};

/// What is at a path.
#[derive(Clone, Copy)]
pub(super) enum Thing<'a> {
    Text(&'a str),
    /// A text; the read with this number (from 1) fails.
    Failing(&'a str, usize),
    /// A file that can't be opened.
    Refused,
    /// A file; opening or creating it runs out of memory.
    Full,
    /// Nothing; a file that is created there fails at the write with this number (from 1).
    Breaking(usize),
    /// Nothing; keeping a file that is created there fails.
    Lost,
}

/// What a run gets besides its words.
#[derive(Clone, Copy)]
pub(super) struct Setup<'a> {
    /// The text at `f`.
    pub(super) formula: &'a str,
    /// The text at `a`.
    pub(super) assumed: &'a str,
    /// The texts at `1`, `2` and so on up to `9`.
    pub(super) streams: &'a [&'a str],
    /// What is at other paths, or in place of the files above.
    pub(super) things: &'a [(&'a str, Thing<'a>)],
    /// The most bytes that a read gives.
    pub(super) most: usize,
    pub(super) out_fails_at: usize,
    pub(super) err_fails_at: usize,
    pub(super) reads: Option<&'a Reads>,
    pub(super) watched: Option<&'a WatchLog>,
}

/// The four clauses, a cube, and no stream.
pub(super) const SETUP: Setup = Setup {
    formula: FOUR,
    assumed: "-2 0\n",
    streams: &[],
    things: &[],
    most: 3,
    out_fails_at: 0,
    err_fails_at: 0,
    reads: None,
    watched: None,
};

const STREAM_PATHS: [&str; 9] = ["1", "2", "3", "4", "5", "6", "7", "8", "9"];

impl<'a> Setup<'a> {
    /// The four clauses, and these streams.
    pub(super) fn of(streams: &'a [&'a str]) -> Setup<'a> {
        Setup { streams, ..SETUP }
    }

    /// This setup, with these things.
    pub(super) fn with(self, things: &'a [(&'a str, Thing<'a>)]) -> Setup<'a> {
        Setup { things, ..self }
    }

    /// This setup, in which one write to standard output and one to standard error fail: the writes
    /// with these numbers, counted from 1. For 0, no write fails.
    pub(super) fn failing(self, out_fails_at: usize, err_fails_at: usize) -> Setup<'a> {
        Setup {
            out_fails_at,
            err_fails_at,
            ..self
        }
    }

    fn thing_at(&self, path: &str) -> Option<Thing<'a>> {
        for &(name, thing) in self.things {
            if name == path {
                return Some(thing);
            }
        }
        for (name, text) in STREAM_PATHS.iter().zip(self.streams) {
            if *name == path {
                return Some(Thing::Text(text));
            }
        }
        match path {
            "f" => Some(Thing::Text(self.formula)),
            "a" => Some(Thing::Text(self.assumed)),
            _ => None,
        }
    }
}

/// An open file.
#[derive(Drop)]
pub(super) struct OpenFile<'a> {
    pub(super) text: Pieces<'a>,
    reads: Option<&'a Reads>,
}

impl<'a> OpenFile<'a> {
    /// An open file with this text. Read number `fails_at`, counted from 1, fails; if `fails_at` is
    /// 0, no read fails.
    pub(super) fn new(setup: &Setup<'a>, text: &'a str, fails_at: usize) -> OpenFile<'a>
        ensures left { result.text.left.now ≡ text.now }
        ensures running { result.text.failed ≡ false }
    {
        OpenFile {
            text: Pieces::new(text, setup.most, fails_at),
            reads: setup.reads,
        }
    }
}

impl Source for OpenFile<'_> {
    ghost left = { λ _. None };

    ghost has_failed = { λ f. f.text.failed };

    ghost reads = { λ before room given after.
        GivesLeft (Some before.text.left.now) room given (Some after.text.left.now) };

    fn read(&mut self, buffer: &mut [u8]) -> Result<usize, ReadFault> {
        if let Some(reads) = self.reads {
            reads.count(buffer.len());
        }
        self.text.read(buffer)
    }

    fn failed(&self) -> bool {
        self.text.failed()
    }
}

/// The files of a setup, and what was done to them.
#[derive(Drop)]
pub(super) struct Shelf<'a> {
    alloc: Global,
    setup: Setup<'a>,
    /// The effects in order: a path for an opening, with `?` before it if nothing was found there,
    /// with `+` for creating, `=` for keeping, `-` for discarding; each effect is followed by a
    /// space.
    pub(super) done: String,
    /// The path of the file that was created last.
    new: String,
    /// The bytes of the kept files, in order.
    pub(super) kept: Vec<u8>,
    /// How many bytes went to files that weren't kept.
    pub(super) unkept: usize,
    /// How many files were created, but neither kept nor discarded.
    pub(super) unclosed: usize,
}

/// Notes an effect: its sign, and the path.
fn note(done: &mut String, sign: &str, path: &str) -> Result<(), OpenFault> {
    if done.push_str(sign).is_err() || done.push_str(path).is_err() || done.push(' ').is_err() {
        return Err(OpenFault::Memory);
    }
    Ok(())
}

impl<'a> Shelf<'a> {
    /// Reserves space, unless that allocation fails, so that the effects of a few rounds are noted
    /// without allocating.
    pub(super) fn new(alloc: Global, setup: Setup<'a>) -> Shelf<'a> {
        Shelf {
            alloc,
            setup,
            done: String::with_capacity(alloc, 512).unwrap_or(String::new(alloc)),
            new: String::new(alloc),
            kept: Vec::new(alloc),
            unkept: 0,
            unclosed: 0,
        }
    }

    fn close(&mut self, sign: &str) -> Result<(), OpenFault> {
        self.unclosed = self.unclosed.saturating_sub(1);
        note(&mut self.done, sign, self.new.as_str())
    }
}

impl<'a> Files for Shelf<'a> {
    type Input = OpenFile<'a>;

    ghost contents = { λ _ _. None };

    ghost opens = { λ _ _ _ _. Unit {0} };

    ghost refuses = { λ _ _ _ _. Unit {0} };

    fn open(&mut self, path: &str) -> Result<OpenFile<'a>, OpenFault> {
        note(&mut self.done, "", path)?;
        match self.setup.thing_at(path) {
            Some(Thing::Text(text)) => Ok(OpenFile::new(&self.setup, text, 0)),
            Some(Thing::Failing(text, read)) => Ok(OpenFile::new(&self.setup, text, read)),
            Some(Thing::Full) => Err(OpenFault::Memory),
            _ => Err(OpenFault::NotOpened),
        }
    }
}

impl<'a> Machine for Shelf<'a> {
    type Output = Paper;

    type Watcher = Watcher<'a>;

    ghost lacks = { λ _ _ _. Unit {0} };

    ghost fails = { λ _ _ _ _. Unit {0} };

    ghost creates = { λ _ _ _ _. Unit {0} };

    ghost refuses_new = { λ _ _ _ _. Unit {0} };

    ghost keeps = { λ _ _ _. Unit {0} };

    ghost loses = { λ _ _ _. Unit {0} };

    ghost discards = { λ _ _ _. Unit {0} };

    fn open_if_there(&mut self, path: &str) -> Result<Option<OpenFile<'a>>, OpenFault> {
        if let Some(log) = self.setup.watched {
            log.go_on();
        }
        if self.setup.thing_at(path).is_none() {
            note(&mut self.done, "?", path)?;
            return Ok(None);
        }
        Ok(Some(self.open(path)?))
    }

    fn create(&mut self, path: &str) -> Result<Paper, OpenFault> {
        note(&mut self.done, "+", path)?;
        let fails_at = match self.setup.thing_at(path) {
            None | Some(Thing::Lost) => 0,
            Some(Thing::Breaking(write)) => write,
            Some(Thing::Full) => return Err(OpenFault::Memory),
            Some(_) => return Err(OpenFault::NotOpened),
        };
        let Ok(new) = String::from_str(self.alloc, path) else {
            return Err(OpenFault::Memory);
        };
        self.new = new;
        self.unclosed = self.unclosed.saturating_add(1);
        Ok(Paper::new(self.alloc, 7, fails_at))
    }

    fn keep(&mut self, file: Paper) -> Result<(), WriteFault> {
        let is_lost = matches!(self.setup.thing_at(self.new.as_str()), Some(Thing::Lost));
        let noted = self.close("=");
        if noted.is_err() || is_lost || self.kept.extend_from_slice(&file.bytes).is_err() {
            self.unkept = self.unkept.saturating_add(file.bytes.len());
            return Err(WriteFault);
        }
        Ok(())
    }

    fn discard(&mut self, file: Paper) {
        let _ = self.close("-");
        self.unkept = self.unkept.saturating_add(file.bytes.len());
    }

    fn watcher(&self) -> Watcher<'a> {
        Watcher::new(self.setup.watched)
    }
}
