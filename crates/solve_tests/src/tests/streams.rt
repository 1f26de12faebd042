//! Streams in memory, by path. Contracts don't know their bytes.
ghost use Rattle.std.specs.Prelude.{None, false};

use command::{Files, Machine, OpenFault};
use lrup_text::{ReadFault, Source, WriteFault};
use std::alloc::Global;
use test_support::Paper;

/// The paths and texts of streams.
#[derive(Drop)]
pub(super) struct Streams<'a> {
    alloc: Global,
    texts: &'a [(&'a str, &'a str)],
}

impl<'a> Streams<'a> {
    pub(super) fn new(alloc: Global, texts: &'a [(&'a str, &'a str)]) -> Streams<'a> {
        Streams { alloc, texts }
    }

    fn text_at(&self, path: &str) -> Option<OpenFile<'a>> {
        for (name, text) in self.texts {
            if *name == path {
                return Some(OpenFile {
                    left: text.as_bytes(),
                });
            }
        }
        None
    }
}

/// An open stream.
#[derive(Drop)]
pub(super) struct OpenFile<'a> {
    left: &'a [u8],
}

impl Source for OpenFile<'_> {
    ghost left = { λ _. None };

    ghost has_failed = { λ _. false };

    ghost reads = { λ _ _ _ _. Unit {0} };

    fn read(&mut self, buffer: &mut [u8]) -> Result<usize, ReadFault> {
        let count = buffer.len().min(self.left.len());
        let (front, rest) = self.left.split_at(count);
        buffer[..count].copy_from_slice(front);
        self.left = rest;
        Ok(count)
    }

    fn failed(&self) -> bool {
        false
    }
}

impl<'a> Files for Streams<'a> {
    type Input = OpenFile<'a>;

    ghost contents = { λ _ _. None };

    ghost opens = { λ _ _ _ _. Unit {0} };

    ghost refuses = { λ _ _ _ _. Unit {0} };

    fn open(&mut self, path: &str) -> Result<OpenFile<'a>, OpenFault> {
        self.text_at(path).ok_or(OpenFault::NotOpened)
    }
}

impl<'a> Machine for Streams<'a> {
    type Output = Paper;

    type Watcher = Paper;

    ghost lacks = { λ _ _ _. Unit {0} };

    ghost fails = { λ _ _ _ _. Unit {0} };

    ghost creates = { λ _ _ _ _. Unit {0} };

    ghost refuses_new = { λ _ _ _ _. Unit {0} };

    ghost keeps = { λ _ _ _. Unit {0} };

    ghost loses = { λ _ _ _. Unit {0} };

    ghost discards = { λ _ _ _. Unit {0} };

    fn open_if_there(&mut self, path: &str) -> Result<Option<OpenFile<'a>>, OpenFault> {
        Ok(self.text_at(path))
    }

    fn create(&mut self, _path: &str) -> Result<Paper, OpenFault> {
        Ok(Paper::new(self.alloc, 7, 0))
    }

    fn keep(&mut self, _output: Paper) -> Result<(), WriteFault> {
        Ok(())
    }

    fn discard(&mut self, _output: Paper) {}

    fn watcher(&self) -> Paper {
        Paper::new(self.alloc, 7, 0)
    }
}
