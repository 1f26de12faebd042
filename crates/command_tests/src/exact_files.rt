//! Files in memory whose contracts say exactly what each call does to them. For such files, the
//! contract of `command` implies what is at a checkpoint's path after the statuses 0, 3, 8 and 9,
//! and, after 3 and 8, which file a round kept last.
ghost use Rattle.std.specs.Prelude.{◌≡◌, ℕ, Some, option_map, string_bytes, true, false};
ghost use Rattle.clap.specs.Walk.{texts};
ghost use Rattle.command_tests.specs.ExactFiles.{ExactValue, text_at, text_or_none, FindsText, HasNoFile, RefusesOpening, IsCreated, RefusesNew, ClosesFile};
ghost use Rattle.command_tests.specs.ExactFiles.{IsKept, IsEmptied, IsUnsure, IsKeptInRounds};
ghost use Rattle.command_tests.specs.declared.exact_files.Closing.TheVariants.{Kept, Lost, Discarded};

use command::{Files, Machine, OpenFault, command};
use lrup_text::WriteFault;
use std::alloc::Global;
use std::marker::Model;
use std::sync::Wait;
use std::thread::Threads;
use std::time::Clock;
use test_support::{Paper, Pieces};

/// How the file that was created last was closed.
#[derive(Clone, Copy, Debug, PartialEq, Eq)]
pub enum Closing {
    /// It wasn't closed.
    Open,
    Kept,
    /// Keeping it failed.
    Lost,
    Discarded,
}

/// The formula at each path of one byte, the stream at each path of two bytes, the stream of round
/// 2 or the assumed literals, if there are any, at each path of 20 bytes, as `dir/round-2.stream-1`
/// and `dir/assumed-literals` are, and the file that was created last.
#[derive(Drop)]
pub struct ExactFiles<'a> {
    alloc: Global,
    formula: &'a str,
    stream: &'a str,
    next: Option<&'a str>,
    /// Whether keeping a file always fails.
    is_lossy: bool,
    /// Which write to a new file fails, counted from 1; 0 if no write fails.
    fails_at: usize,
    path: String,
    bytes: Vec<u8>,
    closing: Closing,
}

impl<'a> Model for ExactFiles<'a> {
    ghost use Rattle.std.specs.Prelude.{option_map, string_bytes};
    ghost use Rattle.command_tests.specs.ExactFiles.{ExactValue};

    ghost Value = { ExactValue };

    ghost view = { λ s. record { formula = s.formula.now; stream = s.stream.now; next = option_map (λ text. text.now) s.next; is_lossy = s.is_lossy; path = string_bytes s.path; bytes = s.bytes.items; closing = s.closing } };
}

impl<'a> ExactFiles<'a> {
    /// Files of these texts, before any file is created. Write number `fails_at` to a new file
    /// fails; if `fails_at` is 0, no write fails.
    pub fn new(
        alloc: Global,
        formula: &'a str,
        stream: &'a str,
        next: Option<&'a str>,
        is_lossy: bool,
        fails_at: usize,
    ) -> ExactFiles<'a>
        ensures formula { result.formula ≡ formula.now }
        ensures stream { result.stream ≡ stream.now }
        ensures next { result.next ≡ option_map (λ text. text.now) next.entry }
    {
        ExactFiles {
            alloc,
            formula,
            stream,
            next,
            is_lossy,
            fails_at,
            path: String::new(alloc),
            bytes: Vec::new(alloc),
            closing: Closing::Open,
        }
    }

    /// The path of the file that was created last, its bytes, and how it was closed.
    pub fn last(&self) -> (&str, &[u8], Closing)
        ensures { result.1.now ≡ self.now.bytes }
    {
        (self.path.as_str(), self.bytes.as_slice(), self.closing)
    }

    fn text_at(&self, path: &str) -> Option<&'a str>
        ensures { option_map (λ text. text.now) result ≡ text_at self.now path.now }
    {
        match path.len() {
            1 => Some(self.formula),
            2 => Some(self.stream),
            20 => self.next,
            _ => None,
        }
    }

    fn close(&mut self, output: Paper, closing: Closing)
        ensures { ClosesFile closing self.old output.bytes.items self.new }
    {
        self.bytes = output.bytes;
        self.closing = closing;
    }
}

impl<'a> Files for ExactFiles<'a> {
    type Input = Pieces<'a>;

    ghost contents = { λ files path. Some (text_or_none (text_at files path)) };

    ghost opens = { λ before path input after. FindsText before path input.left.now after };

    ghost refuses = { λ before path fault after. RefusesOpening before path fault after };

    fn open(&mut self, path: &str) -> Result<Pieces<'a>, OpenFault> {
        match self.text_at(path) {
            Some(text) => Ok(Pieces::new(text, 3, 0)),
            None => Err(OpenFault::NotOpened),
        }
    }
}

impl<'a> Machine for ExactFiles<'a> {
    type Output = Paper;

    type Watcher = Paper;

    ghost lacks = { λ before path after. HasNoFile before path after };

    ghost fails = { λ _ _ _ _. ⊥ };

    ghost creates = { λ before path output after.
        IsCreated before path output.bytes.items after };

    ghost refuses_new = { λ before path fault after. RefusesNew before path fault after };

    ghost keeps = { λ before output after.
        ClosesFile Kept before output.bytes.items after × (before.is_lossy ≡ false) };

    ghost loses = { λ before output after.
        ClosesFile Lost before output.bytes.items after × (before.is_lossy ≡ true) };

    ghost discards = { λ before output after.
        ClosesFile Discarded before output.bytes.items after };

    fn open_if_there(&mut self, path: &str) -> Result<Option<Pieces<'a>>, OpenFault> {
        match self.text_at(path) {
            Some(text) => Ok(Some(Pieces::new(text, 3, 0))),
            None => Ok(None),
        }
    }

    fn create(&mut self, path: &str) -> Result<Paper, OpenFault> {
        if self.text_at(path).is_some() {
            return Err(OpenFault::NotOpened);
        }
        let Ok(name) = String::from_str(self.alloc, path) else {
            return Err(OpenFault::Memory);
        };
        self.path = name;
        self.bytes = Vec::new(self.alloc);
        self.closing = Closing::Open;
        Ok(Paper::new(self.alloc, 7, self.fails_at))
    }

    fn keep(&mut self, output: Paper) -> Result<(), WriteFault> {
        if self.is_lossy {
            self.close(output, Closing::Lost);
            return Err(WriteFault);
        }
        self.close(output, Closing::Kept);
        Ok(())
    }

    fn discard(&mut self, output: Paper) {
        self.close(output, Closing::Discarded);
    }

    fn watcher(&self) -> Paper {
        Paper::new(self.alloc, 7, 0)
    }
}

/// Runs the program over these files. What is at the checkpoint's path afterwards follows from the
/// contract of `command` only.
pub fn run_exactly<T: Threads + Wait + Sync + Clock>(
    threads: &T,
    alloc: Global,
    words: &[&str],
    files: &mut ExactFiles<'_>,
) -> u8
    // From `saved`.
    ensures kept { IsKept (texts words.now) files.old files.new result }
    // From `none_saved`.
    ensures emptied { IsEmptied (texts words.now) files.old files.new result }
    // From `ends`.
    ensures unsure { IsUnsure (texts words.now) files.old files.new result }
    // From `saved_rounds`.
    ensures rounds { IsKeptInRounds (texts words.now) files.old files.new result }
{
    let mut out = Paper::new(alloc, 7, 0);
    let mut err = Paper::new(alloc, 7, 0);
    command(threads, threads, alloc, words, files, &mut out, &mut err)
}
