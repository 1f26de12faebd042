//! Where the formula, the assumed literals and the streams come from, and where a checkpoint goes.
ghost use Rattle.std.specs.Prelude.{◌≡◌, ℕ, List, [], Option, None, IfErr, IfOk, IfSome, Ok, false};
ghost use Rattle.std.specs.Option.{ForSome};

use lrup_text::{Sink, Source, WriteFault};
use std::io;
use thiserror::Error;

/// Why a file wasn't opened or created.
#[derive(Clone, Copy, Debug, PartialEq, Eq, Error)]
pub enum OpenFault {
    /// Opening: there is no such file, or it can't be read. Creating: there is a file already, or
    /// it can't be created.
    #[error("not opened")]
    NotOpened,
    /// Out of memory.
    #[error("out of memory")]
    Memory,
}

impl From<io::Error> for OpenFault {
    ghost use Rattle.std.specs.IoError.{error_kind};
    ghost use Rattle.run_files.specs.Files.{of_kind};

    ghost from_gives = { λ error fault. fault ≡ of_kind (error_kind error) };

    /// `Memory` if the system ran out of memory, `NotOpened` for any other error.
    fn from(error: io::Error) -> OpenFault {
        match error.kind() {
            io::ErrorKind::OutOfMemory => OpenFault::Memory,
            _ => OpenFault::NotOpened,
        }
    }
}

/// The files that paths name. Each implementation states the effects of its openings, including the
/// refused ones: a default would allow everything.
pub trait Files {
    ghost use Rattle.run_files.specs.declared.files.OpenFault.{OpenFault};

    /// A file that is open.
    type Input: Source + Send + Drop;

    /// All bytes of the file at a path, if they are known; the bytes of the machine's files aren't.
    /// Opening a file doesn't change what is known.
    ghost contents: { Self → List ℕ → Option (List ℕ) };

    /// The effect of an opening: the files before it, the path, the open file, and the files after
    /// it.
    ghost opens: { Self → List ℕ → Self.Input → Self → Type 0 };

    /// The effect of a refused opening: the files before it, the path, the cause, and the files
    /// after it.
    ghost refuses: { Self → List ℕ → OpenFault → Self → Type 0 };

    /// Opens the file at a path, to be read from its beginning.
    fn open(&mut self, path: &str) -> Result<Self::Input, OpenFault>
        ensures left { IfOk result (λ input.
            Self.Input.Source.left input ≡ contents self.old path.now) }
        ensures running { IfOk result (λ input. Self.Input.Source.has_failed input ≡ false) }
        ensures opens { IfOk result (λ input. opens self.old path.now input self.new) }
        ensures refuses { IfErr result (λ fault. refuses self.old path.now fault self.new) }
        ensures stays { contents self.new ≡ contents self.old };
}

/// What some options also need: files that may be missing, files to create, and sinks for progress
/// reports.
pub trait Machine: Files {
    ghost use Rattle.run_files.specs.declared.files.OpenFault.{OpenFault};

    /// A file that was created.
    type Output: Sink + Drop;

    /// Where progress is reported.
    type Watcher: Sink + Send + Drop;

    /// The effect of finding no file at a path: the files before, the path, and the files after.
    ghost lacks: { Self → List ℕ → Self → Type 0 };

    /// The effect of an opening that fails, although there may be a file at the path: the files
    /// before it, the path, the cause, and the files after it.
    ghost fails: { Self → List ℕ → OpenFault → Self → Type 0 };

    /// The effect of creating a file: the files before, the path, the new file, and the files
    /// after.
    ghost creates: { Self → List ℕ → Self.Output → Self → Type 0 };

    /// The effect of a refused creation: the files before it, the path, the cause, and the files
    /// after it.
    ghost refuses_new: { Self → List ℕ → OpenFault → Self → Type 0 };

    /// The effect of keeping a file: the files before, the file as written, and the files after.
    ghost keeps: { Self → Self.Output → Self → Type 0 };

    /// The effect of failing to keep a file: the files before, the file as written, and the files
    /// after.
    ghost loses: { Self → Self.Output → Self → Type 0 };

    /// The effect of discarding a file: the files before, the file as written, and the files after.
    ghost discards: { Self → Self.Output → Self → Type 0 };

    /// Opens the file at a path as `open` does, if there is one. Otherwise returns `None`, which
    /// isn't a fault.
    fn open_if_there(&mut self, path: &str) -> Result<Option<Self::Input>, OpenFault>
        ensures left { IfOk result (λ found. IfSome found (λ input.
            Self.Input.Source.left input ≡ Self.contents self.old path.now)) }
        ensures running { IfOk result (λ found. IfSome found (λ input.
            Self.Input.Source.has_failed input ≡ false)) }
        ensures opens { IfOk result (λ found. IfSome found (λ input.
            Self.opens self.old path.now input self.new)) }
        ensures lacks { result ≡ Ok None → lacks self.old path.now self.new }
        ensures fails { IfErr result (λ fault. fails self.old path.now fault self.new) }
        ensures stays { Self.contents self.new ≡ Self.contents self.old };

    /// Creates a new file at the path.
    fn create(&mut self, path: &str) -> Result<Self::Output, OpenFault>
        ensures empty { IfOk result (λ output.
            ForSome (Self.Output.Sink.written output) (λ all. all ≡ [])) }
        ensures running { IfOk result (λ output. Self.Output.Sink.has_failed output ≡ false) }
        ensures creates { IfOk result (λ output. creates self.old path.now output self.new) }
        ensures refuses { IfErr result (λ fault. refuses_new self.old path.now fault self.new) };

    /// Flushes a created file to disk, and then closes it.
    fn keep(&mut self, output: Self::Output) -> Result<(), WriteFault>
        ensures keeps { IfOk result (λ _. keeps self.old output self.new) }
        ensures loses { IfErr result (λ _. loses self.old output self.new) };

    /// Closes a created file that nobody will read.
    fn discard(&mut self, output: Self::Output)
        ensures { discards self.old output self.new };

    /// A watcher that hasn't failed.
    fn watcher(&self) -> Self::Watcher
        ensures { Self.Watcher.Sink.has_failed result ≡ false };
}

/// What contracts see of a machine's files: the ghost items of both traits, as one value. This
/// trait has no code.
pub trait Viewed {
    ghost use Rattle.run_files.specs.Files.{Effects, FilesView};

    /// The effects of calls on files, and what is known of files.
    ghost effects: { Effects };

    /// The effects, what is known of files, and these files as the first state of a run.
    ghost view: { Self → FilesView };
}

impl<F: Machine> Viewed for F {
    ghost use Rattle.run_files.specs.Files.{effects_of, files_view};

    ghost effects = { effects_of F.Files F.Machine.own F.Input.Source F.Output.Sink };

    ghost view = { files_view F.Files F.Machine.own F.Input.Source F.Output.Sink };
}
