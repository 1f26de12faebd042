//! The helper, of which no contract says anything, and what it is told.
use lrup_text::{Sink, WriteFault};
use std::alloc::Global;

/// The longest line that the helper is told, with its LF. A pipe takes it whole.
const LONGEST: usize = 4_096;

/// What the helper says.
pub trait HelperOutput {
    /// Puts bytes of it into the front of the buffer, and returns how many; 0 if no more will come.
    /// A number above the buffer's length means its length, and that no more will come.
    fn read(&mut self, buffer: &mut [u8]) -> usize;
}

/// What the helper is told.
pub trait HelperInput {
    /// Tells it a line, which ends with LF, if it still listens.
    fn tell(&self, line: &[u8]);
}

/// A sink whose lines are told to the helper, each after a word and a space. Of a line only the
/// first 4,095 bytes are told, with the word; and nothing that doesn't end with LF.
#[derive(Drop)]
pub struct Telling<'a, P> {
    to: &'a P,
    word: &'a [u8],
    line: Vec<u8>,
}

impl<'a, P: HelperInput> Telling<'a, P> {
    /// A sink that tells lines after this word, which ends with a space.
    pub fn new(alloc: Global, word: &'a [u8], to: &'a P) -> Telling<'a, P> {
        Telling {
            to,
            word,
            line: Vec::new(alloc),
        }
    }

    /// Takes a byte, unless the line is too long or memory runs out.
    fn take(&mut self, byte: u8) {
        if self.line.is_empty() {
            let _ = self.line.extend_from_slice(self.word);
        }
        if byte == b'\n' {
            self.end_line();
            return;
        }
        if self.line.len() < LONGEST - 1 {
            let _ = self.line.push(byte);
        }
    }

    /// Tells the line, and begins another.
    fn end_line(&mut self) {
        if self.line.push(b'\n').is_ok() {
            self.to.tell(&self.line);
        }
        self.line.clear();
    }
}

impl<P: HelperInput> Sink for Telling<'_, P> {
    ghost use Rattle.std.specs.Prelude.{None, false};

    ghost written = { λ _. None };

    ghost has_failed = { λ _. false };

    fn write(&mut self, bytes: &[u8]) -> Result<usize, WriteFault> {
        for byte in bytes {
            self.take(*byte);
        }
        Ok(bytes.len())
    }

    fn failed(&self) -> bool {
        false
    }
}
