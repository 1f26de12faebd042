//! The helper: a script of what it says, and a list of what it should be told.
use solve::{HelperInput, HelperOutput};
use std::sync::atomic::{AtomicUsize, Ordering};

/// A text, of which a read delivers at most `most` bytes (1 if that is 0).
#[derive(Drop)]
pub(super) struct Script<'a> {
    left: &'a [u8],
    most: usize,
}

impl<'a> Script<'a> {
    pub(super) fn new(text: &'a [u8], most: usize) -> Script<'a> {
        Script { left: text, most }
    }
}

impl HelperOutput for Script<'_> {
    fn read(&mut self, buffer: &mut [u8]) -> usize {
        let count = buffer.len().min(self.most.max(1)).min(self.left.len());
        let (front, rest) = self.left.split_at(count);
        buffer[..count].copy_from_slice(front);
        self.left = rest;
        count
    }
}

/// A helper that says it has put more bytes into each buffer than there is room for.
#[derive(Drop)]
pub(super) struct Boaster;

impl HelperOutput for Boaster {
    fn read(&mut self, _buffer: &mut [u8]) -> usize {
        usize::MAX
    }
}

/// The lines that the helper should be told, in order, and how many of these and of all lines it
/// was told.
#[derive(Drop)]
pub(super) struct Diary {
    awaited: &'static [&'static str],
    came: AtomicUsize,
    all: AtomicUsize,
}

impl Diary {
    pub(super) fn new(awaited: &'static [&'static str]) -> Diary {
        Diary {
            awaited,
            came: AtomicUsize::new(0),
            all: AtomicUsize::new(0),
        }
    }

    /// How many of the awaited lines came, and how many lines in all.
    pub(super) fn counts(&self) -> (usize, usize) {
        let came = self.came.load(Ordering::SeqCst);
        (came, self.all.load(Ordering::SeqCst))
    }
}

impl HelperInput for Diary {
    fn tell(&self, line: &[u8]) {
        self.all.fetch_add(1, Ordering::SeqCst);
        let awaited = self.awaited.get(self.came.load(Ordering::SeqCst));
        if awaited.is_some_and(|text| text.as_bytes() == line) {
            self.came.fetch_add(1, Ordering::SeqCst);
        }
    }
}
