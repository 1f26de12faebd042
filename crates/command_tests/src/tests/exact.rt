//! Runs over files whose contracts say exactly what each call does to them: what is at the
//! checkpoint's path at the end.
use super::*;
use crate::exact_files::Closing::{self, Discarded, Kept, Lost, Open};
use crate::exact_files::{ExactFiles, run_exactly};

const SAVE: &[&str] = &["--checkpoint", "new", "f", "s1"];

const OVERWRITE: &[&str] = &["--checkpoint", "s2", "f", "s1"];

const NO_OPTION: &[&str] = &["f", "s1"];

const ROUNDS: &[&str] = &["--rounds", "dir", "f", "s1"];

const NEXT: &str = "dir/round-2.cnf";

/// What a run gets: the words, the stream, whether keeping a file fails, and the write that fails.
/// Then its results: the status, and the path, the bytes and the closing of the last new file.
type Row = (
    (&'static [&'static str], &'static str, bool, usize),
    (u8, &'static str, &'static str, Closing),
);

static ROWS: [Row; 9] = [
    ((SAVE, ADDS, false, 0), (3, "new", ALL, Kept)),
    ((SAVE, ADDS, true, 0), (9, "new", ALL, Lost)),
    ((SAVE, ADDS, false, 1), (9, "new", "", Discarded)),
    ((SAVE, REFUTES, false, 0), (0, "new", "", Discarded)),
    ((OVERWRITE, ADDS, false, 0), (5, "", "", Open)),
    ((NO_OPTION, ADDS, false, 0), (3, "", "", Open)),
    ((ROUNDS, ADDS, false, 0), (3, NEXT, ALL, Kept)),
    ((ROUNDS, ADDS, true, 0), (9, NEXT, ALL, Lost)),
    ((ROUNDS, REFUTES, false, 0), (0, NEXT, "", Discarded)),
];

#[test]
fn what_lies_at_the_path(rt: HostRuntime) {
    for &((words, stream, is_lossy, fails_at), wanted) in &ROWS {
        let mut files = ExactFiles::new(rt.alloc(), FOUR, stream, None, is_lossy, fails_at);
        let status = run_exactly(&rt, rt.alloc(), words, &mut files);
        let (path, bytes, closing) = files.last();
        let found = (status, path, text_of(bytes), closing);
        same(&rt, (words, found), (words, wanted));
    }
}
