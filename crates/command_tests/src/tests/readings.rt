//! How the formula's file is read: what each read asks for, and how many reads there are.
use super::*;
use std::sync::atomic::{AtomicU64, Ordering};

/// Counts of the reads of files.
#[derive(Drop)]
pub(super) struct Reads {
    /// The reads that asked for a piece of 65,536 bytes.
    pieces: AtomicU64,
    /// The reads that asked for another number of bytes.
    others: AtomicU64,
}

impl Reads {
    pub(super) fn count(&self, asked: usize) {
        if asked == 65_536 {
            self.pieces.fetch_add(1, Ordering::SeqCst);
        } else {
            self.others.fetch_add(1, Ordering::SeqCst);
        }
    }
}

/// The size of the formula's file, the maximum number of bytes per read, and the number of reads.
static READS: [(usize, usize, u64); 6] = [
    (39, 1, 40),
    (39, 2, 21),
    (39, usize::MAX, 2),
    (65_536, usize::MAX, 2),
    (65_537, usize::MAX, 3),
    (200_000, usize::MAX, 5),
];

/// Runs without a stream over the four clauses, in a file that a comment makes this long; a read
/// gives at most `most` bytes. Returns how many reads asked for 65,536 bytes, and how many for
/// another number.
fn reads_of(rt: &impl Host, bytes: usize, most: usize) -> Result<(u64, u64), Fail> {
    let mut formula = String::from_str(rt.alloc(), FOUR)?;
    formula.push('c')?;
    formula.push_str(&"x".repeat(rt.alloc(), bytes.saturating_sub(formula.len()))?)?;
    let reads = Reads {
        pieces: AtomicU64::new(0),
        others: AtomicU64::new(0),
    };
    let setup = Setup {
        formula: formula.as_str(),
        most,
        reads: Some(&reads),
        ..SETUP
    };
    let ran = run(rt, rt, &["f", "no"], setup);
    same(rt, ran.ends(), (5, "", "lrupd: cannot open stream 1\n"));
    let pieces = reads.pieces.load(Ordering::SeqCst);
    Ok((pieces, reads.others.load(Ordering::SeqCst)))
}

/// Reading on after the end would make a user at a terminal type the end twice.
#[test]
fn a_formula_is_read_by_65536_bytes_and_up_to_its_end(rt: HostRuntime) -> Result<(), Fail> {
    for &(bytes, most, reads) in &READS {
        let found = reads_of(&rt, bytes, most)?;
        same(&rt, (bytes, most, found), (bytes, most, (reads, 0)));
    }
    Ok(())
}
