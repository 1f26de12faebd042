//! A mark for each literal. A mark is one bit, and the marks of all literals take 4 MB.
ghost use Rattle.std.specs.Prelude.{◌≡◌, ◌↔◌, ◌⊎◌, ◌*◌, ◌<◌, ◌≤◌, ℕ, ℤ, [], IsTrue, OnOk, OnErr, length};
ghost use Rattle.lrup_model.specs.Literal.{code_of};
ghost use Rattle.dimacs.specs.internal.Marks.{IsBitSet, MarksAre, all_words};

use lrup_model::Lit;
use std::alloc::AllocError;

/// The number of words that have a bit for each literal.
const WORDS: usize = 524_288;

/// The index of a literal's mark.
fn place(l: Lit) -> usize
    ensures place { result ≡ code_of l }
    ensures few { result < 64 * all_words }
{
    l.code() as usize
}

fn is_marked(words: &[u64], place: usize) -> bool
    requires { place < 64 * length words.now }
    ensures { IsTrue result ↔ IsBitSet words.now place }
{
    words[place / 64] >> (place % 64) & 1 == 1
}

fn mark(words: &mut [u64], place: usize)
    requires { place < 64 * length words.old }
    ensures { (p : ℕ) → IsBitSet words.new p ↔ (IsBitSet words.old p ⊎ (p ≡ place)) }
{
    let i = place / 64;
    words[i] = words[i] | 1 << (place % 64);
}

fn unmark(words: &mut [u64], place: usize)
    requires { place < 64 * length words.old }
    ensures { (p : ℕ) → IsBitSet words.new p ↔ (IsBitSet words.old p × (p ≡ place → ⊥)) }
{
    let i = place / 64;
    words[i] = words[i] & !(1 << (place % 64));
}

/// Whether the literal is marked.
pub fn has_mark(words: &[u64], l: Lit) -> bool
    requires { all_words ≤ length words.now }
    ensures { IsTrue result ↔ IsBitSet words.now (code_of l) }
{
    is_marked(words, place(l))
}

/// Marks one more literal.
pub fn set_mark(words: &mut [u64], l: Lit)
    requires { all_words ≤ length words.old }
    ensures { (m : ℤ) → IsBitSet words.new (code_of m)
        ↔ (IsBitSet words.old (code_of m) ⊎ (m ≡ l)) }
{
    mark(words, place(l));
}

/// Marks the literals. Before the call no mark is set; the words have a bit for each literal.
fn mark_all(words: &mut [u64], literals: &[Lit])
    requires marks { MarksAre words.old [] }
    requires words { all_words ≤ length words.old }
    ensures { MarksAre words.new literals.now }
{
    for l in literals {
        set_mark(words, *l);
    }
}

/// Marks the literals. Before the call no mark is set. The first call allocates the marks of all
/// literals.
pub fn set_marks(words: &mut Vec<u64>, literals: &[Lit]) -> Result<(), AllocError>
    requires { MarksAre words.old.items [] }
    ensures ok { OnOk result (MarksAre words.new.items literals.now
        × (all_words ≤ length words.new.items)) }
    ensures err { OnErr result (MarksAre words.new.items []) }
{
    words.resize(WORDS, 0)?;
    mark_all(words, literals);
    Ok(())
}

/// Clears the literals' marks.
pub fn clear_marks(words: &mut [u64], literals: &[Lit])
    requires marks { MarksAre words.old literals.now }
    requires words { all_words ≤ length words.old }
    ensures { MarksAre words.new [] }
{
    for l in literals {
        unmark(words, place(*l));
    }
}
