//! Words of the row. The word of identity `id` is word `id` of the row: bits 0 and 1 are its state,
//! bits 2 to 21 the number of literals of the clause, and bits 22 to 63 the clause's start, i.e.
//! the index in the row of the word with its first two literals. A word of literals has the code of
//! one literal in bits 0 to 31, and in bits 32 to 63 the code of the next one, or 0. A code is
//! twice the variable, plus one if the literal is negative.
ghost use Rattle.std.specs.Prelude.{◌≡◌, ◌^◌, ◌<◌, IfSome};
ghost use Rattle.lrup_model.specs.Literal.{max_variable, code_of, IsCode};
ghost use Rattle.idwords.specs.internal.RowWords.{identity_word, literal_word};
ghost use Rattle.idwords.specs.Words.{word_state, length_of, start_of, half_of};

use lrup_model::Lit;

/// The state of an identity that has no clause yet. Its whole word is 0.
pub const VACANT: u64 = 0;

/// The state of the word of a live clause.
pub const LIVE: u64 = 1;

/// The state of the word of a retired clause.
pub const RETIRED: u64 = 2;

/// The state of an identity's word: `VACANT`, `LIVE` or `RETIRED`.
#[inline]
pub fn state(word: u64) -> u64
    ensures { result ≡ word_state word }
{
    word & 3
}

/// The number of literals of an identity's clause.
#[inline]
pub fn len(word: u64) -> u64
    ensures { result ≡ length_of word }
{
    (word >> 2) & 0xf_ffff
}

/// The start of an identity's clause: the index in the row of its first word of literals.
#[inline]
pub fn start(word: u64) -> u64
    ensures { result ≡ start_of word }
{
    word >> 22
}

/// The literal whose code is in this half of the word: 0 is the lower half, 1 the upper.
#[inline]
pub fn lit(word: u64, half: u32) -> Lit
    requires half { half < 2 }
    requires code { IsCode max_variable (half_of half word) }
    ensures { code_of result ≡ half_of half word }
{
    Lit::from_code(((word >> (32 * half)) & 0xffff_ffff) as u32)
}

/// The word of a literal and, if there is one, the literal after it.
#[inline]
pub(crate) fn pair_word(first: Lit, second: Option<Lit>) -> u64
    ensures word { result ≡ literal_word first second }
    ensures first { IsCode max_variable (code_of first) }
    ensures second { IfSome second (λ l. IsCode max_variable (code_of l)) }
{
    let upper = match second {
        Some(second) => u64::from(second.code()) << 32,
        None => 0,
    };
    u64::from(first.code()) + upper
}

/// The word of a live clause.
#[inline]
pub(crate) fn live_word(len: u64, start: u64) -> u64
    requires len { len < 2 ^ 20 }
    requires start { start < 2 ^ 41 }
    ensures { result ≡ identity_word 1 len start }
{
    LIVE + (len << 2) + (start << 22)
}
