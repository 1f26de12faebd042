//! The words of a newly opened row.
ghost use Rattle.std.specs.Prelude.{◌≡◌, ◌+◌, ◌^◌, ◌<◌, ◌++◌, IfOk, OnOk};
ghost use Rattle.lrup_model.specs.Formula.{IsCnf, formula_literals};
ghost use Rattle.lrup_model.specs.Layout.{Fits};
ghost use Rattle.idwords.specs.internal.RowWords.{packed};
ghost use Rattle.idwords.specs.internal.Rule.{IsPlan};
ghost use Rattle.idwords.specs.internal.Opening.{clause_words, literal_words, opening_words};

use crate::word::{live_word, pair_word};
use lrup_model::{Formula, Layout, Lit};
use std::alloc::{AllocError, Global};

/// Makes all words of the row, 8 bytes each: word 0, the words of identities, and the words of
/// literals. Reads the formula twice.
pub(crate) fn all_words(
    alloc: Global,
    formula: &Formula,
    layout: &Layout,
) -> Result<Vec<u64>, AllocError>
    requires { Fits layout.now formula.now }
    ensures words { IfOk result (λ words. words.items ≡ opening_words formula.now layout.now) }
    ensures plan { IfOk result (λ _. IsPlan formula.now layout.now) }
{
    let mut words = Vec::with_capacity(alloc, layout.row_words() as usize)?;
    words.push(0)?;
    add_clauses(&mut words, formula, layout.last_identity() + 1)?;
    words.resize(layout.last_identity() as usize + 1, 0)?;
    add_literals(&mut words, formula)?;
    words.resize(layout.row_words() as usize, 0)?;
    Ok(words)
}

/// Adds the words of the formula's identities. The literals of the first clause start at index
/// `first`.
fn add_clauses(words: &mut Vec<u64>, formula: &Formula, first: u64) -> Result<(), AllocError>
    requires { first + formula_literals formula.now < 2 ^ 41 }
    ensures words { OnOk result
        (words.new.items ≡ words.old.items ++ clause_words first formula.now.clauses) }
    ensures formula { IsCnf formula.now }
{
    let mut start = first;
    for i in 0..formula.len() {
        let len = formula.clause(i + 1).len() as u64;
        words.push(live_word(len, start))?;
        start += (len + 1) / 2;
    }
    Ok(())
}

/// Adds the words of the formula's literals.
fn add_literals(words: &mut Vec<u64>, formula: &Formula) -> Result<(), AllocError>
    ensures { OnOk result
        (words.new.items ≡ words.old.items ++ literal_words formula.now.clauses) }
{
    for i in 0..formula.len() {
        add_clause(words, formula.clause(i + 1))?;
    }
    Ok(())
}

/// Adds the words of one clause's literals.
fn add_clause(words: &mut Vec<u64>, clause: &[Lit]) -> Result<(), AllocError>
    ensures { OnOk result (words.new.items ≡ words.old.items ++ packed clause.now) }
{
    let mut left = clause;
    'pairs: while let [first, second, rest @ ..] = left {
        words.push(pair_word(*first, Some(*second)))?;
        left = rest;
    }
    if let [last] = left {
        words.push(pair_word(*last, None))?;
    }
    Ok(())
}
