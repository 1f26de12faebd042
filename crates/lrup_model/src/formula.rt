//! Formulas in conjunctive normal form.
ghost use Rattle.std.specs.Prelude.{◌≡◌, ◌↔◌, ◌+◌, ◌-◌, ◌≤◌, ◌<◌, [], ◌∷◌, ◌++◌, IsTrue, OnOk, OnErr, length, slice_index, slice_index_or, slice_range};
ghost use Rattle.lrup_model.specs.Literal.{max_variable};
ghost use Rattle.lrup_model.specs.Formula.{IsCnf, IsFormulaClause, clause_at, formula_literals, max_clauses};
ghost use Rattle.lrup_model.specs.internal.Pieces.{pieces, AreEnds};

use crate::lit::Lit;
use std::alloc::{AllocError, Global};
use std::marker::Model;

/// A number of variables, and clauses in the order of the file, none of which has a literal twice.
/// All literals are in one list: a clause takes 8 bytes in addition to its literals.
#[derive(Drop)]
pub struct Formula {
    vars: u32,
    literals: Vec<Lit>,
    ends: Vec<usize>,
}

impl Model for Formula {
    ghost use Rattle.lrup_model.specs.Formula.{Cnf, IsCnf};
    ghost use Rattle.lrup_model.specs.internal.Pieces.{pieces, AreEnds};
    ghost use Rattle.std.specs.Prelude.{length};

    ghost Value = { Cnf };

    ghost view = { λ f. record { vars = f.vars; clauses = pieces f.literals.items 0 f.ends.items } };

    ghost invariant = { λ f. IsCnf (record { vars = f.vars; clauses = pieces f.literals.items 0 f.ends.items }) × AreEnds 0 f.ends.items (length f.literals.items) };
}

impl Formula {
    /// The largest number of clauses.
    pub const MAX_CLAUSES: u32 = 16_777_215;

    /// The largest number of literals of one clause.
    pub const MAX_CLAUSE_LITERALS: u32 = 1_048_575;

    /// A formula without clauses, over this many variables, at most 16,777,215. It allocates no
    /// memory.
    pub fn new(alloc: Global, vars: u32) -> Self
        requires { vars ≤ max_variable }
        ensures { result ≡ record { vars = vars; clauses = [] } }
    {
        Formula {
            vars,
            literals: Vec::new(alloc),
            ends: Vec::new(alloc),
        }
    }

    /// Adds the next clause: at most 1,048,575 distinct literals over the formula's variables. A
    /// formula has at most 16,777,215 clauses. If the allocation fails, nothing changes.
    pub fn push(&mut self, clause: &[Lit]) -> Result<(), AllocError>
        requires count { length self.old.clauses < max_clauses }
        requires clause { IsFormulaClause self.old.vars clause.now }
        ensures ok { OnOk result
            (self.new ≡ record self.old { clauses = self.old.clauses ++ clause.now ∷ [] }) }
        ensures err { OnErr result (self.new ≡ self.old) }
    {
        self.ends.reserve(1)?;
        self.literals.extend_from_slice(clause)?;
        let end = self.literals.as_slice().len();
        self.ends.push_reserved(end);
        Ok(())
    }

    /// The number of variables, at most 16,777,215.
    pub fn vars(&self) -> u32
        ensures vars { result ≡ self.now.vars }
        ensures formula { IsCnf self.now }
    {
        self.vars
    }

    /// The number of clauses, at most 16,777,215.
    pub fn len(&self) -> usize
        ensures len { result ≡ length self.now.clauses }
        ensures formula { IsCnf self.now }
    {
        self.ends.as_slice().len()
    }

    /// Whether the formula has no clauses.
    pub fn is_empty(&self) -> bool
        ensures { IsTrue result ↔ (self.now.clauses ≡ []) }
    {
        self.ends.as_slice().is_empty()
    }

    /// The distinct literals of clause `i`, counted from 1.
    pub fn clause(&self, i: usize) -> &[Lit]
        requires first { 0 < i }
        requires last { i ≤ length self.now.clauses }
        ensures { result.now ≡ clause_at self.now i }
    {
        part(&self.literals, &self.ends, i - 1)
    }

    /// The number of literals of all clauses.
    pub fn literals(&self) -> usize
        ensures { result ≡ formula_literals self.now }
    {
        self.literals.as_slice().len()
    }
}

/// Where clause `i`, here counted from 0, begins: at the end of the clause before it.
fn start(ends: &[usize], i: usize) -> usize
    requires { i < length ends.now }
    ensures { result ≡ slice_index (0 ∷ ends.now) i }
{
    if i == 0 { 0 } else { ends[i - 1] }
}

/// The literals of clause `i`, here counted from 0.
fn part<'a>(literals: &'a [Lit], ends: &[usize], i: usize) -> &'a [Lit]
    requires ends { AreEnds 0 ends.now (length literals.now) }
    requires within { i < length ends.now }
    ensures { result.now ≡ slice_index_or (pieces literals.now 0 ends.now) i [] }
{
    between(literals, start(ends, i), ends[i])
}

/// The literals from index `from` up to, but not including, index `end`.
fn between(literals: &[Lit], from: usize, end: usize) -> &[Lit]
    requires ordered { from ≤ end }
    requires within { end ≤ length literals.now }
    ensures { result.now ≡ slice_range literals.now from end }
{
    &literals[from..end]
}
