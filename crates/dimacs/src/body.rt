//! The clauses after the header.
ghost use Rattle.std.specs.Prelude.{◌≡◌, ◌≢◌, ◌⊎◌, ◌<◌, ◌≤◌, ◌+◌, ◌-◌, [], length, OnOk, IfOk, IfErr};
ghost use Rattle.lrup_model.specs.Literal.{max_variable};
ghost use Rattle.lrup_model.specs.Formula.{max_clauses, max_clause_literals, IsFormulaClause};
ghost use Rattle.dimacs.specs.FormulaTokens.{AreClauses};
ghost use Rattle.dimacs.specs.FormulaFault.{IsBodyFault};
ghost use Rattle.dimacs.specs.internal.Places.{tokens_at, AddsLiteral, AddsClause};
ghost use Rattle.dimacs.specs.declared.fault.DimacsFault.TheVariants.{OpenClause as ends_open, TooFew, TooMany, Limit, Memory};

use crate::fault::DimacsFault;
use crate::header::Header;
use crate::open_clause::OpenClause;
use crate::tokens::{Next, Tokens};
use lrup_model::{Formula, Lit};
use std::alloc::Global;

/// The maximum number of literals that may be written in one clause.
const MAX_CLAUSE_LITERALS: u32 = Formula::MAX_CLAUSE_LITERALS;

/// The formula so far, the clause being read, how many literals were written in that clause,
/// counting repeats, and how many clauses are left.
#[derive(Drop)]
struct Builder {
    formula: Formula,
    clause: OpenClause,
    written: u32,
    left: u32,
}

impl Builder {
    /// Adds a literal to the clause. `line` is the number of the literal's line.
    fn literal(&mut self, l: Lit, line: u64) -> Result<(), DimacsFault>
        ensures formula { self.new.formula ≡ self.old.formula }
        ensures left { self.new.left ≡ self.old.left }
        ensures ok { OnOk result ((0 < self.old.left) × (self.old.written < max_clause_literals)
            × AddsLiteral self.old.clause self.new.clause l
            × (self.new.written ≡ self.old.written + 1)) }
        ensures err { IfErr result (λ fault. (fault ≡ Memory)
            ⊎ ((fault ≡ TooMany line) × (self.old.left ≡ 0))
            ⊎ ((fault ≡ Limit) × (0 < self.old.left) × (max_clause_literals ≤ self.old.written))) }
    {
        if self.left == 0 {
            return Err(DimacsFault::TooMany(line));
        }
        if self.written >= MAX_CLAUSE_LITERALS {
            return Err(DimacsFault::Limit);
        }
        self.clause.add(l)?;
        self.written += 1;
        Ok(())
    }

    /// Ends the clause. `line` is the number of the line with the clause's 0.
    fn end_clause(&mut self, line: u64) -> Result<(), DimacsFault>
        requires count { length self.old.formula.clauses + self.old.left ≤ max_clauses }
        requires clause { IsFormulaClause self.old.formula.vars self.old.clause }
        ensures ok { OnOk result ((0 < self.old.left)
            × AddsClause self.old.formula self.new.formula self.old.clause
            × (self.new.clause ≡ []) × (self.new.written ≡ 0)
            × (self.new.left + 1 ≡ self.old.left)) }
        ensures err { IfErr result (λ fault. (fault ≡ Memory)
            ⊎ ((fault ≡ TooMany line) × (self.old.left ≡ 0))) }
    {
        if self.left == 0 {
            return Err(DimacsFault::TooMany(line));
        }
        self.formula.push(self.clause.literals())?;
        self.clause.clear();
        self.written = 0;
        self.left -= 1;
        Ok(())
    }

    /// The formula, at the end of the file.
    fn finish(self) -> Result<Formula, DimacsFault>
        ensures ok { IfOk result (λ formula. (formula ≡ self.formula) × (self.written ≡ 0)
            × (self.left ≡ 0)) }
        ensures err { IfErr result (λ fault. ((fault ≡ ends_open) × (0 < self.written))
            ⊎ ((fault ≡ TooFew) × (self.written ≡ 0) × (0 < self.left))) }
    {
        if self.written > 0 {
            return Err(DimacsFault::OpenClause);
        }
        if self.left > 0 {
            return Err(DimacsFault::TooFew);
        }
        Ok(self.formula)
    }
}

/// Reads the clauses of a formula from the tokens after its header.
#[inline(never)]
pub fn read_clauses(
    alloc: Global,
    after_header: Tokens<'_>,
    header: Header,
) -> Result<Formula, DimacsFault>
    requires vars { header.vars ≤ max_variable }
    requires clauses { header.clauses ≤ max_clauses }
    ensures ok { IfOk result (λ f.
        AreClauses f header.vars header.clauses
        (tokens_at after_header.entry.line after_header.entry.rest.now)) }
    ensures err { IfErr result (λ fault. fault ≢ Memory →
        IsBodyFault fault header.vars header.clauses
        (tokens_at after_header.entry.line after_header.entry.rest.now)) }
{
    let mut tokens = after_header;
    let mut builder = Builder {
        formula: Formula::new(alloc, header.vars),
        clause: OpenClause::new(alloc),
        written: 0,
        left: header.clauses,
    };
    loop {
        match tokens.next(header.vars) {
            Next::End => return builder.finish(),
            Next::Bad => return Err(DimacsFault::BadNumber(tokens.line())),
            Next::Range => return Err(DimacsFault::VariableRange(tokens.line())),
            Next::Zero => builder.end_clause(tokens.line())?,
            Next::Literal(l) => builder.literal(l, tokens.line())?,
        }
    }
}
