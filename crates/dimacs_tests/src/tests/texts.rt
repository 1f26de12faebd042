//! What a few texts mean, proved only from the definition of a text and the laws: if these were
//! wrong, the proofs would fail.
ghost use Rattle.std.specs.Prelude.{◌≡◌, ◌↔◌, [], ◌∷◌, codes, pos, IfOk};
ghost use Rattle.lrup_model.specs.Formula.{Cnf};
ghost use Rattle.dimacs.specs.FormulaText.{IsFormulaText};

use super::*;
use dimacs::laws::one_formula;
use lrup_model::Formula;

/// A number in a clause or in the header may not have a leading zero.
fn zeros_in_front_are_refused()
    ensures clause { (f : Cnf) → ¬ IsFormulaText (codes "p cnf 1 1\n01 0\n") f }
    ensures header { (f : Cnf) → ¬ IsFormulaText (codes "p cnf 01 0\n") f }
{}

/// A clause ends at its 0, not at the end of a line. A comment has no tokens.
fn a_clause_ends_at_its_zero()
    ensures lines { let only : Cnf = record { vars = 2; clauses = (pos 1 ∷ pos 2 ∷ []) ∷ [] } in
        (f : Cnf) → IsFormulaText (codes "p cnf 2 1\n1\n2 0\n") f ↔ (f ≡ only) }
    ensures comment { let only : Cnf = record { vars = 2; clauses = (pos 1 ∷ pos 2 ∷ []) ∷ [] } in
        (f : Cnf) → IsFormulaText (codes "p cnf 2 1\n1\nc 1 0\n2 0\n") f ↔ (f ≡ only) }
{
    one_formula();
}

/// Reads a clause of two lines. Which formula this gives follows from the contract of `parse`.
fn clause_of_two_lines(alloc: Global) -> Result<Formula, DimacsFault>
    ensures { let only : Cnf = record { vars = 2; clauses = (pos 1 ∷ pos 2 ∷ []) ∷ [] } in
        IfOk result (λ f. f ≡ only) }
{
    a_clause_ends_at_its_zero();
    parse(alloc, b"p cnf 2 1\n1\n2 0\n")
}

#[test]
fn texts_by_their_definition(rt: HostRuntime) -> Result<(), Fail> {
    zeros_in_front_are_refused();
    let formula = clause_of_two_lines(rt.alloc())?;
    assert_eq!(rt;
        (formula.vars(), formula.len(), formula.literals()),
        (2, 1, 2)
    );
    Ok(())
}
