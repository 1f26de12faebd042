//! Laws of the definitions in the contract of `parse`. Each function does nothing: its contract is
//! the law, for every file.
ghost use Rattle.std.specs.Prelude.{◌≡◌, ◌↔◌, ℕ, List};
ghost use Rattle.lrup_model.specs.Formula.{Cnf};
ghost use Rattle.dimacs.specs.declared.fault.DimacsFault.{DimacsFault};
ghost use Rattle.dimacs.specs.FormulaText.{IsFormulaText};
ghost use Rattle.dimacs.specs.FormulaTokens.{InBody, AreClauses};
ghost use Rattle.dimacs.specs.FormulaFault.{IsFormulaFault};

/// A file is a text of a formula exactly if its tokens, read one by one, are the formula's.
pub fn text_is_read()
    ensures { (bytes : List ℕ) (f : Cnf) → IsFormulaText bytes f ↔ InBody bytes (AreClauses f) }
{}

/// A text of a formula has no fault.
pub fn formula_or_fault()
    ensures { (bytes : List ℕ) (f : Cnf) (fault : DimacsFault) → IsFormulaText bytes f
        → ¬ IsFormulaFault bytes fault }
{}

/// A file has at most one fault.
pub fn one_fault()
    ensures { (bytes : List ℕ) (one other : DimacsFault) → IsFormulaFault bytes one
        → IsFormulaFault bytes other → one ≡ other }
{}

/// A file is a text of at most one formula: even the order of the literals is fixed.
pub fn one_formula()
    ensures { (bytes : List ℕ) (one other : Cnf)
        → IsFormulaText bytes one → IsFormulaText bytes other → one ≡ other }
{}
