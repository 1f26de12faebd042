//! Laws of hinted unit propagation. Each function does nothing: its contract is the law.
ghost use Rattle.propagate.specs.Laws.{AcceptsExactly};

/// A clause with hinted clauses is accepted exactly if it isn't a tautology, all hinted clauses
/// before the last are unit, one after the other, and the last is a conflict.
pub fn accepts_exactly()
    ensures { AcceptsExactly }
{}
