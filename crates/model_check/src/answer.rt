//! What a model is.
use lrup_model::Lit;

/// What was found out about a model's literals. If several of these are true, the first is given.
#[derive(Clone, Copy, Debug, PartialEq, Eq)]
pub enum Answer {
    /// No literal stands beside its complement, each clause of the formula has one of the literals,
    /// and so is each assumed literal.
    Satisfies,
    /// This literal is the first whose complement stands before it.
    Contradiction(Lit),
    /// The clause with this number, from 1, is the first that has none of the literals.
    UntrueClause(u64),
    /// This assumed literal isn't one of the literals.
    UntrueAssumption(Lit),
}
