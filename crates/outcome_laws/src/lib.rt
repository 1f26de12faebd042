//! Outcomes of the program: definitions and laws, no other code. A stream that cites only its own
//! clauses and the formula's has the same line in two outcomes; the other streams' files, the
//! assumed literals and the use of threads make no difference.
#![tactic(auto)]

pub mod laws;
