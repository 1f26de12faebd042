//! The judge: a function from a stream's lines, its end and its events to its report, and the laws
//! that tie it to the relation that the contracts cite. There is no other code.
#![tactic(auto)]

pub mod laws;
pub mod rows;
