//! Hinted unit propagation (reverse unit propagation): the literals of a clause are assumed to be
//! false, and each hinted clause is unit, which makes one more literal false, or is a conflict, or
//! is neither. A mark for each literal says whether it is false, and a trail lists the false
//! literals, so that only their marks are cleared for the next clause.
#![tactic(auto)]

pub mod laws;
mod marks;
mod tautology;
mod trail;

pub use marks::{Marks, Step};
pub use tautology::Tautology;
