//! Checkpoints: the clauses that are live in a clause map, written as a formula of their own. Each
//! clause follows from the formula of the run, so a later run may use the checkpoint as its
//! formula.
#![tactic(auto)]

pub mod laws;
mod live;
mod next;
mod saving;
mod text;

pub use live::{Wanted, live_clauses};
pub use saving::{SaveFault, save, save_clips};
pub use text::write_formula;
