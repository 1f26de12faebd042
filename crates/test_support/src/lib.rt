//! What the tests of several crates use: the example formula, a reader and a writer that fail at
//! one call, and a clock.
#![tactic(auto)]

mod clock;
mod devices;
mod formula;

pub use clock::Sleeps;
pub use devices::{Paper, Pieces};
pub use formula::{four_clauses, lit};
