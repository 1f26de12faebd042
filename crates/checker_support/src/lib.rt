//! Checkers over the map of one thread, for the tests of several crates.
#![tactic(auto)]

mod opened;

pub use opened::{checker_at, checker_under, open_formula, open_map};
