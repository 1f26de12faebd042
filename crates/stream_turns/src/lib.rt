//! All streams of a run on one thread, a line of each in turn, over the clause map of one thread.
#![tactic(auto)]

mod turns;
mod worker;

pub use turns::{StreamResults, check_all};
