//! A whole run of `lrupd`, over the files, sinks, clock and threads that the caller passes in.
#![tactic(auto)]

mod arguments;
mod course;
mod program;
mod round;
mod rounds;
mod running;
mod watching;

pub use arguments::command_with_arguments;
pub use program::{check_formula, command};
pub use run_files::{Files, Machine, OpenFault, Viewed};
