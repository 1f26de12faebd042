//! The command line of `lrupd`, read by `clap`.
#![tactic(auto)]

mod arguments;
mod help;
pub mod laws;
mod sizes;
mod words;

pub use sizes::{Sizes, read_sizes};
pub use words::{CommandLine, Next, Paths, UsageText, WordsFault, read_words};
