//! Tests of `command`, through its public calls only.
#![tactic(auto)]

pub mod exact_files;
pub mod outcomes;
#[cfg(test)]
mod tests;
