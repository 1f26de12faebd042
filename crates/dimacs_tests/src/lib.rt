//! Tests of `dimacs`, through its public calls only.
#![tactic(auto)]

#[cfg(test)]
mod tests;
