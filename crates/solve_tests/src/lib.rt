//! Tests of `solve`, through its public calls only.
#![tactic(auto)]

#[cfg(test)]
mod tests;
