//! Tests of `idwords`, through its public calls only.
#![tactic(auto)]

#[cfg(test)]
mod tests;
