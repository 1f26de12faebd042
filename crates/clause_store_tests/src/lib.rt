//! Tests of `clause_store`, through its public calls only.
#![tactic(auto)]

#[cfg(test)]
mod tests;
