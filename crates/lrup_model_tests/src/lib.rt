//! Tests of `lrup_model`, through its public calls only.
#![tactic(auto)]

#[cfg(test)]
mod tests;
