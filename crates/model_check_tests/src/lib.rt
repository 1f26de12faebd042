//! Tests of `model_check`, through its public calls only.
#![tactic(auto)]

#[cfg(test)]
mod tests;
