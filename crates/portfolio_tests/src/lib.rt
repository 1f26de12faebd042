//! Tests of `portfolio`, through its public calls only.
#![tactic(auto)]

#[cfg(test)]
mod tests;
