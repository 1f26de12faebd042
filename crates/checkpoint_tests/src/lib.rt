//! Tests of `checkpoint`, through its public calls only.
#![tactic(auto)]

#[cfg(test)]
mod tests;
