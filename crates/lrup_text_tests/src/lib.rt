//! Tests of `lrup_text`, through its public calls only.
#![tactic(auto)]

#[cfg(test)]
mod tests;
