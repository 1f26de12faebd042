//! Tests of `command_line`, through its public calls only.
#![tactic(auto)]

#[cfg(test)]
mod tests;
