//! Tests of `run_laws`: its definitions at work.
#![tactic(auto)]

#[cfg(test)]
mod worked;
