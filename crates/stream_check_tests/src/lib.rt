//! Tests of `stream_check`, through its public calls only.
#![tactic(auto)]

#[cfg(test)]
mod tests;
#[cfg(test)]
mod worked;
