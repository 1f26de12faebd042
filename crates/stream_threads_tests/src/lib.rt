//! Tests of `stream_threads`, through its public calls only.
#![tactic(auto)]

#[cfg(test)]
mod tests;
