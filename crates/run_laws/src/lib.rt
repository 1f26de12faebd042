//! Laws of runs: definitions and laws, no other code. A set of streams is closed if its streams
//! cite no identity of a stream outside the set. Then these streams have the reports that they
//! would have without any other streams, however the run went. Also, a legal history, in which the
//! calls of several streams are interleaved, can be reordered into whole lines so that each stream
//! is judged in the same way.
#![tactic(auto)]

pub mod groups;
pub mod orders;
pub mod turns;
pub mod valid;
