//! The clause map that all streams share, without a lock: a store over the row of words, and a pass
//! for each stream, through which the stream calls the store. Each fetch, publish and retire is one
//! event of a legal history. A desk is a pass and its store as one `ClauseMap`.
#![tactic(auto)]

mod desk;
pub mod laws;
mod meeting;
mod pass;
mod store;

pub use desk::Desk;
pub use pass::Pass;
pub use store::Store;
