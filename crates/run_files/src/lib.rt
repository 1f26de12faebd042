//! The files of a run: the formula, the assumed literals, the streams and the sizes, which it opens
//! and reads, and the checkpoints, which it creates, saves and closes; and why a run has no report.
#![tactic(auto)]

mod closing;
mod fault;
mod files;
mod opening;
mod round_streams;
mod sizing;
mod watching;

pub use closing::{Closed, close_checkpoint, create_checkpoint, discard_it};
pub use fault::CommandFault;
pub use files::{Files, Machine, OpenFault, Viewed};
pub use opening::{Asked, open_streams, read_asked};
pub use round_streams::{open_round, stream_paths, words_of};
pub use sizing::sizes_of_round;
