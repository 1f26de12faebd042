//! The row of words that all streams share, without a lock. Each call takes a few `SeqCst` steps on
//! single words. The row's rule says what the words mean between any two steps of any threads.
#![tactic(auto)]

mod opening;
mod row;
mod rule;
mod seat;
mod word;

pub use row::Row;
pub use seat::Seat;
pub use word::{LIVE, RETIRED, VACANT, len, lit, start, state};
