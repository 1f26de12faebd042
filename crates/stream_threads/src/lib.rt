//! Two threads for each stream of a run, with one store of clauses for all streams: one thread
//! reads the stream and sends its bytes through a ring, and the other checks what it receives. A
//! ring is a bounded queue with one producer and one consumer (`rtrb`), whose threads sleep while
//! they have nothing to do. Its items are `u16`: a byte, or one of two marks after the last byte.
#![tactic(auto)]

mod blocks;
mod channel;
mod checking;
mod joining;
mod pair;
mod reading;
mod results;
mod signal;
mod starting;
mod stream_jobs;
mod tasks;

pub use channel::{Received, Receiver, Sender, halves_agree, ring};
pub use checking::{Checked, CheckingJob, check_on_signal};
pub use joining::{StartSignal, ThreadLists, check_all};
pub use pair::{jobs, jobs_agree};
pub use reading::{ReadingJob, Sent, read_on_signal};
pub use results::StreamResults;
pub use signal::wait_for_start;
pub use stream_jobs::{StreamJobs, ThreadFault, jobs_of};
