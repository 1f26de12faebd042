//! The gate that makes a stream wait for clauses that others haven't published yet.
use lrup_model::Id;
use std::thread;
use std::time::{Clock, Duration};
use stream_check::Gate;

/// A gate that sleeps one microsecond, on the given clock, before each attempt at a hint except the
/// first.
#[derive(Drop)]
pub struct Pause<C: Clock + Drop> {
    clock: C,
}

impl<C: Clock + Drop> Pause<C> {
    /// The gate of one stream. A reference to a clock is a clock, too.
    pub fn new(clock: C) -> Pause<C> {
        Pause { clock }
    }
}

impl<C: Clock + Drop> Gate for Pause<C> {
    fn before_fetch(&mut self, _stream: u64, _id: Id, attempt: u64) {
        if attempt > 1 {
            thread::sleep(&self.clock, Duration::from_micros(1));
        }
    }

    fn after_publish(&mut self, _stream: u64, _id: Id) {}
}
