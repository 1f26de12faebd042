// What the tests of the ring and of the jobs share.
use std::fmt;
use std::process::Abort;
use std::sync::atomic::{AtomicU64, Ordering};
use std::thread::{self, yield_now};
use std::time::{Clock, Duration};

mod jobs;
mod ring;

/// Stops the test if two values differ. This is a function, so the assertion is proved only once.
fn same<T: PartialEq + fmt::Debug + Drop>(rt: &impl Abort, value: T, wanted: T) {
    assert_eq!(rt; value, wanted);
}

/// How many times a thread polls for another one before it gives up.
const TURNS: u64 = 10_000_000;

/// Waits until the counter has this value; returns whether it got there in time.
fn waits_for(counter: &AtomicU64, wanted: u64) -> bool {
    for _ in 0..TURNS {
        if counter.load(Ordering::SeqCst) >= wanted {
            return true;
        }
        yield_now();
    }
    false
}

/// Long enough for the other thread to have fallen asleep.
fn pause(clock: &impl Clock) {
    thread::sleep(clock, Duration::from_micros(300));
}
