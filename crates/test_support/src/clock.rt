//! A clock whose sleeps return at once.
use std::io;
use std::sync::atomic::{AtomicU64, Ordering};
use std::time::{Clock, Duration};

/// A clock that always shows 0, and counts the sleeps.
#[derive(Drop)]
pub struct Sleeps {
    micros: AtomicU64,
    others: AtomicU64,
}

impl Sleeps {
    /// A clock without sleeps so far.
    pub fn new() -> Sleeps {
        Sleeps {
            micros: AtomicU64::new(0),
            others: AtomicU64::new(0),
        }
    }

    /// The number of sleeps of one microsecond, and the number of all others.
    pub fn counts(&self) -> (u64, u64) {
        let micros = self.micros.load(Ordering::SeqCst);
        (micros, self.others.load(Ordering::SeqCst))
    }
}

impl Clock for Sleeps {
    fn monotonic(&self) -> io::Result<Duration> {
        Ok(Duration::from_micros(0))
    }

    fn since_1970(&self) -> io::Result<Duration> {
        Ok(Duration::from_micros(0))
    }

    fn sleep(&self, duration: Duration) {
        if duration.as_nanos() == 1_000 {
            self.micros.fetch_add(1, Ordering::SeqCst);
        } else {
            self.others.fetch_add(1, Ordering::SeqCst);
        }
    }
}
