//! Bounded waits of the workers of a batch for each other.
use std::sync::atomic::Ordering::SeqCst;
use std::sync::atomic::{AtomicBool, AtomicUsize};
use std::thread;

/// The number of checks of a worker that gives up soon, in a test that is repeated for each allocation.
pub(crate) const LOOKS: usize = 200_000;

/// Waits that end together: the first worker that waits too long ends all waiting.
#[derive(Drop)]
pub(crate) struct Waits {
    // The number of times that a worker checks the progress of another before it gives up.
    looks: usize,
    given_up: AtomicBool,
}

impl Waits {
    /// Returns waits of at most this many checks each. With none, nobody waits.
    pub(crate) fn new(looks: usize) -> Waits {
        Waits {
            looks,
            given_up: AtomicBool::new(false),
        }
    }

    /// Waits until a count is at least `least`.
    pub(crate) fn until(&self, count: &AtomicUsize, least: usize) {
        for _ in 0..self.looks {
            if count.load(SeqCst) >= least || self.given_up.load(SeqCst) {
                return;
            }
            thread::yield_now();
        }
        self.given_up.store(true, SeqCst);
    }

    /// Returns whether each wait ended because of what it waited for.
    pub(crate) fn all_ended(&self) -> bool {
        !self.given_up.load(SeqCst)
    }
}

/// Yields often enough for another worker to go on as far as it can.
pub(crate) fn let_others_go_on() {
    for _ in 0..10_000 {
        thread::yield_now();
    }
}

/// Counts one more, and returns the new count.
pub(crate) fn next_of(count: &AtomicUsize) -> usize {
    count.fetch_add(1, SeqCst).wrapping_add(1)
}
