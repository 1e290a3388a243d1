//! How a worker that finds nothing to do waits.
use std::thread;
use std::time::{Clock, Duration};

/// How often in a row a coordinator that finds nothing only yields, and for how many microseconds it then sleeps at
/// first. The results that a coordinator waits for are already being computed.
const YIELDS_OF_COORDINATOR: u32 = 16;

const SLEEP_OF_COORDINATOR: u64 = 100;

/// How often a helper only yields, and for how many microseconds it then sleeps at first. A helper may have to wait
/// long for a task, and each look slows down the workers that compute.
const YIELDS_OF_HELPER: u32 = 1;

const SLEEP_OF_HELPER: u64 = 500;

/// The longest time for which a worker sleeps, in microseconds.
const LONGEST: u64 = 1_000;

/// A worker's patience: it yields at first, and then sleeps, each time for longer, up to a maximum.
#[derive(Drop)]
pub(crate) struct Patience {
    yields: u32,
    shortest: u64,
    turns: u32,
    sleep: u64,
}

impl Patience {
    /// Returns the patience of a coordinator that has just found something.
    pub(crate) fn of_coordinator() -> Patience {
        Patience::new(YIELDS_OF_COORDINATOR, SLEEP_OF_COORDINATOR)
    }

    /// Returns the patience of a helper that has just found something.
    pub(crate) fn of_helper() -> Patience {
        Patience::new(YIELDS_OF_HELPER, SLEEP_OF_HELPER)
    }

    fn new(yields: u32, shortest: u64) -> Patience {
        Patience {
            yields,
            shortest,
            turns: 0,
            sleep: shortest,
        }
    }

    /// Resets the patience, since something was found.
    pub(crate) fn renew(&mut self) {
        self.turns = 0;
        self.sleep = self.shortest;
    }

    /// Waits once more.
    pub(crate) fn wait(&mut self, clock: &impl Clock) {
        if self.turns < self.yields {
            self.turns += 1;
            thread::yield_now();
        } else {
            thread::sleep(clock, Duration::from_micros(self.sleep));
            self.sleep = self.sleep.saturating_mul(2).min(LONGEST);
        }
    }
}
