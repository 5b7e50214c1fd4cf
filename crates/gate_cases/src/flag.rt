//! Flags that one thread raises and others wait for.

use std::sync::atomic::{AtomicBool, Ordering};
use std::thread;

/// The most turns of a wait. In each the flag is read, and then other threads are let go on.
const MOST_TURNS: u64 = 10_000_000;

/// The turns for which a session is held that waits for nothing.
const HELD: u64 = 50_000;

/// A flag, which is raised once.
#[derive(Drop)]
pub struct Flag {
    raised: AtomicBool,
}

impl Flag {
    /// It is not raised.
    pub fn new() -> Flag {
        Flag {
            raised: AtomicBool::new(false),
        }
    }

    pub fn raise(&self) {
        self.raised.store(true, Ordering::SeqCst);
    }

    pub fn is_raised(&self) -> bool {
        self.raised.load(Ordering::SeqCst)
    }

    /// Waits for the flag up to the limit, and says whether it was raised.
    pub fn is_raised_in_time(&self) -> bool {
        self.is_raised_within(MOST_TURNS)
    }

    /// Looks at the flag for as long as a session is held, and says whether it was raised.
    pub fn is_raised_meanwhile(&self) -> bool {
        self.is_raised_within(HELD)
    }

    fn is_raised_within(&self, turns: u64) -> bool {
        for _ in 0..turns {
            if self.is_raised() {
                return true;
            }
            thread::yield_now();
        }
        self.is_raised()
    }
}
