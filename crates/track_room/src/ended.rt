//! Whether all scripts have ended.
use std::sync::Wait;
use std::sync::atomic::{AtomicU64, Ordering};
use std::time::Duration;

/// A flag that threads share: whether all scripts have ended. Nothing is proved of it.
#[derive(Drop)]
pub struct Ended {
    word: AtomicU64,
}

impl Ended {
    /// They haven't yet.
    pub fn new() -> Ended {
        Ended {
            word: AtomicU64::new(0),
        }
    }

    /// They have ended. Wakes all that pause.
    pub fn set(&self) {
        self.word.store(1, Ordering::SeqCst);
        self.word.wake_all();
    }

    /// Whether they have.
    pub fn is_set(&self) -> bool {
        self.word.load(Ordering::SeqCst) == 1
    }

    /// Sleeps for a millisecond at most, and no longer than until they have ended.
    pub fn pause<R: Wait>(&self, rt: &R) {
        self.word.park_timeout(rt, 0, Duration::from_millis(1));
    }
}
