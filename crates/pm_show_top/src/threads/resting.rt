//! A clock that goes on while somebody rests, and one that can't be read.

use pm_gate::Clock;
use std::sync::atomic::{AtomicU64, Ordering};
use std::thread;

/// A clock whose time passes only while somebody rests. It counts how often that was.
#[derive(Drop)]
pub struct Resting {
    time: AtomicU64,
    rests: AtomicU64,
}

impl Resting {
    pub fn new() -> Resting {
        Resting {
            time: AtomicU64::new(0),
            rests: AtomicU64::new(0),
        }
    }

    /// How often somebody rested.
    pub fn rests(&self) -> u64 {
        self.rests.load(Ordering::SeqCst)
    }
}

impl Clock for Resting {
    fn now(&self) -> Option<u64> {
        Some(self.time.load(Ordering::SeqCst))
    }

    fn rest(&self, until: u64) {
        self.rests.fetch_add(1, Ordering::SeqCst);
        if until > self.time.load(Ordering::SeqCst) {
            self.time.store(until, Ordering::SeqCst);
        }
        thread::yield_now();
    }

    fn seed(&self) -> u64 {
        0
    }
}

/// A clock that can't be read.
#[derive(Clone, Copy)]
pub struct Silent;

impl Clock for Silent {
    fn now(&self) -> Option<u64> {
        None
    }

    fn rest(&self, _until: u64) {
        thread::yield_now();
    }

    fn seed(&self) -> u64 {
        0
    }
}
