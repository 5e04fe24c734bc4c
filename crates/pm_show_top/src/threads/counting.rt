//! Counts of callbacks.

use pm_base::{Cb, DevId};
use pm_gate::Gate;
use pm_model::{Event, Line};
use std::sync::atomic::{AtomicU64, Ordering};

/// How many callbacks of each kind a device had.
#[derive(Clone, Copy, PartialEq, Eq)]
pub struct Counts {
    pub idles: u64,
    pub suspends: u64,
    pub resumes: u64,
}

const NONE: Counts = Counts {
    idles: 0,
    suspends: 0,
    resumes: 0,
};

/// What counts the callbacks of a device.
#[derive(Drop)]
struct Counter {
    idles: AtomicU64,
    suspends: AtomicU64,
    resumes: AtomicU64,
}

impl Counter {
    fn new() -> Counter {
        Counter {
            idles: AtomicU64::new(0),
            suspends: AtomicU64::new(0),
            resumes: AtomicU64::new(0),
        }
    }

    fn count(&self, cb: Cb) {
        let count = match cb {
            Cb::Idle => &self.idles,
            Cb::Suspend => &self.suspends,
            Cb::Resume => &self.resumes,
        };
        count.fetch_add(1, Ordering::SeqCst);
    }

    fn counts(&self) -> Counts {
        Counts {
            idles: self.idles.load(Ordering::SeqCst),
            suspends: self.suspends.load(Ordering::SeqCst),
            resumes: self.resumes.load(Ordering::SeqCst),
        }
    }
}

/// A gate that counts the callbacks of each kind of each of the first five devices.
#[derive(Drop)]
pub struct Counting {
    devices: [Counter; 5],
}

impl Counting {
    pub fn new() -> Counting {
        Counting {
            devices: [
                Counter::new(),
                Counter::new(),
                Counter::new(),
                Counter::new(),
                Counter::new(),
            ],
        }
    }

    /// Of each device.
    pub fn counts(&self) -> [Counts; 5] {
        let [first, second, third, fourth, fifth] = &self.devices;
        [
            first.counts(),
            second.counts(),
            third.counts(),
            fourth.counts(),
            fifth.counts(),
        ]
    }
}

impl Gate for Counting {
    fn callback(&self, dev: DevId, cb: Cb, _nth: u64) {
        if let Some(counter) = self.devices.get(dev.0 as usize) {
            counter.count(cb);
        }
    }
}

/// One callback of a kind more.
fn one_more(counts: Counts, cb: Cb) -> Counts {
    match cb {
        Cb::Idle => Counts {
            idles: counts.idles.saturating_add(1),
            ..counts
        },
        Cb::Suspend => Counts {
            suspends: counts.suspends.saturating_add(1),
            ..counts
        },
        Cb::Resume => Counts {
            resumes: counts.resumes.saturating_add(1),
            ..counts
        },
    }
}

/// How many of the lines begin a callback of each kind, of each of the first five devices.
pub fn begun(lines: &[Line]) -> [Counts; 5] {
    let mut all = [NONE; 5];
    for line in lines {
        if let Event::Begin { dev, cb } = line.event {
            if let Some(counts) = all.get_mut(dev.0 as usize) {
                *counts = one_more(*counts, cb);
            }
        }
    }
    all
}

/// How many devices had a resume callback.
pub fn resumed(all: &[Counts; 5]) -> usize {
    all.iter().filter(|counts| counts.resumes > 0).count()
}

/// How many resume and suspend callbacks there were, of all devices.
pub fn resumes_and_suspends(all: &[Counts; 5]) -> u64 {
    let mut sum = 0u64;
    for counts in all {
        sum = sum
            .saturating_add(counts.resumes)
            .saturating_add(counts.suspends);
    }
    sum
}
