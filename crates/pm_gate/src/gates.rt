//! Gates.

ghost use Rattle.std.specs.Prelude.{◌≡◌};
ghost use Rattle.pm_gate.specs.Gates.{is_first_resume, side_of};

use pm_base::{Cb, DevId};
use std::sync::atomic::{AtomicBool, Ordering};
use std::thread;

/// What is called while a callback runs, behind its begin line and before its end line. No lock is held
/// then.
pub trait Gate {
    /// This callback of the device has begun, which is the `nth` of its kind on the device, counted from 1.
    fn callback(&self, dev: DevId, cb: Cb, nth: u64);
}

/// A gate that returns at once.
#[derive(Clone, Copy)]
pub struct Quiet;

impl Gate for Quiet {
    fn callback(&self, _dev: DevId, _cb: Cb, _nth: u64) {}
}

/// How many turns a callback waits for another, at most. In each it yields the processor.
const TURNS: u32 = 1_000_000;

/// One of the two devices of a `Meet`.
#[derive(Clone, Copy, PartialEq, Eq)]
pub(crate) enum Side {
    /// The first that was named.
    One,
    /// The second.
    Other,
}

/// A gate that holds the first resume callback of each of two devices until that of the other has begun,
/// or for 1,000,000 turns.
#[derive(Drop)]
pub struct Meet {
    one: DevId,
    other: DevId,
    one_began: AtomicBool,
    other_began: AtomicBool,
    gave_up: AtomicBool,
}

// Whether this is the first resume callback of a device.
fn is_first_resume(device: DevId, dev: DevId, cb: Cb, nth: u64) -> bool
    ensures { result ≡ is_first_resume device cb dev nth }
{
    dev == device && matches!(cb, Cb::Resume) && nth == 1
}

// Whose first resume callback this is, if it is one of the two.
pub(crate) fn side_of(one: DevId, other: DevId, dev: DevId, cb: Cb, nth: u64) -> Option<Side>
    ensures { result ≡ side_of one other dev cb nth }
{
    if is_first_resume(one, dev, cb, nth) {
        Some(Side::One)
    } else if is_first_resume(other, dev, cb, nth) {
        Some(Side::Other)
    } else {
        None
    }
}

// Waits until the mark is set, and says whether it was.
fn wait_for(mark: &AtomicBool) -> bool {
    for _ in 0..TURNS {
        if mark.load(Ordering::SeqCst) {
            return true;
        }
        thread::yield_now();
    }
    false
}

impl Meet {
    /// Holds the first resume callbacks of these two devices.
    pub fn new(one: DevId, other: DevId) -> Meet
        ensures one { result.one ≡ one }
        ensures other { result.other ≡ other }
    {
        Meet {
            one,
            other,
            one_began: AtomicBool::new(false),
            other_began: AtomicBool::new(false),
            gave_up: AtomicBool::new(false),
        }
    }

    // Sets one mark and waits for the other.
    fn hold(&self, mine: &AtomicBool, theirs: &AtomicBool) {
        mine.store(true, Ordering::SeqCst);
        if !wait_for(theirs) {
            self.gave_up.store(true, Ordering::SeqCst);
        }
    }

    /// Whether both callbacks have begun and neither came to the end of its turns. Of two that ran one
    /// behind the other, the first did.
    pub fn met(&self) -> bool {
        self.one_began.load(Ordering::SeqCst)
            && self.other_began.load(Ordering::SeqCst)
            && !self.gave_up.load(Ordering::SeqCst)
    }
}

impl Gate for Meet {
    fn callback(&self, dev: DevId, cb: Cb, nth: u64) {
        match side_of(self.one, self.other, dev, cb, nth) {
            Some(Side::One) => self.hold(&self.one_began, &self.other_began),
            Some(Side::Other) => self.hold(&self.other_began, &self.one_began),
            None => {}
        }
    }
}
