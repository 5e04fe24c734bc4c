//! What a step answers.

use pm_base::{Cb, DevId};

/// What came of a step of an actor. The first that holds, in this order, is the answer; all but `Begun`
/// and `Wrote` change nothing.
#[derive(Clone, Copy, PartialEq, Eq)]
pub enum Step {
    /// The list has all the lines that the plan allows.
    AtLimit,
    /// The actor's callback has begun and not ended; its end is due at this moment, in milliseconds of
    /// the run.
    Running(u64),
    /// The actor has no open stage and nothing to start.
    Resting,
    /// The actor waits for this device.
    Blocked(DevId),
    /// The actor's line is due at this later moment.
    Early(u64),
    /// A callback's begin line was written: which callback of the device, and which of its kind on this
    /// device it is, counted from 1.
    Begun(DevId, Cb, u64),
    /// Another line was written.
    Wrote,
}

/// What came of the end of a callback. The first that holds is the answer; all but `Wrote` change
/// nothing.
#[derive(Clone, Copy, PartialEq, Eq)]
pub enum EndStep {
    /// The list has all the lines that the plan allows.
    AtLimit,
    /// The end is due at this later moment, in milliseconds of the run.
    Early(u64),
    /// The end line was written.
    Wrote,
}
