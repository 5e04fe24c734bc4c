//! What shows.

use pm_base::{DevId, Status};

/// A caller's command, from 1, has returned a code.
#[derive(Clone, Copy, PartialEq, Eq, Hash)]
pub struct Returned {
    pub caller: u32,
    pub command: u32,
    pub code: i32,
}

/// A run is finished, and leaves a device so.
#[derive(Clone, Copy, PartialEq, Eq, Hash)]
pub struct Left {
    pub device: DevId,
    pub status: Status,
    pub usage: u32,
    pub error: i32,
}

/// What shows where a schedule stands.
#[derive(Clone, Copy, PartialEq, Eq, Hash)]
pub enum Observation {
    Return(Returned),
    End(Left),
}

/// An observation with the number of the first round that has it, and the place of the first snapshot that shows it.
#[derive(Clone, Copy, PartialEq, Eq)]
pub struct Outcome {
    pub observation: Observation,
    pub round: usize,
    pub place: usize,
}
