//! What an author expects of a run.

use pm_base::DevId;
use pm_model::{Command, Items};

/// Which of the calls of a command in its caller's script.
#[derive(Clone, Copy, PartialEq, Eq)]
pub enum Which {
    /// Each of them.
    Each,
    /// One, counted from 1.
    Nth(u32),
}

/// A call answers a code.
#[derive(Clone, Copy, PartialEq, Eq)]
pub struct Answer {
    /// The caller, by its place in the plan.
    pub caller: u32,
    /// A command of its script.
    pub command: Command,
    pub which: Which,
    /// From -4,095 to 1.
    pub code: i32,
}

/// How a device is left.
#[derive(Clone, Copy, PartialEq, Eq)]
pub enum Left {
    Suspended,
    Active,
}

/// A finished run leaves a device so.
#[derive(Clone, Copy, PartialEq, Eq)]
pub struct End {
    pub dev: DevId,
    pub left: Left,
    /// Its usage count, from 0 to 200,000; any where there is none.
    pub usage: Option<u32>,
}

/// A caller uses a device while it is in each of its calls of a command.
#[derive(Clone, Copy, PartialEq, Eq)]
pub struct Use {
    pub dev: DevId,
    /// The caller, by its place in the plan.
    pub caller: u32,
    /// A command of its script.
    pub command: Command,
}

/// What a file expects, each list in the order of its tables.
#[derive(Drop)]
pub struct Expectations {
    pub answers: Items<Answer>,
    pub ends: Items<End>,
    pub uses: Items<Use>,
}
