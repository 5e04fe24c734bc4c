//! What becomes of an expectation.

use pm_base::{DevId, DomId, Status};

/// Whether an expectation holds in a run; else at which line it fails first, counted from 1, and what is so there.
#[derive(Clone, Copy, PartialEq, Eq)]
pub enum Verdict<T> {
    Holds,
    /// The run isn't finished, and what it has of it holds.
    Open,
    Fails { line: u32, told: T },
}

/// An expectation with what becomes of it.
#[derive(Clone, Copy, PartialEq, Eq)]
pub struct Judged<E, T> {
    pub expected: E,
    pub verdict: Verdict<T>,
}

/// How a run leaves a device.
#[derive(Clone, Copy, PartialEq, Eq)]
pub struct Leaves {
    pub status: Status,
    /// Its usage count.
    pub usage: u32,
}

/// What a device lacks to be used.
#[derive(Clone, Copy, PartialEq, Eq)]
pub enum Lack {
    /// It isn't Active.
    Inactive { status: Status },
    /// Its domain, or one above that, is off.
    Domain { domain: DomId },
    /// Its parent isn't Active, and doesn't ignore its children (`runtime_pm.rst`, section 2).
    Parent { parent: DevId },
    /// The supplier of a link that has `DL_FLAG_PM_RUNTIME` and is present isn't Active (`device_link.rst`).
    Supplier { supplier: DevId },
}
