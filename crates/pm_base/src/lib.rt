//! The names, codes, flags and limits that every crate shares.
//!
//! Devices, statuses, callbacks and requests follow the kernel's `runtime_pm.rst`; what is this
//! project's own says so.
#![tactic(auto)]

mod codes;
mod errors;
mod limits;

pub use codes::{
    ASYNC, AUTO, EACCES, EAGAIN, EBUSY, EINPROGRESS, EINVAL, EIO, EPERM, ETIMEDOUT, GET_PUT,
    NOWAIT, codes_are_numbers,
};
pub use errors::{Failed, NoMemory};
pub use limits::{
    DEFAULT_LINES, LINE_BYTES, MAX_CALLERS, MAX_CODES, MAX_COMMANDS, MAX_DEVICES, MAX_DOMAINS,
    MAX_LINES, MAX_LINKS, MAX_MS, MAX_NAME, MIN_CODE, PIECE_BYTES, PLAN_BYTES, TEXT_BYTES,
    TRACE_BYTES, limits_are_numbers,
};

/// A device, by its place in the plan's list of devices, counted from 0.
#[derive(Clone, Copy, PartialEq, Eq, PartialOrd, Ord, Hash)]
pub struct DevId(pub u32);

/// A power domain, by its place in the plan's list of domains, counted from 0.
#[derive(Clone, Copy, PartialEq, Eq, PartialOrd, Ord, Hash)]
pub struct DomId(pub u32);

/// Who writes a line (this project's own).
#[derive(Clone, Copy, PartialEq, Eq, PartialOrd, Ord, Hash)]
pub enum ActorId {
    /// A caller that runs its script, by its place in the plan's list of callers.
    Caller(u32),
    /// The work item of a device, by the device's place.
    Work(u32),
    /// The timer of a device, by the device's place.
    Timer(u32),
}

/// The status of a device (`runtime_pm.rst`, section 3, `runtime_status`).
#[derive(Clone, Copy, Debug, PartialEq, Eq, Hash)]
pub enum Status {
    /// It is resumed; idle and suspend callbacks may begin.
    Active,
    /// It is suspended; a resume may begin.
    Suspended,
    /// Its suspend is under way.
    Suspending,
    /// Its resume is under way.
    Resuming,
}

/// A callback of a device (`runtime_pm.rst`, section 2).
#[derive(Clone, Copy, PartialEq, Eq, Hash)]
pub enum Cb {
    /// `runtime_idle`.
    Idle,
    /// `runtime_suspend`.
    Suspend,
    /// `runtime_resume`.
    Resume,
}

/// A request that waits for the work item of a device (`runtime_pm.rst`, section 3, `request`).
#[derive(Clone, Copy, Debug, PartialEq, Eq, Hash)]
pub enum Req {
    /// None is pending.
    Nothing,
    /// To run the idle callback.
    Idle,
    /// To suspend.
    Suspend,
    /// To suspend once the autosuspend delay has passed.
    Autosuspend,
    /// To resume.
    Resume,
}

/// Why a usage count is held (this project's own; the kernel keeps one number).
#[derive(Clone, Copy, PartialEq, Eq, Hash)]
pub enum Why {
    /// A caller's helper took it.
    Caller,
    /// `disable` or `barrier` holds it while it runs.
    Control,
    /// `forbid` holds it until `allow`.
    Forbid,
    /// Autosuspend is in use with a negative delay.
    Delay,
    /// This child is about to resume.
    Child(DevId),
    /// This consumer holds its supplier by a runtime link (`device_link.rst`).
    Link(DevId),
}

/// What is pending for a device (`runtime_pm.rst`, section 3).
#[derive(Clone, Copy, Debug, PartialEq, Eq, Hash)]
pub struct Pending {
    /// The request that its work item will carry out.
    pub request: Req,
    /// Whether its work item is queued (`request_pending`).
    pub queued: bool,
    /// Whether a resume waits for the end of a suspend (`deferred_resume`).
    pub deferred: bool,
}

/// The armed timer of a device (`runtime_pm.rst`, section 3, `suspend_timer`).
#[derive(Clone, Copy, Debug, PartialEq, Eq, Hash)]
pub struct Armed {
    /// When it fires, in milliseconds of the run.
    pub deadline: u64,
    /// Whether an autosuspend armed it, and not `schedule_suspend`.
    pub autosuspends: bool,
}
