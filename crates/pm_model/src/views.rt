//! What the views of a device are kept as.

use pm_base::Status;

/// What is known of one device, but for what is pending and its timer (`runtime_pm.rst`,
/// section 3).
#[derive(Clone, Copy, Debug, PartialEq, Eq, Hash)]
pub struct Device {
    pub status: Status,
    /// The stored error, 0 where there is none (`runtime_error`).
    pub error: i32,
    /// How many times it is disabled (`disable_depth`).
    pub depth: u32,
    /// Whether it was Active as the last disabling from depth 0 ended (`last_status`).
    pub last_active: bool,
    /// The counts that are taken and not given back (`usage_count`).
    pub usage: u32,
    /// Those of them that callers took (this project's own).
    pub share: u32,
    /// Whether it isn't forbidden (`runtime_auto`).
    pub auto_on: bool,
    /// When it was last marked busy, in milliseconds of the run (`last_busy`).
    pub last_busy: u64,
    /// Whether autosuspend is in use (`use_autosuspend`).
    pub use_auto: bool,
    /// The autosuspend delay, in milliseconds, -1,000,000 to 1,000,000 (`autosuspend_delay`).
    pub delay: i64,
    /// Whether its idle callback runs (`idle_notification`).
    pub idle_running: bool,
    /// Whether its children don't count (`ignore_children`).
    pub ignores: bool,
    /// How many times its idle callback has begun.
    pub begun_idle: u32,
    /// How many times its suspend callback has begun.
    pub begun_suspend: u32,
    /// How many times its resume callback has begun.
    pub begun_resume: u32,
}
