//! A driver with what its file says of its callers.

use pm_driver_rules::DriverRules;

/// What a driver's file says of a caller beside its program.
#[derive(Clone, Copy)]
pub struct CallerOrigin<'a> {
    /// The step of the file's script that each step of the program is of; none where the driver core makes the calls.
    pub lines: &'a [Option<u32>],
    /// Whether it binds the driver: what it holds where it has returned may be held until the driver is removed.
    pub is_probe: bool,
    /// Whether it removes the driver.
    pub is_remove: bool,
}

/// A driver whose schedules are looked at.
#[derive(Clone, Copy)]
pub struct ExaminedDriver<'a> {
    pub rules: &'a DriverRules<'a>,
    /// By the caller's place in the plan.
    pub origins: &'a [CallerOrigin<'a>],
}
