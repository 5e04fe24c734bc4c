//! What is told of a bond.

use pm_base::{DevId, DomId};

/// Why a device may be Active over a parent or a supplier that isn't (this project's own).
#[derive(Clone, Copy, PartialEq, Eq)]
pub enum Excuse {
    /// `set_active` or `set_suspended` forced the other's status since the device was last Suspended, in this line;
    /// lines are counted from 1.
    Forced { line: u32 },
    /// The other was disabled: a parent when the device began to resume, a supplier when it was to resume for it.
    Disabled,
    /// The parent ignored its children when the device began to resume, or later.
    Ignored,
}

/// A bond of an Active device that is off: to its domain, to its parent or to a supplier (this project's own).
#[derive(Clone, Copy, PartialEq, Eq)]
pub enum Bond {
    /// Its domain, or one above that, is off.
    Domain {
        dev: DevId,
        domain: DomId,
    },
    /// Its parent isn't Active and doesn't ignore its children (`runtime_pm.rst`, section 2).
    Parent {
        dev: DevId,
        parent: DevId,
        excuse: Excuse,
    },
    /// The supplier of a link that has `DL_FLAG_PM_RUNTIME` and is present isn't Active (`device_link.rst`).
    Supplier {
        dev: DevId,
        supplier: DevId,
        excuse: Excuse,
    },
}
