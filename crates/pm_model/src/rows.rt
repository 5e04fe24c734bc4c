//! The rows of a plan.

ghost use Rattle.std.specs.Prelude.{◌≡◌};

use crate::event::Command;
use crate::{Items, Named, NamedList};
use pm_base::{DevId, DomId};

/// The bytes of a name. In a plan they are 1 to 32, each a letter, a digit, `_`, `-`, `.` or `:` of
/// ASCII; a caller's name has neither `.` nor `:` (this project's own).
pub type Name = Items<u8>;

/// The codes that a callback answers in turn, at most 64: each 0, or -4095 to -1 but for -13.
pub type Codes = Items<i32>;

/// The commands of a caller in order, at most 1,000.
pub type Script = Items<Command>;

/// At most 1,024 runtime links.
pub type LinkList = Items<LinkRow>;

/// At most 128 power domains.
pub type DomainList = NamedList<DomainRow>;

/// At most 1,024 devices.
pub type DeviceList = NamedList<DeviceRow>;

/// At most 16 callers.
pub type CallerList = NamedList<CallerRow>;

/// A power domain, after the kernel's generic power domains.
#[derive(Drop)]
pub struct DomainRow {
    pub name: Name,
    /// The domain that supplies this one, which stands earlier.
    pub parent: Option<DomId>,
    /// It starts on and never goes off.
    pub always_on: bool,
}

impl Named for DomainRow {
    ghost name_of = { λ row. row.name };

    fn name(&self) -> &Name {
        &self.name
    }
}

/// A device (`runtime_pm.rst`, sections 2, 3 and 8).
#[derive(Drop)]
pub struct DeviceRow {
    pub name: Name,
    /// Its parent, which stands earlier.
    pub parent: Option<DevId>,
    pub domain: Option<DomId>,
    /// Whether it starts as one that ignores its children (`power.ignore_children`).
    pub ignore_children: bool,
    /// It has no callbacks of its own (`pm_runtime_no_callbacks`).
    pub no_callbacks: bool,
    /// Its callbacks mark it as last busy when they end.
    pub busy: bool,
    /// The codes of its idle callback in turn, and 0 after the last; `None` where it has none.
    pub idle: Option<Codes>,
    /// The codes of its suspend callback in turn, and 0 after the last.
    pub suspend: Codes,
    /// The codes of its resume callback in turn, and 0 after the last.
    pub resume: Codes,
    /// Milliseconds that an idle callback takes, 0 to 1,000,000.
    pub idle_ms: u32,
    /// Milliseconds that a suspend callback takes, 0 to 1,000,000.
    pub suspend_ms: u32,
    /// Milliseconds that a resume callback takes, 0 to 1,000,000.
    pub resume_ms: u32,
}

impl Named for DeviceRow {
    ghost name_of = { λ row. row.name };

    fn name(&self) -> &Name {
        &self.name
    }
}

/// A link from a consumer to its supplier (`device_link.rst`).
#[derive(Clone, Copy, PartialEq, Eq)]
pub struct LinkRow {
    pub consumer: DevId,
    /// The supplier, which stands earlier than the consumer.
    pub supplier: DevId,
    /// Whether it has `DL_FLAG_PM_RUNTIME`. A link without it has no effect.
    pub pm_runtime: bool,
    /// It isn't present until `link_add` (this project's own).
    pub later: bool,
}

/// A caller of helpers (this project's own).
#[derive(Drop)]
pub struct CallerRow {
    pub name: Name,
    pub script: Script,
}

impl Named for CallerRow {
    ghost name_of = { λ row. row.name };

    fn name(&self) -> &Name {
        &self.name
    }
}
