//! Why a driver isn't read.

ghost use Rattle.std.specs.Prelude.{◌≡◌};
ghost use Rattle.pm_driver_read.specs.Refusals.{plan_refused, refused};

use pm_base::NoMemory;
use pm_driver_script::ScriptWhy;
use pm_driver_text::StepFault;
use pm_planread::PlanWhy;
use pm_planread::tree::{Place, Section};
use std::alloc::{AllocError, AllocFailed};

/// Why the words of a caller are refused, in the order in which each caller's are looked at (this project's own).
#[derive(Clone, Copy)]
pub enum KeyWhy {
    /// `times` isn't 1 to 1,000.
    Times,
    /// `role` is none of `probe`, `remove` and `shutdown`.
    Role,
    /// `bus` is neither `amba` nor `pci`.
    Bus,
    /// `binds` names no device.
    Binds,
    /// `binds` without `role`, or `bus` without `binds`.
    Alone,
    /// `adopts` names no caller.
    Adopts,
    /// `after` names no caller.
    After,
    /// `after` names a mark that its caller doesn't set.
    Mark,
    /// It begins after callers that begin after it.
    Circle,
}

/// What is wrong with a caller's words, and which of a list.
#[derive(Clone, Copy)]
pub struct KeyFault {
    pub why: KeyWhy,
    pub part: usize,
}

/// The same with the caller, counted from 0.
#[derive(Clone, Copy)]
pub struct KeyRefusal {
    pub why: KeyWhy,
    pub caller: usize,
    pub part: usize,
}

/// Why a driver's scripts are refused, in the order in which all of them are looked at (this project's own).
#[derive(Clone, Copy)]
pub enum ProgramWhy {
    /// A step is none.
    Step { fault: StepFault },
    /// A step that is undone stands in the script of no probe that binds a device, or is a jump or an end.
    Devm,
    /// More than 64 steps are undone.
    ManyDevm,
    /// More than 64 devices are resumed by force.
    ManyForced,
    /// There are more flags than devices may be left.
    ManyFlags,
    /// There are more than 64 marks.
    ManyMarks,
    /// There are more than 64 locks.
    ManyLocks,
    /// A step is refused among those of its script.
    Script { why: ScriptWhy },
    /// A script has more than 1,000 places and ends.
    ManyPlaces,
}

/// A refusal, the caller and the step that are refused, counted from 0; both are 0 where it is of all.
#[derive(Clone, Copy)]
pub struct ProgramRefusal {
    pub caller: usize,
    pub step: usize,
    pub why: ProgramWhy,
}

/// Why a device of a driver is refused (this project's own).
#[derive(Clone, Copy)]
pub enum DeviceWhy {
    /// One of `fails` names no callback that may fail, a code that none may answer, or one that stands earlier.
    Fails,
    /// It has a list of codes, which a driver hasn't: `fails` says what may fail.
    Codes,
}

/// A device that is refused, counted from 0, and which of its `fails`.
#[derive(Clone, Copy)]
pub struct DeviceRefusal {
    pub why: DeviceWhy,
    pub device: usize,
    pub part: usize,
}

/// The first refusal of a driver, in the order in which the whole file is looked at (this project's own).
#[derive(Clone, Copy)]
pub enum DriverRefusal {
    /// A plan's, but for its scripts. A device behind those of the file is a flag: it has the name of a device.
    Plan {
        why: PlanWhy,
        section: Section,
        item: u32,
        part: u32,
    },
    /// Of a caller's words.
    Key {
        refusal: KeyRefusal,
    },
    /// Of its scripts.
    Program {
        refusal: ProgramRefusal,
    },
    /// Of a device.
    Device {
        refusal: DeviceRefusal,
    },
}

/// Why a driver isn't read.
#[derive(Clone, Copy)]
pub enum DriverFault {
    /// The first refusal.
    Refused { refusal: DriverRefusal },
    /// Memory ran out.
    NoMemory,
}

/// A refusal at a step.
pub(crate) fn refused(caller: usize, step: usize, why: ProgramWhy) -> DriverRefusal
    ensures { result ≡ refused caller step why }
{
    DriverRefusal::Program {
        refusal: ProgramRefusal { caller, step, why },
    }
}

/// A plan's refusal at a place.
pub(crate) fn plan_refused(why: PlanWhy, place: Place) -> DriverRefusal
    ensures { result ≡ plan_refused why place }
{
    DriverRefusal::Plan {
        why,
        section: place.section,
        item: place.item,
        part: place.part,
    }
}

impl From<DriverRefusal> for DriverFault {
    ghost use Rattle.pm_driver_read.specs.declared.refusal.DriverFault.TheVariants.{Refused};

    ghost from_gives = { λ refusal fault. fault ≡ Refused refusal };

    fn from(refusal: DriverRefusal) -> DriverFault {
        DriverFault::Refused { refusal }
    }
}

impl From<NoMemory> for DriverFault {
    ghost use Rattle.pm_driver_read.specs.declared.refusal.DriverFault.TheVariants.{NoMemory};

    ghost from_gives = { λ _ fault. fault ≡ NoMemory };

    fn from(_error: NoMemory) -> DriverFault {
        DriverFault::NoMemory
    }
}

impl From<AllocError> for DriverFault {
    ghost use Rattle.pm_driver_read.specs.declared.refusal.DriverFault.TheVariants.{NoMemory};

    ghost from_gives = { λ _ fault. fault ≡ NoMemory };

    fn from(_error: AllocError) -> DriverFault {
        DriverFault::NoMemory
    }
}

impl<T: Drop> From<AllocFailed<T>> for DriverFault {
    ghost use Rattle.pm_driver_read.specs.declared.refusal.DriverFault.TheVariants.{NoMemory};

    ghost from_gives = { λ _ fault. fault ≡ NoMemory };

    fn from(_failed: AllocFailed<T>) -> DriverFault {
        DriverFault::NoMemory
    }
}
