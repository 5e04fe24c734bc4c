//! A driver.

use pm_base::DevId;
use pm_driver_script::Program;
use pm_model::{Items, Plan};

/// What a caller is to the driver core.
#[derive(Clone, Copy)]
pub enum Role {
    Probe,
    Remove,
    Shutdown,
}

/// How far another caller has to have come.
#[derive(Clone, Copy)]
pub struct CallerNeed {
    /// The place of the other in the plan.
    pub caller: usize,
    /// The place of the mark that it has to have set; where there is none it has to have returned.
    pub mark: Option<usize>,
}

/// What a driver's file says of a caller beside its name.
#[derive(Drop)]
pub struct DriverCaller {
    /// The places at which it may stand, and where it goes on from each.
    pub program: Program,
    /// The step of the file's script that each step of the program is of; none where the driver core makes the calls.
    pub lines: Items<Option<u32>>,
    /// It begins once all of these hold.
    pub after: Items<CallerNeed>,
    /// It may come or not, also when all is quiet.
    pub irq: bool,
    /// The callers whose counts its puts may give back, by their places in the plan.
    pub adopts: Items<usize>,
    pub role: Option<Role>,
    /// The device that the driver core binds.
    pub binds: Option<DevId>,
}

/// A driver.
#[derive(Drop)]
pub struct Driver {
    /// An ordinary plan. The script of each caller is the commands of its program's places, in order; the flags are its last
    /// devices. Where the file isn't a plan, a callback that may fail has one code, and the others have none.
    pub plan: Plan,
    /// How many of the plan's last devices are flags.
    pub flags: usize,
    /// By the caller's place in the plan.
    pub callers: Items<DriverCaller>,
    /// Whether the file is a plan: then the lists of codes hold as they stand, and nothing else fails.
    pub is_plan: bool,
}
