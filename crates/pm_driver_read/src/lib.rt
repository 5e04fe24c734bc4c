//! Reads driver files (this project's own).
//!
//! `read_driver` gives the driver that bytes are: an ordinary plan, whose callers' scripts are the commands of their
//! programs, and what each caller waits for; or the first refusal. A plan is read as the plan that it is.
#![tactic(auto)]

mod after;
mod around;
mod collecting;
mod driver;
mod fails;
mod further;
mod keys;
mod laws;
mod managed;
mod plans;
mod read;
mod reading;
mod refusal;
mod scripts;
mod straight;
mod words;
mod written;

pub use around::{Bus, Core};
pub use driver::{CallerNeed, Driver, DriverCaller, Role};
pub use further::further_refusals;
pub use keys::MAX_TURNS;
pub use laws::plans_are_drivers;
pub use read::read_driver;
pub use refusal::{
    DeviceRefusal, DeviceWhy, DriverFault, DriverRefusal, KeyRefusal, KeyWhy, ProgramRefusal,
    ProgramWhy,
};
