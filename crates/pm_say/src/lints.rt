//! What looks wrong in a plan that is one (this project's own).
//!
//! The warnings stand in the order of the plan's rows: devices, links, and callers with their commands.
//! `specs/` says what each of them means.

mod commands;
mod counts;
mod devices;
mod domains;
mod helpers;
mod links;
mod listed;
mod marks;

pub use counts::moved;
pub use helpers::Move;
pub use listed::warnings;

/// Something that looks wrong in a plan (this project's own). Rows and commands are told by their
/// places, counted from 0.
#[derive(Clone, Copy, PartialEq, Eq)]
pub enum Warning {
    /// A device that some script uses, and that none enables.
    NeverEnabled { device: usize },
    /// A device that no script names, that is in no link and in no domain, and no device's parent.
    NotNeeded { device: usize },
    /// A link that is there only later, and that no script adds.
    NeverAdded { link: usize },
    /// A caller that has no commands.
    NoCommands { caller: usize },
    /// `set_autosuspend_delay` of a device that no script lets use autosuspend, or `put_autosuspend`
    /// of one that has no delay either.
    NoAutosuspend { caller: usize, command: usize },
    /// `set_active` of a device whose domain nothing before it in the script switches on.
    DomainOff { caller: usize, command: usize },
    /// The last get or put of a device in a script that has more or fewer gets of it than puts.
    Uneven { caller: usize, command: usize },
    /// `disable` of a device that some script lets use autosuspend, and that none stops from it.
    KeepsAutosuspend { caller: usize, command: usize },
}
