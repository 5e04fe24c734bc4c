//! The programs of drivers' scripts (this project's own).
//!
//! A script's steps are calls, choices, waits and jumps to labels further on. Its program is the places at which its
//! caller may stand: a call, how far it has come, and where it goes on from there by the code that is answered.
#![tactic(auto)]

mod calls;
mod faults;
mod goals;
mod marks;
mod names;
mod places;
mod program;
mod ways;

pub use calls::{Asked, Guard};
pub use faults::{ScriptRefusal, ScriptWhy, script_fault};
pub use goals::Goal;
pub use marks::Past;
pub use names::{NameKind, ScriptNames, forced_in, names_in, place_in};
pub use places::Standing;
pub use program::{MAX_STANDINGS, PlaceExit, Program, ProgramPlace, Script, program_of};
