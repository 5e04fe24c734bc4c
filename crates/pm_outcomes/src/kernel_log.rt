//! What a kernel's log tells of a plan's run: the code that each command answered, and how each device ended (this
//! project's own). Such a run is a module's, which `pm_lab kernel` writes.

mod lines;
mod placing;
mod reading;
mod tells;

pub use placing::{first_unlisted, is_whole};
pub use reading::outcome_of;
pub use tells::{Tell, Told};
