//! Whether a device is live, and how it stands with what it depends on.
#![tactic(auto)]

mod answers;
pub mod dependencies;
mod holding;
mod inspecting;
mod running;

pub use answers::{Bond, Inspect};
pub use inspecting::inspect;
pub use pm_laws::gets::{gets_succeed, kept};
pub use pm_laws::safe::{runs_are_exclusive, runs_are_safe};
pub use pm_laws::turns::never_stuck;
