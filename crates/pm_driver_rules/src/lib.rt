//! When a caller of a driver may call, and where it goes on (this project's own).
#![tactic(auto)]

mod going_on;
mod guards;
mod node;
mod rules;
mod standing;

pub use going_on::goes_on;
pub use guards::may_call;
pub use node::DriverNode;
pub use rules::{BeginNeed, CallerRules, DriverRules, has_quiet_idle};
