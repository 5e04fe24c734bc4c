//! Reads plans (this project's own).
//!
//! A plan's text is read in layers. `tree` reads its tree, looks at its keys and kinds and
//! takes out its rows, which name what they speak of. `rows` counts the rows, looks at their
//! names and makes places of them. Here each layer refuses before the next is looked at, and the
//! scripts are read last, over the devices.
#![tactic(auto)]

mod messages;
mod read;
mod refusal;
pub mod rows;
mod scripts;
pub mod tree;

pub use crate::tree::Section;
pub use messages::{Message, refusal_message};
pub use read::{named_plan, read_plan};
pub use refusal::{PlanFault, PlanWhy};
