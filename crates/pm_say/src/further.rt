//! The refusals of a plan besides the first (this project's own).
//!
//! `read_plan` decides, and answers the first refusal over the whole plan. Here each key, item, name and command is
//! looked at by itself, mostly by the functions that `read_plan` asks, over a tree that has nothing else. What comes of
//! another refusal isn't told: where the names of a section aren't known, none that refers to it is said to be unknown.
//! Contracts claim nothing of which refusals are found.

mod alone;
mod found;
mod items;
mod names;
mod scripts;
mod top;

pub use found::Refusal;
pub use items::further;
