//! A plan as the text of a module for a kernel: one C file, which makes the plan's power domains, devices and links, runs the
//! scripts of its callers and tells what came of it.
#![tactic(auto)]

mod device;
mod engine;
mod head;
mod pieces;
mod rows;
mod tables;
mod words;

pub use engine::ENGINE;
pub use head::HEAD;
pub use pm_linetext::push_command;
pub use tables::module_text;
