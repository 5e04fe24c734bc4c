//! The steps of drivers' scripts (this project's own).
//!
//! A driver's script has one string for each line of its C code: `[LABEL:] [devm] WHAT [EXITS]`. `step_in` gives the
//! step that such a string is, with its names as the text has them, or why it is none.
#![tactic(auto)]

mod exits;
mod fault;
mod names;
mod steps;
mod verbs;
mod whats;

pub use exits::{MAX_EXITS, StepExit};
pub use fault::{StepError, StepFault};
pub use names::is_plain_name;
pub use steps::{ScriptStep, step_in};
pub use verbs::{CodeTest, Question, Verb};
pub use whats::StepWhat;
