//! The commands of scripts (this project's own).
//!
//! A command is a helper's word and then what the helper takes: a device for each but `delay`, a
//! second device for `link_add` and `link_del`, `on` or `off` for `ignore_children`, and milliseconds
//! for `schedule_suspend`, `set_autosuspend_delay` and `delay`. Spaces part the words.
#![tactic(auto)]

mod command;
mod fault;
mod numbers;
mod words;

pub use command::{helper_named, read_command, read_command_in, read_command_of};
pub use fault::ScriptFault;
pub use numbers::{milliseconds_in, number_in};
pub use words::{ScriptWord, words_in};
