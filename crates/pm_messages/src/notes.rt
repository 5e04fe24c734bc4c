//! What is told of a refusal: words for a person, and where to look in the text (this project's own).
//!
//! There is a function for each refusal of a plan. They go by the place that the refusal names and by
//! the plan's tree, and answer `None` where the tree has no such place. Contracts claim nothing of the
//! words and of what is guessed.

mod codes;
mod commands;
mod keys;
mod kinds;
mod names;
mod note;
mod rows;
mod tomls;

pub use codes::{code_note, lines_are_outside, many_note, number_note};
pub use commands::command_note;
pub use keys::key_note;
pub use kinds::kind_note;
pub use names::{domain_note, later_note, link_note, name_note, repeat_note, unknown_note};
pub use note::{Note, Other, Side};
pub use rows::{element_path, item_path, key_path, list, list_under, name_of, place_of, row, text};
pub use tomls::{long_note, toml_note};
