//! The text that is told of a plan's refusal: its place, the line that it stands on, and what may have
//! been meant (this project's own).
//!
//! `notes` has the words, `pm_spans::keys` finds the tokens in the text and `pm_spans::source` shows them.

mod located;
mod told;

pub use located::{Located, of_long_text, of_no_toml, of_note};
pub use told::{push_each, push_located};
