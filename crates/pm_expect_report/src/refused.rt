//! What is told of a file of expectations that is refused: its place, a message, the line with the token underlined, and what may
//! have been meant (this project's own).
//!
//! `pm_expect` decides, `pm_messages::located` shows, and `pm_spans::nearest` guesses.

mod hints;
mod message;
mod notes;
mod told;

pub use told::{Unread, read_or_tell, too_long_text};
