//! Runs a plan on one thread: the run of a book goes on, or lines are handed out as they come and none is kept.
#![tactic(auto)]

mod coming;
mod running;
mod turn;

pub use coming::{SerialLines, serial_lines_are_lawful};
pub use running::{End, drain, fresh_books_have_time, has_time};
pub use turn::NextTurn;
