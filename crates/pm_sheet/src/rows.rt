//! Which lane of a picture stands where: its rows, from the top to the bottom.
//!
//! Callers come first, then domains, each with those that it supplies below it, then devices, each with the suppliers that it
//! holds and its children below it.

mod families;
mod rows;

pub use families::{Member, in_families};
pub use rows::{Heights, Holding, Row, Rows, Subject};
