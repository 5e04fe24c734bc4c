//! Where the lines of a run stand on the x axis of a picture.
//!
//! The axis goes by lines and not by time, since most lines of a run share a millisecond with others, and then a
//! hundred pass: each line at which the picture changes has a column, and passed time widens the step to it.

mod axis;
mod steps;

pub use axis::{Columns, FIT, Span, WHOLE};
