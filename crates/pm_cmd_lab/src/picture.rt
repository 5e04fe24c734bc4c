//! `picture`: a run as a picture, or as events for a viewer of timelines. Files and sinks are handed in.

mod telling;
mod top;

pub use top::picture_top;
