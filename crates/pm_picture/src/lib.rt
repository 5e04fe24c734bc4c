//! A picture of a run: a timeline of its callers, domains and devices, as the text of an SVG file.
//!
//! Small runs are drawn in whole: each call with its words, each callback, usage counts, work items and timers, who waits for
//! whom, and how each device ends. Of others there is an overview: who is on when, what failed, and what is left.
#![tactic(auto)]

mod bands;
mod calls;
pub mod events;
mod picture;
pub mod timeline;
mod works;

pub use picture::picture_text;
