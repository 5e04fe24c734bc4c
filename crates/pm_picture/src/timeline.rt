//! A run as events for a viewer of timelines: a bar for each call, callback, status, and what else lasts, instants for waits and
//! errors, and usage counts, each with its line.

mod bars;
mod events;
mod threads;
mod times;
mod writer;

pub use events::timeline_text;
