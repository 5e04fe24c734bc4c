//! A timeline as the text of a JSON file, in the trace-event format that Perfetto and chrome://tracing read.
//!
//! Times are in microseconds. Each event has the number of its line.

mod events;
mod pieces;
mod plain;
mod timeline;

pub use events::{Bar, Thread};
pub use plain::{plain_is_no_markup, push_plain};
pub use timeline::Timeline;
