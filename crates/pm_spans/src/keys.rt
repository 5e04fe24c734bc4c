//! Where in a TOML text a key of a plan and its value stand (this project's own).
//!
//! The tree of a text has no places. So the text is gone through once more, by the kit's own tokens,
//! up to what is looked for. Nothing here recurses, and nothing is told of a text that is no TOML.

mod cuts;
mod headers;
mod lookup;
mod pairs;
mod twice;
mod values;

pub use lookup::{Found, Path, find};
pub use twice::earlier;
