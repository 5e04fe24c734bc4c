//! The tree of a plan's text: its keys, the kinds of its values, and its rows (this project's own).
//!
//! A plan is TOML text. `document` reads its tree, `key_fault` and `kind_fault` say where it isn't
//! made as a plan's is, and `raw_plan` takes out what it says, with names for what the plan will
//! have as places.

mod key_faults;
mod keys;
mod kind_faults;
mod place;
mod raw;
mod sound;
mod text;
mod tree;

pub use key_faults::key_fault;
pub use keys::Format;
pub use kind_faults::kind_fault;
pub use place::{Place, Section};
pub use raw::{
    Codes64, RawCaller, RawDevice, RawDomain, RawLink, RawPlan, number_at, raw_plan, switch_at,
    text_at, texts_in,
};
pub use sound::is_sound;
pub use text::Text;
pub use tree::{Entry, document, entries_of, items_in, list_at, list_in};
