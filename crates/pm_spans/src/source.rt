//! Places in a text: the line and the column of a byte, and the line shown with a token of it
//! underlined (this project's own).
//!
//! Lines and columns count from 1, columns in characters of UTF-8. A carriage return at the end of a
//! line is no part of the line, and neither is a byte order mark at the start of the text. A control character is
//! shown as `\x` with two digits.

mod cut;
mod excerpt;
mod pieces;
mod places;
mod visible;

pub use excerpt::{Span, push_excerpt, push_hint};
pub use pieces::push_number;
pub use places::{Spot, mark_len, push_place, spot_of, without_return};
pub use pm_linetext::push;
pub use visible::push_visible;
