//! A picture as the text of an SVG file: shapes, each an element, with the user's words escaped.

mod drawing;
mod escape;
mod pieces;
mod shapes;
mod sheet;
mod style;

pub use drawing::{Drawing, picture};
pub use escape::{escaped_is_no_markup, push_escaped};
pub use shapes::{Block, Label, Rule};
pub use sheet::SHEET;
pub use style::Style;
