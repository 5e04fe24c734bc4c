//! The sheet on which a picture of a run is drawn, with what stands around its lanes: the head, the names of the rows, moments,
//! numbers of lines, and how each device ends.
#![tactic(auto)]

mod canvas;
pub mod columns;
mod frame;
mod head;
mod pen;
pub mod rows;
pub mod scene;
pub mod svg;

pub use canvas::{Canvas, Frame, text_width};
pub use frame::{draw_moments, draw_rows, ends_width, frame_of, write_numbers, write_quiet};
pub use head::{Head, draw_head};
pub use pen::Pen;
