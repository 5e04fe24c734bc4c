//! A run with all that is shown of it in a picture, looked at once before it is drawn.

mod ends;
mod notes;
mod run;
mod survey;

pub use ends::{LeftOn, left_on, push_end};
pub use notes::{Notes, notes_of};
pub use run::Run;
pub use survey::{Glance, Survey};
