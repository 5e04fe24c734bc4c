//! Whether the uses of devices that an author expects hold in a run (this project's own).
//!
//! A use holds where its device is Active at each line of each call of its command, with its domains on; in a run that is
//! lawful its parent and its suppliers are Active then too, or it is excused. What isn't decided yet, since calls haven't
//! returned, is open.

mod judging;
mod missing;
mod watching;

pub use judging::uses;
pub use missing::{Missed, excused_bonds_lack_nothing};
