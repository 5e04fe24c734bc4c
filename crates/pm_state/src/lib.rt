//! Where a run of a plan stands: the counters, and what each line and each row of the call table makes of them;
//! the open stages of each actor, in places whose memory is all taken when they are made; and how far each script is.
#![tactic(auto)]

mod applying;
mod cell;
mod changes;
mod devices;
mod events;
mod fill;
mod finished;
mod going;
mod moves;
mod own;
mod piles;
mod places;
mod rooms;
mod running;
mod state;

pub use applying::apply;
pub use changes::change;
pub use devices::device_of;
pub use events::happen;
pub use places::Places;
pub use state::{State, few};
