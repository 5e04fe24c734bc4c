//! Callers on threads of their own: a desk keeps a plan's book behind a lock, and each caller has a pass, by
//! which one thread calls helpers.
#![tactic(auto)]

mod agreeing;
mod calling;
mod closing;
mod desk;
mod pass;
mod returns;
mod roll;

pub use closing::{CloseFault, Closed};
pub use desk::Desk;
pub use pass::{Pass, Receipt, Stop};
pub use roll::Roll;
