//! Runs books by several threads, one lock round each book.
#![tactic(auto)]

mod callback;
mod choice;
mod hands;
mod locks;
mod turn;
mod way;

pub use callback::{Callback, Gated, Wrote, try_step};
pub use hands::{counted, nap, run_callback, run_hands};
pub use locks::{Hand, Island, Kept};
pub use turn::{Turn, step_now, take_any_turn, take_turn};
pub use way::next_island;
