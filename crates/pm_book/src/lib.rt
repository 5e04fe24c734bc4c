//! The lines of a run of a plan: a `Book` keeps them and says how the run goes on, a `Judge` tells of each line
//! whether it may come next and keeps none, a `Taker` is a judge that may keep those it takes, and a `Replay` goes
//! again through lines that have come.
#![tactic(auto)]

mod book;
mod deciding;
mod growing;
mod judge;
mod judge_laws;
mod laws;
mod lines;
mod offering;
mod replay;
mod sometime;
mod standing;
mod steps;
mod taker;
mod taking;
mod writing;

pub use book::Book;
pub use deciding::{Permitted, decide};
pub use growing::ExtendFault;
pub use judge::{Bad, Judge};
pub use judge_laws::{all_stand_well, each_line_fits, each_line_is_taken};
pub use offering::offered;
pub use replay::Replay;
pub use steps::{EndStep, Step};
pub use taker::Taker;
pub use taking::TakeFault;
