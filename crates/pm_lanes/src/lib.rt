//! What a picture of a run shows: for callers, devices, domains and links what each lane shows from which line on.
#![tactic(auto)]

pub mod calls;
mod gather;
mod nexts;
mod pushing;
mod seen;
mod shown;
mod telling;

pub use gather::all_pieces;
pub use nexts::next_places;
pub use seen::{Seen, seen_of};
pub use shown::{Lane, Piece, Shown};
