//! Exhaustive search of a graph: all that is reached from a start by steps of which at most so many spend
//! (this project's own).

mod found;
mod graph;
mod rounds;
mod spread;
mod tree;

pub use found::{Ended, Found, search};
pub use graph::{Graph, Stop};
pub use tree::{Tree, path_back, steps_to};
