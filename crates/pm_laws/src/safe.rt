//! No callback runs where the bus must not call it, and no two run at once that exclude each other: after every
//! lawful list of lines, whatever the order of the actors. The steps to it are which part of a transition each
//! line carries out, which resumes of suppliers are on their way, and what bonds a device to others.

mod bonds;
mod callbacks;
mod kinds;
mod pends;

pub use bonds::{
    domain_stays, domains_nest, held_is_runtime, held_links, parent_stays, supplier_stays,
};
pub use callbacks::{callbacks_run, runs_are_exclusive, runs_are_safe};
pub use kinds::lines_are_of_kinds;
pub use pends::supplier_stays_over_a_line;
