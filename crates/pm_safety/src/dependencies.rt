//! The bonds of Active devices: with their domains, their parents and their suppliers, and which line breaks one.

mod bond;
mod bonds;
mod domains;
mod groups;
mod laws;
mod past;
mod standing;
mod told;

pub use bond::{Bond, Excuse};
pub use bonds::Bonds;
pub use domains::{DomainOn, domains_left};
pub use laws::{domains_stay_on, lines_break_near_bonds, lines_turn_their_device};
pub use standing::{off_domain, off_link, off_parent};
