//! Laws that hold after every lawful list of lines, whatever the order of the actors. Each is the contract of a public
//! function with an empty body.
#![tactic(auto)]

pub mod bounds;
pub mod counts;
pub mod gets;
pub mod invariant;
pub mod islands;
pub mod safe;
pub mod stacks;
pub mod turns;
