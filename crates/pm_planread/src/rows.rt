//! The rows of a plan, and what may be wrong with them (this project's own).
//!
//! The rows of a plan's text, as `tree` takes them out, name what they speak of. Here they are
//! counted, their names are looked at and indexed, and the names become places. A function for each
//! refusal finds its first place.

mod apart;
mod codes;
mod index;
mod many;
mod name_faults;
pub mod names;
mod orders;
mod rows;

pub use codes::{code_fault, number_fault};
pub use many::too_many_fault;
pub use name_faults::{name_fault, repeat_fault, unknown_fault};
pub use orders::{domain_fault, later_fault, link_fault};
pub use rows::{device_rows, domain_rows, link_rows, natural_within};
