//! What is told of a trace and of what a file expects of it: in plain words, behind what stands out in the run, or as KTAP, which
//! the kernel's own tests write (this project's own).

mod checking;
mod items;
mod plain;

pub use checking::check;
pub use plain::line_of;
