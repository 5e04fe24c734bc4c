//! Files that are read and sinks that are written, each with a count of its faults.
#![tactic(auto)]

mod faults;
mod mem_files;
mod mem_sink;
mod reading;
mod real;
mod writing;

pub use mem_files::MemFiles;
pub use mem_sink::MemSink;
pub use reading::{FileFault, Files, read_all};
pub use real::{DiskFiles, StdErr, StdOut};
pub use writing::{Sink, write_whole};
