//! The commands: those that run a plan (`check`, `serial`, `run`, `desk` and `make`) and those over a plan and a trace
//! (`audit`, `convert`, `times` and `why`); and the dispatch, `top`, which hands each command's words to it. Files,
//! sinks, clocks and hints are handed in.
#![tactic(auto)]

pub mod answers;
mod audit;
mod books;
mod check;
mod convert;
mod counts;
mod desks;
mod dispatch;
mod feeding;
mod following;
mod headline;
mod laws;
mod lists;
mod locks;
mod make;
mod running;
mod serial;
mod threads;
mod times;
mod trace_books;
mod trace_fault;
mod why;
mod writing;

pub use audit::audit_top;
pub use books::{finished, mended};
pub use check::check_top;
pub use convert::convert_top;
pub use counts::counts_text;
pub use desks::desk_top;
pub use dispatch::top;
pub use headline::headline_holds;
pub use laws::gathered_once;
pub use lists::gather;
pub use locks::{locked_parts, run_islands};
pub use make::make_top;
pub use running::{ended, is_whole};
pub use serial::serial_top;
pub use threads::run_top;
pub use times::times_top;
pub use why::why_top;
