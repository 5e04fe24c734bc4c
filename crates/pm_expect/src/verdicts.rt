//! Whether what an author expects of a run holds in it (this project's own).
//!
//! An answer holds where each call that it means has returned its code, an end where a finished run leaves the device
//! so. What isn't decided yet, since the run isn't finished, is open.

mod answering;
mod calls;
mod ending;
mod verdict;

pub use answering::{answers, once, returns_of};
pub use calls::{Calls, Return, call_said, returns};
pub use ending::ends;
pub use verdict::{Judged, Lack, Leaves, Verdict};
