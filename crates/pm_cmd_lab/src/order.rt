//! `order PLAN CALLER N CODE` and `order PLAN end DEVICE STATUS USAGE ERROR` of `pm_lab`: the trace of a run that shows the
//! observation that is asked for, of those that `orders` lists; and `order PLAN --expect FILE fails INDEX`: that of a run that breaks
//! an expectation; and `order FILE finding N`: that of a run that shows what is told of a driver. Files and sinks are handed in.

mod breaking;
mod failing;
mod finding;
mod order;
mod path;
mod stop;
mod writing;

pub use failing::failing_top;
pub use finding::{FindingAsked, finding_top};
pub use order::order_top;
