//! What `pm_lab find FILE` tells of a driver: what is wrong in its schedules, by the steps of its file, and what was gone
//! through (this project's own).
#![tactic(auto)]

mod follows;
mod lines;
mod passes;
mod report;
mod rules;
mod searched;
mod texts;
mod ways;
mod witness;

pub use lines::{DriverKind, DriverLine, LineAt};
pub use passes::{DriverPass, PassAsked};
pub use report::{DriverReport, PlacedLine, ReportKind, report_driver};
pub use searched::{DriverSearch, lists_message, may_be_searched};
pub use texts::{no_finding_text, unmade_text};
pub use witness::{DriverWitness, WitnessedRun, witness_driver};
