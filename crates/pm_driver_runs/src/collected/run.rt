//! A plan, and a text that is read as that plan.

use pm_model::Plan;

/// The plan of which a run of a driver is a run.
#[derive(Drop)]
pub struct CollectedRun {
    pub plan: Plan,
    /// Its text, in the format of plans (this project's own).
    pub text: Vec<u8>,
}

/// What a run of a driver is collected to.
#[derive(Drop)]
pub enum RunCollection {
    /// The plan of which it is a run.
    Made(CollectedRun),
    /// No plan: a callback answered more than 64 codes up to its last failure, or one that no callback answers, or a
    /// caller called more than 1,000 commands, or one that no plan of the driver's devices has.
    NoPlan,
    /// A plan whose text isn't read as that plan.
    NotRead,
}
