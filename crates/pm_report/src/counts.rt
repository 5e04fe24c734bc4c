//! The counts of a run.

/// The counts of a run.
#[derive(Clone, Copy, PartialEq, Eq)]
pub struct Summary {
    /// The devices of the plan.
    pub devices: u32,
    /// All lines.
    pub lines: u32,
    /// The lines that say that a resume callback begins.
    pub resumes: u32,
    /// The lines that say that a suspend callback begins.
    pub suspends: u32,
    /// The lines that say that an idle callback begins.
    pub idles: u32,
    /// Whether the run is finished; else it was cut at the plan's limit.
    pub finished: bool,
}
