//! Whose line comes next.

use pm_base::DevId;

/// Who writes the next line, and when. What the line says is in the move beside it.
#[derive(Clone, Copy)]
pub struct NextTurn {
    /// The writer's seat in the row of all actors: callers, then work items, then timers, each in plan order.
    pub seat: usize,
    /// Its time, in milliseconds of the run.
    pub time: u64,
    /// The device of the stage at which the actor stands.
    pub(crate) at: Option<DevId>,
}
