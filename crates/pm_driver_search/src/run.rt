//! The state of a run, which stands wherever it is set to.

ghost use Rattle.std.specs.Prelude.{◌≡◌, IfOk};
ghost use Rattle.pm_model.specs.World.{start};
ghost use Rattle.pm_driver_search.specs.Standing.{IsRun};

use crate::rooms::least_room;
use pm_base::NoMemory;
use pm_laws::counts::sizes;
use pm_model::Plan;
use pm_state::State;
use std::alloc::Global;

/// The state of a run, and for how many open stages each actor's place has room at least.
#[derive(Drop)]
pub struct DriverRun {
    pub state: State,
    pub room: usize,
}

impl DriverRun {
    /// A run of a plan, before any line.
    pub fn start(alloc: Global, plan: &Plan) -> Result<DriverRun, NoMemory>
        ensures run { IfOk result (IsRun plan.now) }
        ensures start { IfOk result (λ run. run.state.world ≡ start plan.now) }
    {
        sizes();
        let room = least_room(plan);
        let state = State::fresh(alloc, plan)?;
        Ok(DriverRun { state, room })
    }
}
