//! A state is set to stand at a snapshot.

ghost use Rattle.std.specs.Prelude.{◌≡◌};
ghost use Rattle.pm_state.specs.Standing.{CanStand, IsOf};
ghost use Rattle.pm_explore.specs.state.SnapshotOf.{world_of};

use crate::state::snapshot::Snapshot;
use pm_model::Plan;
use pm_state::State;

impl Snapshot {
    /// The state of a run of the plan stands there. It takes no memory.
    pub fn fill(&self, plan: &Plan, state: &mut State)
        requires is_of { IsOf plan.now state.old }
        requires can { CanStand state.old (world_of self.now) }
        ensures { state.new ≡ record state.old { world = world_of self.now } }
    {
        state.fill_views(
            plan,
            self.devices.as_slice(),
            self.pending.as_slice(),
            self.timers.as_slice(),
            self.on.as_slice(),
            self.held.as_slice(),
            self.present.as_slice(),
        );
        state.fill_places(
            self.caller_places.as_slice(),
            self.work_places.as_slice(),
            self.timer_places.as_slice(),
            self.called.as_slice(),
        );
    }
}
