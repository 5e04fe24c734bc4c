//! What an actor may do at a stage, of whichever group.

ghost use Rattle.std.specs.Prelude.{◌≡◌, ◌<◌, ◌^◌, true, Some};
ghost use Rattle.pm_model.specs.World.{move};
ghost use Rattle.pm_state.specs.Standing.{IsOf, can_go_on};

use crate::state::State;
use pm_model::{Move, Plan, Stage};

impl State {
    /// What an actor may do at a well formed stage that awaits no call, at this moment, in milliseconds of the
    /// run. It takes no memory.
    #[tactic(auto, using(crate::proofs::PlaceLemmas::well_formed_of))]
    pub fn next(&self, plan: &Plan, stage: &Stage, time: u64) -> Move
        requires is_of { IsOf plan.now self.now }
        requires stands { can_go_on plan.now self.now.world.views stage.now ≡ true }
        requires in_time { time < 2 ^ 63 }
        ensures { Some result ≡ move plan.now self.now.world.views stage.now time }
    {
        let parts = &self.parts;
        match *stage {
            Stage::Idle(stage) => pm_idle::next(plan, parts, stage, time),
            Stage::Suspend(stage) => pm_suspend::next(plan, parts, stage, time),
            Stage::Resume(stage) => pm_resume::next(plan, parts, stage, time),
            Stage::Helper(stage) => pm_helper::next(plan, parts, stage, time),
            Stage::Control(stage) => pm_control::next(plan, parts, stage, time),
            Stage::Await(_) => unreachable!(),
        }
    }

    /// Puts what `next` answers in `out`, which its caller keeps, since a move is large. It takes no memory.
    #[tactic(auto, using(crate::proofs::PlaceLemmas::well_formed_of))]
    #[inline(always)]
    pub fn write_next(&self, plan: &Plan, stage: &Stage, time: u64, out: &mut Move)
        requires is_of { IsOf plan.now self.now }
        requires stands { can_go_on plan.now self.now.world.views stage.now ≡ true }
        requires in_time { time < 2 ^ 63 }
        ensures { Some out.new ≡ move plan.now self.now.world.views stage.now time }
    {
        let parts = &self.parts;
        match *stage {
            Stage::Idle(stage) => pm_idle::write_next(plan, parts, stage, time, out),
            Stage::Suspend(stage) => pm_suspend::write_next(plan, parts, stage, time, out),
            Stage::Resume(stage) => pm_resume::write_next(plan, parts, stage, time, out),
            Stage::Helper(stage) => pm_helper::write_next(plan, parts, stage, time, out),
            Stage::Control(stage) => pm_control::write_next(plan, parts, stage, time, out),
            Stage::Await(_) => unreachable!(),
        }
    }
}
