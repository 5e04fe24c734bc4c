//! Which callbacks run, and until when.

ghost use Rattle.std.specs.Prelude.{◌≡◌, is_some, true};
ghost use Rattle.pm_device.specs.Parts.{IsFor};
ghost use Rattle.pm_model.specs.WellFormed.{is_well_formed};
ghost use Rattle.pm_model.specs.declared.plan.Plan.{Plan as APlan};
ghost use Rattle.pm_state.specs.Standing.{IsActor, IsOf, can_go_on};
ghost use Rattle.pm_state.specs.Turns.{is_running, running_due};

use crate::state::State;
use pm_base::{ActorId, Cb};
use pm_device::{Parts, ms_of};
use pm_model::{IdleStage, Plan, ResumeStage, Stage, SuspendStage};

// When the callback that runs at a stage ends.
fn running_due(plan: &Plan, parts: &Parts, stage: &Stage) -> Option<u64>
    requires made_for { IsFor plan.now parts.now.shape }
    requires well_formed { is_well_formed plan.now parts.now.views stage.now ≡ true }
    ensures { result ≡ running_due plan.now stage.now }
{
    match *stage {
        Stage::Idle(stage) => match stage {
            IdleStage::Running { dev, since, .. } => {
                Some(since + u64::from(ms_of(plan, Cb::Idle, dev)))
            }
            _ => None,
        },
        Stage::Suspend(stage) => match stage {
            SuspendStage::Running { dev, since, .. } => {
                Some(since + u64::from(ms_of(plan, Cb::Suspend, dev)))
            }
            _ => None,
        },
        Stage::Resume(stage) => match stage {
            ResumeStage::Running { call, since } => {
                Some(since + u64::from(ms_of(plan, Cb::Resume, call.dev)))
            }
            _ => None,
        },
        _ => None,
    }
}

// Whether a callback runs at a stage.
fn runs(stage: &Stage) -> bool
    ensures { (plan : APlan) → result ≡ is_some (running_due plan stage.now) }
{
    match *stage {
        Stage::Idle(stage) => matches!(stage, IdleStage::Running { .. }),
        Stage::Suspend(stage) => matches!(stage, SuspendStage::Running { .. }),
        Stage::Resume(stage) => matches!(stage, ResumeStage::Running { .. }),
        _ => false,
    }
}

impl State {
    /// When the callback ends that runs at a well formed stage, in milliseconds of the run; `None` comes
    /// exactly where none runs there. It takes no memory.
    #[tactic(auto, using(crate::proofs::PlaceLemmas::well_formed_of))]
    pub fn running_until(&self, plan: &Plan, stage: &Stage) -> Option<u64>
        requires is_of { IsOf plan.now self.now }
        requires stands { can_go_on plan.now self.now.world.views stage.now ≡ true }
        ensures { result ≡ running_due plan.now stage.now }
    {
        running_due(plan, &self.parts, stage)
    }

    /// Whether a callback that the actor began runs. It takes no memory.
    pub fn is_running(&self, plan: &Plan, actor: ActorId) -> bool
        requires is_of { IsOf plan.now self.now }
        requires in_range { IsActor plan.now actor }
        ensures { result ≡ is_running plan.now self.now.world actor }
    {
        match self.stage_at(plan, actor) {
            Some(stage) => runs(&stage),
            None => false,
        }
    }
}
