//! One call alone: where a `get_sync` runs with no other actor between, it resumes each device at most once.

ghost use Rattle.pm_model.specs.declared.plan.Plan.{Plan};
ghost use Rattle.pm_model.specs.History.{History};
ghost use Rattle.pm_model.specs.Lawful.{IsLawful};
ghost use Rattle.pm_laws.specs.gets.Alone.{IsAlone};

/// In a lawful list, where all lines from a call of `get_sync` to its return are of one caller, at most one resume
/// callback per device begins among them. It begins only for the device of the call, and for those that are reached
/// from it by parents and by links that have `pm_runtime` and are present at that line (this project's own).
pub fn one_call_alone()
    ensures { (plan : Plan) (h : History) → IsLawful plan h → IsAlone plan h }
{}
