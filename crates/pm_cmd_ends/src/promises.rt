//! What every lawful list of lines keeps.

ghost use Rattle.pm_model.specs.declared.plan.Plan.{Plan};
ghost use Rattle.pm_model.specs.History.{History};
ghost use Rattle.pm_model.specs.Lawful.{IsLawful};
ghost use Rattle.pm_cmd_ends.specs.Promised.{KeepsPromises};

use pm_laws::gets::{gets_succeed, kept, one_call_alone};
use pm_laws::safe::{runs_are_exclusive, runs_are_safe};

/// Each lawful list is safe, exclusive and kept, where nothing disturbs its gets succeed, and one call alone
/// resumes each device at most once.
pub fn promises_are_kept()
    ensures { (plan : Plan) (h : History) → IsLawful plan h → KeepsPromises plan h }
{
    runs_are_safe();
    runs_are_exclusive();
    kept();
    gets_succeed();
    one_call_alone();
}
