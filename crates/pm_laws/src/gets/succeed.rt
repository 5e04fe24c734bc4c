//! Gets succeed: where nothing disturbs, each `get_sync` of an enabled device returns 0 or 1.

ghost use Rattle.std.specs.Prelude.{◌≡◌, true};
ghost use Rattle.pm_model.specs.declared.plan.Plan.{Plan};
ghost use Rattle.pm_model.specs.History.{History};
ghost use Rattle.pm_model.specs.Lawful.{IsLawful};
ghost use Rattle.pm_model.specs.Promises.{gets_succeed};

/// In a lawful list where each suspend and resume callback ended with 0, no caller called `disable` and no line forced a status,
/// each `get_sync` of a device that was enabled at its call returned 0 or 1 (this project's own).
pub fn gets_succeed()
    ensures { (plan : Plan) (h : History) → IsLawful plan h → gets_succeed plan h ≡ true }
{}
