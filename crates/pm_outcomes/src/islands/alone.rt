//! One island alone.

ghost use Rattle.std.specs.Prelude.{ℕ};
ghost use Rattle.pm_laws.specs.islands.Apart.{StandAlike};
ghost use Rattle.pm_model.specs.declared.plan.Plan.{Plan};
ghost use Rattle.pm_model.specs.History.{History};
ghost use Rattle.pm_model.specs.Islands.{IsLabelling, IsPart, Node};
ghost use Rattle.pm_model.specs.Lawful.{IsLawful};
ghost use Rattle.pm_model.specs.World.{world};

use pm_laws::islands::islands_run_apart;

/// A list that is lawful for the part of an island is lawful for the plan, in which the island stands after it as it does
/// in its part.
pub fn islands_stand_alone()
    ensures { (plan : Plan) (island : Node → ℕ) (n : ℕ) (part : Plan) (h : History) → IsLabelling plan island → IsPart plan island n part → IsLawful part h → IsLawful plan h × StandAlike plan island n (world plan h) (world part h) }
{
    islands_run_apart();
}
