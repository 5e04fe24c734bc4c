//! The islands of a plan run apart: what is lawful on each is lawful for the plan.

ghost use Rattle.std.specs.Prelude.{◌≡◌, ℕ};
ghost use Rattle.pm_model.specs.declared.plan.Plan.{Plan};
ghost use Rattle.pm_model.specs.Islands.{IsPart, Node};
ghost use Rattle.pm_laws.specs.islands.Apart.{MergeIsFinished, MergeIsLawful, OwnAreLawful};

/// Lines whose times don't fall, no more than the plan allows, are lawful where each island's own are lawful for its
/// part; and after them each island stands as after its own (this project's own).
pub fn islands_run_apart()
    ensures { (plan : Plan) → OwnAreLawful plan }
{}

/// Lists that are lawful for their islands' parts, merged by time and cut where the plan allows no more lines, are
/// lawful for the plan; and finished where each caller's island has a list, all are finished and nothing was cut (this
/// project's own).
pub fn merge_is_lawful()
    ensures lawful { (plan : Plan) → MergeIsLawful plan }
    ensures finished { (plan : Plan) → MergeIsFinished plan }
{}

/// The part of an island is one plan (this project's own).
pub fn part_is_one()
    ensures { (plan : Plan) (island : Node → ℕ) (n : ℕ) (part other : Plan) → IsPart plan island n part → IsPart plan island n other → part ≡ other }
{}
