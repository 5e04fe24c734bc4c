//! What the lines are that may come next.

ghost use Rattle.std.specs.Prelude.{ℕ, ◌≡◌, ◌≤◌, ◌+◌, Bool, List, map};
ghost use Rattle.pm_laws.specs.counts.Sizes.{HasEntries, HasPlaces};
ghost use Rattle.pm_model.specs.declared.event.Line.{Line};
ghost use Rattle.pm_model.specs.declared.plan.Plan.{Plan};
ghost use Rattle.pm_model.specs.History.{History};
ghost use Rattle.pm_model.specs.Lawful.{IsLawful, last_time};
ghost use Rattle.pm_explore.specs.declared.schedule.Pace.{Pace};
ghost use Rattle.pm_explore.specs.schedule.Schedules.{snapshot};
ghost use Rattle.pm_explore.specs.schedule.Snapshots.{Follows, IsTimely, MayFollow, Snapshot, after};
ghost use Rattle.pm_explore.specs.search.Exact.{HasExactly};
ghost use Rattle.pm_explore.specs.successors.Lines.{IsMoment, IsNext, lines_at};

use pm_laws::bounds::due_moments;
use pm_laws::stacks::delays_are_bounded;

/// What comes next is exactly what the actors write at the moments of the pace, of one kind, when the pace lets it.
pub fn lines_are_all()
    ensures { (pace : Pace) (plan : Plan) (s : Snapshot) (spends : Bool) (times : List ℕ) → HasEntries plan s.world.views → HasPlaces plan s.world → HasExactly (IsMoment pace plan s) times → HasExactly (IsNext pace plan s spends) (lines_at pace plan s spends times) }
{}

/// What follows a snapshot at a pace by a line that preempts, or by one that doesn't, is exactly what those lines lead to
/// that may come next.
pub fn next_snapshots_are_all()
    ensures { (pace : Pace) (plan : Plan) (s : Snapshot) (spends : Bool) (lines : List Line) → HasExactly (IsNext pace plan s spends) lines → HasExactly (Follows pace plan spends s) (map (after plan s) lines) }
{}

/// At one moment an actor may write one line at most.
pub fn lines_are_by_one()
    ensures { (plan : Plan) (s : Snapshot) (one other : Line) → MayFollow plan s one → MayFollow plan s other → one.actor ≡ other.actor → one.time ≡ other.time → one ≡ other }
{}

/// At whatever pace the next line comes at most 1,000,000 milliseconds after the last one.
pub fn times_are_near()
    ensures moments { (pace : Pace) (plan : Plan) (h : History) (t : ℕ) → IsLawful plan h → IsMoment pace plan (snapshot plan h) t → t ≤ last_time h + 1000000 }
    ensures lines { (pace : Pace) (plan : Plan) (h : History) (line : Line) → IsLawful plan h → IsTimely pace plan (snapshot plan h) line → line.time ≤ last_time h + 1000000 }
{
    due_moments();
    delays_are_bounded();
}
