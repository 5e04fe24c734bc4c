//! What the first snapshots say of all schedules.

ghost use Rattle.pm_expect_report.specs.broken.Found.{FirstsAreBroken, FirstsDecideAll, FirstsDecideRounds};

use pm_explore::schedule::schedules_are_paths;

/// What a search tells of the first snapshot that breaks an expectation is exact of all schedules of a plan: for each number of
/// preemptions whose schedules it saw, and at all, where it saw all. And as it is told so a schedule with the fewest preemptions
/// breaks it.
pub fn firsts_decide()
    ensures rounds { FirstsDecideRounds }
    ensures all { FirstsDecideAll }
    ensures sound { FirstsAreBroken }
{
    schedules_are_paths();
}
