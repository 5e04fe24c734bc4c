//! The schedules in which a plan's lines may come, at an eager or a late pace (this project's own).

ghost use Rattle.std.specs.Prelude.{ℕ, ℤ, ◌≡◌, ◌≤◌, ◌↔◌, length, reverse};
ghost use Rattle.pm_model.specs.declared.plan.Plan.{Plan};
ghost use Rattle.pm_model.specs.History.{History};
ghost use Rattle.pm_model.specs.Lawful.{IsLawful};
ghost use Rattle.pm_model.specs.Serial.{serial};
ghost use Rattle.pm_model.specs.World.{called_by, world};
ghost use Rattle.pm_explore.specs.search.Reached.{Reached};
ghost use Rattle.pm_explore.specs.declared.schedule.Pace.{Pace as APace};
ghost use Rattle.pm_explore.specs.declared.schedule.Pace.TheVariants.{Eager};
ghost use Rattle.pm_explore.specs.schedule.Observations.{EndsWithReturn, HasObservation};
ghost use Rattle.pm_explore.specs.schedule.Observations.Observation.{Returns};
ghost use Rattle.pm_explore.specs.schedule.Schedules.{IsSchedule, preemptions, snapshot};
ghost use Rattle.pm_explore.specs.schedule.Snapshots.{Follows, Snapshot, start_snapshot};

/// When the lines of a schedule come.
#[derive(Clone, Copy, PartialEq, Eq)]
pub enum Pace {
    /// All at the first moment at which any may be written: nobody is late.
    Eager,
    /// Each actor's as late as it likes, where that may show. None is early.
    Late,
}

/// The snapshots that are reached by steps of which k preempt are exactly those where the schedules stand of whose
/// lines k preempt.
pub fn schedules_are_paths()
    ensures reached { (pace : APace) (plan : Plan) (h : History) → IsSchedule pace plan h → Reached (Follows pace plan) (start_snapshot plan) (preemptions plan h) (snapshot plan h) }
    ensures ordered { (pace : APace) (plan : Plan) (k : ℕ) (s : Snapshot) → Reached (Follows pace plan) (start_snapshot plan) k s → (h : History) × IsSchedule pace plan h × (preemptions plan h ≡ k) × (snapshot plan h ≡ s) }
{}

/// A schedule of no more lines than the plan allows is lawful.
pub fn schedules_are_lawful()
    ensures { (pace : APace) (plan : Plan) (h : History) → IsSchedule pace plan h → length h ≤ plan.lines → IsLawful plan h }
{}

/// What one thread writes is a schedule at an eager pace.
pub fn serial_is_a_schedule()
    ensures { (plan : Plan) → IsSchedule Eager plan (reverse (serial plan)) }
{}

/// Where a schedule stands shows a caller's return exactly where its last line is one.
pub fn observations_are_of_lines()
    ensures { (plan : Plan) (h : History) (caller command : ℕ) (code : ℤ) → HasObservation plan (snapshot plan h) (Returns caller command code) ↔ (EndsWithReturn h caller code × (called_by (world plan h) caller ≡ command)) }
{}
