//! Laws on the stages of all actors, after every lawful list of lines: what each open stage has, which
//! call may stand above which stage, and how deep a stack can be.

ghost use Rattle.std.specs.Prelude.{◌≡◌, ◌+◌, ◌<◌, ◌^◌, Some, true, length};
ghost use Rattle.std.specs.List.{All};
ghost use Rattle.pm_base.specs.declared.ActorId.{ActorId};
ghost use Rattle.pm_base.specs.declared.DevId.{DevId};
ghost use Rattle.pm_model.specs.declared.event.Line.{Line};
ghost use Rattle.pm_model.specs.declared.plan.Plan.{Plan};
ghost use Rattle.pm_model.specs.declared.stage.Stage.{Stage};
ghost use Rattle.pm_model.specs.CanTake.{can_change, has_room};
ghost use Rattle.pm_model.specs.History.{History};
ghost use Rattle.pm_model.specs.Lawful.{IsLawful, Permits, last_time};
ghost use Rattle.pm_model.specs.Views.{device};
ghost use Rattle.pm_model.specs.WellFormed.{is_well_formed};
ghost use Rattle.pm_model.specs.World.{place, stage_at, world};
ghost use Rattle.pm_laws.specs.stacks.Depth.{AreShallow};
ghost use Rattle.pm_laws.specs.stacks.Fit.{HasDelays, IsFit};
ghost use Rattle.pm_laws.specs.stacks.Shape.{AreNested};

/// Each open stage, and the stage at which an actor stands, is of a device of the plan, with flags, a
/// code and a time that its call may have; a callback that runs has begun (this project's own).
pub fn stages_fit()
    ensures open { (plan : Plan) (h : History) (a : ActorId) → IsLawful plan h → All (IsFit plan (world plan h).views (last_time h)) (place (world plan h) a) }
    ensures next { (plan : Plan) (h : History) (a : ActorId) (s : Stage) → IsLawful plan h → stage_at plan (world plan h) a ≡ Some s → IsFit plan (world plan h).views (last_time h) s }
{}

/// A stage at which an actor stands is well formed, while there are moments 1,000,000 milliseconds
/// after the last line (this project's own).
pub fn stages_are_well_formed()
    ensures { (plan : Plan) (h : History) (a : ActorId) (s : Stage) → IsLawful plan h → last_time h + 1000000 < 2 ^ 64 → stage_at plan (world plan h) a ≡ Some s → is_well_formed plan (world plan h).views s ≡ true }
{}

/// Directly above a stage that awaits a call stands a stage of a call that may stand there, the first
/// stage of a place awaits none, and each stage is one of its kind (`runtime_pm.rst`, sections 2 and 4;
/// `device_link.rst` for suppliers).
pub fn stacks_nest()
    ensures { (plan : Plan) (h : History) → IsLawful plan h → AreNested plan (world plan h) }
{}

/// A caller's place has at most 3 stages more than the longest chain of parents and suppliers from a
/// device of its script has devices; a work item's 2 more than that from its device; a timer's as many
/// as its device's chain of parents through devices without callbacks (this project's own).
pub fn stacks_are_shallow()
    ensures { (plan : Plan) (h : History) → IsLawful plan h → AreShallow plan (world plan h) }
{}

/// Each device's autosuspend delay is from -1,000,000 to 1,000,000 milliseconds (`runtime_pm.rst`,
/// section 9; the limit is this project's own).
pub fn delays_are_bounded()
    ensures { (plan : Plan) (h : History) → IsLawful plan h → HasDelays (world plan h).views }
{}

/// The counters can take the change of a line that may come next, once one more disabling can be
/// counted; a setting is within its range (this project's own).
pub fn changes_are_taken()
    ensures { (plan : Plan) (h : History) (line : Line) → IsLawful plan h → (p : Permits plan h line) → ((d : DevId) → has_room (device (world plan h).views d).depth ≡ true) → can_change (length plan.devices) (world plan h).views p.change ≡ true }
{}
