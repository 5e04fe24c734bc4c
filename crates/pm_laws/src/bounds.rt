//! The counts of a run are in bounds, after every lawful list of lines: so the line that comes next can
//! always be told, and always fits. What may be written depends on the time in two rows alone, so it is decided
//! whether an event may come next at some time, however late.

ghost use Rattle.std.specs.Prelude.{◌≡◌, ◌+◌, ◌<◌, ◌≤◌, ◌^◌, ℕ, Bool, Some, true, is_some, length, slice_get};
ghost use Rattle.std.specs.List.{list_all};
ghost use Rattle.pm_base.specs.declared.ActorId.{ActorId};
ghost use Rattle.pm_base.specs.declared.ActorId.TheVariants.{Caller};
ghost use Rattle.pm_base.specs.declared.Armed.{Armed};
ghost use Rattle.pm_base.specs.declared.Cb.{Cb};
ghost use Rattle.pm_base.specs.declared.DevId.{DevId};
ghost use Rattle.pm_base.specs.declared.Why.{Why};
ghost use Rattle.pm_linetext.specs.ShortLine.{is_short_line};
ghost use Rattle.pm_model.specs.declared.event.Command.{Command};
ghost use Rattle.pm_model.specs.declared.event.Event.TheVariants as event;
ghost use Rattle.pm_model.specs.declared.event.Line.{Line};
ghost use Rattle.pm_model.specs.declared.plan.Plan.{Plan};
ghost use Rattle.pm_model.specs.declared.rows.CallerRow.{CallerRow};
ghost use Rattle.pm_model.specs.declared.stage.Stage.{Stage};
ghost use Rattle.pm_model.specs.CanTake.{can_take, has_room};
ghost use Rattle.pm_model.specs.Counted.{gets, is_callers};
ghost use Rattle.pm_model.specs.Derived.{begun};
ghost use Rattle.pm_model.specs.History.{History};
ghost use Rattle.pm_model.specs.Lawful.{IsLawful, Permits, last_time};
ghost use Rattle.pm_model.specs.LineOf.{is_event_of, is_line_of};
ghost use Rattle.pm_model.specs.Views.{device, timer};
ghost use Rattle.pm_model.specs.WellFormed.{is_well_formed};
ghost use Rattle.pm_model.specs.World.{called_by, due, move, next_command, place, stage_at, world};
ghost use Rattle.pm_laws.specs.bounds.Rooms.{HasRooms, begin_lines};
ghost use Rattle.pm_laws.specs.bounds.Running.{runs_callback};

mod times;

pub use times::{decision, dependence, tested};

/// A lawful list has at most 200,000 lines (this project's own).
pub fn lines_are_bounded()
    ensures { (plan : Plan) (h : History) → IsLawful plan h → length h ≤ 200000 }
{}

/// How often a callback of a device has begun is the number of its begin lines.
pub fn begins_are_counted()
    ensures { (plan : Plan) (h : History) (k : Cb) (d : DevId) → IsLawful plan h → d.0 < length plan.devices → begun (world plan h).views k d ≡ begin_lines k h d }
{}

/// No count of a device passes the lines that can raise it: its depth, which begins at 1, its usage, its
/// share, and how often its callbacks have begun (`runtime_pm.rst`, sections 3 to 5).
pub fn counts_are_bounded()
    ensures depth { (plan : Plan) (h : History) (d : DevId) → IsLawful plan h → (device (world plan h).views d).depth ≤ 1 + length h }
    ensures usage { (plan : Plan) (h : History) (d : DevId) → IsLawful plan h → (device (world plan h).views d).usage ≤ gets (λ w. true) h d }
    ensures share { (plan : Plan) (h : History) (d : DevId) → IsLawful plan h → (device (world plan h).views d).share ≤ gets is_callers h d }
    ensures begun { (plan : Plan) (h : History) (k : Cb) (d : DevId) → IsLawful plan h → begun (world plan h).views k d ≤ begin_lines k h d }
    ensures gets { (reason : Why → Bool) (h : History) (d : DevId) → gets reason h d ≤ length h }
    ensures begins { (k : Cb) (h : History) (d : DevId) → begin_lines k h d ≤ length h }
{}

/// One more of each count of each device, and one more call of each caller, can be counted in 32 bits.
pub fn counts_have_room()
    ensures calls { (plan : Plan) (h : History) (c : ℕ) → IsLawful plan h → has_room (called_by (world plan h) c) ≡ true }
    ensures devices { (plan : Plan) (h : History) (d : DevId) → IsLawful plan h → HasRooms (world plan h).views d }
{}

/// The counters can take each line that may come next: a put finds its count, a forced suspend finds the
/// counts of its links, and gets, begins and disablings have room (`runtime_pm.rst`, section 4).
pub fn lines_are_taken()
    ensures { (plan : Plan) (h : History) (line : Line) → IsLawful plan h → (p : Permits plan h line) → can_take plan (world plan h).views p.change line.event ≡ true }
{}

/// A caller calls the commands of its script in turn, and no more than it has: at most 1,000 (this
/// project's own).
pub fn calls_are_bounded()
    ensures called { (plan : Plan) (h : History) (c : ℕ) (caller : CallerRow) → IsLawful plan h → slice_get plan.callers c ≡ Some caller → called_by (world plan h) c ≤ length caller.script }
    ensures script { (plan : Plan) (c : ℕ) (caller : CallerRow) → slice_get plan.callers c ≡ Some caller → length caller.script ≤ 1000 }
    ensures next { (plan : Plan) (h : History) (line : Line) (c : ℕ) (command : Command) → IsLawful plan h → Permits plan h line → line.actor ≡ Caller c → line.event ≡ event.Call command → next_command plan (world plan h) c ≡ Some command }
{}

/// A stage at which an actor stands is well formed, while times are below 2^63, as those of a plan's lines
/// are (this project's own).
pub fn stages_can_be_told()
    ensures { (plan : Plan) (h : History) (a : ActorId) (s : Stage) → IsLawful plan h → last_time h < 2 ^ 63 → stage_at plan (world plan h) a ≡ Some s → is_well_formed plan (world plan h).views s ≡ true }
{}

/// A stage at which an actor stands has a move: no actor stands at a stage under a call (this project's
/// own).
pub fn stages_have_moves()
    ensures { (plan : Plan) (h : History) (a : ActorId) (s : Stage) (t : ℕ) → IsLawful plan h → stage_at plan (world plan h) a ≡ Some s → is_some (move plan (world plan h).views s t) ≡ true }
{}

/// The end of a callback needs no more room on its actor's stack: the place is open, and at most one stage
/// comes where the callback's was (this project's own).
pub fn ends_are_level()
    ensures open_place { (plan : Plan) (h : History) (a : ActorId) (s : Stage) → stage_at plan (world plan h) a ≡ Some s → runs_callback s ≡ true → 0 < length (place (world plan h) a) }
    ensures level { (plan : Plan) (h : History) (line : Line) → (p : Permits plan h line) → runs_callback p.stage ≡ true → length p.next.push ≤ 1 }
{}

/// Each line that may come next at a time below 2^63 is one of the plan's lines, those that have a text,
/// and so are all lines of a lawful list whose last time is below it (this project's own).
pub fn lines_are_of_plan()
    ensures event { (plan : Plan) (h : History) (line : Line) → IsLawful plan h → Permits plan h line → line.time + 1000000 < 2 ^ 64 → is_event_of (length plan.devices) line.event ≡ true }
    ensures next { (plan : Plan) (h : History) (line : Line) → IsLawful plan h → Permits plan h line → line.time < 2 ^ 63 → is_line_of plan line ≡ true }
    ensures all { (plan : Plan) (h : History) → IsLawful plan h → last_time h < 2 ^ 63 → list_all (is_line_of plan) h ≡ true }
{}

/// Each line that may come next is short, and so are all lines of a lawful list: the text of such a line
/// has at most 162 bytes (this project's own).
pub fn lines_are_short()
    ensures next { (plan : Plan) (h : History) (line : Line) → IsLawful plan h → Permits plan h line → is_short_line line ≡ true }
    ensures all { (plan : Plan) (h : History) → IsLawful plan h → list_all is_short_line h ≡ true }
{}

/// No line is due more than 1,000,000 milliseconds after the last line: neither the end of a callback or
/// of a delay, nor a timer. No device was marked busy later than that line (`runtime_pm.rst`, sections 4
/// and 9; the limit is this project's own).
pub fn due_moments()
    ensures due { (plan : Plan) (h : History) (a : ActorId) (s : Stage) → IsLawful plan h → stage_at plan (world plan h) a ≡ Some s → due plan (world plan h).views s ≤ last_time h + 1000000 }
    ensures timers { (plan : Plan) (h : History) (d : DevId) (armed : Armed) → IsLawful plan h → timer (world plan h).views d ≡ Some armed → armed.deadline ≤ last_time h + 1000000 }
    ensures busy { (plan : Plan) (h : History) (d : DevId) → IsLawful plan h → (device (world plan h).views d).last_busy ≤ last_time h }
{}
