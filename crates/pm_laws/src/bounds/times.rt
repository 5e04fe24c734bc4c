//! How what may be written depends on the time, and when a line may come next at some time.

ghost use Rattle.std.specs.Prelude.{◌≡◌, ◌+◌, ℕ, Bool, true, false, List, Option, Some, None};
ghost use Rattle.pm_model.specs.Derived.{is_ahead};
ghost use Rattle.pm_model.specs.Lawful.{Permits};
ghost use Rattle.pm_model.specs.NoWhy.{IsPermittedSometime, at_time};
ghost use Rattle.pm_model.specs.Views.{Views};
ghost use Rattle.pm_model.specs.declared.event.Command.{Command};
ghost use Rattle.pm_model.specs.declared.event.Event.{Event};
ghost use Rattle.pm_model.specs.declared.event.Event.TheVariants.{Timer};
ghost use Rattle.pm_model.specs.declared.event.Line.{Line};
ghost use Rattle.pm_model.specs.declared.event.TimerAct.TheVariants.{Arm};
ghost use Rattle.pm_model.specs.declared.plan.Plan.{Plan};
ghost use Rattle.pm_model.specs.declared.stage.ControlStage.TheVariants.{Start};
ghost use Rattle.pm_model.specs.declared.stage.Stage.{Stage};
ghost use Rattle.pm_model.specs.declared.stage.Stage.TheVariants.{Control};
ghost use Rattle.pm_laws.specs.bounds.Times.{IsPermittedAt, IsSame, arms_for, event_at, expiry_of, minds_time, moments, permitted_some_time};

/// The event of a row depends on the time where an expiry is tested or a plain timer is armed, and
/// nowhere else: only on which side of the expiry the time is, and on the time itself for that timer.
pub fn dependence()
    ensures timeless { (plan : Plan) (v : Views) (s : Stage) → minds_time s ≡ false
        → (t u : ℕ) → event_at plan v s t ≡ event_at plan v s u }
    ensures expiring { (plan : Plan) (v : Views) (s : Stage) (t u : ℕ) → arms_for plan v s ≡ None
        → is_ahead (expiry_of v s) t ≡ is_ahead (expiry_of v s) u → event_at plan v s t ≡ event_at plan v s u }
    ensures arming { (plan : Plan) (v : Views) (c : Command) (ms t : ℕ) → arms_for plan v (Control (Start c)) ≡ Some ms
        → event_at plan v (Control (Start c)) t ≡ Some (Timer c.dev (Arm (t + ms) false)) }
{}

/// Whether a line may come next at some time is decided by three moments: where it may at t, it may at
/// one of them that isn't later than t.
pub fn decision()
    ensures found { (plan : Plan) (h : List Line) (line : Line) (t : ℕ) → Permits plan h (at_time line t)
        → IsPermittedAt plan h line t (moments plan h line) }
    ensures sound { (plan : Plan) (h : List Line) (line : Line) (t : ℕ)
        → IsPermittedAt plan h line t (moments plan h line) → IsPermittedSometime plan h line }
{}

/// The test of these moments answers true exactly where the line may come next at some time, whatever
/// test of two events it goes by.
pub fn tested()
    ensures sound { (same : Event → Event → Bool) → IsSame same → (plan : Plan) (h : List Line) (line : Line)
        → permitted_some_time same plan h line ≡ true → IsPermittedSometime plan h line }
    ensures complete { (same : Event → Event → Bool) → IsSame same → (plan : Plan) (h : List Line) (line : Line)
        → IsPermittedSometime plan h line → permitted_some_time same plan h line ≡ true }
{}
