//! What a line changes of the moments from which the actors may write.

ghost use Rattle.std.specs.Prelude.{false, None, ◌≡◌, ◌≢◌, ◌∷◌, ◌⊎◌, ℕ, Option};
ghost use Rattle.pm_base.specs.declared.ActorId.{ActorId};
ghost use Rattle.pm_base.specs.declared.ActorId.TheVariants.{Timer, Work};
ghost use Rattle.pm_base.specs.declared.DevId.{DevId};
ghost use Rattle.pm_model.specs.declared.event.Event.{Event};
ghost use Rattle.pm_model.specs.declared.event.Line.{Line};
ghost use Rattle.pm_model.specs.declared.plan.Plan.{Plan};
ghost use Rattle.pm_model.specs.declared.stage.Change.{Change};
ghost use Rattle.pm_model.specs.ChangeViews.{change_views};
ghost use Rattle.pm_model.specs.Events.{by_event};
ghost use Rattle.pm_model.specs.History.{History};
ghost use Rattle.pm_model.specs.Lawful.{IsLawful, Permits};
ghost use Rattle.pm_model.specs.Views.{Views};
ghost use Rattle.pm_model.specs.World.{place, start, world};
ghost use Rattle.pm_laws.specs.turns.Wakes.{wakes};
ghost use Rattle.pm_laws.specs.turns.Glance.{glance};
ghost use Rattle.pm_laws.specs.turns.Looks.{IsApart, IsSpared, device_at, device_changed, device_in, looks_at, stirs};
ghost use Rattle.pm_laws.specs.turns.Told.{IsShown, is_actor, reaches_any, told_wait, touches_any};

/// An event, and a change that a row of the call table names, move what the moments see of their own device alone.
pub fn changes()
    ensures events { (plan : Plan) (t : ℕ) (e : Event) (v : Views) (x : DevId) → IsApart (device_in e) x → glance (by_event plan t e v) x ≡ glance v x }
    ensures named { (plan : Plan) (t : ℕ) (c : Change) (v : Views) (x : DevId) → IsApart (device_changed c) x → glance (change_views plan t c v) x ≡ glance v x }
{}

/// A line moves the moment of its own actor, and else only moments that depend on the device of its stage or of its
/// event.
pub fn frame()
    ensures { (plan : Plan) (h : History) (line : Line) (p : Permits plan h line) (a : ActorId) → a ≢ line.actor → IsSpared (looks_at (world plan h) a) p.stage line.event → wakes plan (world plan (line ∷ h)) a ≡ wakes plan (world plan h) a }
{}

/// Whoever waits for a device has said so by its last line, a wait line for that device; and nobody else has.
pub fn waiters()
    ensures { (plan : Plan) (h : History) → IsLawful plan h → (a : ActorId) → IsShown (told_wait a h) (place (world plan h) a) }
{}

/// A line moves the moments of its own actor, of the work items and timers of the device of its stage and of the
/// device of its event, and of those whose last line is a wait line for such a device; and no others.
pub fn touched()
    ensures { (plan : Plan) (h : History) (line : Line) (lawful : IsLawful plan (line ∷ h)) (a : ActorId) → is_actor a line.actor ≡ false → touches_any (device_at lawful.0.stage) h a ≡ false → touches_any (device_in line.event) h a ≡ false → wakes plan (world plan (line ∷ h)) a ≡ wakes plan (world plan h) a }
{}

/// A line that isn't of a status, a work item or a timer, and whose row names no change that may take a work item from
/// its queue or disarm a timer (`stirs`), moves the moments of its own actor and of those whose last line is a wait line
/// for the device of its stage or of its event; and no others.
pub fn stirred()
    ensures { (plan : Plan) (h : History) (line : Line) (lawful : IsLawful plan (line ∷ h)) (a : ActorId) → stirs line.event lawful.0.change ≡ false → is_actor a line.actor ≡ false → reaches_any false (device_at lawful.0.stage) h a ≡ false → reaches_any false (device_in line.event) h a ≡ false → wakes plan (world plan (line ∷ h)) a ≡ wakes plan (world plan h) a }
{}

/// Moments that were right before a line, and of which those that the line touches are asked anew, are right after it.
pub fn settles()
    ensures { (plan : Plan) (h : History) (line : Line) (lawful : IsLawful plan (line ∷ h)) (before after : ActorId → Option ℕ) (a : ActorId) → before a ≡ wakes plan (world plan h) a → (after a ≡ wakes plan (world plan (line ∷ h)) a) ⊎ ((after a ≡ before a) × (is_actor a line.actor ≡ false) × (touches_any (device_at lawful.0.stage) h a ≡ false) × (touches_any (device_in line.event) h a ≡ false)) → after a ≡ wakes plan (world plan (line ∷ h)) a }
{}

/// Before any line work items and timers rest.
pub fn starts()
    ensures works { (plan : Plan) (d : ℕ) → wakes plan (start plan) (Work d) ≡ None }
    ensures timers { (plan : Plan) (d : ℕ) → wakes plan (start plan) (Timer d) ≡ None }
{}
