//! Reasons are complete: laws over every lawful list of lines.

ghost use Rattle.std.specs.Prelude.{◌≡◌, ◌<◌, ℕ, Some, [], ◌∷◌, count_by, length};
ghost use Rattle.pm_base.specs.declared.DevId.{DevId};
ghost use Rattle.pm_base.specs.declared.Why.{Why};
ghost use Rattle.pm_model.specs.declared.event.Event.TheVariants as event;
ghost use Rattle.pm_model.specs.declared.event.Line.{Line};
ghost use Rattle.pm_model.specs.declared.plan.Plan.{Plan};
ghost use Rattle.pm_model.specs.Counted.{usage};
ghost use Rattle.pm_model.specs.History.{History};
ghost use Rattle.pm_model.specs.Lawful.{IsLawful};
ghost use Rattle.pm_model.specs.SuspendTable.{suspend_verdict};
ghost use Rattle.pm_model.specs.World.{world};
ghost use Rattle.pm_why.specs.OpenGets.{open_for};
ghost use Rattle.pm_why.specs.Reasons.{is_count, line_of, reasons, suspend_line};

/// The open gets of a device are as many as its usage.
pub fn counts_are_usage()
    ensures { (plan : Plan) (h : History) (d : DevId) → IsLawful plan h → d.0 < length plan.devices → count_by is_count (reasons plan h d) ≡ usage plan h d }
{}

/// Each put of a device closes a get of it that was taken for the same reason.
pub fn puts_close_gets()
    ensures { (plan : Plan) (h : History) (line : Line) (d : DevId) (why : Why) → IsLawful plan (line ∷ h) → line.event ≡ event.Put d why → d.0 < length plan.devices → 0 < open_for why h d }
{}

/// Nothing keeps a device from suspending exactly where a suspend of it, called with no flags, begins at once
/// (`runtime_pm.rst`, sections 2 and 8).
pub fn free_devices_suspend()
    ensures free { (plan : Plan) (h : History) (d : DevId) (t : ℕ) → IsLawful plan h → d.0 < length plan.devices → reasons plan h d ≡ [] → line_of (suspend_verdict plan (world plan h).views d 0 t) ≡ Some (suspend_line plan d) }
    ensures kept { (plan : Plan) (h : History) (d : DevId) (t : ℕ) → IsLawful plan h → d.0 < length plan.devices → line_of (suspend_verdict plan (world plan h).views d 0 t) ≡ Some (suspend_line plan d) → reasons plan h d ≡ [] }
{}
