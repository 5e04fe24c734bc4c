//! The open counts are those that callers hold: laws over every lawful list of lines.

ghost use Rattle.std.specs.Prelude.{◌≡◌, ◌<◌, ◌≤◌, ◌&&◌, ◌∷◌, ℕ, length, nat_le, not};
ghost use Rattle.pm_base.specs.declared.DevId.{DevId};
ghost use Rattle.pm_base.specs.declared.Why.TheVariants as why;
ghost use Rattle.pm_find.specs.findings.OpenCounts.{open_counts};
ghost use Rattle.pm_find.specs.findings.Said.{left_line, was_on};
ghost use Rattle.pm_model.specs.declared.event.Event.TheVariants as event;
ghost use Rattle.pm_model.specs.declared.event.Line.{Line};
ghost use Rattle.pm_model.specs.declared.plan.Plan.{Plan};
ghost use Rattle.pm_model.specs.Counted.{share, status_of};
ghost use Rattle.pm_model.specs.Derived.{is_active_status};
ghost use Rattle.pm_model.specs.History.{History};
ghost use Rattle.pm_model.specs.Lawful.{IsLawful};

/// The open counts of a device are as many as the share of its usage that is the callers' (this project's own).
pub fn open_counts_are_share()
    ensures { (plan : Plan) (h : History) (d : DevId) → IsLawful plan h → d.0 < length plan.devices → length (open_counts h d) ≡ share h d }
{}

/// Each put of a caller takes away an open count of its device (this project's own).
pub fn puts_find_counts()
    ensures { (plan : Plan) (h : History) (line : Line) (d : DevId) → IsLawful plan (line ∷ h) → line.event ≡ event.Put d why.Caller → d.0 < length plan.devices → 0 < length (open_counts h d) }
{}

/// A device is Active at no line since a line exactly where it isn't Active, and the last line after which it
/// was Active no more isn't behind that one (this project's own).
pub fn never_on_is_said()
    ensures { (h : History) (d : DevId) (from : ℕ) → 0 < from → from ≤ length h → not (was_on from h d) ≡ (not (is_active_status (status_of h d)) && nat_le (left_line h d) from) }
{}
