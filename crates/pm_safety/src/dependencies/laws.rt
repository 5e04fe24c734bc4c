//! Which lines break bonds: laws over every lawful list of lines.

ghost use Rattle.std.specs.Prelude.{◌≡◌, ◌<◌, ◌∷◌, ℕ, None, Some, [], length, true};
ghost use Rattle.std.specs.List.{list_all};
ghost use Rattle.pm_base.specs.declared.DevId.{DevId};
ghost use Rattle.pm_base.specs.declared.DomId.{DomId};
ghost use Rattle.pm_model.specs.declared.event.Line.{Line};
ghost use Rattle.pm_model.specs.declared.plan.Plan.{Plan};
ghost use Rattle.pm_model.specs.History.{History};
ghost use Rattle.pm_model.specs.Lawful.{IsLawful};
ghost use Rattle.pm_model.specs.Derived.{is_active};
ghost use Rattle.pm_model.specs.PlanRows.{domain, domains_of};
ghost use Rattle.pm_model.specs.Views.{device, is_on};
ghost use Rattle.pm_model.specs.World.{world};
ghost use Rattle.pm_safety.specs.dependencies.Broken.{broken_at};
ghost use Rattle.pm_safety.specs.dependencies.Looked.{broken_by};
ghost use Rattle.pm_safety.specs.dependencies.Turning.{turned_by, IsApart};

/// A line turns the status of the device that its event names alone, and whether that one ignores its children (this
/// project's own).
pub fn lines_turn_their_device()
    ensures status { (plan : Plan) (h : History) (line : Line) (x : DevId) → IsLawful plan (line ∷ h) → x.0 < length plan.devices → IsApart x (turned_by line.event) → (device (world plan (line ∷ h)).views x).status ≡ (device (world plan h).views x).status }
    ensures ignores { (plan : Plan) (h : History) (line : Line) (x : DevId) → IsLawful plan (line ∷ h) → IsApart x (turned_by line.event) → (device (world plan (line ∷ h)).views x).ignores ≡ (device (world plan h).views x).ignores }
{}

/// The domains of a device that is Active before and after a line stay on (this project's own).
pub fn domains_stay_on()
    ensures { (plan : Plan) (h : History) (line : Line) (d : DevId) (o : DomId) → domain plan d ≡ Some o → IsLawful plan (line ∷ h) → d.0 < length plan.devices → is_active (world plan h).views d ≡ true → list_all (is_on (world plan h).views) (domains_of plan d) ≡ true → list_all (is_on (world plan (line ∷ h)).views) (domains_of plan d) ≡ true }
{}

/// The bonds that a line breaks are those of the device that it turns, of its children and of its consumers; a line that
/// turns none breaks none (this project's own).
pub fn lines_break_near_bonds()
    ensures turned { (plan : Plan) (h : History) (line : Line) (d : DevId) → IsLawful plan (line ∷ h) → turned_by line.event ≡ Some d → d.0 < length plan.devices → broken_at plan h line ≡ broken_by plan (line ∷ h) d (is_active (world plan h).views d) (device (world plan h).views d).ignores (is_active (world plan (line ∷ h)).views d) (device (world plan (line ∷ h)).views d).ignores }
    ensures none { (plan : Plan) (h : History) (line : Line) → IsLawful plan (line ∷ h) → turned_by line.event ≡ None → broken_at plan h line ≡ [] }
{}
