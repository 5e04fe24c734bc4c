//! Which resumes of suppliers are on their way, and how they carry the law on suppliers over one line.

ghost use Rattle.std.specs.Prelude.{◌<◌, ℕ, List, ◌∷◌, length};
ghost use Rattle.pm_base.specs.declared.DevId.{DevId};
ghost use Rattle.pm_model.specs.declared.event.Line.{Line};
ghost use Rattle.pm_model.specs.declared.plan.Plan.{Plan};
ghost use Rattle.pm_model.specs.Lawful.{IsLawful};
ghost use Rattle.pm_laws.specs.stacks.Shape.{IsLink};
ghost use Rattle.pm_laws.specs.safe.Supplied.{Bonds, Supplied};

/// Where a held link's consumer needs its suppliers, the supplier is Active, or excused, or a resume
/// of it for this link is on its way (`device_link.rst`). A line keeps this, given what the bonds
/// between devices say of it.
pub fn supplier_stays_over_a_line()
    ensures { (plan : Plan) (h : List Line) (line : Line) (l : ℕ) (d s : DevId) → IsLawful plan (line ∷ h) → d.0 < length plan.devices → s.0 < length plan.devices → IsLink plan l d s → Bonds plan h line l d s → Supplied plan h l d s → Supplied plan (line ∷ h) l d s }
{}
