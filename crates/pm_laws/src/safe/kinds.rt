//! Which part of a device's transition each line carries out.

ghost use Rattle.std.specs.Prelude.{◌∷◌};
ghost use Rattle.pm_model.specs.declared.event.Line.{Line};
ghost use Rattle.pm_model.specs.declared.plan.Plan.{Plan};
ghost use Rattle.pm_model.specs.History.{History};
ghost use Rattle.pm_model.specs.Lawful.{IsLawful};
ghost use Rattle.pm_laws.specs.safe.LineKind.{HasKind};

/// Each line of a lawful list is of a kind: it moves its device's part from one phase to the next, turns its
/// status or not, and takes or gives what the kind says (`runtime_pm.rst`, sections 2 and 4; `device_link.rst`).
pub fn lines_are_of_kinds()
    ensures { (plan : Plan) (h : History) (line : Line) → IsLawful plan (line ∷ h) → HasKind plan h line }
{}
