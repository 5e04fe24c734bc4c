//! All that holds after every lawful list of lines, in one record.

ghost use Rattle.pm_model.specs.declared.plan.Plan.{Plan};
ghost use Rattle.pm_model.specs.History.{History};
ghost use Rattle.pm_model.specs.Lawful.{IsLawful};
ghost use Rattle.pm_laws.specs.Invariant.{Invariant};

/// After every lawful list of lines, whatever the order of the actors, all of `Invariant` holds (`runtime_pm.rst`,
/// `device_link.rst`; each field names its law in the folders of this crate).
pub fn invariant_holds()
    ensures { (plan : Plan) (h : History) → IsLawful plan h → Invariant plan h }
{}
