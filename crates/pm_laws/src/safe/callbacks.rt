//! Where callbacks run, and that every run is safe and exclusive.

ghost use Rattle.std.specs.Prelude.{◌≡◌, ◌<◌, true, length};
ghost use Rattle.pm_base.specs.declared.Cb.{Cb};
ghost use Rattle.pm_base.specs.declared.DevId.{DevId};
ghost use Rattle.pm_model.specs.declared.plan.Plan.{Plan};
ghost use Rattle.pm_model.specs.Counted.{runs};
ghost use Rattle.pm_model.specs.History.{History};
ghost use Rattle.pm_model.specs.Lawful.{IsLawful};
ghost use Rattle.pm_model.specs.Promises.{is_exclusive, is_safe};
ghost use Rattle.pm_model.specs.World.{world};
ghost use Rattle.pm_laws.specs.counts.Sums.{one, tally};
ghost use Rattle.pm_laws.specs.counts.Owners.{places};
ghost use Rattle.pm_laws.specs.safe.Parts.{at_part};
ghost use Rattle.pm_laws.specs.safe.Running.{is_owners, runs_in};

/// The suspend callback of a device runs exactly where one stage S2 of it is open, and the resume callback where one
/// stage R4b is; never two (`runtime_pm.rst`, section 2).
pub fn callbacks_run()
    ensures { (plan : Plan) (h : History) (d : DevId) (k : Cb) → IsLawful plan h → d.0 < length plan.devices → is_owners k ≡ true → tally (at_part (runs_in k) d) (places (world plan h)) ≡ one (runs k d h) }
{}

/// Every run is exclusive: a callback begins only while no other that excludes it runs, and nothing else keeps it from
/// beginning (`runtime_pm.rst`, section 2).
pub fn runs_are_exclusive()
    ensures { (plan : Plan) (h : History) → IsLawful plan h → is_exclusive plan h ≡ true }
{}

/// Every run is safe: each live device has its domains on, and its parent and its suppliers Active, or is excused
/// (`runtime_pm.rst`, sections 2 and 4; `device_link.rst`).
pub fn runs_are_safe()
    ensures { (plan : Plan) (h : History) → IsLawful plan h → is_safe plan h ≡ true }
{}
