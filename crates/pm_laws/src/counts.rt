//! Laws on the counters that hold after every lawful list of lines, whatever the order of the actors: what each
//! counter is the sum of over the open stages, and how such a sum changes where the top of one stack gives way.

ghost use Rattle.std.specs.Prelude.{◌≡◌, ◌+◌, ◌<◌, ◌≤◌, ℕ, Some, true, false, length, slice_get};
ghost use Rattle.pm_base.specs.declared.Cb.TheVariants as cb;
ghost use Rattle.pm_base.specs.declared.DevId.{DevId};
ghost use Rattle.pm_model.specs.declared.event.Line.{Line};
ghost use Rattle.pm_model.specs.declared.plan.Plan.{Plan};
ghost use Rattle.pm_model.specs.declared.rows.LinkRow.{LinkRow};
ghost use Rattle.pm_model.specs.Counted.{gets, puts, freed, usage, is_callers, share, status_of, error_of, is_allowed, runs, is_held_pair, is_switched_on};
ghost use Rattle.pm_model.specs.Derived.{is_moving};
ghost use Rattle.pm_model.specs.Events.{held_from};
ghost use Rattle.pm_model.specs.History.{History};
ghost use Rattle.pm_model.specs.Lawful.{IsFinished, IsLawful, Permits};
ghost use Rattle.pm_model.specs.PlanRows.{no_callbacks};
ghost use Rattle.pm_model.specs.Views.{device, is_held, is_on};
ghost use Rattle.pm_model.specs.World.{world};
ghost use Rattle.pm_laws.specs.counts.Counts.{AddsUp};
ghost use Rattle.pm_laws.specs.counts.Owners.{HasOneOwner};
ghost use Rattle.pm_laws.specs.counts.Sizes.{HasEntries, HasPlaces};

mod sums;

pub use sums::tallies;

/// The views have one entry for each row of the plan, and each actor has one place.
pub fn sizes()
    ensures entries { (plan : Plan) (h : History) → IsLawful plan h → HasEntries plan (world plan h).views }
    ensures places { (plan : Plan) (h : History) → IsLawful plan h → HasPlaces plan (world plan h) }
{}

/// A device without callbacks is Active or Suspended (`runtime_pm.rst`, section 8).
pub fn quiet_devices_settle()
    ensures { (plan : Plan) (h : History) (d : DevId) → IsLawful plan h → no_callbacks plan d ≡ true → is_moving (world plan h).views d ≡ false }
{}

/// Each Suspending device and each Resuming device has exactly one owner, and no other device has one.
pub fn one_owner()
    ensures { (plan : Plan) (h : History) → IsLawful plan h → HasOneOwner plan (world plan h) }
{}

/// The status of a device is what the last line that says anything of it says.
pub fn status_is_said()
    ensures { (plan : Plan) (h : History) (d : DevId) → IsLawful plan h → d.0 < length plan.devices → (device (world plan h).views d).status ≡ status_of h d }
{}

/// The error of a device is what the last line that says anything of it says.
pub fn error_is_said()
    ensures { (plan : Plan) (h : History) (d : DevId) → IsLawful plan h → d.0 < length plan.devices → (device (world plan h).views d).error ≡ error_of h d }
{}

/// A device is allowed to suspend unless the last get or put of it for `forbid` is a get (`runtime_pm.rst`, section 4).
pub fn auto_is_said()
    ensures { (plan : Plan) (h : History) (d : DevId) → IsLawful plan h → d.0 < length plan.devices → (device (world plan h).views d).auto_on ≡ is_allowed h d }
{}

/// The idle callback of a device runs from its begin to its end.
pub fn idle_is_said()
    ensures { (plan : Plan) (h : History) (d : DevId) → IsLawful plan h → d.0 < length plan.devices → (device (world plan h).views d).idle_running ≡ runs cb.Idle d h }
{}

/// A link is held from the get of its supplier for its consumer to the put, or to a forced suspend of its consumer
/// (`device_link.rst`).
pub fn held_is_said()
    ensures { (plan : Plan) (h : History) (l : ℕ) (row : LinkRow) → IsLawful plan h → slice_get plan.links l ≡ Some row → is_held (world plan h).views l ≡ is_held_pair h row.consumer row.supplier }
{}

/// A domain is on as the last `pm_domain` line that switches it says; before any, the domains that are always on are
/// on, and those above them.
pub fn domains_are_said()
    ensures { (plan : Plan) (h : History) (o : ℕ) → IsLawful plan h → o < length plan.domains → is_on (world plan h).views o ≡ is_switched_on plan h o }
{}

/// The usage of a device is the number of counts that someone holds on it.
pub fn usage_adds_up()
    ensures { (plan : Plan) (h : History) → IsLawful plan h → AddsUp plan (world plan h) }
{}

/// The usage of a device is its gets less its puts, less what forced statuses gave back; so no count
/// falls below zero.
pub fn usage_is_counted()
    ensures given_back { (plan : Plan) (h : History) (d : DevId) → IsLawful plan h → d.0 < length plan.devices → (device (world plan h).views d).usage + (puts (λ w. true) h d + freed plan h d) ≡ gets (λ w. true) h d }
    ensures left { (plan : Plan) (h : History) (d : DevId) → IsLawful plan h → d.0 < length plan.devices → (device (world plan h).views d).usage ≡ usage plan h d }
{}

/// The share of a device's usage that is the callers' is their gets less their puts; so callers never give back more
/// than they took.
pub fn share_is_counted()
    ensures given_back { (plan : Plan) (h : History) (d : DevId) → IsLawful plan h → d.0 < length plan.devices → (device (world plan h).views d).share + puts is_callers h d ≡ gets is_callers h d }
    ensures left { (plan : Plan) (h : History) (d : DevId) → IsLawful plan h → d.0 < length plan.devices → (device (world plan h).views d).share ≡ share h d }
{}

/// The counts that the held links of a consumer took on a supplier are among its usage; so a forced suspend, which
/// gives them back, finds them there (`device_link.rst`).
pub fn held_counts_are_taken()
    ensures { (plan : Plan) (h : History) (d : DevId) (s : ℕ) → IsLawful plan h → held_from plan (world plan h).views.held d s ≤ (device (world plan h).views (record { 0 = s })).usage }
{}

/// No line may follow a finished list.
pub fn finished_is_final()
    ensures { (plan : Plan) (h : History) (line : Line) → Permits plan h line → IsFinished plan h → ⊥ }
{}
