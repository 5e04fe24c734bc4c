//! The bonds of devices: with their links, their domains and their parents.

ghost use Rattle.std.specs.Prelude.{◌≡◌, ℕ, Some, true, false, slice_get};
ghost use Rattle.std.specs.List.{list_all};
ghost use Rattle.pm_base.specs.declared.ActorId.{ActorId};
ghost use Rattle.pm_base.specs.declared.DevId.{DevId};
ghost use Rattle.pm_base.specs.declared.DomId.{DomId};
ghost use Rattle.pm_model.specs.declared.plan.Plan.{Plan};
ghost use Rattle.pm_model.specs.declared.rows.LinkRow.{LinkRow};
ghost use Rattle.pm_model.specs.Derived.{is_suspended};
ghost use Rattle.pm_model.specs.History.{History};
ghost use Rattle.pm_model.specs.Lawful.{IsLawful};
ghost use Rattle.pm_model.specs.PlanRows.{domain_parent, is_always_on, parent};
ghost use Rattle.pm_model.specs.Views.{is_held, is_on};
ghost use Rattle.pm_model.specs.World.{place, world};
ghost use Rattle.pm_laws.specs.safe.Supplied.{Supplied};
ghost use Rattle.pm_laws.specs.safe.Bonds.{DomainStays, ParentStays, is_marked, is_taken};
ghost use Rattle.pm_laws.specs.safe.Needs.{Needs, needs_links};

/// A held link has `pm_runtime` and is present (`device_link.rst`).
pub fn held_is_runtime()
    ensures { (plan : Plan) (h : History) (l : ℕ) (row : LinkRow) → IsLawful plan h → slice_get plan.links l ≡ Some row → is_held (world plan h).views l ≡ true → is_taken (world plan h).views l row ≡ true }
{}

/// A Suspended device holds no link. A device that is Active, or whose owner is at S2, R4, R4b or R4c, holds all its
/// links (`device_link.rst`).
pub fn held_links()
    ensures none { (plan : Plan) (h : History) (l : ℕ) (row : LinkRow) → IsLawful plan h → slice_get plan.links l ≡ Some row → is_suspended (world plan h).views row.consumer ≡ true → is_held (world plan h).views l ≡ false }
    ensures all { (plan : Plan) (h : History) (l : ℕ) (row : LinkRow) → IsLawful plan h → slice_get plan.links l ≡ Some row → is_taken (world plan h).views l row ≡ true → Needs (world plan h) needs_links row.consumer → is_held (world plan h).views l ≡ true }
{}

/// A domain that is on has its parent on, and one that is `always_on` is on.
pub fn domains_nest()
    ensures parents { (plan : Plan) (h : History) (o p : DomId) → IsLawful plan h → domain_parent plan.domains o ≡ Some p → is_on (world plan h).views o.0 ≡ true → is_on (world plan h).views p.0 ≡ true }
    ensures always { (plan : Plan) (h : History) (o : ℕ) → IsLawful plan h → is_always_on plan o ≡ true → is_on (world plan h).views o ≡ true }
{}

/// A device that is Active, or whose owner is at S2, S3, R4, R4b, R4c or R8, has its domain and all above it on, unless
/// it was forced to Active and hasn't been Suspended since.
pub fn domain_stays()
    ensures { (plan : Plan) (h : History) (d : DevId) → IsLawful plan h → DomainStays plan h d }
{}

/// A device that is Active, or whose owner is at S2, R2, R3, R4, R4b or R4c, has its parent Active, unless it is excused
/// (`runtime_pm.rst`, section 2). At these R stages the mark held is set where there is a parent.
pub fn parent_stays()
    ensures stays { (plan : Plan) (h : History) (d p : DevId) → IsLawful plan h → parent plan d ≡ Some p → ParentStays plan h d p }
    ensures marked { (plan : Plan) (h : History) (a : ActorId) → IsLawful plan h → list_all (is_marked plan) (place (world plan h) a) ≡ true }
{}

/// While a device holds a link, and is Active or its owner is at S2, R2, R3 unless a supplier failed, R4, R4b, R4c or
/// A2, the supplier is Active, or the device is excused, or the resume of the supplier for this link is open and not
/// done (`device_link.rst`).
pub fn supplier_stays()
    ensures { (plan : Plan) (h : History) (l : ℕ) (row : LinkRow) → IsLawful plan h → slice_get plan.links l ≡ Some row → Supplied plan h l row.consumer row.supplier }
{}
