//! The links of a device among the counters (`device_link.rst`).

ghost use Rattle.std.specs.Prelude.{◌≡◌, ◌<◌, true, IfSome, length, option_map};
ghost use Rattle.pm_link.specs.Links.{bit_at, row_at, with_supplier};
ghost use Rattle.pm_model.specs.CanTake.{can_free};
ghost use Rattle.pm_model.specs.Changes.{set_held, set_present};
ghost use Rattle.pm_model.specs.ControlTable.{is_pair_in, may_be_absent};
ghost use Rattle.pm_model.specs.Derived.{first_free, first_held, has_link, next_supplier};
ghost use Rattle.pm_model.specs.Events.{frees_links};
ghost use Rattle.pm_model.specs.Views.{device};
ghost use Rattle.pm_device.specs.Giving.{gives_link};
ghost use Rattle.pm_device.specs.Parts.{IsFor};

use crate::Parts;
use pm_base::DevId;
use pm_model::Plan;

// A link by its place, with its supplier.
fn with_supplier(plan: &Plan, link: Option<usize>) -> Option<(u32, DevId)>
    requires { IfSome link (λ l. l < length plan.now.links) }
    ensures supplier { result ≡ option_map (with_supplier plan.now.links) link }
    ensures in_range { IfSome result (λ l. l.1.0 < length plan.now.devices) }
{
    let link = link?;
    Some((link as u32, plan.links.as_slice()[link].supplier))
}

impl Parts {
    /// The link of a consumer that is held and has the least supplier, by its place in the plan, and
    /// that supplier. It looks at this consumer's links alone, as do the next three.
    pub fn first_held(&self, plan: &Plan, dev: DevId) -> Option<(u32, DevId)>
        requires { IsFor plan.now self.now.shape }
        ensures first { result ≡ first_held plan.now self.now.views dev }
        ensures in_range { IfSome result (λ l. l.1.0 < length plan.now.devices) }
    {
        with_supplier(plan, self.links.first_held(plan, dev))
    }

    /// The link of a consumer that is free and has the least supplier, and that supplier.
    pub fn first_free(&self, plan: &Plan, dev: DevId) -> Option<(u32, DevId)>
        requires { IsFor plan.now self.now.shape }
        ensures first { result ≡ first_free plan.now self.now.views dev }
        ensures in_range { IfSome result (λ l. l.1.0 < length plan.now.devices) }
    {
        with_supplier(plan, self.links.first_free(plan, dev))
    }

    /// The link of a consumer that has the least supplier behind the last one, and that supplier.
    pub fn next_supplier(
        &self,
        plan: &Plan,
        dev: DevId,
        last: Option<DevId>,
    ) -> Option<(u32, DevId)>
        requires { IsFor plan.now self.now.shape }
        ensures first { result ≡ next_supplier plan.now self.now.views dev last }
        ensures in_range { IfSome result (λ l. l.1.0 < length plan.now.devices) }
    {
        with_supplier(plan, self.links.next_supplier(plan, dev, last))
    }

    /// Whether a consumer has a link.
    #[tactic(auto, unfolding(pm_model::specs::Derived::has_link))]
    pub fn has_link(&self, plan: &Plan, dev: DevId) -> bool
        requires { IsFor plan.now self.now.shape }
        ensures { result ≡ has_link plan.now self.now.views dev }
    {
        self.next_supplier(plan, dev, None).is_some()
    }

    /// The link of a pair becomes held or free, if there is one.
    #[tactic(auto, unfolding(pm_model::specs::Changes::set_held))]
    pub fn set_held(&mut self, plan: &Plan, consumer: DevId, supplier: DevId, held: bool)
        requires { IsFor plan.now self.old.shape }
        ensures { self.new ≡ record self.old { views = set_held plan.now consumer supplier held self.old.views } }
    {
        self.links.set_held(plan, consumer, supplier, held);
    }

    /// The link of a pair becomes present or absent, if there is one.
    #[tactic(auto, unfolding(pm_model::specs::Changes::set_present))]
    pub fn set_present(&mut self, plan: &Plan, consumer: DevId, supplier: DevId, present: bool)
        requires { IsFor plan.now self.old.shape }
        ensures { self.new ≡ record self.old { views = set_present plan.now consumer supplier present self.old.views } }
    {
        self.links.set_present(plan, consumer, supplier, present);
    }

    /// Whether the link of a pair begins absent (this project's own).
    pub fn may_be_absent(&self, plan: &Plan, consumer: DevId, supplier: DevId) -> bool
        requires { IsFor plan.now self.now.shape }
        ensures { result ≡ may_be_absent plan.now consumer supplier }
    {
        self.links.may_be_absent(plan, consumer, supplier)
    }

    /// Whether the link of a pair is present.
    pub fn is_present(&self, plan: &Plan, consumer: DevId, supplier: DevId) -> bool
        requires { IsFor plan.now self.now.shape }
        ensures { result ≡ is_pair_in plan.now consumer supplier self.now.views.present }
    {
        self.links.is_present(plan, consumer, supplier)
    }

    /// Whether the link of a pair is held.
    pub fn is_held(&self, plan: &Plan, consumer: DevId, supplier: DevId) -> bool
        requires { IsFor plan.now self.now.shape }
        ensures { result ≡ is_pair_in plan.now consumer supplier self.now.views.held }
    {
        self.links.is_held(plan, consumer, supplier)
    }

    // A held link is free, and its supplier has its count back.
    fn give_link(&mut self, plan: &Plan, link: usize)
        requires made_for { IsFor plan.now self.old.shape }
        requires in_plan { link < length plan.now.links }
        requires in_range { link < length self.old.views.held }
        requires held { bit_at self.old.views.held link ≡ true }
        requires taken { 0 < (device self.old.views (row_at plan.now.links link).supplier).usage }
        ensures { self.new ≡ record self.old { views = gives_link plan.now link self.old.views } }
    {
        self.give_count(plan.links.as_slice()[link].supplier);
        self.links.give(link);
    }

    /// Every held link of a consumer is free, present or not and whatever its flags, and each supplier
    /// has its count back (`device_link.rst`; that each was taken is a law of whole runs). It looks at
    /// this consumer's links alone, anew for each that was held.
    pub fn free_links(&mut self, plan: &Plan, consumer: DevId)
        requires made_for { IsFor plan.now self.old.shape }
        requires taken { can_free plan.now self.old.views consumer ≡ true }
        ensures { self.new ≡ record self.old { views = frees_links plan.now consumer self.old.views } }
    {
        while let Some(link) = self.links.first_taken(plan, consumer) {
            self.give_link(plan, link);
        }
    }
}
