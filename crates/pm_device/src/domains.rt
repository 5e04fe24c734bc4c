//! The power domains of a device among the counters (this project's own, after the kernel's generic
//! power domains).

ghost use Rattle.std.specs.Prelude.{◌≡◌, false, length, true};
ghost use Rattle.pm_model.specs.Derived.{down, up};
ghost use Rattle.pm_model.specs.Events.{switches};
ghost use Rattle.pm_device.specs.Parts.{IsFor};

use crate::Parts;
use pm_base::DevId;
use pm_model::Plan;

impl Parts {
    /// How many domains go on before a device resumes; 0 where it has none.
    pub fn up_count(&self, plan: &Plan, dev: DevId) -> u32
        requires { IsFor plan.now self.now.shape }
        ensures { result ≡ length (up plan.now self.now.views dev) }
    {
        self.domains.up_count(plan, dev)
    }

    /// How many domains go off once a device is suspended; 0 where it has none.
    pub fn down_count(&self, plan: &Plan, dev: DevId) -> u32
        requires { IsFor plan.now self.now.shape }
        ensures { result ≡ length (down plan.now self.now.views dev) }
    {
        self.domains.down_count(plan, dev)
    }

    /// Switches on the domains that go on before a device resumes.
    pub fn switch_up(&mut self, plan: &Plan, dev: DevId)
        requires { IsFor plan.now self.old.shape }
        ensures { self.new ≡ record self.old { views = switches true (up plan.now self.old.views dev) self.old.views } }
    {
        self.domains.up(plan, dev);
    }

    /// Switches off the domains that go off once a device is suspended.
    pub fn switch_down(&mut self, plan: &Plan, dev: DevId)
        requires { IsFor plan.now self.old.shape }
        ensures { self.new ≡ record self.old { views = switches false (down plan.now self.old.views dev) self.old.views } }
    {
        self.domains.down(plan, dev);
    }
}
