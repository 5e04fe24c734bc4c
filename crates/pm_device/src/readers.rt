//! What the counters tell.

ghost use Rattle.std.specs.Prelude.{◌≡◌, ◌<◌, length};
ghost use Rattle.pm_model.specs.declared.plan.Plan.{Plan as APlan};
ghost use Rattle.pm_model.specs.Changes.{has_auto_timer};
ghost use Rattle.pm_model.specs.Derived.{busy, children, expiry, fields, is_active, is_moving};
ghost use Rattle.pm_model.specs.Views.{device, is_held, is_on, is_present as is_there, pending_of, timer};
ghost use Rattle.pm_device.specs.Parts.{IsFor, IsInTime};

use crate::Parts;
use pm_base::{Armed, DevId, DomId, Pending, Status};
use pm_model::{Device, Fields};

impl Parts {
    /// Whether a link, by its place in the plan, is held.
    pub fn holds(&self, link: usize) -> bool
        requires { link < length self.now.views.held }
        ensures { result ≡ is_held self.now.views link }
    {
        self.links.held(link)
    }

    /// Whether a link, by its place in the plan, is present.
    pub fn has(&self, link: usize) -> bool
        requires { link < length self.now.views.present }
        ensures { result ≡ is_there self.now.views link }
    {
        self.links.present(link)
    }

    /// Whether a domain is on.
    pub fn is_on(&self, domain: u32) -> bool
        ensures { result ≡ is_on self.now.views domain }
    {
        self.domains.is_on(DomId(domain))
    }

    /// All that is kept of a device but for what is pending and its timer.
    pub fn device(&self, dev: DevId) -> &Device
        requires { dev.0 < length self.now.shape.parents }
        ensures views { result.now ≡ device self.now.views dev }
        ensures in_time { IsInTime result.now }
        ensures in_views { dev.0 < length self.now.views.devices }
    {
        &self.devices[dev.0 as usize]
    }

    /// What is pending for a device.
    pub fn pending(&self, dev: DevId) -> Pending
        requires { dev.0 < length self.now.shape.parents }
        ensures { result ≡ pending_of self.now.views dev }
    {
        self.requests.pending(dev)
    }

    /// The timer of a device, if it is armed.
    pub fn timer(&self, dev: DevId) -> Option<Armed>
        requires { dev.0 < length self.now.shape.parents }
        ensures { result ≡ timer self.now.views dev }
    {
        self.timers.armed(dev)
    }

    /// The status of a device.
    pub fn status(&self, dev: DevId) -> Status
        requires { dev.0 < length self.now.shape.parents }
        ensures { result ≡ (device self.now.views dev).status }
    {
        self.device(dev).status
    }

    /// How many children of a device are Active or Suspending (`child_count`). It looks at one counter.
    pub fn children(&self, dev: DevId) -> u32
        requires { dev.0 < length self.now.shape.parents }
        ensures { (plan : APlan) → IsFor plan self.now.shape → result ≡ children plan self.now.views dev }
    {
        self.children.count(dev.0)
    }

    /// The payload of a line of the device with these flags.
    #[tactic(auto, unfolding(pm_model::specs::Derived::fields))]
    pub fn fields(&self, dev: DevId, flags: u8) -> Fields
        requires { dev.0 < length self.now.shape.parents }
        ensures { (plan : APlan) → IsFor plan self.now.shape → result ≡ fields plan self.now.views dev flags }
    {
        let device = self.device(dev);
        Fields {
            flags,
            cnt: device.usage,
            dep: device.depth,
            auto_on: device.auto_on,
            pending: self.pending(dev).queued,
            child: self.children(dev),
        }
    }

    /// Whether a device is Active.
    pub fn is_active(&self, dev: DevId) -> bool
        requires { dev.0 < length self.now.shape.parents }
        ensures { result ≡ is_active self.now.views dev }
    {
        matches!(self.status(dev), Status::Active)
    }

    /// When an autosuspend of a device may begin, in milliseconds of the run: there is such a moment
    /// where autosuspend is in use with a delay of 0 or more (`runtime_pm.rst`, section 9).
    #[tactic(auto, unfolding(pm_model::specs::Derived::expiry))]
    pub fn expiry(&self, dev: DevId) -> Option<u64>
        requires { dev.0 < length self.now.shape.parents }
        ensures { result ≡ expiry self.now.views dev }
    {
        let device = self.device(dev);
        if device.use_auto && device.delay >= 0 {
            Some(device.last_busy + device.delay.unsigned_abs())
        } else {
            None
        }
    }

    /// Whether a device is Suspending or Resuming, or its idle callback runs.
    #[tactic(auto, unfolding(pm_model::specs::Derived::busy))]
    pub fn busy(&self, dev: DevId) -> bool
        requires { dev.0 < length self.now.shape.parents }
        ensures { result ≡ busy self.now.views dev }
    {
        self.is_moving(dev) || self.device(dev).idle_running
    }

    /// Whether a device is Suspending or Resuming.
    pub fn is_moving(&self, dev: DevId) -> bool
        requires { dev.0 < length self.now.shape.parents }
        ensures { result ≡ is_moving self.now.views dev }
    {
        matches!(self.status(dev), Status::Suspending | Status::Resuming)
    }

    /// Whether an autosuspend is scheduled.
    #[tactic(auto, unfolding(pm_model::specs::Changes::has_auto_timer))]
    pub fn has_auto_timer(&self, dev: DevId) -> bool
        requires { dev.0 < length self.now.shape.parents }
        ensures { result ≡ has_auto_timer self.now.views dev }
    {
        match self.timer(dev) {
            Some(armed) => armed.autosuspends,
            None => false,
        }
    }
}
