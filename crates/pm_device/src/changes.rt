//! The single changes of the views of a device (`runtime_pm.rst`, section 3).

ghost use Rattle.std.specs.Prelude.{◌≡◌, ◌+◌, ◌-◌, ◌<◌, ◌≤◌, ◌≤ℤ◌, ◌^◌, true, false, ℤ, pos, neg_ℤ, length};
ghost use Rattle.pm_base.specs.declared.limits.TheConstants.{MAX_MS};
ghost use Rattle.pm_base.specs.declared.Req.TheVariants.{Nothing};
ghost use Rattle.pm_base.specs.declared.Cb.TheVariants.{Idle};
ghost use Rattle.pm_model.specs.declared.event.TimerAct.TheVariants.{Arm};
ghost use Rattle.pm_model.specs.Changes.{cancel, cancel_all, disables, disarm, enables, rcancel, set_deferred, set_depth, set_ignores, set_last, set_last_busy, set_queued, set_request, set_setting};
ghost use Rattle.pm_model.specs.Derived.{begun};
ghost use Rattle.pm_model.specs.Events.{by_begin, by_end, by_timer, set_auto, set_error, set_share, set_status, set_usage};
ghost use Rattle.pm_model.specs.Views.{device};

use crate::Parts;
use pm_base::{Cb, DevId, Req, Status};
use pm_model::Device;

impl Parts {
    /// The status of a device becomes this one; the children of its parent are counted anew.
    pub fn set_status(&mut self, dev: DevId, status: Status)
        requires { dev.0 < length self.old.shape.parents }
        ensures { self.new ≡ record self.old { views = set_status status dev self.old.views } }
    {
        let device = Device {
            status,
            ..*self.device(dev)
        };
        self.set_device(dev, device);
    }

    /// The stored error becomes this code.
    pub fn set_error(&mut self, dev: DevId, error: i32)
        requires { dev.0 < length self.old.shape.parents }
        ensures { self.new ≡ record self.old { views = set_error error dev self.old.views } }
    {
        let device = Device {
            error,
            ..*self.device(dev)
        };
        self.keep_device(dev, device);
    }

    /// One more count is taken.
    pub fn take_count(&mut self, dev: DevId)
        requires in_range { dev.0 < length self.old.shape.parents }
        requires fits { (device self.old.views dev).usage + 1 < 2 ^ 32 }
        ensures { self.new ≡ record self.old { views = set_usage ((device self.old.views dev).usage + 1) dev self.old.views } }
    {
        let device = *self.device(dev);
        self.keep_device(
            dev,
            Device {
                usage: device.usage + 1,
                ..device
            },
        );
    }

    /// One count is given back.
    pub fn give_count(&mut self, dev: DevId)
        requires in_range { dev.0 < length self.old.shape.parents }
        requires taken { 0 < (device self.old.views dev).usage }
        ensures { self.new ≡ record self.old { views = set_usage ((device self.old.views dev).usage - 1) dev self.old.views } }
    {
        let device = *self.device(dev);
        self.keep_device(
            dev,
            Device {
                usage: device.usage - 1,
                ..device
            },
        );
    }

    /// One more count is a caller's.
    pub fn take_share(&mut self, dev: DevId)
        requires in_range { dev.0 < length self.old.shape.parents }
        requires fits { (device self.old.views dev).share + 1 < 2 ^ 32 }
        ensures { self.new ≡ record self.old { views = set_share ((device self.old.views dev).share + 1) dev self.old.views } }
    {
        let device = *self.device(dev);
        self.keep_device(
            dev,
            Device {
                share: device.share + 1,
                ..device
            },
        );
    }

    /// One count is no caller's any more.
    pub fn give_share(&mut self, dev: DevId)
        requires in_range { dev.0 < length self.old.shape.parents }
        requires taken { 0 < (device self.old.views dev).share }
        ensures { self.new ≡ record self.old { views = set_share ((device self.old.views dev).share - 1) dev self.old.views } }
    {
        let device = *self.device(dev);
        self.keep_device(
            dev,
            Device {
                share: device.share - 1,
                ..device
            },
        );
    }

    /// Whether a device isn't forbidden (`runtime_auto`).
    pub fn set_auto(&mut self, dev: DevId, auto_on: bool)
        requires { dev.0 < length self.old.shape.parents }
        ensures { self.new ≡ record self.old { views = set_auto auto_on dev self.old.views } }
    {
        let device = Device {
            auto_on,
            ..*self.device(dev)
        };
        self.keep_device(dev, device);
    }

    /// The device is marked as last busy at this moment, in milliseconds of the run.
    pub fn set_last_busy(&mut self, dev: DevId, time: u64)
        requires in_range { dev.0 < length self.old.shape.parents }
        requires in_time { time < 2 ^ 63 }
        ensures { self.new ≡ record self.old { views = set_last_busy time dev self.old.views } }
    {
        let device = Device {
            last_busy: time,
            ..*self.device(dev)
        };
        self.keep_device(dev, device);
    }

    /// Whether the device was Active as it was disabled.
    pub fn set_last(&mut self, dev: DevId, last_active: bool)
        requires { dev.0 < length self.old.shape.parents }
        ensures { self.new ≡ record self.old { views = set_last last_active dev self.old.views } }
    {
        let device = Device {
            last_active,
            ..*self.device(dev)
        };
        self.keep_device(dev, device);
    }

    /// The depth rises by one.
    pub fn disables(&mut self, dev: DevId)
        requires in_range { dev.0 < length self.old.shape.parents }
        requires fits { (device self.old.views dev).depth + 1 < 2 ^ 32 }
        ensures { self.new ≡ record self.old { views = disables dev self.old.views } }
    {
        let device = *self.device(dev);
        self.set_device(
            dev,
            Device {
                depth: device.depth + 1,
                ..device
            },
        );
    }

    /// Whether autosuspend is in use, and its delay in milliseconds, -1,000,000 to 1,000,000.
    pub fn set_setting(&mut self, dev: DevId, use_auto: bool, delay: i64)
        requires in_range { dev.0 < length self.old.shape.parents }
        requires least { neg_ℤ (pos MAX_MS) ≤ℤ delay }
        requires most { delay ≤ℤ pos MAX_MS }
        ensures { self.new ≡ record self.old { views = set_setting use_auto delay dev self.old.views } }
    {
        let device = Device {
            use_auto,
            delay,
            ..*self.device(dev)
        };
        self.keep_device(dev, device);
    }

    /// Whether the children of a device don't count.
    pub fn set_ignores(&mut self, dev: DevId, ignores: bool)
        requires { dev.0 < length self.old.shape.parents }
        ensures { self.new ≡ record self.old { views = set_ignores ignores dev self.old.views } }
    {
        let device = Device {
            ignores,
            ..*self.device(dev)
        };
        self.keep_device(dev, device);
    }

    /// A callback begins: that of suspend makes the device Suspending.
    pub fn begin(&mut self, dev: DevId, cb: Cb)
        requires in_range { dev.0 < length self.old.shape.parents }
        requires fits { begun self.old.views cb dev + 1 < 2 ^ 32 }
        ensures { self.new ≡ record self.old { views = by_begin dev cb self.old.views } }
    {
        let device = *self.device(dev);
        match cb {
            Cb::Idle => self.keep_device(
                dev,
                Device {
                    idle_running: true,
                    begun_idle: device.begun_idle + 1,
                    ..device
                },
            ),
            Cb::Suspend => self.set_device(
                dev,
                Device {
                    status: Status::Suspending,
                    begun_suspend: device.begun_suspend + 1,
                    ..device
                },
            ),
            Cb::Resume => self.keep_device(
                dev,
                Device {
                    begun_resume: device.begun_resume + 1,
                    ..device
                },
            ),
        }
    }

    /// The idle callback has ended.
    pub fn end_idle(&mut self, dev: DevId)
        requires { dev.0 < length self.old.shape.parents }
        ensures { self.new ≡ record self.old { views = by_end dev Idle (pos 0) self.old.views } }
    {
        let device = Device {
            idle_running: false,
            ..*self.device(dev)
        };
        self.keep_device(dev, device);
    }

    /// The depth falls by one, if it isn't 0; as it becomes 0 the last status is forgotten.
    #[tactic(auto, unfolding(pm_model::specs::Changes::enables))]
    pub fn enables(&mut self, dev: DevId)
        requires { dev.0 < length self.old.shape.parents }
        ensures { self.new ≡ record self.old { views = enables dev self.old.views } }
    {
        let device = *self.device(dev);
        if device.depth == 1 {
            self.set_depth(dev, 0);
            self.set_last(dev, false);
        } else {
            self.set_depth(dev, device.depth.saturating_sub(1));
        }
    }

    // The depth becomes this.
    fn set_depth(&mut self, dev: DevId, depth: u32)
        requires { dev.0 < length self.old.shape.parents }
        ensures { self.new ≡ record self.old { views = set_depth depth dev self.old.views } }
    {
        let device = Device {
            depth,
            ..*self.device(dev)
        };
        self.set_device(dev, device);
    }

    /// The work item of a device is queued with this request.
    #[tactic(auto, using(crate::proofs::PendingLemmas::placed))]
    pub fn place(&mut self, dev: DevId, req: Req)
        requires { dev.0 < length self.old.shape.parents }
        ensures { self.new ≡ record self.old { views = set_queued true dev (set_request req dev self.old.views) } }
    {
        self.requests.place(dev, req);
    }

    /// No request is pending and the work item isn't queued.
    #[tactic(auto, using(crate::proofs::PendingLemmas::placed))]
    pub fn clear(&mut self, dev: DevId)
        requires { dev.0 < length self.old.shape.parents }
        ensures { self.new ≡ record self.old { views = set_queued false dev (set_request Nothing dev self.old.views) } }
    {
        self.requests.clear(dev);
    }

    /// No request is pending.
    pub fn cancel_request(&mut self, dev: DevId)
        requires { dev.0 < length self.old.shape.parents }
        ensures { self.new ≡ record self.old { views = set_request Nothing dev self.old.views } }
    {
        self.requests.cancel(dev);
    }

    /// Whether a resume is deferred.
    pub fn set_deferred(&mut self, dev: DevId, deferred: bool)
        requires { dev.0 < length self.old.shape.parents }
        ensures { self.new ≡ record self.old { views = set_deferred deferred dev self.old.views } }
    {
        self.requests.set_deferred(dev, deferred);
    }

    /// The timer fires at this moment, in milliseconds of the run.
    pub fn arm(&mut self, dev: DevId, at: u64, autosuspends: bool)
        requires { dev.0 < length self.old.shape.parents }
        ensures { self.new ≡ record self.old { views = by_timer dev (Arm at autosuspends) self.old.views } }
    {
        self.timers.arm(dev, at, autosuspends);
    }

    /// No timer is armed.
    pub fn disarm(&mut self, dev: DevId)
        requires { dev.0 < length self.old.shape.parents }
        ensures { self.new ≡ record self.old { views = disarm dev self.old.views } }
    {
        self.timers.disarm(dev);
    }

    /// No request is pending and no timer is armed.
    pub fn cancel(&mut self, dev: DevId)
        requires { dev.0 < length self.old.shape.parents }
        ensures { self.new ≡ record self.old { views = cancel dev self.old.views } }
    {
        self.cancel_request(dev);
        self.disarm(dev);
    }

    /// No request is pending, no timer is armed and the work item isn't queued.
    pub fn cancel_all(&mut self, dev: DevId)
        requires { dev.0 < length self.old.shape.parents }
        ensures { self.new ≡ record self.old { views = cancel_all dev self.old.views } }
    {
        self.disarm(dev);
        self.clear(dev);
    }

    /// What a resume cancels: the request, and the timer unless it is an autosuspend's.
    #[tactic(auto, unfolding(pm_model::specs::Changes::rcancel))]
    pub fn rcancel(&mut self, dev: DevId)
        requires { dev.0 < length self.old.shape.parents }
        ensures { self.new ≡ record self.old { views = rcancel dev self.old.views } }
    {
        if self.has_auto_timer(dev) {
            self.cancel_request(dev);
        } else {
            self.cancel(dev);
        }
    }
}
