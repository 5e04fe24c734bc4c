//! The timers of all devices (`runtime_pm.rst`, section 3: `suspend_timer`), and which fires first.
#![tactic(auto)]

ghost use Rattle.std.specs.Prelude.{◌≡◌, ◌<◌, ◌^◌, ℕ, Some, None, length, replicate, slice_set, IfNone, IfOk, IfSome};
ghost use Rattle.pm_base.specs.declared.DevId.{DevId as Dev};
ghost use Rattle.pm_timer.specs.Timers.{IsNoLater, deadline_of, timer_of};

use pm_base::{Armed, DevId, NoMemory};
use pm_index::Moments;
use std::alloc::Global;
use std::marker::Model;

/// The timer of each device, which contracts see as the list of them in the plan's order.
#[derive(Drop)]
pub struct Timers {
    timers: Vec<Option<Armed>>,
    // The deadline of each device's timer, so that the first of them is at hand.
    deadlines: Moments,
}

impl Model for Timers {
    ghost use Rattle.std.specs.Prelude.{List, Option};
    ghost use Rattle.pm_base.specs.declared.Armed.{Armed};
    ghost use Rattle.pm_timer.specs.Timers.{AreDeadlinesOf};

    ghost Value = { List (Option Armed) };

    ghost view = { λ t. t.timers.items };

    ghost invariant = { λ t. AreDeadlinesOf t.timers.items t.deadlines };
}

impl Timers {
    /// No timer of any of so many devices, fewer than 2^32, is armed.
    pub fn fresh(alloc: Global, devices: usize) -> Result<Timers, NoMemory>
        requires { devices < 2 ^ 32 }
        ensures { IfOk result (λ timers. timers ≡ replicate devices None) }
    {
        Ok(Timers {
            timers: vec![in alloc; None; devices]?,
            deadlines: Moments::new(alloc, devices)?,
        })
    }

    /// Arms the timer of the device to fire at this moment, in milliseconds of the run, and says
    /// whether an autosuspend arms it. It takes a number of steps that is logarithmic in the number
    /// of devices.
    pub fn arm(&mut self, dev: DevId, at: u64, autosuspends: bool)
        requires { dev.0 < length self.old }
        ensures { self.new ≡ slice_set self.old dev.0 (Some (record { deadline = at; autosuspends = autosuspends })) }
    {
        self.timers[dev.0 as usize] = Some(Armed {
            deadline: at,
            autosuspends,
        });
        self.deadlines.set(dev.0 as usize, Some(at));
    }

    /// Disarms the timer of the device, in as many steps.
    pub fn disarm(&mut self, dev: DevId)
        requires { dev.0 < length self.old }
        ensures { self.new ≡ slice_set self.old dev.0 None }
    {
        self.timers[dev.0 as usize] = None;
        self.deadlines.set(dev.0 as usize, None);
    }

    /// The timer of the device, if it is armed.
    pub fn armed(&self, dev: DevId) -> Option<Armed>
        requires { dev.0 < length self.now }
        ensures { result ≡ timer_of self.now dev }
    {
        self.timers[dev.0 as usize]
    }

    /// The armed timer with the least deadline, and of several the one of the least device: its
    /// deadline and its device. It takes as many steps as `arm`, and looks at one word for each 4,096
    /// devices besides, at most.
    pub fn earliest(&self) -> Option<(u64, DevId)>
        ensures armed { IfSome result (λ first. deadline_of self.now first.1 ≡ Some first.0) }
        ensures least { IfSome result (λ first. (d : Dev) (at : ℕ) → deadline_of self.now d ≡ Some at → IsNoLater first (at, d)) }
        ensures missing { IfNone result ((d : Dev) → deadline_of self.now d ≡ None) }
    {
        let (deadline, device) = self.deadlines.first()?;
        Some((deadline, DevId(device as u32)))
    }
}
