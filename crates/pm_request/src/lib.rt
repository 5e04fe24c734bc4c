//! The pending requests of all devices (`runtime_pm.rst`, section 3: `request`, `request_pending`
//! and `deferred_resume`).
#![tactic(auto)]

ghost use Rattle.std.specs.Prelude.{◌≡◌, ◌<◌, true, false, length, replicate, slice_set, IfOk};
ghost use Rattle.pm_base.specs.declared.Req.TheVariants.{Nothing};
ghost use Rattle.pm_request.specs.Requests.{nothing_pending, pending_at};

use pm_base::{DevId, NoMemory, Pending, Req};
use std::alloc::Global;
use std::marker::Model;

/// What is pending for each device, which contracts see as the list of it in the plan's order.
#[derive(Drop)]
pub struct Requests {
    entries: Vec<Pending>,
}

impl Model for Requests {
    ghost use Rattle.std.specs.Prelude.{List};
    ghost use Rattle.pm_base.specs.declared.Pending.{Pending};

    ghost Value = { List Pending };

    ghost view = { λ r. r.entries.items };
}

impl Requests {
    /// Nothing is pending for any of so many devices.
    pub fn fresh(alloc: Global, devices: usize) -> Result<Requests, NoMemory>
        ensures { IfOk result (λ requests. requests ≡ replicate devices nothing_pending) }
    {
        let nothing = Pending {
            request: Req::Nothing,
            queued: false,
            deferred: false,
        };
        Ok(Requests {
            entries: vec![in alloc; nothing; devices]?,
        })
    }

    /// What is pending becomes this. It takes no memory.
    pub fn fill(&mut self, entries: &[Pending])
        requires { length entries.now ≡ length self.old }
        ensures { self.new ≡ entries.now }
    {
        self.entries.copy_from_slice(entries);
    }

    /// Asks for a request and queues the work item of the device.
    pub fn place(&mut self, dev: DevId, req: Req)
        requires { dev.0 < length self.old }
        ensures { self.new ≡ slice_set self.old dev.0 (record (pending_at self.old dev) { request = req; queued = true }) }
    {
        let entry = &mut self.entries[dev.0 as usize];
        entry.request = req;
        entry.queued = true;
    }

    /// Takes the request back; the work item stays queued.
    pub fn cancel(&mut self, dev: DevId)
        requires { dev.0 < length self.old }
        ensures { self.new ≡ slice_set self.old dev.0 (record (pending_at self.old dev) { request = Nothing }) }
    {
        self.entries[dev.0 as usize].request = Req::Nothing;
    }

    /// Takes the request back, and the work item out of the queue.
    pub fn clear(&mut self, dev: DevId)
        requires { dev.0 < length self.old }
        ensures { self.new ≡ slice_set self.old dev.0 (record (pending_at self.old dev) { request = Nothing; queued = false }) }
    {
        let entry = &mut self.entries[dev.0 as usize];
        entry.request = Req::Nothing;
        entry.queued = false;
    }

    /// Takes the work item of a queued device out of the queue, and answers its request.
    pub fn run(&mut self, dev: DevId) -> Req
        requires in_range { dev.0 < length self.old }
        requires queued { (pending_at self.old dev).queued ≡ true }
        ensures request { result ≡ (pending_at self.old dev).request }
        ensures cleared { self.new ≡ slice_set self.old dev.0 (record (pending_at self.old dev) { request = Nothing; queued = false }) }
    {
        let request = self.request(dev);
        self.clear(dev);
        request
    }

    /// All that is pending for the device.
    pub fn pending(&self, dev: DevId) -> Pending
        requires { dev.0 < length self.now }
        ensures { result ≡ pending_at self.now dev }
    {
        self.entries[dev.0 as usize]
    }

    /// Whether the work item of the device is queued.
    pub fn queued(&self, dev: DevId) -> bool
        requires { dev.0 < length self.now }
        ensures { result ≡ (pending_at self.now dev).queued }
    {
        self.entries[dev.0 as usize].queued
    }

    /// What is asked of the device.
    pub fn request(&self, dev: DevId) -> Req
        requires { dev.0 < length self.now }
        ensures { result ≡ (pending_at self.now dev).request }
    {
        self.entries[dev.0 as usize].request
    }

    /// Sets whether a resume of the device is deferred.
    pub fn set_deferred(&mut self, dev: DevId, on: bool)
        requires { dev.0 < length self.old }
        ensures { self.new ≡ slice_set self.old dev.0 (record (pending_at self.old dev) { deferred = on }) }
    {
        self.entries[dev.0 as usize].deferred = on;
    }

    /// Whether a resume of the device is deferred.
    pub fn deferred(&self, dev: DevId) -> bool
        requires { dev.0 < length self.now }
        ensures { result ≡ (pending_at self.now dev).deferred }
    {
        self.entries[dev.0 as usize].deferred
    }
}
