//! The power domains of a plan, and which of them are on (this project's own, after the kernel's
//! generic power domains).
#![tactic(auto)]

ghost use Rattle.std.specs.Prelude.{◌≡◌, ◌<◌, length, slice_set, true, false, IfOk, replicate};
ghost use Rattle.pm_model.specs.Derived.{down, up};
ghost use Rattle.pm_model.specs.Events.{switches};
ghost use Rattle.pm_model.specs.Views.{Views};
ghost use Rattle.pm_domain.specs.Domains.{IsAwakeOf, IsMadeFor, fresh_on};
ghost use Rattle.pm_domain.specs.Walk.{goes_off_from};
ghost use Rattle.pm_index.specs.OwnMarks.{bit_at};

mod start;
mod walk;

use pm_base::{DevId, DomId, NoMemory};
use pm_index::Tally;
use pm_model::Plan;
use start::{all_awake, kept_on};
use std::alloc::Global;
use std::marker::Model;
use walk::{count_off, home, is_always_on, parent, switch};

/// Which domains are on, and which devices keep theirs on. Contracts see both, with the domain of each
/// device and the one above each domain.
#[derive(Drop)]
pub struct Domains {
    // A device is marked where it keeps its domain on: it isn't Suspended, or it is disabled.
    awake: Tally,
    // A domain is marked where it is on; it belongs to the one above it.
    on: Tally,
}

impl Model for Domains {
    ghost use Rattle.pm_domain.specs.Domains.{DomainViews};

    ghost Value = { DomainViews };

    ghost view = { λ d. record { homes = d.awake.owners; awake = d.awake.bits; above = d.on.owners; on = d.on.bits } };
}

impl Domains {
    /// The domains of a plan before any line: a domain is on if it is always on, or if one under it
    /// is, and each device keeps its own on, since it is disabled. Fails where memory runs out; no
    /// other call takes memory.
    pub fn fresh(alloc: Global, plan: &Plan) -> Result<Domains, NoMemory>
        ensures made_for { IfOk result (IsMadeFor plan.now) }
        ensures on { IfOk result (λ domains. domains.on ≡ fresh_on plan.now) }
        ensures awake { IfOk result (λ domains. domains.awake ≡ replicate (length plan.now.devices) true) }
    {
        Ok(Domains {
            awake: all_awake(alloc, plan)?,
            on: kept_on(alloc, plan)?,
        })
    }

    // A domain is on or off, whatever hangs on it.
    fn set_on(&mut self, domain: u32, on: bool)
        requires { domain < length self.old.above }
        ensures { self.new ≡ record self.old { on = slice_set self.old.on domain on } }
    {
        self.on.set(domain, on);
    }

    /// The domains of the plan that are on become these. It takes no memory.
    pub fn fill(&mut self, plan: &Plan, on: &[bool])
        requires made_for { IsMadeFor plan.now self.old }
        requires each { length on.now ≡ length plan.now.domains }
        ensures { self.new ≡ record self.old { on = on.now } }
    {
        for domain in 0..plan.domains.len() {
            self.set_on(domain as u32, on[domain]);
        }
    }

    /// Whether a domain is on; none past the last is.
    pub fn is_on(&self, dom: DomId) -> bool
        ensures { result ≡ bit_at self.now.on dom.0 }
    {
        self.on.is_marked(dom.0)
    }

    /// Whether a device keeps its domain on: it isn't Suspended, or it is disabled.
    pub fn set_awake(&mut self, dev: DevId, awake: bool)
        requires { dev.0 < length self.old.homes }
        ensures { self.new ≡ record self.old { awake = slice_set self.old.awake dev.0 awake } }
    {
        self.awake.set(dev.0, awake);
    }

    /// How many domains go on before a device resumes: those of its domain and that one's ancestors
    /// that are off. It is 0 where the device has no domain.
    pub fn up_count(&self, plan: &Plan, dev: DevId) -> u32
        ensures { (v : Views) → v.on ≡ self.now.on → result ≡ length (up plan.now v dev) }
    {
        count_off(&self.on, plan, home(plan, dev))
    }

    /// Switches them on, and answers their number.
    pub fn up(&mut self, plan: &Plan, dev: DevId) -> u32
        requires { IsMadeFor plan.now self.old }
        ensures count { (v : Views) → v.on ≡ self.old.on → result ≡ length (up plan.now v dev) }
        ensures switched { (v : Views) → v.on ≡ self.old.on → self.new.on ≡ (switches true (up plan.now v dev) v).on }
        ensures on_alone { self.new ≡ record self.old { on = self.new.on } }
        ensures made_for { IsMadeFor plan.now self.new }
    {
        let count = self.up_count(plan, dev);
        switch(
            &mut self.on,
            plan,
            home(plan, dev),
            plan.domains.len(),
            true,
        );
        count
    }

    // Whether a domain goes off once the device is suspended, where the one from which the walk came
    // counts as off.
    fn goes_off(&self, plan: &Plan, dev: DevId, from: Option<u32>, dom: DomId) -> bool
        ensures { result ≡ goes_off_from plan.now self.now dev from dom.0 }
    {
        self.on.is_marked(dom.0)
            && !is_always_on(plan, dom)
            && self.awake.count_but(dom.0, Some(dev.0)) == 0
            && self.on.count_but(dom.0, from) == 0
    }

    /// How many domains go off once a device is suspended: of its domain and that one's ancestors,
    /// nearest first, each that is on and not always on, has no other device that keeps it on, and no
    /// subdomain that is on, until the first that isn't so. It looks at these domains alone, at none
    /// of their devices.
    pub fn down_count(&self, plan: &Plan, dev: DevId) -> u32
        requires { IsMadeFor plan.now self.now }
        ensures { (v : Views) → v.on ≡ self.now.on → IsAwakeOf self.now.awake v → result ≡ length (down plan.now v dev) }
    {
        let mut count = 0;
        let mut from = None;
        let mut next = home(plan, dev);
        while let Some(dom) = next {
            if !self.goes_off(plan, dev, from, dom) {
                return count;
            }
            count += 1;
            from = Some(dom.0);
            next = parent(plan, dom);
        }
        count
    }

    /// Switches them off, and answers their number.
    pub fn down(&mut self, plan: &Plan, dev: DevId) -> u32
        requires { IsMadeFor plan.now self.old }
        ensures count { (v : Views) → v.on ≡ self.old.on → IsAwakeOf self.old.awake v → result ≡ length (down plan.now v dev) }
        ensures switched { (v : Views) → v.on ≡ self.old.on → IsAwakeOf self.old.awake v → self.new.on ≡ (switches false (down plan.now v dev) v).on }
        ensures on_alone { self.new ≡ record self.old { on = self.new.on } }
        ensures made_for { IsMadeFor plan.now self.new }
    {
        let count = self.down_count(plan, dev);
        switch(&mut self.on, plan, home(plan, dev), count as usize, false);
        count
    }
}
