//! The links of each device, found without a walk over those of others.

ghost use Rattle.std.specs.Prelude.{◌≡◌, ◌<◌, length, replicate, slice_index_or, IfOk};
ghost use Rattle.pm_state.specs.Chains.{AreOwn};

use pm_base::{DevId, NoMemory};
use pm_model::Plan;
use std::alloc::{AllocError, Global};
use std::marker::Model;

/// Which links have the same consumer: for each device the last, and for each link the one before it. A
/// link goes by its place in the plan, counted from 1, and 0 stands for none.
#[derive(Drop)]
pub struct OwnLinks {
    last: Vec<usize>,
    before: Vec<usize>,
}

impl Model for OwnLinks {
    ghost use Rattle.pm_state.specs.Chains.{Own};

    ghost Value = { Own };

    ghost view = { λ o. record { last = o.last.items; before = o.before.items } };
}

// No link yet of any device.
fn none(alloc: Global, devices: usize) -> Result<Vec<usize>, AllocError>
    ensures { IfOk result (λ v. v.items ≡ replicate devices 0) }
{
    vec![in alloc; 0; devices]
}

impl OwnLinks {
    /// The links of a plan. Fails where memory runs out.
    pub fn of(alloc: Global, plan: &Plan) -> Result<OwnLinks, NoMemory>
        ensures own { IfOk result (λ own. AreOwn plan.now.links (length plan.now.links) own.last own.before) }
        ensures each { IfOk result (λ own. length own.last ≡ length plan.now.devices) }
    {
        let links = plan.links.as_slice();
        let mut last = none(alloc, plan.devices.len())?;
        let mut before = Vec::with_capacity(alloc, links.len())?;
        for link in 0..links.len() {
            let consumer = links[link].consumer.0 as usize;
            before.push(last[consumer])?;
            last[consumer] = link + 1;
        }
        Ok(OwnLinks { last, before })
    }

    /// The last link of a device.
    pub fn last(&self, dev: DevId) -> usize
        requires { dev.0 < length self.now.last }
        ensures { result ≡ slice_index_or self.now.last dev.0 0 }
    {
        self.last[dev.0 as usize]
    }

    /// The link before this one, counted from 0, that has its consumer.
    pub fn before(&self, link: usize) -> usize
        requires { link < length self.now.before }
        ensures { result ≡ slice_index_or self.now.before link 0 }
    {
        self.before[link]
    }
}
