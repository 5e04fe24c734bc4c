//! What is made of a plan at the start.

ghost use Rattle.std.specs.Prelude.{◌≡◌, ℕ, false, length, replicate, true, IfOk};
ghost use Rattle.pm_domain.specs.Domains.{above, fresh_on, homes, place_of};

use crate::walk::{is_always_on, switch};
use pm_base::{DomId, NoMemory};
use pm_index::Tally;
use pm_model::Plan;
use std::alloc::{AllocError, Global};

// The place of a domain in the plan's order.
fn place_of(dom: Option<DomId>) -> Option<u32>
    ensures { result ≡ place_of dom }
{
    match dom {
        Some(dom) => Some(dom.0),
        None => None,
    }
}

// The domain of each device.
fn homes(alloc: Global, plan: &Plan) -> Result<Vec<Option<u32>>, AllocError>
    ensures { IfOk result (λ v. v.items ≡ homes plan.now) }
{
    let rows = plan.devices.as_slice();
    rows.iter().map(|row| place_of(row.domain)).collect(alloc)
}

// The domain above each domain.
fn above(alloc: Global, plan: &Plan) -> Result<Vec<Option<u32>>, AllocError>
    ensures { IfOk result (λ v. v.items ≡ above plan.now) }
{
    let rows = plan.domains.as_slice();
    rows.iter().map(|row| place_of(row.parent)).collect(alloc)
}

/// The devices at the start: each is disabled, and so keeps its domain on.
pub fn all_awake(alloc: Global, plan: &Plan) -> Result<Tally, NoMemory>
    ensures { IfOk result (λ awake. awake ≡ record { owners = homes plan.now; bits = replicate (length plan.now.devices) true }) }
{
    let mut awake = Tally::new(alloc, homes(alloc, plan)?, plan.domains.len())?;
    awake.mark_all();
    Ok(awake)
}

// Switches on each domain that is always on, with its ancestors.
fn switch_kept(on: &mut Tally, plan: &Plan)
    requires owners { on.old.owners ≡ above plan.now }
    requires off { on.old.bits ≡ replicate (length plan.now.domains) false }
    ensures { on.new ≡ record on.old { bits = fresh_on plan.now } }
{
    let count = plan.domains.len();
    for place in 0..count as u32 {
        let dom = DomId(place);
        if is_always_on(plan, dom) {
            switch(on, plan, Some(dom), count, true);
        }
    }
}

/// The domains at the start: on is each that is always on, and all that it stands under.
pub fn kept_on(alloc: Global, plan: &Plan) -> Result<Tally, NoMemory>
    ensures { IfOk result (λ on. on ≡ record { owners = above plan.now; bits = fresh_on plan.now }) }
{
    let mut on = Tally::new(alloc, above(alloc, plan)?, plan.domains.len())?;
    switch_kept(&mut on, plan);
    Ok(on)
}
