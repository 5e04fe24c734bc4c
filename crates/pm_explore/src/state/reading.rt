//! Where a schedule stands, read out of the state of its run.

ghost use Rattle.std.specs.Prelude.{◌≡◌, IfOk, map};
ghost use Rattle.pm_laws.specs.counts.Sizes.{HasEntries};
ghost use Rattle.pm_state.specs.Standing.{IsOf};
ghost use Rattle.pm_explore.specs.state.SnapshotOf.{snapshot_of};

use crate::state::snapshot::Snapshot;
use pm_base::{ActorId, Armed, DevId, Pending};
use pm_model::{Device, Plan, Stage};
use pm_state::State;
use std::alloc::{AllocError, Global};

fn devices_of(alloc: Global, plan: &Plan, state: &State) -> Result<Vec<Device>, AllocError>
    requires is_of { IsOf plan.now state.now }
    requires entries { HasEntries plan.now state.now.world.views }
    ensures { IfOk result (λ out. out.items ≡ state.now.world.views.devices) }
{
    let mut out = Vec::with_capacity(alloc, plan.devices.len())?;
    for dev in 0..plan.devices.len() {
        out.push(*state.parts().device(DevId(dev as u32)))?;
    }
    Ok(out)
}

fn pending_of(alloc: Global, plan: &Plan, state: &State) -> Result<Vec<Pending>, AllocError>
    requires is_of { IsOf plan.now state.now }
    requires entries { HasEntries plan.now state.now.world.views }
    ensures { IfOk result (λ out. out.items ≡ state.now.world.views.pending) }
{
    let mut out = Vec::with_capacity(alloc, plan.devices.len())?;
    for dev in 0..plan.devices.len() {
        out.push(state.parts().pending(DevId(dev as u32)))?;
    }
    Ok(out)
}

fn timers_of(alloc: Global, plan: &Plan, state: &State) -> Result<Vec<Option<Armed>>, AllocError>
    requires is_of { IsOf plan.now state.now }
    requires entries { HasEntries plan.now state.now.world.views }
    ensures { IfOk result (λ out. out.items ≡ state.now.world.views.timers) }
{
    let mut out = Vec::with_capacity(alloc, plan.devices.len())?;
    for dev in 0..plan.devices.len() {
        out.push(state.parts().timer(DevId(dev as u32)))?;
    }
    Ok(out)
}

fn domains_on(alloc: Global, plan: &Plan, state: &State) -> Result<Vec<bool>, AllocError>
    requires entries { HasEntries plan.now state.now.world.views }
    ensures { IfOk result (λ out. out.items ≡ state.now.world.views.on) }
{
    let mut out = Vec::with_capacity(alloc, plan.domains.len())?;
    for domain in 0..plan.domains.len() {
        out.push(state.parts().is_on(domain as u32))?;
    }
    Ok(out)
}

fn links_held(alloc: Global, plan: &Plan, state: &State) -> Result<Vec<bool>, AllocError>
    requires entries { HasEntries plan.now state.now.world.views }
    ensures { IfOk result (λ out. out.items ≡ state.now.world.views.held) }
{
    let mut out = Vec::with_capacity(alloc, plan.links.as_slice().len())?;
    for link in 0..plan.links.as_slice().len() {
        out.push(state.parts().holds(link))?;
    }
    Ok(out)
}

fn links_present(alloc: Global, plan: &Plan, state: &State) -> Result<Vec<bool>, AllocError>
    requires entries { HasEntries plan.now state.now.world.views }
    ensures { IfOk result (λ out. out.items ≡ state.now.world.views.present) }
{
    let mut out = Vec::with_capacity(alloc, plan.links.as_slice().len())?;
    for link in 0..plan.links.as_slice().len() {
        out.push(state.parts().has(link))?;
    }
    Ok(out)
}

fn caller_places(alloc: Global, plan: &Plan, state: &State) -> Result<Vec<Vec<Stage>>, AllocError>
    requires is_of { IsOf plan.now state.now }
    ensures { IfOk result (λ out. map (λ v. v.items) out.items ≡ state.now.world.caller_places) }
{
    let mut out = Vec::with_capacity(alloc, plan.callers.len())?;
    for caller in 0..plan.callers.len() {
        let stages = state.open(alloc, plan, ActorId::Caller(caller as u32))?;
        out.push(stages)?;
    }
    Ok(out)
}

fn work_places(alloc: Global, plan: &Plan, state: &State) -> Result<Vec<Vec<Stage>>, AllocError>
    requires is_of { IsOf plan.now state.now }
    ensures { IfOk result (λ out. map (λ v. v.items) out.items ≡ state.now.world.work_places) }
{
    let mut out = Vec::with_capacity(alloc, plan.devices.len())?;
    for dev in 0..plan.devices.len() {
        let stages = state.open(alloc, plan, ActorId::Work(dev as u32))?;
        out.push(stages)?;
    }
    Ok(out)
}

fn timer_places(alloc: Global, plan: &Plan, state: &State) -> Result<Vec<Vec<Stage>>, AllocError>
    requires is_of { IsOf plan.now state.now }
    ensures { IfOk result (λ out. map (λ v. v.items) out.items ≡ state.now.world.timer_places) }
{
    let mut out = Vec::with_capacity(alloc, plan.devices.len())?;
    for dev in 0..plan.devices.len() {
        let stages = state.open(alloc, plan, ActorId::Timer(dev as u32))?;
        out.push(stages)?;
    }
    Ok(out)
}

// How many commands each caller has called.
fn called_of(alloc: Global, state: &State) -> Result<Vec<u32>, AllocError>
    ensures { IfOk result (λ called. called.items ≡ state.now.world.called) }
{
    state.called().iter().copied().collect(alloc)
}

impl Snapshot {
    /// Where a schedule stands whose last line was written at this time, by this actor, and returned this code.
    pub fn of(
        alloc: Global,
        plan: &Plan,
        state: &State,
        time: u64,
        last: Option<ActorId>,
        code: Option<i32>,
    ) -> Result<Snapshot, AllocError>
        requires is_of { IsOf plan.now state.now }
        requires entries { HasEntries plan.now state.now.world.views }
        ensures { IfOk result (λ s. snapshot_of s ≡ record { world = state.now.world; time = time; last = last; code = code }) }
    {
        Ok(Snapshot {
            devices: devices_of(alloc, plan, state)?,
            pending: pending_of(alloc, plan, state)?,
            timers: timers_of(alloc, plan, state)?,
            on: domains_on(alloc, plan, state)?,
            held: links_held(alloc, plan, state)?,
            present: links_present(alloc, plan, state)?,
            caller_places: caller_places(alloc, plan, state)?,
            work_places: work_places(alloc, plan, state)?,
            timer_places: timer_places(alloc, plan, state)?,
            called: called_of(alloc, state)?,
            time,
            last,
            code,
        })
    }
}
