//! The actors of a plan.

ghost use Rattle.std.specs.Prelude.{◌≡◌, ◌++◌, IfOk, OnOk, map};
ghost use Rattle.std.specs.List.{enumerate_from};
ghost use Rattle.pm_base.specs.declared.ActorId.TheVariants.{Caller, Timer, Work};
ghost use Rattle.pm_explore.specs.schedule.Snapshots.{all_actors};

use pm_base::ActorId;
use pm_model::Plan;
use std::alloc::{AllocError, Global};

fn push_callers(out: &mut Vec<ActorId>, plan: &Plan) -> Result<(), AllocError>
    ensures { OnOk result (out.new.items ≡ out.old.items ++ map (λ p. Caller p.0) (enumerate_from 0 plan.now.callers)) }
{
    for caller in 0..plan.callers.len() {
        out.push(ActorId::Caller(caller as u32))?;
    }
    Ok(())
}

fn push_works(out: &mut Vec<ActorId>, plan: &Plan) -> Result<(), AllocError>
    ensures { OnOk result (out.new.items ≡ out.old.items ++ map (λ p. Work p.0) (enumerate_from 0 plan.now.devices)) }
{
    for device in 0..plan.devices.len() {
        out.push(ActorId::Work(device as u32))?;
    }
    Ok(())
}

fn push_timers(out: &mut Vec<ActorId>, plan: &Plan) -> Result<(), AllocError>
    ensures { OnOk result (out.new.items ≡ out.old.items ++ map (λ p. Timer p.0) (enumerate_from 0 plan.now.devices)) }
{
    for device in 0..plan.devices.len() {
        out.push(ActorId::Timer(device as u32))?;
    }
    Ok(())
}

/// The callers, the work items and the timers of a plan, each in plan order.
pub fn actors(alloc: Global, plan: &Plan) -> Result<Vec<ActorId>, AllocError>
    ensures { IfOk result (λ out. out.items ≡ all_actors plan.now) }
{
    let mut out = Vec::new(alloc);
    push_callers(&mut out, plan)?;
    push_works(&mut out, plan)?;
    push_timers(&mut out, plan)?;
    Ok(out)
}
