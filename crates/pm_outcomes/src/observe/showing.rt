//! All that a snapshot shows.

ghost use Rattle.std.specs.Prelude.{◌≡◌, ◌++◌, IfOk, OnOk, map, option_map};
ghost use Rattle.std.specs.List.{range_with_len};
ghost use Rattle.std.specs.Option.{option_to_list};
ghost use Rattle.pm_outcomes.specs.declared.list.observations.Observation.TheVariants.{Return};
ghost use Rattle.pm_outcomes.specs.list.Shown.{observation_of};
ghost use Rattle.pm_explore.specs.schedule.Observations.{HasObservation};
ghost use Rattle.pm_explore.specs.search.Exact.{HasExactly};
ghost use Rattle.pm_explore.specs.state.SnapshotOf.{snapshot_of, views_of};
ghost use Rattle.pm_outcomes.specs.observe.Shows.{end_at, return_at};

use crate::list::Observation;
use crate::observe::ends::end_of;
use crate::observe::finished::is_finished;
use crate::observe::returns::shown_return;
use pm_base::DevId;
use pm_explore::state::Snapshot;
use pm_model::Plan;
use std::alloc::{AllocError, Global};

// The return that the last line is.
fn returned(alloc: Global, snapshot: &Snapshot) -> Result<Vec<Observation>, AllocError>
    ensures { IfOk result (λ out. out.items ≡ option_to_list (option_map Return (return_at (snapshot_of snapshot.now)))) }
{
    let mut out = Vec::new(alloc);
    match shown_return(snapshot) {
        Some(returned) => {
            out.push(Observation::Return(returned))?;
            Ok(out)
        }
        None => Ok(out),
    }
}

// How a snapshot has each device, in plan order.
fn push_ends(
    out: &mut Vec<Observation>,
    snapshot: &Snapshot,
    devices: u32,
) -> Result<(), AllocError>
    ensures { OnOk result (out.new.items ≡ out.old.items ++ map (end_at (views_of snapshot.now)) (range_with_len 0 devices)) }
{
    for device in 0..devices {
        out.push(Observation::End(end_of(snapshot, DevId(device))))?;
    }
    Ok(())
}

/// All that a snapshot shows: the return that its last line is, and how each device is left, if the run is finished.
pub fn shown(
    alloc: Global,
    plan: &Plan,
    snapshot: &Snapshot,
) -> Result<Vec<Observation>, AllocError>
    ensures { IfOk result (λ observations. HasExactly (HasObservation plan.now (snapshot_of snapshot.now)) (map observation_of observations.items)) }
{
    let mut out = returned(alloc, snapshot)?;
    if is_finished(plan, snapshot) {
        push_ends(&mut out, snapshot, plan.devices.len() as u32)?;
        Ok(out)
    } else {
        Ok(out)
    }
}
