//! Plans that are read from their files.

ghost use Rattle.std.specs.Prelude.{◌≡◌, ◌≤◌, IfErr, IfOk, IsErrOf, IsSome};
ghost use Rattle.pm_io.specs.Asks.{AskedOnly};
ghost use Rattle.pm_io.specs.Faults.{Rose};
ghost use Rattle.pm_cmd_ends.specs.Coming.{IsUnread};
ghost use Rattle.pm_cmd_ends.specs.Reading.{IsRead};

use crate::ending::Fault;
use pm_base::PLAN_BYTES;
use pm_io::{Files, read_all};
use pm_model::Plan;
use pm_planread::read_plan;
use std::alloc::Global;

/// Reads the plan from its file.
pub fn load<F: Files>(alloc: Global, plan: &str, files: &mut F) -> Result<Plan, Fault>
    ensures read { IfOk result (IsRead F.tells_all (F.told files.old plan.now)) }
    ensures unread { IfErr result (IsUnread F.tells_all (F.told files.old plan.now)
        (Rose (F.faults files.old) (F.faults files.new))) }
    ensures calm { ¬ IsErrOf result Fault.ReadFailed → F.faults files.new ≡ F.faults files.old }
    ensures never_falls { F.faults files.old ≤ F.faults files.new }
    ensures asked { IsSome (F.told files.old plan.now) → AskedOnly plan.now (F.asked files.old) (F.asked files.new) }
    ensures same { F.told files.new ≡ F.told files.old }
{
    let bytes = read_all(alloc, files, plan, PLAN_BYTES)?;
    Ok(read_plan(alloc, &bytes)?)
}
