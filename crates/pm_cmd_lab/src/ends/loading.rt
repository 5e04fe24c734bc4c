//! Plans that are read from their files.

ghost use Rattle.std.specs.Prelude.{◌≡◌, ◌≤◌, IfErr, IfOk, IsSome, Ok};
ghost use Rattle.pm_cmd_ends.specs.Reading.{Holds, IsRead};
ghost use Rattle.pm_io.specs.Asks.{AskedOnly};
ghost use Rattle.pm_io.specs.Faults.{Rose};
ghost use Rattle.pm_cmd_lab.specs.ends.Coming.{IsUnheld, IsUnread};
ghost use Rattle.pm_planread.specs.PlanOf.{contents_of, plan_of};

use crate::ends::ending::Fault;
use pm_base::PLAN_BYTES;
use pm_io::{FileFault, Files, read_all};
use pm_model::Plan;
use pm_say::{NoPlan, read_or_tell, too_long_text};
use std::alloc::Global;

/// A plan that is read, and the text of its file.
#[derive(Drop)]
pub struct Loaded {
    pub plan: Plan,
    pub text: Vec<u8>,
}

/// Reads the plan from its file, with its text.
pub fn load_text<F: Files>(alloc: Global, plan: &str, files: &mut F) -> Result<Loaded, Fault>
    ensures read { IfOk result (λ loaded. IsRead F.tells_all (F.told files.old plan.now) loaded.plan) }
    ensures text { IfOk result (λ loaded. plan_of loaded.text.items ≡ Ok (contents_of loaded.plan)) }
    ensures unread { IfErr result (IsUnread F.tells_all (F.told files.old plan.now) plan.now
        (Rose (F.faults files.old) (F.faults files.new))) }
    ensures asked { IsSome (F.told files.old plan.now) → AskedOnly plan.now (F.asked files.old) (F.asked files.new) }
    ensures never_falls { F.faults files.old ≤ F.faults files.new }
    ensures same { F.told files.new ≡ F.told files.old }
{
    let bytes = plan_bytes(alloc, plan, files)?;
    match read_or_tell(alloc, plan.as_bytes(), &bytes) {
        Ok(plan) => Ok(Loaded { plan, text: bytes }),
        Err(NoPlan::Refused { text }) => Err(Fault::Refused { text }),
        Err(NoPlan::NoMemory) => Err(Fault::NoMemory),
    }
}

/// Reads the plan from its file.
pub fn load<F: Files>(alloc: Global, plan: &str, files: &mut F) -> Result<Plan, Fault>
    ensures read { IfOk result (IsRead F.tells_all (F.told files.old plan.now)) }
    ensures unread { IfErr result (IsUnread F.tells_all (F.told files.old plan.now) plan.now
        (Rose (F.faults files.old) (F.faults files.new))) }
    ensures asked { IsSome (F.told files.old plan.now) → AskedOnly plan.now (F.asked files.old) (F.asked files.new) }
    ensures never_falls { F.faults files.old ≤ F.faults files.new }
    ensures same { F.told files.new ≡ F.told files.old }
{
    match load_text(alloc, plan, files) {
        Ok(Loaded { plan, text: _ }) => Ok(plan),
        Err(fault) => Err(fault),
    }
}

/// The bytes of a plan's file, which are no more than a plan may have.
pub fn plan_bytes<F: Files>(alloc: Global, plan: &str, files: &mut F) -> Result<Vec<u8>, Fault>
    ensures held { IfOk result (λ bytes. Holds F.tells_all (F.told files.old plan.now) 1048576 bytes.items) }
    ensures unheld { IfErr result (IsUnheld F.tells_all (F.told files.old plan.now) plan.now
        (Rose (F.faults files.old) (F.faults files.new))) }
    ensures asked { IsSome (F.told files.old plan.now) → AskedOnly plan.now (F.asked files.old) (F.asked files.new) }
    ensures never_falls { F.faults files.old ≤ F.faults files.new }
    ensures same { F.told files.new ≡ F.told files.old }
{
    match read_all(alloc, files, plan, PLAN_BYTES) {
        Ok(bytes) => Ok(bytes),
        Err(FileFault::TooLong) => {
            let text = too_long_text(alloc, plan.as_bytes())?;
            Err(Fault::Refused { text })
        }
        Err(FileFault::Failed) => Err(Fault::ReadFailed),
        Err(FileFault::NoMemory) => Err(Fault::NoMemory),
    }
}
