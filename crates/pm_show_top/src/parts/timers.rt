//! Timers of devices.

ghost use Rattle.std.specs.Prelude.{◌≡◌, length};

use pm_base::{Armed, DevId};
use pm_planread::PlanFault;
use pm_timer::Timers;
use std::alloc::Global;

/// What is done with timers, or asked of them with what they must answer.
#[derive(Clone, Copy)]
pub enum Step {
    Arm(u32, u64, bool),
    Disarm(u32),
    Earliest(Option<(u64, DevId)>),
    Timer(u32, Option<Armed>),
}

use Step::*;

const ARMED: Armed = Armed {
    deadline: 7,
    autosuspends: true,
};

/// What is shown, the number of devices, and the steps in turn.
pub static CASES: [(&str, u32, &[Step]); 3] = cases! {
    "timers, the least deadline comes first, and then the least device", 5 => {
        Earliest(None); Arm(3, 7, true); Earliest(Some((7, DevId(3)))); Arm(4, 7, false);
        Arm(1, 9, false); Earliest(Some((7, DevId(3)))); Timer(3, Some(ARMED));
        Timer(0, None); Arm(3, 12, true); Earliest(Some((7, DevId(4)))); Disarm(4);
        Earliest(Some((9, DevId(1)))); Arm(0, 9, false); Earliest(Some((9, DevId(0))));
    }
    "timers, no device", 0 => { Earliest(None); }
    "timers, one device", 1 => {
        Arm(0, 0, false); Earliest(Some((0, DevId(0)))); Disarm(0); Earliest(None);
    }
};

/// Takes a step, and says whether it could be taken and answered as it must.
fn takes(timers: &mut Timers, devices: u32, step: Step) -> bool
    requires { length timers.old ≡ devices }
    ensures { length timers.new ≡ devices }
{
    match step {
        Arm(dev, at, autosuspends) if dev < devices => timers.arm(DevId(dev), at, autosuspends),
        Disarm(dev) if dev < devices => timers.disarm(DevId(dev)),
        Earliest(first) => return timers.earliest() == first,
        Timer(dev, timer) if dev < devices => return timers.armed(DevId(dev)) == timer,
        _ => return false,
    }
    true
}

/// Whether the timers of so many devices take the steps.
pub fn shows(alloc: Global, devices: u32, steps: &[Step]) -> Result<bool, PlanFault> {
    let mut timers = Timers::fresh(alloc, devices as usize)?;
    let mut is_shown = true;
    for step in steps {
        is_shown &= takes(&mut timers, devices, *step);
    }
    Ok(is_shown)
}
