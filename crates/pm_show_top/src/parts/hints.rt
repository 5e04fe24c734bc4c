//! Hints between threads.

use pm_planread::PlanFault;
use pm_wq::Hints;
use std::alloc::Global;
use std::sync::Wait;

/// Hints come in order, and a full queue loses one.
pub fn come_in_order<R: Wait>(rt: &R, alloc: Global) -> Result<bool, PlanFault> {
    let hints = Hints::new(alloc, 2)?;
    let mut teller = hints.pass();
    let mut asker = hints.pass();
    let told = [
        hints.tell(rt, &mut teller, 7),
        hints.tell(rt, &mut teller, 0),
        hints.tell(rt, &mut teller, 5),
    ];
    let answers = [
        hints.ask(rt, &mut asker),
        hints.ask(rt, &mut asker),
        hints.ask(rt, &mut asker),
    ];
    Ok(told == [true, true, false] && answers == [Some(7), Some(0), None])
}
