//! A case of `pm_account`: a run without lines.

use crate::texts::plans::TWO;
use crate::texts::told::{Case, Told};
use pm_account::{Times, account};
use pm_planread::{PlanFault, read_plan};
use std::alloc::Global;

pub fn cases(alloc: Global) -> Result<Vec<Case>, PlanFault> {
    let plan = read_plan(alloc, TWO)?;
    let times = account(alloc, &plan, &[])?;
    let none = Times {
        active: 0,
        suspended: 0,
        moving: 0,
    };
    let told = Told::One(times.as_slice() == [none, none].as_slice());
    let cases = [("before any line no time has passed", told)];
    Ok(Vec::from_slice(alloc, &cases)?)
}
