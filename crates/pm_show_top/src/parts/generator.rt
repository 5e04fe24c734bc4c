//! The plans of 7 and 64 and of 0 and 2. The values come from a second program that was written from the rules alone.

use pm_base::{DevId, DomId};
use pm_make::make_plan;
use pm_model::{Command, Helper, Plan};
use pm_planread::PlanFault;
use std::alloc::Global;

/// Of some devices the place, the parent, how long it suspends and resumes, and the domain.
type Device = (usize, Option<DevId>, u32, u32, DomId);

static DEVICES: [Device; 5] = list! {
    (0, None, 8, 6, DomId(0)); (1, None, 10, 13, DomId(0)); (3, Some(DevId(1)), 13, 16, DomId(0));
    (62, Some(DevId(53)), 5, 3, DomId(7)); (63, Some(DevId(24)), 16, 1, DomId(7));
};

/// The consumer and the supplier of each link.
static LINKS: [(u32, u32); 16] = list! {
    (5, 1); (10, 0); (11, 8); (18, 16); (23, 4); (24, 23); (25, 14); (28, 26); (31, 13); (33, 30);
    (37, 14); (39, 10); (43, 28); (48, 5); (55, 40); (59, 10);
};

/// Of each caller the place, the devices of its second and its last command, and the delay before that.
type Script = (usize, u32, u32, i64);

static SCRIPTS: [Script; 4] = [(0, 4, 25, 8), (1, 5, 10, 3), (2, 6, 41, 8), (3, 7, 61, 4)];

/// The places have these devices.
fn are_devices(plan: &Plan) -> bool {
    let mut are_so = true;
    for (place, parent, suspend_ms, resume_ms, domain) in &DEVICES {
        let Some(row) = plan.devices.get(*place) else {
            return false;
        };
        are_so &= (row.parent, row.domain) == (*parent, Some(*domain))
            && (row.suspend_ms, row.resume_ms) == (*suspend_ms, *resume_ms);
    }
    are_so
}

/// Devices and domains.
fn has_devices(plan: &Plan) -> bool {
    let Some(last) = plan.domains.get(7) else {
        return false;
    };
    (plan.lines, plan.trace) == (200_000, 1)
        && (plan.domains.len(), plan.devices.len()) == (8, 64)
        && last.name.as_slice() == b"m7".as_slice()
        && last.parent == Some(DomId(3))
        && are_devices(plan)
}

/// Links.
fn has_links(plan: &Plan) -> bool {
    let rows = plan.links.as_slice();
    let mut are_so = rows.len() == LINKS.len();
    for (row, pair) in rows.iter().zip(LINKS.iter()) {
        are_so &= (row.consumer.0, row.supplier.0) == *pair;
    }
    are_so
}

/// A script of 166 commands has these in its second place, behind its delay, and at its end.
fn is_script(script: &[Command], wanted: &Script) -> bool {
    let (_, second, last, ms) = *wanted;
    let (Some(enable), Some(delay), Some(put)) = (script.get(1), script.get(164), script.get(165))
    else {
        return false;
    };
    script.len() == 166
        && delay.number == ms
        && (enable.helper, enable.dev, enable.number) == (Helper::Enable, DevId(second), 0)
        && (put.helper, put.dev, put.number) == (Helper::Put, DevId(last), 0)
}

/// Scripts.
fn has_scripts(plan: &Plan) -> bool {
    let mut are_so = plan.callers.len() == 4;
    for wanted in &SCRIPTS {
        let Some(row) = plan.callers.get(wanted.0) else {
            return false;
        };
        are_so &= is_script(row.script.as_slice(), wanted);
    }
    are_so
}

/// The plan of 0 and 2 has two devices without parents in one domain, which take so long, and no link.
pub fn two_devices(alloc: Global) -> Result<bool, PlanFault> {
    let plan = make_plan(alloc, 0, 2)?;
    let [first, second] = plan.devices.as_slice() else {
        return Ok(false);
    };
    let places = (first.domain, first.parent, second.domain, second.parent);
    let first = (first.suspend_ms, first.resume_ms);
    let second = (second.suspend_ms, second.resume_ms);
    Ok(
        places == (Some(DomId(0)), None, Some(DomId(0)), None)
            && (first, second) == ((10, 16), (9, 10))
            && plan.links.as_slice().is_empty(),
    )
}

/// Whether the plan has its devices and domains, its links and its scripts.
pub fn shows(alloc: Global) -> [Result<bool, PlanFault>; 3] {
    match make_plan(alloc, 7, 64) {
        Ok(plan) => [
            Ok(has_devices(&plan)),
            Ok(has_links(&plan)),
            Ok(has_scripts(&plan)),
        ],
        Err(error) => [Err(error.into()); 3],
    }
}
