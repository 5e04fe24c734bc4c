//! Domains of a small plan.

ghost use Rattle.pm_domain.specs.Domains.{IsMadeFor};

use pm_base::{DevId, DomId};
use pm_domain::Domains;
use pm_model::Plan;
use pm_planread::{PlanFault, read_plan};
use std::alloc::Global;

/// Devices `a` (0) and `b` (1) in `leaf` (2) under `left` (1) under `top` (0), `c` (2) in `right` (3)
/// under `top`, and `d` (3) in none.
const PLAN: &[u8] =
    b"domain = [{name = 'top'}, {name = 'left', parent = 'top'}, {name = 'leaf', parent = 'left'}, {name = 'right', parent = 'top'}]
device = [{name = 'a', domain = 'leaf'}, {name = 'b', domain = 'leaf'}, {name = 'c', domain = 'right'}, {name = 'd'}]";

/// The same where `right` is always on.
const RIGHT_PLAN: &[u8] =
    b"domain = [{name = 'top'}, {name = 'left', parent = 'top'}, {name = 'leaf', parent = 'left'}, {name = 'right', parent = 'top', always_on = true}]
device = [{name = 'a', domain = 'leaf'}, {name = 'b', domain = 'leaf'}, {name = 'c', domain = 'right'}, {name = 'd'}]";

const A: DevId = DevId(0);

const B: DevId = DevId(1);

const C: DevId = DevId(2);

const D: DevId = DevId(3);

/// What is asked of the domains, and what becomes of a device.
#[derive(Clone, Copy)]
pub enum Step {
    Look,
    UpCount(DevId),
    Up(DevId),
    DownCount(DevId),
    Down(DevId),
    // It keeps its domain on, since it isn't Suspended, or not enabled; or it doesn't.
    Awake(DevId, bool),
}

use Step::*;

/// A step, the number that it must answer, and which domains must be on after it.
type Row = (Step, u32, [bool; 4]);

const NONE: [bool; 4] = [false, false, false, false];

const LEFT: [bool; 4] = [true, true, true, false];

const RIGHT: [bool; 4] = [true, false, false, true];

const ALL: [bool; 4] = [true, true, true, true];

/// What is shown, the plan, and the steps in turn.
pub static CASES: [(&str, &[u8], &[Row]); 5] = cases! {
    "domains, a chain goes on and off in turn", PLAN => {
        (UpCount(A), 3, NONE); (Up(A), 3, LEFT); (UpCount(B), 0, LEFT); (Up(B), 0, LEFT);
        (Awake(B, false), 0, LEFT); (DownCount(A), 3, LEFT); (Down(A), 3, NONE);
        (Down(A), 0, NONE);
    }
    // Whether the device itself rests doesn't matter.
    "domains, a device that is awake keeps its domain on", PLAN => {
        (Up(A), 3, LEFT); (Down(A), 0, LEFT); (Awake(B, false), 0, LEFT); (DownCount(A), 3, LEFT);
        (Awake(A, false), 0, LEFT); (DownCount(A), 3, LEFT); (Awake(B, true), 0, LEFT);
        (Down(A), 0, LEFT);
    }
    "domains, a subdomain that is on keeps its parent on", PLAN => {
        (Awake(B, false), 0, NONE); (Up(A), 3, LEFT); (UpCount(C), 1, LEFT); (Up(C), 1, ALL);
        (DownCount(A), 2, ALL); (Down(A), 2, RIGHT); (Down(C), 2, NONE);
    }
    "domains, a domain that is always on starts on with its ancestors", RIGHT_PLAN => {
        (Look, 0, RIGHT); (DownCount(C), 0, RIGHT); (Down(C), 0, RIGHT);
        (Awake(B, false), 0, RIGHT); (Up(A), 2, ALL); (Down(A), 2, RIGHT);
    }
    "domains, a device without a domain switches none", PLAN => {
        (UpCount(D), 0, NONE); (Up(D), 0, NONE); (Down(D), 0, NONE); (Awake(D, false), 0, NONE);
        (Awake(D, true), 0, NONE);
    }
};

/// Which of the four are on, the first first.
fn lit(domains: &Domains) -> [bool; 4] {
    [
        domains.is_on(DomId(0)),
        domains.is_on(DomId(1)),
        domains.is_on(DomId(2)),
        domains.is_on(DomId(3)),
    ]
}

/// Takes a step, and answers its number.
fn answers(domains: &mut Domains, plan: &Plan, step: Step) -> u32
    requires { IsMadeFor plan.now domains.old }
    ensures { IsMadeFor plan.now domains.new }
{
    match step {
        UpCount(dev) => return domains.up_count(plan, dev),
        Up(dev) => return domains.up(plan, dev),
        DownCount(dev) => return domains.down_count(plan, dev),
        Down(dev) => return domains.down(plan, dev),
        Awake(dev, awake) if plan.devices.get(dev.0 as usize).is_some() => {
            domains.set_awake(dev, awake);
        }
        // No such device.
        Awake(..) => return u32::MAX,
        Look => {}
    }
    0
}

/// Whether the domains of a plan take the steps.
fn take(alloc: Global, plan: &Plan, rows: &[Row]) -> Result<bool, PlanFault> {
    let mut domains = Domains::fresh(alloc, plan)?;
    let mut is_shown = true;
    for (step, number, on) in rows {
        let answer = answers(&mut domains, plan, *step);
        is_shown &= answer == *number && lit(&domains) == *on;
    }
    Ok(is_shown)
}

/// Whether the domains of the plan of this text take the steps.
pub fn shows(alloc: Global, text: &[u8], rows: &[Row]) -> Result<bool, PlanFault> {
    let plan = read_plan(alloc, text)?;
    take(alloc, &plan, rows)
}
