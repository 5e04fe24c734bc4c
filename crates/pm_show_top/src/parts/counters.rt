//! The counters of a small plan.

ghost use Rattle.std.specs.Prelude.{◌≡◌, ◌<◌, length};
ghost use Rattle.pm_device.specs.Parts.{IsFor};

use pm_base::{Cb, DevId, Pending, Req, Status};
use pm_device::Parts;
use pm_model::Plan;
use pm_planread::{PlanFault, read_plan};
use std::alloc::Global;

/// `CHILD` has the parent `BUS`, to which it may be linked later, both are in the only domain, and it has
/// a link to `CLOCK`.
static PLAN: &[u8] = b"domain = [{name = 'd'}]
device = [{name = 'a'}, {name = 'b', domain = 'd'}, {name = 'c', parent = 'b', domain = 'd', busy = true, idle = [-16], suspend = [-11, -5], idle_ms = 3, suspend_ms = 4, resume_ms = 5}]
link = [{consumer = 'c', supplier = 'a'}, {consumer = 'c', supplier = 'b', later = true}]";

const CLOCK: DevId = DevId(0);

const BUS: DevId = DevId(1);

const CHILD: DevId = DevId(2);

/// A change of one device.
#[derive(Clone, Copy)]
pub enum Change {
    Enable,
    Disable,
    Take,
    Give,
    Begin(Cb),
    Now(Status),
    Error(i32),
    Ignores(bool),
    Last(bool),
    LastBusy(u64),
    Setting(bool, i64),
    EndIdle,
    Place(Req),
    Defer(bool),
    CancelRequest,
    Clear,
    Arm(u64, bool),
    Cancel,
    CancelAll,
    ResumeCancel,
}

/// What is done.
#[derive(Clone, Copy)]
pub enum Step {
    Look,
    Bus(Change),
    Child(Change),
    // The link of `CHILD` to `CLOCK` is held.
    Hold,
    // Its link to `BUS` is added.
    Add,
    // The domain of `CHILD` is switched.
    SwitchUp,
    SwitchDown,
}

/// What must be seen then.
#[derive(Clone, Copy)]
pub enum Sight {
    Any,
    Refusal(i32),
    Children(u32),
    // Whether `CHILD` minds its parent, awaits it and tells it.
    Parent(bool, bool, bool),
    MayNotForce(bool),
    WasActive(bool),
    Deadline(Option<u64>),
    Expiry(Option<u64>),
    AutosuspendAt(u64),
    // The request, and whether it is queued and a resume deferred.
    Requested(Req, bool, bool),
    // What a callback answers that has begun.
    Answer(Cb, i32),
    NoneBegun(Cb),
    FirstFree(Option<(u32, DevId)>),
    FirstHeld(Option<(u32, DevId)>),
    NextSupplier(Option<(u32, DevId)>),
    UpCount(u32),
    DownCount(u32),
}

use Change::*;
use Sight::*;
use Step::*;

/// What is done, and what must be seen then.
type Row = (Step, Sight);

/// What is shown, and the steps in turn.
pub static CASES: [(&str, &[Row]); 8] = cases! {
    "counters, a refusal is the first that holds" => {
        (Look, Refusal(-13)); (Bus(Enable), Refusal(1)); (Bus(Take), Any); (Bus(Take), Any);
        (Bus(Give), Refusal(-11)); (Bus(Give), Any); (Child(Now(Status::Active)), Refusal(-16));
        (Bus(Ignores(true)), Refusal(1)); (Bus(Place(Req::Resume)), Refusal(-11));
        (Bus(CancelRequest), Any); (Bus(Now(Status::Suspending)), Refusal(0));
        (Bus(Defer(true)), Refusal(-11)); (Bus(Error(-5)), Refusal(-22));
    }
    "counters, children count while they work" => {
        (Look, Parent(false, false, true)); (Child(Now(Status::Suspending)), Children(1));
        (Child(Now(Status::Resuming)), Children(0)); (Child(Now(Status::Active)), Children(1));
        (Bus(Enable), Parent(true, true, true));
        (Bus(Ignores(true)), Parent(false, false, false));
    }
    "counters, a status is forced only of a device at rest" => {
        (Look, MayNotForce(false)); (Bus(Enable), MayNotForce(true));
        (Bus(Error(-5)), MayNotForce(false)); (Bus(Now(Status::Resuming)), MayNotForce(true));
        (Bus(Now(Status::Active)), Any); (Bus(Disable), Any); (Bus(Last(true)), Any);
        (Bus(Disable), Any); (Bus(Enable), WasActive(true)); (Bus(Enable), WasActive(false));
        (Bus(Disable), WasActive(false));
    }
    "counters, timers are armed and cancelled" => {
        (Child(Arm(30, true)), Any); (Child(Place(Req::Idle)), Any);
        (Child(ResumeCancel), Deadline(Some(30))); (Child(Arm(40, false)), Deadline(Some(40)));
        (Child(ResumeCancel), Deadline(None)); (Child(Arm(50, true)), Any);
        (Child(Cancel), Deadline(None)); (Child(Setting(true, 20)), Any);
        (Child(LastBusy(100)), Expiry(Some(120))); (Child(Arm(110, true)), AutosuspendAt(110));
        (Child(Setting(true, -1)), Expiry(None));
    }
    "counters, requests are placed and cancelled" => {
        (Child(Place(Req::Resume)), Any);
        (Child(Defer(true)), Requested(Req::Resume, true, true));
        (Child(CancelRequest), Requested(Req::Nothing, true, true));
        (Child(Clear), Requested(Req::Nothing, false, true)); (Child(Place(Req::Idle)), Any);
        (Child(Defer(false)), Any); (Child(CancelAll), Requested(Req::Nothing, false, false));
    }
    "counters, callbacks answer the codes of the plan" => {
        (Look, NoneBegun(Cb::Idle)); (Child(Begin(Cb::Idle)), Answer(Cb::Idle, -16));
        (Child(EndIdle), Any); (Child(Begin(Cb::Suspend)), Answer(Cb::Suspend, -11));
        (Child(Begin(Cb::Suspend)), Answer(Cb::Suspend, -5));
        (Child(Begin(Cb::Suspend)), Answer(Cb::Suspend, 0));
        (Child(Begin(Cb::Resume)), Answer(Cb::Resume, 0));
    }
    "counters, a link is there and held" => {
        (Look, FirstFree(Some((0, CLOCK)))); (Look, FirstHeld(None));
        (Hold, FirstHeld(Some((0, CLOCK)))); (Look, FirstFree(None));
        (Add, FirstFree(Some((1, BUS)))); (Look, NextSupplier(Some((1, BUS))));
    }
    "counters, a domain goes off once its other devices are quiet" => {
        (Look, UpCount(1)); (SwitchUp, UpCount(0)); (Look, DownCount(0));
        (Bus(Enable), DownCount(1)); (Bus(Now(Status::Active)), Any); (SwitchDown, UpCount(0));
        (Bus(Now(Status::Suspended)), Any); (SwitchDown, UpCount(1));
    }
};

/// Changes a device where the numbers fit.
fn changes_number(parts: &mut Parts, dev: DevId, change: Change) -> bool
    requires { dev.0 < length parts.old.shape.parents }
    ensures { parts.new.shape ≡ parts.old.shape }
{
    let device = *parts.device(dev);
    match change {
        Take if device.usage < 9 && device.share < 9 => {
            parts.take_count(dev);
            parts.take_share(dev);
        }
        Give if device.usage > 0 && device.share > 0 => {
            parts.give_count(dev);
            parts.give_share(dev);
        }
        Setting(use_auto, delay) if -9 < delay && delay < 99 => {
            parts.set_setting(dev, use_auto, delay);
        }
        LastBusy(time) if time < 999 => parts.set_last_busy(dev, time),
        Disable if device.depth < 9 => parts.disables(dev),
        Begin(cb) if parts.begun(dev, cb) < 9 => parts.begin(dev, cb),
        _ => return false,
    }
    true
}

/// Changes a device, and says whether it could be changed so.
fn changes(parts: &mut Parts, dev: DevId, change: Change) -> bool
    requires { dev.0 < length parts.old.shape.parents }
    ensures { parts.new.shape ≡ parts.old.shape }
{
    match change {
        Enable => parts.enables(dev),
        Now(status) => parts.set_status(dev, status),
        Error(error) => parts.set_error(dev, error),
        Ignores(ignores) => parts.set_ignores(dev, ignores),
        Last(last_active) => parts.set_last(dev, last_active),
        EndIdle => parts.end_idle(dev),
        Place(req) => parts.place(dev, req),
        Defer(deferred) => parts.set_deferred(dev, deferred),
        CancelRequest => parts.cancel_request(dev),
        Clear => parts.clear(dev),
        Arm(at, autosuspends) => parts.arm(dev, at, autosuspends),
        Cancel => parts.cancel(dev),
        CancelAll => parts.cancel_all(dev),
        ResumeCancel => parts.rcancel(dev),
        _ => return changes_number(parts, dev, change),
    }
    true
}

/// Takes a step, and says whether it could be taken.
fn takes(parts: &mut Parts, plan: &Plan, step: Step) -> bool
    requires made_for { IsFor plan.now parts.old.shape }
    requires devices { length plan.now.devices ≡ 3 }
    requires parts { length parts.old.shape.parents ≡ 3 }
    ensures { parts.new.shape ≡ parts.old.shape }
{
    match step {
        Look => {}
        Bus(change) => return changes(parts, BUS, change),
        Child(change) => return changes(parts, CHILD, change),
        Hold => parts.set_held(plan, CHILD, CLOCK, true),
        Add => parts.set_present(plan, CHILD, BUS, true),
        SwitchUp => parts.switch_up(plan, CHILD),
        SwitchDown => parts.switch_down(plan, CHILD),
    }
    true
}

/// Whether the callback of `CHILD` that has begun last answers this code.
fn answers(parts: &Parts, plan: &Plan, cb: Cb, code: i32) -> bool
    requires made_for { IsFor plan.now parts.now.shape }
    requires devices { length plan.now.devices ≡ 3 }
    requires parts { length parts.now.shape.parents ≡ 3 }
{
    parts.begun(CHILD, cb) > 0 && parts.callback_code(plan, cb, CHILD) == code
}

/// Whether this is seen of links and domains.
fn sees_bonds(parts: &Parts, plan: &Plan, sight: Sight) -> bool
    requires made_for { IsFor plan.now parts.now.shape }
{
    match sight {
        FirstFree(link) => parts.first_free(plan, CHILD) == link,
        FirstHeld(link) => parts.first_held(plan, CHILD) == link,
        NextSupplier(link) => parts.next_supplier(plan, CHILD, Some(CLOCK)) == link,
        UpCount(count) => parts.up_count(plan, CHILD) == count,
        DownCount(count) => parts.down_count(plan, CHILD) == count,
        _ => false,
    }
}

/// Whether this is seen.
fn sees(parts: &Parts, plan: &Plan, sight: Sight) -> bool
    requires made_for { IsFor plan.now parts.now.shape }
    requires devices { length plan.now.devices ≡ 3 }
    requires parts { length parts.now.shape.parents ≡ 3 }
{
    match sight {
        Any => true,
        Refusal(code) => parts.refusal(plan, BUS) == code,
        Children(count) => parts.children(BUS) == count,
        Parent(minds, awaits, tells) => {
            parts.minds_parent(plan, CHILD) == minds
                && parts.awaits_parent(plan, CHILD) == awaits
                && parts.tells_parent(plan, CHILD) == tells
        }
        MayNotForce(may_not) => parts.may_not_force(BUS) == may_not,
        WasActive(was_active) => parts.was_active(BUS) == was_active,
        Deadline(at) => match parts.timer(CHILD) {
            Some(armed) => Some(armed.deadline) == at,
            None => at == None,
        },
        Expiry(at) => parts.expiry(CHILD) == at,
        AutosuspendAt(at) => parts.autosuspend_at(CHILD) == at,
        Requested(request, queued, deferred) => {
            parts.pending(CHILD)
                == Pending {
                    request,
                    queued,
                    deferred,
                }
        }
        Answer(cb, code) => answers(parts, plan, cb, code),
        NoneBegun(cb) => parts.begun(CHILD, cb) == 0,
        _ => sees_bonds(parts, plan, sight),
    }
}

/// Whether the counters of a plan show what must be seen after each step.
fn show(alloc: Global, plan: &Plan, rows: &[Row]) -> Result<bool, PlanFault>
    requires { length plan.now.devices ≡ 3 }
{
    let mut parts = Parts::fresh(alloc, plan)?;
    let mut is_shown = true;
    for (step, sight) in rows {
        let is_taken = takes(&mut parts, plan, *step);
        is_shown &= is_taken && sees(&parts, plan, *sight);
    }
    Ok(is_shown)
}

/// Whether the counters show what must be seen after each step.
pub fn shows(alloc: Global, rows: &[Row]) -> Result<bool, PlanFault> {
    let plan = read_plan(alloc, PLAN)?;
    if plan.devices.len() == 3 {
        show(alloc, &plan, rows)
    } else {
        Ok(false)
    }
}
