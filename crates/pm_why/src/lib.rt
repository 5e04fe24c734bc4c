//! What keeps a device from suspending.
#![tactic(auto)]

ghost use Rattle.std.specs.Prelude.{◌≡◌, ◌<◌, ◌&&◌, ◌++◌, IfOk, OnOk, length, map, not};
ghost use Rattle.pm_device.specs.Parts.{IsFor};
ghost use Rattle.pm_model.specs.Derived.{asks_resume, has_error, is_active, is_disabled, is_suspending};
ghost use Rattle.pm_model.specs.History.{History};
ghost use Rattle.pm_model.specs.Views.{device, pending_of};
ghost use Rattle.pm_why.specs.declared.Reason.TheVariants as reason;
ghost use Rattle.pm_why.specs.Kept.{IsTold, TellsOf};
ghost use Rattle.pm_why.specs.Reasons.{child_reasons, is_child, reasons_on, when};

mod booked;
mod gets;
mod kept;
mod laws;
mod texts;

pub use booked::book_reasons;
use gets::{Count, Found};
pub use kept::Gets;
pub use laws::{counts_are_usage, free_devices_suspend, puts_close_gets};
use pm_base::{DevId, NoMemory, Req, Status, Why};
use pm_device::{Parts, parent};
use pm_model::Plan;
use std::alloc::Global;
pub use texts::{free_text, reason_text};

/// One thing that keeps a device from suspending (this project's own; the rules: `runtime_pm.rst`,
/// sections 2 to 5). Lines are counted from 1.
#[derive(Clone, Copy, PartialEq, Eq)]
pub enum Reason {
    /// The stored error, and the end line that stored it.
    Error { code: i32, line: u32 },
    /// How many times it is disabled.
    Depth(u32),
    /// A count on it that wasn't given back: for what it was taken, and by which line.
    Count { why: Why, line: u32 },
    /// A child that is Active or Suspending, and that it doesn't ignore.
    Child(DevId),
    /// It is Suspending, and a resume waits for the end of the suspend.
    Deferred,
    /// A resume is requested.
    Request,
    /// Its status, which isn't Active.
    State(Status),
}

// Appends a reason where it holds.
fn push_if(all: &mut Vec<Reason>, holds: bool, reason: Reason) -> Result<(), NoMemory>
    ensures { OnOk result (all.new.items ≡ all.old.items ++ when holds reason) }
{
    if holds {
        all.push(reason)?;
    }
    Ok(())
}

// Appends the counts.
fn push_counts(all: &mut Vec<Reason>, gets: &[Count]) -> Result<(), NoMemory>
    ensures { OnOk result (all.new.items ≡ all.old.items ++ map (λ count. reason.Count count.why count.line) gets.now) }
{
    for get in gets {
        all.push(Reason::Count {
            why: get.why,
            line: get.line,
        })?;
    }
    Ok(())
}

// Whether a device is a child that counts.
fn is_child(plan: &Plan, parts: &Parts, dev: DevId, child: DevId) -> bool
    requires in_plan { child.0 < length plan.now.devices }
    requires in_parts { child.0 < length parts.now.shape.parents }
    ensures { result ≡ is_child plan.now parts.now.views dev child }
{
    match parent(plan, child) {
        Some(found) if found.0 == dev.0 => matches!(
            parts.status(child),
            Status::Active | Status::Suspending
        ),
        _ => false,
    }
}

// Appends the children that count, unless the device ignores them.
fn push_children(
    all: &mut Vec<Reason>,
    plan: &Plan,
    parts: &Parts,
    dev: DevId,
) -> Result<(), NoMemory>
    requires made_for { IsFor plan.now parts.now.shape }
    requires in_range { dev.0 < length plan.now.devices }
    ensures { OnOk result (all.new.items ≡ all.old.items ++ child_reasons plan.now parts.now.views dev) }
{
    if parts.device(dev).ignores {
        return Ok(());
    }
    for place in 0..plan.devices.len() {
        let child = DevId(place as u32);
        push_if(all, is_child(plan, parts, dev, child), Reason::Child(child))?;
    }
    Ok(())
}

// Appends the error, which this line stored, and the depth.
fn push_first(all: &mut Vec<Reason>, parts: &Parts, dev: DevId, line: u32) -> Result<(), NoMemory>
    requires { dev.0 < length parts.now.shape.parents }
    ensures { OnOk result (all.new.items ≡ all.old.items
        ++ when (has_error parts.now.views dev) (reason.Error (device parts.now.views dev).error line)
        ++ when (is_disabled parts.now.views dev) (reason.Depth (device parts.now.views dev).depth)) }
{
    let device = parts.device(dev);
    let error = Reason::Error {
        code: device.error,
        line,
    };
    push_if(all, device.error != 0, error)?;
    push_if(all, device.depth > 0, Reason::Depth(device.depth))
}

// Appends a deferred resume, a request and the status.
fn push_last(all: &mut Vec<Reason>, parts: &Parts, dev: DevId) -> Result<(), NoMemory>
    requires { dev.0 < length parts.now.shape.parents }
    ensures { OnOk result (all.new.items ≡ all.old.items
        ++ when (is_suspending parts.now.views dev && (pending_of parts.now.views dev).deferred) reason.Deferred
        ++ when (asks_resume parts.now.views dev) reason.Request
        ++ when (not (is_active parts.now.views dev)) (reason.State (device parts.now.views dev).status)) }
{
    let status = parts.status(dev);
    let pending = parts.pending(dev);
    let deferred = matches!(status, Status::Suspending) && pending.deferred;
    push_if(all, deferred, Reason::Deferred)?;
    let asked = matches!(pending.request, Req::Resume);
    push_if(all, asked, Reason::Request)?;
    push_if(all, !parts.is_active(dev), Reason::State(status))
}

// What keeps a device from suspending, by what the lines tell of it and the counters after them.
fn reasons_of(
    alloc: Global,
    plan: &Plan,
    parts: &Parts,
    found: &Found,
    dev: DevId,
) -> Result<Vec<Reason>, NoMemory>
    requires made_for { IsFor plan.now parts.now.shape }
    requires in_range { dev.0 < length plan.now.devices }
    ensures { IfOk result (λ all. (h : History) → IsTold h dev found.now → all.items ≡ reasons_on plan.now parts.now.views h dev) }
{
    let mut all = Vec::new(alloc);
    push_first(&mut all, parts, dev, found.error_line)?;
    push_counts(&mut all, &found.gets)?;
    push_children(&mut all, plan, parts, dev)?;
    push_last(&mut all, parts, dev)?;
    Ok(all)
}

/// Everything that keeps a device from suspending after lines of which this is kept, and whose counters these are, in
/// this order: its error, its depth, the counts on it by their lines, its children by their places, a deferred resume, a
/// request and its status. It looks at each device once. Fails where memory runs out, or ran out while lines came.
pub fn reasons(
    alloc: Global,
    plan: &Plan,
    parts: &Parts,
    gets: &Gets,
) -> Result<Vec<Reason>, NoMemory>
    requires made_for { IsFor plan.now parts.now.shape }
    requires in_range { gets.now.dev.0 < length plan.now.devices }
    ensures { IfOk result (λ all. (h : History) → TellsOf gets.now h → all.items ≡ reasons_on plan.now parts.now.views h gets.now.dev) }
{
    match &gets.found {
        Some(found) => reasons_of(alloc, plan, parts, found, gets.dev),
        None => Err(NoMemory),
    }
}
