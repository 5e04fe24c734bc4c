//! Which devices scripts do something to.

ghost use Rattle.std.specs.Prelude.{◌≡◌, ◌<◌, IfOk, false, length, nat_eq, slice_index_or};
ghost use Rattle.std.specs.List.{list_any};
ghost use Rattle.pm_say.specs.lints.Marks.{Adds, AreOf, IsMarked};
ghost use Rattle.pm_say.specs.lints.Scripts.{does_to, is_done};

use crate::lints::domains::kept_on;
use crate::lints::helpers::{Deed, place_of};
use pm_base::NoMemory;
use pm_model::{CallerRow, Command, Plan};
use std::alloc::Global;

/// For each device, whether some script does it. Fails where memory runs out.
fn marked_by(alloc: Global, plan: &Plan, deed: Deed) -> Result<Vec<bool>, NoMemory>
    ensures { IfOk result (λ marks. AreOf plan.now deed marks.items) }
{
    let mut marks = vec![in alloc; false; plan.devices.len()]?;
    mark_callers(&mut marks, deed, plan.callers.as_slice());
    Ok(marks)
}

/// Marks what the scripts of callers do.
fn mark_callers(marks: &mut [bool], deed: Deed, callers: &[CallerRow])
    ensures { Adds (λ d. list_any (λ row. list_any (does_to deed d) row.script) callers.now) marks.old marks.new }
{
    for caller in callers {
        mark_script(marks, deed, caller.script.as_slice());
    }
}

/// Marks what a script does.
fn mark_script(marks: &mut [bool], deed: Deed, script: &[Command])
    ensures { Adds (λ d. list_any (does_to deed d) script.now) marks.old marks.new }
{
    for command in script {
        mark(marks, deed, command);
    }
}

/// Marks what a command does.
fn mark(marks: &mut [bool], deed: Deed, command: &Command)
    ensures { Adds (λ d. does_to deed d command.now) marks.old marks.new }
{
    if let Some(place) = place_of(deed, command) {
        set_mark(marks, place as usize);
    }
}

/// Marks a place, where there is one.
pub(crate) fn set_mark(marks: &mut [bool], place: usize)
    ensures { Adds (λ d. nat_eq d place) marks.old marks.new }
{
    if place < marks.len() {
        marks[place] = true;
    }
}

/// Whether a place is marked.
pub(crate) fn has_mark(marks: &[bool], place: usize) -> bool
    ensures { result ≡ slice_index_or marks.now place false }
{
    match marks.get(place) {
        Some(mark) => *mark,
        None => false,
    }
}

/// What scripts do to the devices of a plan.
#[derive(Drop)]
pub(crate) struct Marks {
    named: Vec<bool>,
    supplying: Vec<bool>,
    used: Vec<bool>,
    enabled: Vec<bool>,
    autosuspended: Vec<bool>,
    delayed: Vec<bool>,
    stopped: Vec<bool>,
    /// For each domain, whether it is always on, or one below it is.
    pub kept_on: Vec<bool>,
}

/// What the scripts of a plan do to its devices. Fails where memory runs out.
pub(crate) fn marks_of(alloc: Global, plan: &Plan) -> Result<Marks, NoMemory>
    ensures { IfOk result (IsMarked plan.now) }
{
    Ok(Marks {
        named: marked_by(alloc, plan, Deed::Names)?,
        supplying: marked_by(alloc, plan, Deed::Supplies)?,
        used: marked_by(alloc, plan, Deed::Uses)?,
        enabled: marked_by(alloc, plan, Deed::Enables)?,
        autosuspended: marked_by(alloc, plan, Deed::UsesAutosuspend)?,
        delayed: marked_by(alloc, plan, Deed::SetsDelay)?,
        stopped: marked_by(alloc, plan, Deed::StopsAutosuspend)?,
        kept_on: kept_on(alloc, plan)?,
    })
}

/// Whether some script does this to a device.
pub(crate) fn is_done(marks: &Marks, plan: &Plan, deed: Deed, device: usize) -> bool
    requires marked { IsMarked plan.now marks.now }
    requires in_plan { device < length plan.now.devices }
    ensures { result ≡ is_done plan.now deed device }
{
    let marked = match deed {
        Deed::Names => &marks.named,
        Deed::Supplies => &marks.supplying,
        Deed::Uses => &marks.used,
        Deed::Enables => &marks.enabled,
        Deed::UsesAutosuspend => &marks.autosuspended,
        Deed::SetsDelay => &marks.delayed,
        Deed::StopsAutosuspend => &marks.stopped,
    };
    has_mark(marked, device)
}
