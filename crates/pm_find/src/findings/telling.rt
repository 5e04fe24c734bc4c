//! What is told at a line, and at the end.

ghost use Rattle.std.specs.Prelude.{◌≡◌, ◌+◌, ◌<◌, ◌≤◌, ◌^◌, ◌++◌, IfOk, OnOk, [], false, length, reverse, slice_index_or, true};
ghost use Rattle.std.specs.List.{flat_map, list_all, range_with_len};
ghost use Rattle.pm_device.specs.Parts.{IsFor};
ghost use Rattle.pm_safety.specs.dependencies.Kept.{IsKept};
ghost use Rattle.pm_find.specs.findings.AllFound.{at_line, found_in};
ghost use Rattle.pm_find.specs.findings.Ending.{AreDropped};
ghost use Rattle.pm_find.specs.findings.OpenCounts.{device_of};
ghost use Rattle.pm_find.specs.findings.WatchTable.{IsTable, answers_told, counts_told, given_at, later_in, on_in, told, told_at};
ghost use Rattle.pm_laws.specs.counts.Sizes.{HasEntries};
ghost use Rattle.pm_model.specs.Lawful.{IsLawful};
ghost use Rattle.pm_model.specs.LineOf.{is_line_of};

use crate::findings::Finding;
use crate::findings::breaking::{push, tell_placed};
use crate::findings::ending::left_on;
use crate::findings::kinds::{
    answer, failed, leak, never_on, no_count, poisoned, refused, refused_put, refused_status,
    stolen,
};
use crate::findings::watch::{Watch, device_of};
use crate::findings::watched::{Called, Watched};
use pm_base::{DevId, NoMemory};
use pm_device::Parts;
use pm_model::{Line, Plan};
use pm_safety::dependencies::Bonds;
use std::alloc::Global;

// Appends what a line tells of gets and puts.
#[tactic(auto, using(std::proofs::lemmas::List::append_assoc))]
fn tell_counts(
    all: &mut Vec<Finding>,
    left: &Watched,
    row: &Watched,
    called: Option<Called>,
    number: u32,
    line: &Line,
) -> Result<(), NoMemory>
    ensures { OnOk result (all.new.items ≡ all.old.items ++ counts_told left.now.counts row.now called number line.now) }
{
    push(all, number, leak(left, number, called, line))?;
    push(all, number, stolen(row, line))?;
    push(all, number, never_on(row, line))?;
    Ok(())
}

// Appends what a line tells of returns.
#[tactic(auto, using(std::proofs::lemmas::List::append_assoc))]
fn tell_answers(
    all: &mut Vec<Finding>,
    ends: &Watch,
    row: &Watched,
    called: Option<Called>,
    number: u32,
    line: &Line,
) -> Result<(), NoMemory>
    ensures { OnOk result (all.new.items ≡ all.old.items ++ answers_told (given_at ends.now.given) row.now called number line.now) }
{
    push(all, number, answer(row, ends, called, line))?;
    push(all, number, refused(line))?;
    push(all, number, refused_status(line))?;
    push(all, number, refused_put(called, line))?;
    push(all, number, no_count(line))?;
    push(all, number, poisoned(row, called, line))?;
    Ok(())
}

// Appends what a line tells, by the row of its device and the call of its actor.
#[tactic(auto, using(std::proofs::lemmas::List::append_assoc))]
fn tell(
    all: &mut Vec<Finding>,
    ends: &Watch,
    left: &Watched,
    row: &Watched,
    called: Option<Called>,
    number: u32,
    line: &Line,
) -> Result<(), NoMemory>
    ensures { OnOk result (all.new.items ≡ all.old.items ++ told left.now.counts (given_at ends.now.given) row.now called number line.now) }
{
    tell_counts(all, left, row, called, number, line)?;
    tell_answers(all, ends, row, called, number, line)?;
    push(all, number, failed(line))?;
    Ok(())
}

// Appends what a line tells, by what is kept before it.
fn tell_line(
    all: &mut Vec<Finding>,
    left: &Watch,
    ends: &Watch,
    watch: &Watch,
    number: u32,
    line: &Line,
) -> Result<(), NoMemory>
    requires at_end { (device_of line.now.event).0 < length left.now.rows }
    requires before { (device_of line.now.event).0 < length watch.now.rows }
    ensures { OnOk result (all.new.items ≡ all.old.items ++ told_at left.now ends.now watch.now number line.now) }
{
    let dev = device_of(&line.event);
    let called = watch.called(line.actor);
    tell(
        all,
        ends,
        left.row(dev),
        watch.row(dev),
        called,
        number,
        line,
    )
}

/// What is kept of the devices and callers of a plan after these lines. Fails where memory runs out.
pub fn after(alloc: Global, plan: &Plan, lines: &[Line]) -> Result<Watch, NoMemory>
    requires few { length lines.now < 2 ^ 32 }
    requires of_plan { list_all (is_line_of plan.now) (reverse lines.now) ≡ true }
    ensures { IfOk result (λ watch. IsTable (length plan.now.devices + 1) (length plan.now.callers) (reverse lines.now) watch) }
{
    let mut watch = Watch::new(alloc, plan.devices.len() + 1, plan.callers.len())?;
    let mut number = 0;
    for line in lines {
        number += 1;
        watch.follow(number, line)?;
    }
    Ok(watch)
}

/// What stands out at these lines of a run, in their order, where this is what is left at the end, and this what is kept
/// after all lines. Goes through them with what is kept before any. Fails where memory runs out.
pub fn at_lines(
    alloc: Global,
    plan: &Plan,
    left: &Watch,
    ends: &Watch,
    bonds: &mut Bonds,
    drops: &mut [bool],
    lines: &[Line],
) -> Result<Vec<Finding>, NoMemory>
    requires few { length lines.now < 2 ^ 32 }
    requires lawful { IsLawful plan.now (reverse lines.now) }
    requires of_plan { list_all (is_line_of plan.now) (reverse lines.now) ≡ true }
    requires left { length left.now.rows ≡ length plan.now.devices + 1 }
    requires start { IsKept plan.now bonds.old [] }
    requires undropped { AreDropped plan.now [] drops.old }
    ensures found { IfOk result (λ all. all.items ≡ found_in plan.now (later_in left.now ends.now) (reverse lines.now)) }
    ensures kept { OnOk result (IsKept plan.now bonds.new (reverse lines.now)) }
    ensures dropped { OnOk result (AreDropped plan.now (reverse lines.now) drops.new) }
{
    let mut watch = Watch::new(alloc, plan.devices.len() + 1, plan.callers.len())?;
    let mut all = Vec::new(alloc);
    let mut number = 0;
    for line in lines {
        number += 1;
        tell_line(&mut all, left, ends, &watch, number, line)?;
        let row = watch.row(device_of(&line.event));
        let called = watch.called(line.actor);
        tell_placed(
            alloc, &mut all, bonds, drops, plan, row, called, number, line,
        )?;
        watch.follow(number, line)?;
    }
    Ok(all)
}

/// Appends the devices of the plan that are left on, told at this line. Fails where memory runs out.
pub fn at_end(
    all: &mut Vec<Finding>,
    ends: &Watch,
    drops: &[bool],
    parts: &Parts,
    plan: &Plan,
    number: u32,
) -> Result<(), NoMemory>
    requires made_for { IsFor plan.now parts.now.shape }
    requires entries { HasEntries plan.now parts.now.views }
    requires within { length plan.now.devices ≤ length ends.now.rows }
    ensures { OnOk result (all.new.items ≡ all.old.items ++ flat_map (λ d. at_line number (on_in plan.now parts.now.views ends.now drops.now (record { 0 = d }))) (range_with_len 0 (length plan.now.devices))) }
{
    for place in 0..plan.devices.len() {
        let dev = DevId(place as u32);
        let has_dropped = dropped_at(drops, dev);
        push(
            all,
            number,
            left_on(parts, plan, ends.row(dev), has_dropped, dev),
        )?;
    }
    Ok(())
}

// Whether the last line that disabled a device dropped a suspend.
fn dropped_at(drops: &[bool], dev: DevId) -> bool
    ensures { result ≡ slice_index_or drops.now dev.0 false }
{
    match drops.get(dev.0 as usize) {
        Some(dropped) => *dropped,
        None => false,
    }
}
