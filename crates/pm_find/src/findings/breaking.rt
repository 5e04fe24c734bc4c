//! What is told of where a run stands: of a device that isn't marked as busy, of the bonds that a line breaks, and of
//! domains that are left on.

ghost use Rattle.std.specs.Prelude.{◌≡◌, ◌+◌, ◌∷◌, ◌++◌, OnOk, length, map, true};
ghost use Rattle.pm_safety.specs.dependencies.Domains.{domains_left};
ghost use Rattle.pm_safety.specs.dependencies.Kept.{IsKept};
ghost use Rattle.pm_find.specs.findings.AllFound.{at_line, bonds_at, broken_off, domain_at, domains_after, placed_at};
ghost use Rattle.pm_find.specs.findings.Ending.{AreDropped};
ghost use Rattle.pm_find.specs.findings.OpenCounts.{device_of, open_counts};
ghost use Rattle.pm_find.specs.findings.Said.{call_by};
ghost use Rattle.pm_find.specs.findings.StandsOut.{unmarked};
ghost use Rattle.pm_model.specs.History.{History};
ghost use Rattle.pm_model.specs.Lawful.{IsLawful};
ghost use Rattle.pm_model.specs.LineOf.{is_event_of, is_line_of};
ghost use Rattle.pm_model.specs.Views.{device};

use crate::findings::ending::{may_drop, note_drop};
use crate::findings::kinds::unmarked;
use crate::findings::watch::device_of;
use crate::findings::watched::{Called, Watched};
use crate::findings::{Finding, Kind};
use pm_base::{NoMemory, Why};
use pm_device::Parts;
use pm_model::{Event, Line, Plan};
use pm_safety::dependencies::{Bond, Bonds, DomainOn, domains_left};
use std::alloc::Global;

/// Appends a finding of this kind, if there is one.
pub fn push(all: &mut Vec<Finding>, number: u32, found: Option<Kind>) -> Result<(), NoMemory>
    ensures { OnOk result (all.new.items ≡ all.old.items ++ at_line number found) }
{
    if let Some(kind) = found {
        all.push(Finding { line: number, kind })?;
    }
    Ok(())
}

// What a line tells of its device that was used and isn't marked as busy, by the counters and the row of the device before it and
// the last call of its actor.
fn unmarked_by(parts: &Parts, row: &Watched, called: Option<Called>, line: &Line) -> Option<Kind>
    requires { is_event_of (length parts.now.shape.parents) line.now.event ≡ true }
    ensures { result ≡ unmarked (device parts.now.views (device_of line.now.event)) row.now.counts called line.now.time line.now.actor line.now.event }
{
    match line.event {
        Event::Put {
            dev,
            why: Why::Caller,
        } => unmarked(parts.device(dev), row, called, line),
        _ => None,
    }
}

// Appends the bonds that a line of this number breaks.
fn push_broken(all: &mut Vec<Finding>, number: u32, broken: &[Bond]) -> Result<(), NoMemory>
    ensures { OnOk result (all.new.items ≡ all.old.items ++ map (broken_off number) broken.now) }
{
    for bond in broken {
        all.push(Finding {
            line: number,
            kind: Kind::Off(*bond),
        })?;
    }
    Ok(())
}

// Appends the bonds that a line of this number breaks, which may come next in a run.
fn tell_broken(
    alloc: Global,
    all: &mut Vec<Finding>,
    bonds: &mut Bonds,
    plan: &Plan,
    number: u32,
    line: &Line,
) -> Result<(), NoMemory>
    requires of_plan { is_line_of plan.now line.now ≡ true }
    requires some { (h : History) × IsLawful plan.now (line.now ∷ h) × IsKept plan.now bonds.old h × (number ≡ length h + 1) }
    ensures kept { OnOk result ((h : History) → IsLawful plan.now (line.now ∷ h) → IsKept plan.now bonds.old h → number ≡ length h + 1 → IsKept plan.now bonds.new (line.now ∷ h)) }
    ensures broken { OnOk result ((h : History) → IsLawful plan.now (line.now ∷ h) → IsKept plan.now bonds.old h → number ≡ length h + 1 → all.new.items ≡ all.old.items ++ bonds_at plan.now h line.now) }
{
    let broken = bonds.follow(alloc, plan, number, line)?;
    push_broken(all, number, &broken)
}

// Appends the bonds that a line of this number breaks, which may come next in a run, and notes what it drops.
fn follow(
    alloc: Global,
    all: &mut Vec<Finding>,
    bonds: &mut Bonds,
    drops: &mut [bool],
    plan: &Plan,
    number: u32,
    line: &Line,
) -> Result<(), NoMemory>
    requires of_plan { is_line_of plan.now line.now ≡ true }
    requires some { (h : History) × IsLawful plan.now (line.now ∷ h) × IsKept plan.now bonds.old h × AreDropped plan.now h drops.old × (number ≡ length h + 1) }
    ensures kept { OnOk result ((h : History) → IsLawful plan.now (line.now ∷ h) → IsKept plan.now bonds.old h → number ≡ length h + 1 → IsKept plan.now bonds.new (line.now ∷ h)) }
    ensures broken { OnOk result ((h : History) → IsLawful plan.now (line.now ∷ h) → IsKept plan.now bonds.old h → number ≡ length h + 1 → all.new.items ≡ all.old.items ++ bonds_at plan.now h line.now) }
    ensures dropped { OnOk result ((h : History) → IsLawful plan.now (line.now ∷ h) → IsKept plan.now bonds.old h → number ≡ length h + 1 → AreDropped plan.now h drops.old → AreDropped plan.now (line.now ∷ h) drops.new) }
{
    let dev = device_of(&line.event);
    let may = may_drop(bonds.parts(), plan, dev);
    tell_broken(alloc, all, bonds, plan, number, line)?;
    note_drop(drops, bonds.parts(), dev, may);
    Ok(())
}

/// Appends what stands out at a line of this number by where the run stands, which may come next in a run, and notes
/// what it drops; the row is that of its device, and called the last call of its actor. Fails where memory runs out.
pub fn tell_placed(
    alloc: Global,
    all: &mut Vec<Finding>,
    bonds: &mut Bonds,
    drops: &mut [bool],
    plan: &Plan,
    row: &Watched,
    called: Option<Called>,
    number: u32,
    line: &Line,
) -> Result<(), NoMemory>
    requires of_plan { is_line_of plan.now line.now ≡ true }
    requires some { (h : History) × IsLawful plan.now (line.now ∷ h) × IsKept plan.now bonds.old h × AreDropped plan.now h drops.old × (number ≡ length h + 1) }
    ensures kept { OnOk result ((h : History) → IsLawful plan.now (line.now ∷ h) → IsKept plan.now bonds.old h → number ≡ length h + 1 → IsKept plan.now bonds.new (line.now ∷ h)) }
    ensures told { OnOk result ((h : History) → IsLawful plan.now (line.now ∷ h) → IsKept plan.now bonds.old h → number ≡ length h + 1 → called ≡ call_by h line.now.actor → row.now.counts ≡ open_counts h (device_of line.now.event) → all.new.items ≡ all.old.items ++ placed_at plan.now h line.now) }
    ensures dropped { OnOk result ((h : History) → IsLawful plan.now (line.now ∷ h) → IsKept plan.now bonds.old h → number ≡ length h + 1 → AreDropped plan.now h drops.old → AreDropped plan.now (line.now ∷ h) drops.new) }
{
    push(all, number, unmarked_by(bonds.parts(), row, called, line))?;
    follow(alloc, all, bonds, drops, plan, number, line)?;
    Ok(())
}

// Appends these domains, told at a line of this number.
fn push_domains(all: &mut Vec<Finding>, number: u32, left: &[DomainOn]) -> Result<(), NoMemory>
    ensures { OnOk result (all.new.items ≡ all.old.items ++ map (domain_at number) left.now) }
{
    for domain in left {
        all.push(Finding {
            line: number,
            kind: Kind::DomainOn(*domain),
        })?;
    }
    Ok(())
}

/// Appends the domains that are left on after the lines so far, told at a line of this number. Fails where memory runs
/// out.
pub fn tell_domains(
    alloc: Global,
    all: &mut Vec<Finding>,
    bonds: &Bonds,
    plan: &Plan,
    number: u32,
) -> Result<(), NoMemory>
    requires { (h : History) × IsKept plan.now bonds.now h }
    ensures { OnOk result ((h : History) → IsKept plan.now bonds.now h → number ≡ length h → all.new.items ≡ all.old.items ++ domains_after plan.now h) }
{
    let left = domains_left(alloc, bonds.parts(), plan)?;
    push_domains(all, number, &left)?;
    Ok(())
}
