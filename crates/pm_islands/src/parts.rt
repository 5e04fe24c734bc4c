//! The part of one island of a plan.

ghost use Rattle.std.specs.Prelude.{ℕ, ◌≡◌, ◌<◌, ◌^◌, [], ◌∷◌, ◌++◌, IfNone, IfOk, IfSome, if◌then◌else◌, length};
ghost use Rattle.pm_model.specs.Islands.{IsPart, Node, Numbering, with_scripts};
ghost use Rattle.pm_islands.specs.Blank.{IsBlank};
ghost use Rattle.pm_islands.specs.Numbers.{AreNumbers, IsIsland, is_of};

use crate::numbers::caller_numbers;
use pm_base::NoMemory;
use pm_model::{
    CallerList, CallerRow, Command, DeviceRow, DomainRow, Items, Named, NamedList, Plan,
};
use std::alloc::Global;

// A row of which another can be made.
trait RowCopy: Named + Drop {
    // The same row.
    fn copied(&self, alloc: Global) -> Result<Self, NoMemory>
        ensures { IfOk result (λ row. row ≡ self.now) };
}

fn items_of<T: Copy>(alloc: Global, items: &Items<T>) -> Result<Items<T>, NoMemory>
    ensures { IfOk result (λ copy. copy ≡ items.now) }
{
    Ok(Items::new(Vec::from_slice(alloc, items.as_slice())?))
}

impl RowCopy for DomainRow {
    fn copied(&self, alloc: Global) -> Result<DomainRow, NoMemory> {
        Ok(DomainRow {
            name: items_of(alloc, &self.name)?,
            parent: self.parent,
            always_on: self.always_on,
        })
    }
}

impl RowCopy for DeviceRow {
    fn copied(&self, alloc: Global) -> Result<DeviceRow, NoMemory> {
        let idle = match &self.idle {
            Some(codes) => Some(items_of(alloc, codes)?),
            None => None,
        };
        Ok(DeviceRow {
            name: items_of(alloc, &self.name)?,
            parent: self.parent,
            domain: self.domain,
            ignore_children: self.ignore_children,
            no_callbacks: self.no_callbacks,
            busy: self.busy,
            idle,
            suspend: items_of(alloc, &self.suspend)?,
            resume: items_of(alloc, &self.resume)?,
            idle_ms: self.idle_ms,
            suspend_ms: self.suspend_ms,
            resume_ms: self.resume_ms,
        })
    }
}

fn rows_of<T: RowCopy>(alloc: Global, rows: &[T]) -> Result<Vec<T>, NoMemory>
    ensures { IfOk result (λ copies. copies.items ≡ rows.now) }
{
    let mut copies = Vec::new(alloc);
    for row in rows {
        copies.push(row.copied(alloc)?)?;
    }
    Ok(copies)
}

fn list_of<T: RowCopy>(alloc: Global, list: &NamedList<T>) -> Result<NamedList<T>, NoMemory>
    requires { length list.now < 2 ^ 32 }
    ensures { IfOk result (λ copy. copy ≡ list.now) }
{
    Ok(NamedList::new(alloc, rows_of(alloc, list.as_slice())?)?)
}

fn script_of(
    alloc: Global,
    script: &Items<Command>,
    is_own: bool,
) -> Result<Items<Command>, NoMemory>
    ensures { IfOk result (λ copy. copy ≡ (if is_own then script.now else [])) }
{
    if is_own {
        items_of(alloc, script)
    } else {
        Ok(Items::new(Vec::new(alloc)))
    }
}

fn caller_of(alloc: Global, row: &CallerRow, is_own: bool) -> Result<CallerRow, NoMemory>
    ensures { IfOk result (λ copy. copy ≡ (if is_own then row.now else record row.now { script = [] })) }
{
    Ok(CallerRow {
        name: items_of(alloc, &row.name)?,
        script: script_of(alloc, &row.script, is_own)?,
    })
}

// The first caller and those behind it.
fn first_caller(rows: &[CallerRow]) -> Option<(&CallerRow, &[CallerRow])>
    ensures some { IfSome result (λ p. rows.now ≡ p.0.now ∷ p.1.now) }
    ensures none { IfNone result (rows.now ≡ []) }
{
    let (row, rest) = rows.split_first()?;
    Some((row, rest))
}

// The first number and those behind it.
fn first_number(numbers: &[u32]) -> Option<(u32, &[u32])>
    ensures some { IfSome result (λ p. numbers.now ≡ p.0 ∷ p.1.now) }
    ensures none { IfNone result (numbers.now ≡ []) }
{
    let (number, rest) = numbers.split_first()?;
    Some((*number, rest))
}

// Puts the callers behind those that are there, with the scripts of those that have this number.
fn put_callers(
    alloc: Global,
    callers: &mut Vec<CallerRow>,
    rows: &[CallerRow],
    numbers: &[u32],
    island: u32,
) -> Result<(), NoMemory>
    requires { length numbers.now ≡ length rows.now }
    ensures { IfOk result (λ _. callers.new.items ≡ callers.old.items ++ with_scripts (is_of numbers.now island) rows.now) }
{
    let Some((row, rest)) = first_caller(rows) else {
        return Ok(());
    };
    let Some((number, others)) = first_number(numbers) else {
        return Ok(());
    };
    let copy = caller_of(alloc, row, number == island)?;
    callers.push(copy)?;
    put_callers(alloc, callers, rest, others, island)?;
    Ok(())
}

#[tactic(auto, using(crate::proofs::PartLemmas::length_scripts))]
fn callers_of(
    alloc: Global,
    list: &CallerList,
    numbers: &[u32],
    island: u32,
) -> Result<CallerList, NoMemory>
    requires one_each { length numbers.now ≡ length list.now }
    requires few { length list.now < 2 ^ 32 }
    ensures { IfOk result (λ copy. copy ≡ with_scripts (is_of numbers.now island) list.now) }
{
    let mut callers = Vec::new(alloc);
    put_callers(alloc, &mut callers, list.as_slice(), numbers, island)?;
    Ok(NamedList::new(alloc, callers)?)
}

// The plan with the scripts of the callers that have this number.
#[tactic(auto, using(crate::proofs::PartLemmas::few_domains, crate::proofs::PartLemmas::few_devices, crate::proofs::PartLemmas::few_callers))]
fn part_of(alloc: Global, plan: &Plan, numbers: &[u32], island: u32) -> Result<Plan, NoMemory>
    requires one_each { length numbers.now ≡ length plan.now.callers }
    requires numbers { (f : Node → ℕ) × AreNumbers plan.now f numbers.now }
    ensures { IfOk result (λ part. (f : Node → ℕ) → AreNumbers plan.now f numbers.now → IsPart plan.now f island part) }
{
    let callers = callers_of(alloc, &plan.callers, numbers, island)?;
    Ok(Plan {
        lines: plan.lines,
        trace: plan.trace,
        domains: list_of(alloc, &plan.domains)?,
        devices: list_of(alloc, &plan.devices)?,
        links: items_of(alloc, &plan.links)?,
        callers,
    })
}

/// The part of an island, which is one of the plan's: the plan with the script of every caller outside
/// it empty. Fails where memory runs out.
pub fn part(alloc: Global, plan: &Plan, island: u32) -> Result<Plan, NoMemory>
    requires { IsIsland plan.now island }
    ensures { IfOk result (λ part. (count : ℕ) (k : Numbering plan.now count) → IsPart plan.now k.island island part) }
{
    let numbers = caller_numbers(alloc, plan)?;
    part_of(alloc, plan, &numbers, island)
}

/// The plan with every script empty. Fails where memory runs out.
pub fn blank(alloc: Global, plan: &Plan) -> Result<Plan, NoMemory>
    ensures { IfOk result (IsBlank plan.now) }
{
    // No caller is of island 0.
    let numbers = vec![in alloc; 1u32; plan.callers.len()]?;
    part_of(alloc, plan, &numbers, 0)
}
