//! A key or an item alone in a tree.

ghost use Rattle.std.specs.Prelude.{IsTrue};
ghost use Rattle.pm_planread.specs.rows.Few.{AreFew};

use crate::further::found::Found;
use pm_base::NoMemory;
use pm_planread::PlanWhy;
use pm_planread::rows::names::names_of;
use pm_planread::rows::{code_fault, name_fault, number_fault, too_many_fault};
use pm_planread::tree::{Format, RawPlan, Section, key_fault, kind_fault, raw_plan};
use std::alloc::Global;
use toml::{Table, Value};

/// A table of one member.
pub fn sole_member(alloc: Global, key: &str, value: Value) -> Result<Table, NoMemory> {
    let mut table = Table::new(alloc);
    table.insert(String::from_str(alloc, key)?, value)?;
    Ok(table)
}

/// A tree of one item of a section.
fn sole_item(alloc: Global, section: Section, item: Table) -> Result<Table, NoMemory> {
    let mut items = Vec::new(alloc);
    items.push(Value::Table(item))?;
    sole_member(alloc, section.word(), Value::Array(items))
}

/// The refusal of an item's key, which has the number among the item's keys, or of its value. Answers whether it is a
/// key of the section.
pub fn look_at_key(
    alloc: Global,
    section: Section,
    item: usize,
    number: usize,
    member: (&str, &Value),
    found: &mut Found,
) -> Result<bool, NoMemory> {
    let (key, value) = member;
    let tree = sole_item(alloc, section, sole_member(alloc, key, value.clone()?)?)?;
    if let Some(place) = key_fault(Format::Plan, &tree) {
        if place.part == 0 {
            found.keep(PlanWhy::Key, item, number)?;
            return Ok(false);
        }
    }
    if kind_fault(Format::Plan, &tree).is_some() {
        found.keep(PlanWhy::Kind, item, number)?;
    }
    Ok(true)
}

/// The refusals of what an item's values say, where each is of its kind.
pub fn look_at_values(
    alloc: Global,
    section: Section,
    item: usize,
    table: &Table,
    found: &mut Found,
) -> Result<(), NoMemory> {
    let tree = sole_item(alloc, section, table.clone()?)?;
    if kind_fault(Format::Plan, &tree).is_some() {
        return Ok(());
    }
    let raw = raw_plan(alloc, &tree)?;
    if let Some(place) = too_many_fault(&raw) {
        found.keep(PlanWhy::TooMany, item, place.part as usize)?;
    }
    if table.contains_key("name") && has_bad_name(alloc, &raw)? {
        found.keep(PlanWhy::Name, item, 0)?;
    }
    if number_fault(&raw).is_some() {
        found.keep(PlanWhy::Number, item, 0)?;
    }
    if let Some(place) = code_fault(&raw) {
        found.keep(PlanWhy::Code, item, place.part as usize)?;
    }
    Ok(())
}

/// Whether a name of rows, of which there are few, is none.
fn has_bad_name(alloc: Global, raw: &RawPlan) -> Result<bool, NoMemory> {
    if !are_few(raw) {
        return Ok(false);
    }
    let names = names_of(alloc, raw)?;
    Ok(name_fault(raw, &names).is_some())
}

/// Whether there is at most one row of each section.
fn are_few(raw: &RawPlan) -> bool
    ensures { IsTrue result → AreFew raw.now }
{
    raw.domains.as_slice().len() <= 1
        && raw.devices.as_slice().len() <= 1
        && raw.links.as_slice().len() <= 1
        && raw.callers.as_slice().len() <= 1
}
