//! The refusals of the top.

use crate::further::alone::sole_member;
use crate::further::found::Found;
use pm_base::NoMemory;
use pm_planread::PlanWhy;
use pm_planread::rows::number_fault;
use pm_planread::tree::{Format, Place, Section, key_fault, kind_fault, raw_plan};
use std::alloc::Global;
use toml::{Table, Value};

/// Looks at each key of the top by itself.
pub fn look_at_top(alloc: Global, tree: &Table, found: &mut Found) -> Result<(), NoMemory> {
    for (number, (key, value)) in tree.iter().enumerate() {
        if found.is_full() {
            return Ok(());
        }
        if !is_section(key.as_str(), value) {
            look_at_key(alloc, key.as_str(), value, number, found)?;
        }
    }
    Ok(())
}

/// Whether the key has the items of a section.
fn is_section(key: &str, value: &Value) -> bool {
    value.is_array() && matches!(key, "domain" | "device" | "link" | "caller")
}

/// The refusal of a key and its value, which has the number among the keys.
fn look_at_key(
    alloc: Global,
    key: &str,
    value: &Value,
    number: usize,
    found: &mut Found,
) -> Result<(), NoMemory> {
    let tree = sole_member(alloc, key, value.clone()?)?;
    if key_fault(Format::Plan, &tree).is_some() {
        return found.keep(PlanWhy::Key, number, 0);
    }
    if kind_fault(Format::Plan, &tree).is_some() {
        return found.keep(PlanWhy::Kind, number, 0);
    }
    if number_fault(&raw_plan(alloc, &tree)?).is_some() {
        found.keep(PlanWhy::Number, number, 0)?;
    }
    Ok(())
}
