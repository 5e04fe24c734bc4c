//! The refusals of a tree.

use crate::further::alone::{look_at_key, look_at_values};
use crate::further::found::{Found, Refusal};
use crate::further::names::{Known, look_at_names};
use crate::further::scripts::{Devices, look_at_scripts};
use crate::further::top::look_at_top;
use pm_base::{MAX_CALLERS, MAX_DEVICES, MAX_DOMAINS, MAX_LINKS, NoMemory};
use pm_messages::notes::list;
use pm_planread::PlanWhy;
use pm_planread::tree::Section;
use std::alloc::Global;
use toml::Table;

const SECTIONS: [Section; 4] = [
    Section::Domain,
    Section::Device,
    Section::Link,
    Section::Caller,
];

/// The refusals of a tree besides the one that is told, at most 20 of a section and 20 of the scripts: section by
/// section, and in each in the order of its items. Fails where memory runs out.
pub fn further(alloc: Global, tree: &Table, told: Refusal) -> Result<Vec<Refusal>, NoMemory> {
    let mut top = Found::new(alloc, Section::Top, told);
    look_at_top(alloc, tree, &mut top)?;
    let mut all = top.into_refusals();
    let known = Known::of(tree);
    for section in SECTIONS {
        let mut found = Found::new(alloc, section, told);
        look_at_section(alloc, tree, known, section, &mut found)?;
        all.extend_from_slice(found.into_refusals().as_slice())?;
    }
    if let Some(devices) = Devices::new(alloc, tree, known.devices)? {
        let mut found = Found::new(alloc, Section::Caller, told);
        look_at_scripts(&devices, list(tree, Section::Caller), &mut found)?;
        all.extend_from_slice(found.into_refusals().as_slice())?;
    }
    Ok(all)
}

/// Looks at each item of a section, up to the first past the limit.
fn look_at_section(
    alloc: Global,
    tree: &Table,
    known: Known,
    section: Section,
    found: &mut Found,
) -> Result<(), NoMemory> {
    for (item, value) in list(tree, section).iter().enumerate() {
        if found.is_full() {
            return Ok(());
        }
        if item == limit_of(section) {
            return found.keep(PlanWhy::TooMany, item, 0);
        }
        match value.as_table() {
            Some(table) => look_at_item(alloc, tree, known, section, item, table, found)?,
            None => found.keep(PlanWhy::Kind, item, 0)?,
        }
    }
    Ok(())
}

/// Items of a section, at most.
fn limit_of(section: Section) -> usize {
    match section {
        Section::Top | Section::Domain => MAX_DOMAINS,
        Section::Device => MAX_DEVICES,
        Section::Link => MAX_LINKS,
        Section::Caller => MAX_CALLERS,
    }
}

/// Looks at the keys, the values and the names of an item.
fn look_at_item(
    alloc: Global,
    tree: &Table,
    known: Known,
    section: Section,
    item: usize,
    table: &Table,
    found: &mut Found,
) -> Result<(), NoMemory> {
    let are_keys = look_at_keys(alloc, section, item, table, found)?;
    if are_keys && lacks_key(section, table) {
        found.keep(PlanWhy::Key, item, table.len())?;
    }
    look_at_values(alloc, section, item, table, found)?;
    look_at_names(tree, known, section, item, table, found)
}

/// Looks at each key of an item, and answers whether all are keys of the section. Where one isn't, it may stand for a
/// required one, so that none is said to be missing.
fn look_at_keys(
    alloc: Global,
    section: Section,
    item: usize,
    table: &Table,
    found: &mut Found,
) -> Result<bool, NoMemory> {
    let mut are_keys = true;
    for (number, (key, value)) in table.iter().enumerate() {
        if !look_at_key(alloc, section, item, number, (key.as_str(), value), found)? {
            are_keys = false;
        }
    }
    Ok(are_keys)
}

/// Whether a required key is missing.
fn lacks_key(section: Section, table: &Table) -> bool {
    if section == Section::Link {
        !table.contains_key("consumer") || !table.contains_key("supplier")
    } else {
        !table.contains_key("name")
    }
}
