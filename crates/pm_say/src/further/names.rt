//! The refusals of an item's names.

use crate::further::found::Found;
use pm_base::{MAX_DEVICES, NoMemory};
use pm_messages::notes::{list, name_of, place_of, row, text};
use pm_planread::PlanWhy;
use pm_planread::tree::{Format, Section, key_fault};
use toml::{Table, Value};

/// Of which sections it is known what their items are called.
#[derive(Clone, Copy, PartialEq, Eq)]
pub struct Known {
    pub domains: bool,
    pub devices: bool,
}

impl Known {
    /// Of a tree: of none where the top has a key that is none, since that may be a section's.
    pub fn of(tree: &Table) -> Known {
        let top = match key_fault(Format::Plan, tree) {
            Some(place) => place.section != Section::Top,
            None => true,
        };
        Known {
            domains: top && is_known(tree, Section::Domain),
            devices: top && is_known(tree, Section::Device),
        }
    }

    fn has(self, section: Section) -> bool {
        match section {
            Section::Domain => self.domains,
            Section::Device => self.devices,
            Section::Top | Section::Link | Section::Caller => false,
        }
    }
}

/// Whether the section is an array, each row has a name, and no two the same.
fn is_known(tree: &Table, section: Section) -> bool {
    match tree.get(section.word()) {
        Some(value) => value.is_array() && are_named(list(tree, section)),
        None => true,
    }
}

fn are_named(rows: &[Value]) -> bool {
    if rows.len() > MAX_DEVICES {
        return false;
    }
    for (place, value) in rows.iter().enumerate() {
        let name = name_of(value);
        if name.is_empty() || place_of(rows, name) != Some(place) {
            return false;
        }
    }
    true
}

/// A name that an item has for another: the key, and the section of what is named.
#[derive(Clone, Copy)]
struct Reference {
    key: &'static str,
    to: Section,
    /// Whether what is named stands before the item.
    before: bool,
}

/// The references of an item of a section.
fn references_of(section: Section) -> &'static [Reference] {
    match section {
        Section::Top | Section::Caller => &[],
        Section::Domain => &[Reference {
            key: "parent",
            to: Section::Domain,
            before: true,
        }],
        Section::Device => &[
            Reference {
                key: "parent",
                to: Section::Device,
                before: true,
            },
            Reference {
                key: "domain",
                to: Section::Domain,
                before: false,
            },
        ],
        Section::Link => &[
            Reference {
                key: "consumer",
                to: Section::Device,
                before: false,
            },
            Reference {
                key: "supplier",
                to: Section::Device,
                before: false,
            },
        ],
    }
}

/// The refusals of an item's own name and of the names that it has for others.
pub fn look_at_names(
    tree: &Table,
    known: Known,
    section: Section,
    item: usize,
    table: &Table,
    found: &mut Found,
) -> Result<(), NoMemory> {
    if stands_twice(list(tree, section), section, item, table) {
        found.keep(PlanWhy::Repeat, item, 0)?;
    }
    if has_unknown(tree, known, section, table) {
        return found.keep(PlanWhy::Unknown, item, 0);
    }
    if has_later(tree, section, item, table) {
        found.keep(PlanWhy::Later, item, 0)?;
    }
    look_at_callbacks(tree, section, item, table, found)
}

/// Whether an earlier row has the name of a row, or the names of a link.
fn stands_twice(rows: &[Value], section: Section, item: usize, table: &Table) -> bool {
    if section == Section::Link {
        return has_pair(rows, item, table);
    }
    match text(table, "name") {
        Some(name) => stands_before(place_of(rows, name), item),
        None => false,
    }
}

fn stands_before(place: Option<usize>, item: usize) -> bool {
    match place {
        Some(place) => place < item,
        None => false,
    }
}

/// Whether one of the first so many rows has the consumer and the supplier of a link.
fn has_pair(rows: &[Value], count: usize, table: &Table) -> bool {
    for row in rows.iter().take(count) {
        if let Some(row) = row.as_table() {
            if is_same_pair(row, table) {
                return true;
            }
        }
    }
    false
}

fn is_same_pair(a: &Table, b: &Table) -> bool {
    match (text(a, "consumer"), text(a, "supplier")) {
        (Some(consumer), Some(supplier)) => {
            text(b, "consumer") == Some(consumer) && text(b, "supplier") == Some(supplier)
        }
        _ => false,
    }
}

/// Whether a name that the item has for another is that of none, of a section of which the names are known.
fn has_unknown(tree: &Table, known: Known, section: Section, table: &Table) -> bool {
    for reference in references_of(section) {
        let rows = list(tree, reference.to);
        if let Some(name) = text(table, reference.key) {
            if known.has(reference.to) && place_of(rows, name).is_none() {
                return true;
            }
        }
    }
    false
}

/// Whether what the item names doesn't stand before it, or a link's supplier not before its consumer.
fn has_later(tree: &Table, section: Section, item: usize, table: &Table) -> bool {
    if section == Section::Link {
        return is_late_link(list(tree, Section::Device), table);
    }
    for reference in references_of(section) {
        if reference.before && is_late(list(tree, reference.to), item, text(table, reference.key)) {
            return true;
        }
    }
    false
}

fn is_late(rows: &[Value], item: usize, name: Option<&str>) -> bool {
    let Some(name) = name else {
        return false;
    };
    match place_of(rows, name) {
        Some(place) => place >= item,
        None => false,
    }
}

fn is_late_link(devices: &[Value], link: &Table) -> bool {
    let Some(consumer) = text(link, "consumer") else {
        return false;
    };
    match place_of(devices, consumer) {
        Some(place) => is_late(devices, place, text(link, "supplier")),
        None => false,
    }
}

/// What may not be where a device has no callbacks.
fn look_at_callbacks(
    tree: &Table,
    section: Section,
    item: usize,
    table: &Table,
    found: &mut Found,
) -> Result<(), NoMemory> {
    match section {
        Section::Device if is_on(table, "no_callbacks", false) && table.contains_key("domain") => {
            found.keep(PlanWhy::NoCallbacksWithDomain, item, 0)
        }
        Section::Link if is_on(table, "pm_runtime", true) && acts_on_none(tree, table) => {
            found.keep(PlanWhy::NoCallbacksWithLink, item, 0)
        }
        _ => Ok(()),
    }
}

/// Whether the consumer of a link has no callbacks.
fn acts_on_none(tree: &Table, link: &Table) -> bool {
    let Some(consumer) = text(link, "consumer") else {
        return false;
    };
    let Some(place) = place_of(list(tree, Section::Device), consumer) else {
        return false;
    };
    match row(tree, Section::Device, place) {
        Some(device) => is_on(device, "no_callbacks", false),
        None => false,
    }
}

/// The switch under a key, or what it is where there is none.
fn is_on(table: &Table, key: &str, otherwise: bool) -> bool {
    match table.get(key) {
        Some(Value::Boolean(on)) => *on,
        _ => otherwise,
    }
}
