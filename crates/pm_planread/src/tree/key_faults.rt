//! Keys that no table of a section has, and required ones that are missing.

ghost use Rattle.std.specs.Prelude.{◌≡◌, map, length};
ghost use Rattle.toml.specs.View.{table_view, view};
ghost use Rattle.pm_planread.specs.tree.KeyFault.{item_key_fault, key_fault, lacks, lacks_key, section_key_fault, top_key_fault, unknown_key, wrong_key};
ghost use Rattle.pm_planread.specs.tree.Places.{first_fault};
ghost use Rattle.pm_planread.specs.tree.Tree.{member_keys};

use crate::tree::keys::{Format, kind_of};
use crate::tree::place::{Place, Section};
use crate::tree::tree::{list_at, member};
use toml::{Table, Value};

/// The first key that isn't in its table, or required one that is missing, over the whole tree: the
/// top, then domains, devices, links and callers. The place is that of the key in byte order, and
/// for a missing one the number of keys.
#[tactic(auto, unfolding(crate::specs::tree::KeyFault::key_fault))]
pub fn key_fault(format: Format, tree: &Table) -> Option<Place>
    ensures { result ≡ key_fault format (table_view tree.now) }
{
    top_key_fault(format, tree)
        .or_else(|| section_key_fault(format, Section::Domain, tree))
        .or_else(|| section_key_fault(format, Section::Device, tree))
        .or_else(|| section_key_fault(format, Section::Link, tree))
        .or_else(|| section_key_fault(format, Section::Caller, tree))
}

fn top_key_fault(format: Format, tree: &Table) -> Option<Place>
    ensures { result ≡ top_key_fault format (table_view tree.now) }
{
    Some(Place::new(Section::Top, unknown_key(format, Section::Top, tree)?, 0))
}

fn section_key_fault(format: Format, section: Section, tree: &Table) -> Option<Place>
    ensures { result ≡ section_key_fault format section (table_view tree.now) }
{
    first_key_fault(format, section, list_at(tree, section.word()))
}

/// The first such fault of the items of a section.
fn first_key_fault(format: Format, section: Section, items: &[Value]) -> Option<Place>
    ensures { result ≡ first_fault (item_key_fault format section) 0 (map view items.now) }
{
    for (i, item) in items.iter().enumerate() {
        if let Some(fault) = item_key_fault(format, section, i, item) {
            return Some(fault);
        }
    }
    None
}

fn item_key_fault(format: Format, section: Section, i: usize, item: &Value) -> Option<Place>
    ensures { result ≡ item_key_fault format section i (view item.now) }
{
    match item.as_table() {
        Some(table) => Some(Place::new(section, i, wrong_key(format, section, table)?)),
        None => None,
    }
}

/// The place of the first key that tables of the section don't have, or else the number of keys
/// where a required one is missing.
#[tactic(auto, unfolding(crate::specs::tree::KeyFault::wrong_key), using(crate::proofs::tree::TreeLemmas::keys_counted))]
fn wrong_key(format: Format, section: Section, table: &Table) -> Option<usize>
    ensures { result ≡ wrong_key format section (table_view table.now) }
{
    if let Some(at) = unknown_key(format, section, table) {
        return Some(at);
    }
    if lacks_key(section, table) {
        Some(table.len())
    } else {
        None
    }
}

/// The place of the first key that tables of the section don't have.
#[tactic(auto, unfolding(crate::specs::tree::KeyFault::unknown_key))]
fn unknown_key(format: Format, section: Section, table: &Table) -> Option<usize>
    ensures { result ≡ unknown_key format section (table_view table.now) }
{
    let mut at = 0;
    for key in table.keys() {
        if kind_of(format, section, key.as_str()).is_none() {
            return Some(at);
        }
        at += 1;
    }
    None
}

/// Whether a required key is missing.
pub fn lacks_key(section: Section, table: &Table) -> bool
    ensures { result ≡ lacks_key section (table_view table.now) }
{
    match section {
        Section::Top => false,
        Section::Link => lacks(table, "consumer") || lacks(table, "supplier"),
        Section::Domain | Section::Device | Section::Caller => lacks(table, "name"),
    }
}

fn lacks(table: &Table, key: &str) -> bool
    ensures { result ≡ lacks key.now (table_view table.now) }
{
    member(table, key).is_none()
}
