//! Values of another kind than their keys'.

ghost use Rattle.std.specs.Prelude.{◌≡◌, map};
ghost use Rattle.toml.specs.View.{table_view, view};
ghost use Rattle.pm_planread.specs.tree.KindFault.{fits_key, item_kind_fault, kind_fault, section_kind_fault, top_kind_fault, wrong_kind};
ghost use Rattle.pm_planread.specs.tree.Places.{first_fault};

use crate::tree::keys::{Format, is_of_kind, kind_of};
use crate::tree::place::{Place, Section};
use crate::tree::tree::list_at;
use toml::{Table, Value};

/// The first value of another kind than its key's, over the whole tree: the top, then domains,
/// devices, links and callers. The place is that of the key in byte order; an element of an array of
/// tables that is no table has place 0.
#[tactic(auto, unfolding(crate::specs::tree::KindFault::kind_fault))]
pub fn kind_fault(format: Format, tree: &Table) -> Option<Place>
    ensures { result ≡ kind_fault format (table_view tree.now) }
{
    top_kind_fault(format, tree)
        .or_else(|| section_kind_fault(format, Section::Domain, tree))
        .or_else(|| section_kind_fault(format, Section::Device, tree))
        .or_else(|| section_kind_fault(format, Section::Link, tree))
        .or_else(|| section_kind_fault(format, Section::Caller, tree))
}

fn top_kind_fault(format: Format, tree: &Table) -> Option<Place>
    ensures { result ≡ top_kind_fault format (table_view tree.now) }
{
    Some(Place::new(Section::Top, wrong_kind(format, Section::Top, tree)?, 0))
}

fn section_kind_fault(format: Format, section: Section, tree: &Table) -> Option<Place>
    ensures { result ≡ section_kind_fault format section (table_view tree.now) }
{
    first_kind_fault(format, section, list_at(tree, section.word()))
}

/// The first such fault of the items of a section.
fn first_kind_fault(format: Format, section: Section, items: &[Value]) -> Option<Place>
    ensures { result ≡ first_fault (item_kind_fault format section) 0 (map view items.now) }
{
    for (i, item) in items.iter().enumerate() {
        if let Some(fault) = item_kind_fault(format, section, i, item) {
            return Some(fault);
        }
    }
    None
}

fn item_kind_fault(format: Format, section: Section, i: usize, item: &Value) -> Option<Place>
    ensures { result ≡ item_kind_fault format section i (view item.now) }
{
    match item.as_table() {
        Some(table) => Some(Place::new(section, i, wrong_kind(format, section, table)?)),
        None => Some(Place::new(section, i, 0)),
    }
}

/// The place of the first key whose value is of another kind.
#[tactic(auto, unfolding(crate::specs::tree::KindFault::wrong_kind))]
fn wrong_kind(format: Format, section: Section, table: &Table) -> Option<usize>
    ensures { result ≡ wrong_kind format section (table_view table.now) }
{
    let mut at = 0;
    for (key, value) in table.iter() {
        if !fits_key(format, section, key.as_str(), value) {
            return Some(at);
        }
        at += 1;
    }
    None
}

#[tactic(auto, unfolding(crate::specs::tree::KindFault::fits_key))]
fn fits_key(format: Format, section: Section, key: &str, value: &Value) -> bool
    ensures { result ≡ fits_key format section key.now (view value.now) }
{
    match kind_of(format, section, key) {
        Some(kind) => is_of_kind(kind, value),
        None => true,
    }
}
