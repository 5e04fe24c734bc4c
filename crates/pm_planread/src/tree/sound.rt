//! Trees with which nothing is wrong.

ghost use Rattle.std.specs.Prelude.{◌≡◌, false, None, map, IsTrue};
ghost use Rattle.std.specs.List.{list_any};
ghost use Rattle.toml.specs.View.{table_view, view};
ghost use Rattle.pm_planread.specs.tree.KeyFault.{item_key_fault, key_fault, section_key_fault, unknown_key, wrong_key};
ghost use Rattle.pm_planread.specs.tree.KindFault.{item_kind_fault, kind_fault, section_kind_fault, wrong_kind};
ghost use Rattle.pm_planread.specs.tree.Places.{first_fault};
ghost use Rattle.pm_planread.specs.tree.Sound.{is_wrong_entry};
ghost use Rattle.pm_planread.specs.tree.Tree.{member_list};

use crate::tree::key_faults::lacks_key;
use crate::tree::keys::{Format, is_of_kind, kind_of};
use crate::tree::place::Section;
use crate::tree::tree::list_at;
use toml::{Table, Value};

/// Whether no key and no value of a tree is wrong. It looks at each once, where `key_fault` and
/// `kind_fault` each do; they say what is wrong.
#[tactic(auto, unfolding(crate::specs::tree::KeyFault::key_fault, crate::specs::tree::KindFault::kind_fault))]
pub fn is_sound(format: Format, tree: &Table) -> bool
    ensures keys { IsTrue result → key_fault format (table_view tree.now) ≡ None }
    ensures kinds { IsTrue result → kind_fault format (table_view tree.now) ≡ None }
{
    is_sound_table(format, Section::Top, tree)
        && is_sound_section(format, Section::Domain, tree)
        && is_sound_section(format, Section::Device, tree)
        && is_sound_section(format, Section::Link, tree)
        && is_sound_section(format, Section::Caller, tree)
}

fn is_sound_section(format: Format, section: Section, tree: &Table) -> bool
    ensures keys { IsTrue result → section_key_fault format section (table_view tree.now) ≡ None }
    ensures kinds { IsTrue result → section_kind_fault format section (table_view tree.now) ≡ None }
{
    are_sound(format, section, list_at(tree, section.word()))
}

fn are_sound(format: Format, section: Section, items: &[Value]) -> bool
    ensures keys { IsTrue result → first_fault (item_key_fault format section) 0 (map view items.now) ≡ None }
    ensures kinds { IsTrue result → first_fault (item_kind_fault format section) 0 (map view items.now) ≡ None }
{
    for (i, item) in items.iter().enumerate() {
        if !is_sound_item(format, section, i, item) {
            return false;
        }
    }
    true
}

/// Whether nothing is wrong with an item, which for that must be a table.
fn is_sound_item(format: Format, section: Section, i: usize, item: &Value) -> bool
    ensures keys { IsTrue result → item_key_fault format section i (view item.now) ≡ None }
    ensures kinds { IsTrue result → item_kind_fault format section i (view item.now) ≡ None }
{
    match item.as_table() {
        Some(table) => is_sound_table(format, section, table),
        None => false,
    }
}

#[tactic(auto, using(crate::proofs::tree::SoundLemmas::no_wrong_key, crate::proofs::tree::SoundLemmas::no_unknown_key, crate::proofs::tree::SoundLemmas::no_wrong_kind))]
fn is_sound_table(format: Format, section: Section, table: &Table) -> bool
    ensures unknown { IsTrue result → unknown_key format section (table_view table.now) ≡ None }
    ensures keys { IsTrue result → wrong_key format section (table_view table.now) ≡ None }
    ensures kinds { IsTrue result → wrong_kind format section (table_view table.now) ≡ None }
{
    has_sound_entries(format, section, table) && !lacks_key(section, table)
}

fn has_sound_entries(format: Format, section: Section, table: &Table) -> bool
    ensures { IsTrue result → list_any (is_wrong_entry format section) (member_list (table_view table.now)) ≡ false }
{
    for (key, value) in table.iter() {
        if is_wrong_entry(format, section, key.as_str(), value) {
            return false;
        }
    }
    true
}

/// Whether tables of the section don't have the key, or have a value of another kind under it.
#[tactic(auto, unfolding(crate::specs::tree::KindFault::fits_key))]
fn is_wrong_entry(format: Format, section: Section, key: &str, value: &Value) -> bool
    ensures { result ≡ is_wrong_entry format section (key.now, view value.now) }
{
    match kind_of(format, section, key) {
        Some(kind) => !is_of_kind(kind, value),
        None => true,
    }
}
