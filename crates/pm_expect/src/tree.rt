//! What stands under the keys of a table.

ghost use Rattle.std.specs.Prelude.{◌≡◌, Ok, map, option_map};
ghost use Rattle.std.specs.Str.{bytes_eq};
ghost use Rattle.toml.specs.Data.{get_member};
ghost use Rattle.toml.specs.View.{table_view, view};
ghost use Rattle.pm_planread.specs.tree.Places.{capped};
ghost use Rattle.pm_planread.specs.tree.Tree.{items_list, member_keys};
ghost use Rattle.pm_expect.specs.Expected.{few_of, items_of};
ghost use Rattle.pm_expect.specs.Words.{section_word};
ghost use Rattle.pm_expect.specs.Tables.{◌>>=◌ as ◌▹◌, is_key_of, is_word, known_keys, number_at, optional_at, text_at, unknown_key};

use crate::reading::MAX_TABLES;
use crate::refusal::{Key, Section, Why};
use pm_planread::tree::Text;
use toml::{Table, Value};

/// Whether a key is this one.
fn is_word(name: &str, key: Key) -> bool
    ensures { result ≡ is_word name.now key }
{
    name == key.word()
}

/// Whether a key is that of a section's tables.
fn is_section(name: &str, section: Section) -> bool
    ensures { result ≡ bytes_eq name.now (section_word section) }
{
    name == section.word()
}

/// Whether tables of the section have the key.
fn is_key_of(section: Section, name: &str) -> bool
    ensures { result ≡ is_key_of section name.now }
{
    match section {
        Section::Top => is_section(name, Section::Answer)
            || is_section(name, Section::End)
            || is_section(name, Section::Use),
        Section::Answer => is_word(name, Key::Caller)
            || is_word(name, Key::Command)
            || is_word(name, Key::Nth)
            || is_word(name, Key::Code),
        Section::End => is_word(name, Key::Device)
            || is_word(name, Key::Status)
            || is_word(name, Key::Usage),
        Section::Use => is_word(name, Key::Device)
            || is_word(name, Key::Caller)
            || is_word(name, Key::Command),
    }
}

/// The place of the first key that tables of the section don't have.
fn unknown_key(section: Section, table: &Table) -> Option<usize>
    ensures { result ≡ unknown_key section (table_view table.now) }
{
    let mut at = 0;
    for key in table.keys() {
        if !is_key_of(section, key.as_str()) {
            return Some(at);
        }
        at += 1;
    }
    None
}

/// Goes on where the table has no other keys than those of the section.
#[tactic(auto, unfolding(crate::specs::Tables::known_keys))]
pub(crate) fn known_keys(section: Section, table: &Table) -> Result<(), Why>
    ensures { result ≡ known_keys section (table_view table.now) }
{
    match unknown_key(section, table) {
        Some(place) => Err(Why::NoKey {
            place: capped(place),
        }),
        None => Ok(()),
    }
}

/// A count, which stands still at the end of its type.
pub(crate) fn capped(count: usize) -> u32
    ensures { result ≡ capped count }
{
    count.min(u32::MAX as usize) as u32
}

/// The value under a key.
fn member<'a>(table: &'a Table, key: &str) -> Option<&'a Value>
    ensures { option_map (λ value. view value.now) result ≡ get_member key.now (table_view table.now) }
{
    table.get(key)
}

/// The string under a key that is required.
pub(crate) fn text_at<'a>(key: Key, table: &'a Table) -> Result<Text<'a>, Why>
    ensures { result ≡ text_at key (table_view table.now) }
{
    let Some(value) = member(table, key.word()) else {
        return Err(Why::Missing { key });
    };
    match value.as_str() {
        Some(text) => Ok(Text::new(text)),
        None => Err(Why::Kind { key }),
    }
}

/// The integer under a key that is required.
pub(crate) fn number_at(key: Key, table: &Table) -> Result<i64, Why>
    ensures { result ≡ number_at key (table_view table.now) }
{
    let Some(value) = member(table, key.word()) else {
        return Err(Why::Missing { key });
    };
    match value.as_integer() {
        Some(number) => Ok(number),
        None => Err(Why::Kind { key }),
    }
}

/// The integer under a key that may be left out.
pub(crate) fn optional_at(key: Key, table: &Table) -> Result<Option<i64>, Why>
    ensures { result ≡ optional_at key (table_view table.now) }
{
    let Some(value) = member(table, key.word()) else {
        return Ok(None);
    };
    match value.as_integer() {
        Some(number) => Ok(Some(number)),
        None => Err(Why::Kind { key }),
    }
}

/// The items of a section, of which there are no more than it may have.
#[tactic(auto, using(pm_planread::proofs::tree::TreeLemmas::items_list_view))]
pub(crate) fn items_in<'a>(section: Section, tree: &'a Table) -> Result<&'a [Value], Why>
    ensures { (result ▹ λ items. Ok (map view items.now)) ≡ (items_of (get_member (section_word section) (table_view tree.now)) ▹ few_of) }
{
    let Some(value) = member(tree, section.word()) else {
        return Ok(&[]);
    };
    let Some(items) = value.as_array() else {
        return Err(Why::NoList);
    };
    if items.len() > MAX_TABLES {
        return Err(Why::TooMany);
    }
    Ok(items.as_slice())
}
