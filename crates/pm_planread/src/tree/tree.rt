//! Reads the tree of a plan's text.

ghost use Rattle.std.specs.Prelude.{◌≡◌, map, option_map, option_and_then, IfOk};
ghost use Rattle.toml.specs.Data.{as_array, get_member};
ghost use Rattle.toml.specs.View.{table_view, view};
ghost use Rattle.pm_planread.specs.tree.Tree.{document, entries_view, items_list, list_at};

use crate::tree::keys::is_word;
use pm_base::NoMemory;
use std::alloc::{AllocError, Global};
use toml::{Table, Value};

/// A key of a table and its value.
pub type Entry<'a> = (&'a String, &'a Value);

/// The tree of the bytes; `None` where they aren't UTF-8 or no TOML.
#[tactic(auto, unfolding(crate::specs::tree::Tree::document))]
pub fn document(alloc: Global, bytes: &[u8]) -> Result<Option<Table>, NoMemory>
    ensures { IfOk result (λ table. option_map table_view table ≡ document bytes.now) }
{
    let Ok(text) = std::str::from_utf8(bytes) else {
        return Ok(None);
    };
    match toml::table_from_str(alloc, text) {
        Ok(table) => Ok(Some(table)),
        Err(error) if error.is_memory() => Err(NoMemory),
        Err(_) => Ok(None),
    }
}

/// The value under a key. A table has few keys, and most of them have another length, so that to look at each costs less
/// than to put whole words in order.
pub fn member<'a>(table: &'a Table, key: &str) -> Option<&'a Value>
    ensures { option_map (λ value. view value.now) result
        ≡ get_member key.now (table_view table.now) }
{
    for (name, value) in table.iter() {
        if is_word(key, name.as_str()) {
            return Some(value);
        }
    }
    None
}

/// The keys and values of a table in a list, in which it costs less to look again and again.
pub fn entries_of<'a>(alloc: Global, table: &'a Table) -> Result<Vec<Entry<'a>>, AllocError>
    ensures { IfOk result (λ list. entries_view list.items ≡ table_view table.now) }
{
    let mut entries = Vec::with_capacity(alloc, table.len())?;
    for (key, value) in table.iter() {
        entries.push((key, value))?;
    }
    Ok(entries)
}

/// The value under a key in such a list.
pub fn value_in<'a>(entries: &[Entry<'a>], key: &str) -> Option<&'a Value>
    ensures { option_map (λ value. view value.now) result
        ≡ get_member key.now (entries_view entries.now) }
{
    for entry in entries {
        if is_word(key, entry.0.as_str()) {
            return Some(entry.1);
        }
    }
    None
}

/// The elements of an array.
#[tactic(auto, using(crate::proofs::tree::TreeLemmas::items_list_view))]
fn items_of<'a>(value: Option<&'a Value>) -> Option<&'a [Value]>
    ensures { option_map (λ values. map view values.now) result
        ≡ option_map items_list (option_and_then as_array (option_map (λ value. view value.now) value.entry)) }
{
    Some(value?.as_array()?.as_slice())
}

/// The elements of the array under a key in a list, where one stands there.
pub fn items_in<'a>(entries: &[Entry<'a>], key: &str) -> Option<&'a [Value]>
    ensures { option_map (λ values. map view values.now) result
        ≡ option_map items_list (option_and_then as_array (get_member key.now (entries_view entries.now))) }
{
    items_of(value_in(entries, key))
}

/// The elements of the array under a key in a list, and none where no array stands there.
pub fn list_in<'a>(entries: &[Entry<'a>], key: &str) -> &'a [Value]
    ensures { map view result.now ≡ list_at key.now (entries_view entries.now) }
{
    match items_in(entries, key) {
        Some(values) => values,
        None => &[],
    }
}

/// The elements of the array under a key, and none where no array stands there.
pub fn list_at<'a>(table: &'a Table, key: &str) -> &'a [Value]
    ensures { map view result.now ≡ list_at key.now (table_view table.now) }
{
    match items_of(member(table, key)) {
        Some(values) => values,
        None => &[],
    }
}
