//! The rows of a tree, and how they are called.

use pm_base::NoMemory;
use pm_planread::tree::Section;
use pm_spans::keys::Path;
use std::alloc::Global;
use toml::{Table, Value};

/// Characters of a text that a message shows, at most.
const MAX_SHOWN: usize = 48;

/// The front of a text that a message shows.
pub fn shown(text: &str) -> &str {
    match text.char_indices().nth(MAX_SHOWN) {
        Some((at, _)) => text.get(..at).unwrap_or(""),
        None => text,
    }
}

/// The elements of a section.
pub fn list<'a>(tree: &'a Table, section: Section) -> &'a [Value] {
    list_under(tree, section.word())
}

/// The elements of the array under a key, and none where there is no array.
pub fn list_under<'a>(table: &'a Table, key: &str) -> &'a [Value] {
    match table.get(key) {
        Some(value) => elements(value),
        None => &[],
    }
}

/// The elements of an array, and none of what is no array.
pub fn elements(value: &Value) -> &[Value] {
    match value.as_array() {
        Some(values) => values.as_slice(),
        None => &[],
    }
}

/// A row of a section.
pub fn row<'a>(tree: &'a Table, section: Section, item: usize) -> Option<&'a Table> {
    list(tree, section).get(item)?.as_table()
}

/// The text under a key.
pub fn text<'a>(table: &'a Table, key: &str) -> Option<&'a str> {
    table.get(key)?.as_str()
}

/// The name of a row, or no bytes.
pub fn name_of(value: &Value) -> &str {
    match value.as_table() {
        Some(table) => text(table, "name").unwrap_or(""),
        None => "",
    }
}

/// The place of the first row of this name.
pub fn place_of(rows: &[Value], name: &str) -> Option<usize> {
    for (place, row) in rows.iter().enumerate() {
        if name_of(row) == name {
            return Some(place);
        }
    }
    None
}

/// How an item is called: by its name, a link by its devices, and else by its number from 1.
pub fn called(
    alloc: Global,
    tree: &Table,
    section: Section,
    item: usize,
) -> Result<String, NoMemory> {
    let word = section.word();
    let number = item.saturating_add(1);
    let Some(table) = row(tree, section, item) else {
        return Ok(format!(in alloc; "{word} {number}")?);
    };
    if let Section::Link = section {
        return called_link(alloc, table, number);
    }
    match text(table, "name") {
        Some(name) => {
            let name = shown(name);
            Ok(format!(in alloc; "{word} {name:?}")?)
        }
        None => Ok(format!(in alloc; "{word} {number}")?),
    }
}

fn called_link(alloc: Global, table: &Table, number: usize) -> Result<String, NoMemory> {
    match (text(table, "consumer"), text(table, "supplier")) {
        (Some(consumer), Some(supplier)) => {
            let (consumer, supplier) = (shown(consumer), shown(supplier));
            Ok(format!(in alloc; "link of {consumer:?} to {supplier:?}")?)
        }
        _ => Ok(format!(in alloc; "link {number}")?),
    }
}

/// The path of an item; of the top, which has none, the text's first key.
pub fn item_path<'a>(section: Section, item: usize) -> Path<'a> {
    Path {
        top: section.word(),
        item: Some(item),
        key: None,
        element: None,
    }
}

/// The path of a key of an item, and at the top of the key itself.
pub fn key_path<'a>(section: Section, item: usize, key: &'a str) -> Path<'a> {
    match section {
        Section::Top => Path {
            top: key,
            item: None,
            key: None,
            element: None,
        },
        Section::Domain | Section::Device | Section::Link | Section::Caller => Path {
            top: section.word(),
            item: Some(item),
            key: Some(key),
            element: None,
        },
    }
}

/// The path of an element under a key of an item.
pub fn element_path<'a>(section: Section, item: usize, key: &'a str, index: usize) -> Path<'a> {
    Path {
        element: Some(index),
        ..key_path(section, item, key)
    }
}
