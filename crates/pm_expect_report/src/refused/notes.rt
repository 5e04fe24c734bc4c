//! Where the token of a refusal stands, and what helps.

use crate::refused::hints::{
    caller_hint, command_hint, device_hint, key_hint, list_hint, status_hint, times_hint,
};
use pm_base::NoMemory;
use pm_expect::{Key, Refusal, Section, Why};
use pm_messages::notes::{Note, list_under};
use pm_model::Plan;
use pm_spans::keys::Path;
use std::alloc::Global;
use toml::Table;

/// The path of an item of a section, or of one of its keys.
fn path_of<'a>(section: Section, item: u32, key: Option<&'a str>) -> Path<'a> {
    match section {
        Section::Top => Path {
            top: key.unwrap_or(""),
            item: None,
            key: None,
            element: None,
        },
        _ => Path {
            top: section.word(),
            item: Some(item as usize),
            key,
            element: None,
        },
    }
}

/// A note on a section as a whole.
fn section_note<'a>(alloc: Global, section: Section) -> Note<'a> {
    let at = Path {
        top: section.word(),
        item: None,
        key: None,
        element: None,
    };
    Note::on_key(alloc, String::new(alloc), at)
}

/// The table that is refused, or of which a key is.
fn table_of<'a>(tree: &'a Table, refusal: Refusal) -> Option<&'a Table> {
    match refusal.section {
        Section::Top => Some(tree),
        section => list_under(tree, section.word())
            .get(refusal.item as usize)?
            .as_table(),
    }
}

/// The key at this place in byte order.
fn key_at(table: &Table, place: u32) -> Option<&str> {
    let mut left = place;
    for key in table.keys() {
        if left == 0 {
            return Some(key.as_str());
        }
        left -= 1;
    }
    None
}

/// A note on a key that there isn't.
fn key_note<'a>(
    alloc: Global,
    table: &'a Table,
    refusal: Refusal,
    place: u32,
) -> Result<Note<'a>, NoMemory> {
    let Some(key) = key_at(table, place) else {
        return Ok(item_note(alloc, refusal));
    };
    let at = path_of(refusal.section, refusal.item, Some(key));
    let note = Note::on_key(alloc, String::new(alloc), at);
    note.with_hint(key_hint(alloc, refusal.section, key)?)
}

/// A note on an item as a whole.
fn item_note<'a>(alloc: Global, refusal: Refusal) -> Note<'a> {
    let at = path_of(refusal.section, refusal.item, None);
    Note::on_key(alloc, String::new(alloc), at)
}

/// A note on the value of a key, with a line that may help.
fn value_note<'a>(
    alloc: Global,
    refusal: Refusal,
    key: Key,
    hint: Option<String>,
) -> Result<Note<'a>, NoMemory> {
    let at = path_of(refusal.section, refusal.item, Some(key.word()));
    let note = Note::on_value(alloc, String::new(alloc), at);
    match hint {
        Some(hint) => note.with_hint(hint),
        None => Ok(note),
    }
}

/// A note on a table that is refused, without its message. Fails where memory runs out.
fn table_note<'a>(
    alloc: Global,
    plan: &Plan,
    table: &'a Table,
    refusal: Refusal,
) -> Result<Note<'a>, NoMemory> {
    match refusal.why {
        Why::TooLong | Why::NotToml | Why::NoTable | Why::Missing { .. } => {
            Ok(item_note(alloc, refusal))
        }
        Why::NoKey { place } => key_note(alloc, table, refusal, place),
        Why::TooMany => Ok(section_note(alloc, refusal.section)),
        Why::NoList => {
            let note = section_note(alloc, refusal.section);
            note.with_hint(list_hint(alloc, refusal.section)?)
        }
        Why::Kind { key } => value_note(alloc, refusal, key, None),
        Why::NoCaller => value_note(
            alloc,
            refusal,
            Key::Caller,
            caller_hint(alloc, plan, table)?,
        ),
        Why::NoDevice => value_note(
            alloc,
            refusal,
            Key::Device,
            device_hint(alloc, plan, table)?,
        ),
        Why::NoStatus => value_note(alloc, refusal, Key::Status, status_hint(alloc, table)?),
        Why::NoCommand { .. } | Why::NotInScript => {
            value_note(
                alloc,
                refusal,
                Key::Command,
                command_hint(alloc, plan, table)?,
            )
        }
        Why::Range { key: Key::Nth } => {
            value_note(alloc, refusal, Key::Nth, times_hint(alloc, plan, table)?)
        }
        Why::Range { key } => value_note(alloc, refusal, key, None),
    }
}

/// Where the token of a refusal of a tree stands, and what helps, without its message. Fails where memory runs out.
pub(crate) fn note_of<'a>(
    alloc: Global,
    plan: &Plan,
    tree: &'a Table,
    refusal: Refusal,
) -> Result<Note<'a>, NoMemory> {
    match table_of(tree, refusal) {
        Some(table) => table_note(alloc, plan, table, refusal),
        None => table_note(alloc, plan, tree, refusal),
    }
}
