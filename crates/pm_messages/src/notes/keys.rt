//! Keys that no table of the section has, and required ones that are missing.

use crate::notes::note::Note;
use crate::notes::rows::{called, item_path, key_path, row, shown};
use pm_base::NoMemory;
use pm_planread::tree::Section;
use pm_spans::nearest::nearest;
use std::alloc::Global;
use toml::Table;

/// The keys of a section, with spaces between them.
fn keys_of(section: Section) -> &'static str {
    match section {
        Section::Top => "lines trace domain device link caller",
        Section::Domain => "name parent always_on",
        Section::Device =>
            "name parent domain ignore_children no_callbacks busy idle suspend resume idle_ms suspend_ms resume_ms",
        Section::Link => "consumer supplier pm_runtime later",
        Section::Caller => "name script",
    }
}

/// The key of this number in byte order.
pub fn key_number(table: &Table, number: usize) -> Option<&str> {
    let mut left = number;
    for key in table.keys() {
        if left == 0 {
            return Some(key.as_str());
        }
        left -= 1;
    }
    None
}

/// The note on a key. Fails where memory runs out.
pub fn key_note<'a>(
    alloc: Global,
    tree: &'a Table,
    section: Section,
    item: usize,
    part: usize,
) -> Result<Option<Note<'a>>, NoMemory> {
    if let Section::Top = section {
        return match key_number(tree, item) {
            Some(key) => Ok(Some(unknown_top(alloc, key)?)),
            None => Ok(None),
        };
    }
    let Some(table) = row(tree, section, item) else {
        return Ok(None);
    };
    match key_number(table, part) {
        Some(key) => Ok(Some(unknown_key(alloc, tree, section, item, key)?)),
        None => Ok(Some(missing_key(alloc, tree, section, item, table)?)),
    }
}

fn unknown_top<'a>(alloc: Global, key: &'a str) -> Result<Note<'a>, NoMemory> {
    let name = shown(key);
    let message = format!(in alloc; "no key {name:?}")?;
    let note = Note::on_key(alloc, message, key_path(Section::Top, 0, key));
    with_guess(alloc, note, Section::Top, key)
}

fn unknown_key<'a>(
    alloc: Global,
    tree: &'a Table,
    section: Section,
    item: usize,
    key: &'a str,
) -> Result<Note<'a>, NoMemory> {
    let who = called(alloc, tree, section, item)?;
    let name = shown(key);
    let message = format!(in alloc; "{who}: no key {name:?}")?;
    let note = Note::on_key(alloc, message, key_path(section, item, key));
    with_guess(alloc, note, section, key)
}

/// With the key that may have been meant, or else with all keys that there are.
fn with_guess<'a>(
    alloc: Global,
    note: Note<'a>,
    section: Section,
    key: &str,
) -> Result<Note<'a>, NoMemory> {
    let keys = keys_of(section);
    let hint = match nearest(alloc, key, keys)? {
        Some(guess) => format!(in alloc; "did you mean {guess:?}?")?,
        None => format!(in alloc; "the keys are: {keys}")?,
    };
    note.with_hint(hint)
}

fn missing_key<'a>(
    alloc: Global,
    tree: &'a Table,
    section: Section,
    item: usize,
    table: &Table,
) -> Result<Note<'a>, NoMemory> {
    let who = called(alloc, tree, section, item)?;
    let key = missing_word(section, table);
    let message = format!(in alloc; "{who}: the key {key:?} is missing")?;
    Ok(Note::on_key(alloc, message, item_path(section, item)))
}

fn missing_word(section: Section, table: &Table) -> &'static str {
    if section != Section::Link {
        "name"
    } else if table.get("consumer").is_none() {
        "consumer"
    } else {
        "supplier"
    }
}
