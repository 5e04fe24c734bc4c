//! Words of callers that are refused, and keys.

use crate::scripts::near_caller;
use crate::steps::{caller_name, front_of};
use crate::tree_words::{CALLER_KEYS, DEVICE_KEYS};
use pm_base::NoMemory;
use pm_driver_read::{KeyRefusal, KeyWhy};
use pm_messages::notes::{Note, element_path, key_path, list, list_under, name_of, row, text};
use pm_planread::tree::Section;
use pm_spans::nearest::{Guess, nearest};
use std::alloc::Global;
use toml::Table;

/// The text of a caller under a key.
fn said<'a>(tree: &'a Table, caller: usize, key: &str) -> &'a str {
    match row(tree, Section::Caller, caller) {
        Some(table) => text(table, key).unwrap_or(""),
        None => "",
    }
}

/// One of the texts of a caller under a key.
fn listed<'a>(tree: &'a Table, caller: usize, key: &str, part: usize) -> &'a str {
    match row(tree, Section::Caller, caller) {
        Some(table) => match list_under(table, key).get(part) {
            Some(value) => value.as_str().unwrap_or(""),
            None => "",
        },
        None => "",
    }
}

/// A note on a caller's key.
fn note_on<'a>(
    alloc: Global,
    tree: &'a Table,
    caller: usize,
    key: &'static str,
    what: &str,
) -> Result<Note<'a>, NoMemory> {
    let who = front_of(caller_name(tree, caller));
    let message = format!(in alloc; "caller {who:?}: {what}")?;
    Ok(Note::on_value(alloc, message, key_path(Section::Caller, caller, key)))
}

/// The note on words of a caller. Fails where memory runs out.
pub fn words_note<'a>(
    alloc: Global,
    tree: &'a Table,
    refusal: KeyRefusal,
) -> Result<Note<'a>, NoMemory> {
    let (caller, part) = (refusal.caller, refusal.part);
    match refusal.why {
        KeyWhy::Times => note_on(alloc, tree, caller, "times", "times isn't 1 to 1000"),
        KeyWhy::Role => word_note(alloc, tree, caller, "role", "probe remove shutdown"),
        KeyWhy::Bus => word_note(alloc, tree, caller, "bus", "amba pci"),
        KeyWhy::Binds => binds_note(alloc, tree, caller),
        KeyWhy::Alone => alone_note(alloc, tree, caller),
        KeyWhy::Adopts => lost_caller_note(alloc, tree, caller, "adopts", part),
        KeyWhy::After => lost_caller_note(alloc, tree, caller, "after", part),
        KeyWhy::Mark => mark_note(alloc, tree, caller, part),
        KeyWhy::Circle => {
            let note = note_on(
                alloc,
                tree,
                caller,
                "after",
                "it never begins: it begins after callers that begin after it",
            )?;
            note.with_hint(format!(in alloc; "after a mark of a caller is after CALLER:MARK")?)
        }
    }
}

/// A word that is none of those that there are.
fn word_note<'a>(
    alloc: Global,
    tree: &'a Table,
    caller: usize,
    key: &'static str,
    words: &'static str,
) -> Result<Note<'a>, NoMemory> {
    let word = said(tree, caller, key);
    let front = front_of(word);
    let what = format!(in alloc; "no {key} {front:?}")?;
    let note = note_on(alloc, tree, caller, key, what.as_str())?;
    match nearest(alloc, word, words)? {
        Some(near) => note.with_hint(format!(in alloc; "did you mean {near:?}?")?),
        None => note.with_hint(format!(in alloc; "there are: {words}")?),
    }
}

fn binds_note<'a>(alloc: Global, tree: &'a Table, caller: usize) -> Result<Note<'a>, NoMemory> {
    let name = said(tree, caller, "binds");
    let front = front_of(name);
    let what = format!(in alloc; "it binds no device: {front:?}")?;
    let note = note_on(alloc, tree, caller, "binds", what.as_str())?;
    let mut guess = Guess::new(name);
    for value in list(tree, Section::Device) {
        guess.look_at(alloc, name_of(value))?;
    }
    match guess.best() {
        Some(near) => note.with_hint(format!(in alloc; "did you mean {near:?}?")?),
        None => Ok(note),
    }
}

fn alone_note<'a>(alloc: Global, tree: &'a Table, caller: usize) -> Result<Note<'a>, NoMemory> {
    let (key, what) = if said(tree, caller, "binds").is_empty() {
        (
            "bus",
            "bus is of the device that it binds: binds is missing",
        )
    } else {
        ("binds", "binds is of a role: role is missing")
    };
    note_on(alloc, tree, caller, key, what)
}

/// What stands before a colon.
fn before_colon(text: &str) -> &str {
    match text.split_once(":") {
        Some((name, _)) => name,
        None => text,
    }
}

fn listed_note<'a>(
    alloc: Global,
    tree: &'a Table,
    caller: usize,
    key: &'static str,
    part: usize,
    what: &str,
) -> Result<Note<'a>, NoMemory> {
    let who = front_of(caller_name(tree, caller));
    let message = format!(in alloc; "caller {who:?}: {what}")?;
    Ok(Note::on_value(
        alloc,
        message,
        element_path(Section::Caller, caller, key, part),
    ))
}

fn lost_caller_note<'a>(
    alloc: Global,
    tree: &'a Table,
    caller: usize,
    key: &'static str,
    part: usize,
) -> Result<Note<'a>, NoMemory> {
    let name = before_colon(listed(tree, caller, key, part));
    let front = front_of(name);
    let what = format!(in alloc; "{key}: no caller {front:?}")?;
    let note = listed_note(alloc, tree, caller, key, part, what.as_str())?;
    near_caller(alloc, tree, note, name)
}

fn mark_note<'a>(
    alloc: Global,
    tree: &'a Table,
    caller: usize,
    part: usize,
) -> Result<Note<'a>, NoMemory> {
    let said = listed(tree, caller, "after", part);
    let front = front_of(before_colon(said));
    let what = format!(in alloc; "caller {front:?} sets no such mark")?;
    let note = listed_note(alloc, tree, caller, "after", part, what.as_str())?;
    note.with_hint(format!(in alloc; "write mark NAME in its script, where others may begin")?)
}

/// The note on an unknown key of a caller or a device, with the key that may have been meant; nothing of others.
pub fn own_key_note<'a>(
    alloc: Global,
    tree: &'a Table,
    section: Section,
    item: usize,
    key: &'a str,
) -> Result<Option<Note<'a>>, NoMemory> {
    let keys = match section {
        Section::Caller => CALLER_KEYS,
        Section::Device => DEVICE_KEYS,
        Section::Top | Section::Domain | Section::Link => return Ok(None),
    };
    let word = section.word();
    let who = match list(tree, section).get(item) {
        Some(value) => front_of(name_of(value)),
        None => "",
    };
    let front = front_of(key);
    let message = format!(in alloc; "{word} {who:?}: no key {front:?}")?;
    let note = Note::on_key(alloc, message, key_path(section, item, key));
    let hint = match nearest(alloc, key, keys)? {
        Some(guess) => format!(in alloc; "did you mean {guess:?}?")?,
        None => format!(in alloc; "the keys are: {keys}")?,
    };
    Ok(Some(note.with_hint(hint)?))
}

/// What stands under a key that a plan hasn't.
fn kind_words(key: &str) -> Option<&'static str> {
    match key {
        "after" | "adopts" | "fails" => Some("an array of strings"),
        "role" | "binds" | "bus" => Some("a string"),
        "times" => Some("an integer"),
        "irq" => Some("true or false"),
        _ => None,
    }
}

/// The note on a value of another kind than that of its key, which a plan hasn't; nothing of other keys.
pub fn own_kind_note<'a>(
    alloc: Global,
    tree: &'a Table,
    section: Section,
    item: usize,
    key: &'a str,
) -> Result<Option<Note<'a>>, NoMemory> {
    let Some(words) = kind_words(key) else {
        return Ok(None);
    };
    let word = section.word();
    let who = match list(tree, section).get(item) {
        Some(value) => front_of(name_of(value)),
        None => "",
    };
    let message = format!(in alloc; "{word} {who:?}: {key:?} wants {words}")?;
    Ok(Some(Note::on_value(alloc, message, key_path(section, item, key))))
}
