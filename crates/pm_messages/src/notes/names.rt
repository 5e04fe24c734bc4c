//! Names that are none, that stand twice, that aren't there or that stand later.

use crate::notes::note::Note;
use crate::notes::rows::{called, item_path, key_path, list, name_of, place_of, row, shown, text};
use pm_base::{MAX_NAME, NoMemory};
use pm_planread::tree::Section;
use pm_spans::nearest::Guess;
use std::alloc::Global;
use toml::{Table, Value};

/// The note on a name that is none. Fails where memory runs out.
pub fn name_note<'a>(
    alloc: Global,
    tree: &'a Table,
    section: Section,
    item: usize,
) -> Result<Option<Note<'a>>, NoMemory> {
    let Some(table) = row(tree, section, item) else {
        return Ok(None);
    };
    let Some(name) = text(table, "name") else {
        return Ok(None);
    };
    let (word, front) = (section.word(), shown(name));
    let message = format!(in alloc; "{front:?} is no name of a {word}")?;
    let note = Note::on_value(alloc, message, key_path(section, item, "name"));
    Ok(Some(note.with_hint(name_hint(alloc, section, name)?)?))
}

fn name_hint(alloc: Global, section: Section, name: &str) -> Result<String, NoMemory> {
    let len = name.len();
    if len == 0 {
        return Ok(format!(in alloc; "a name has at least one byte")?);
    }
    if len > MAX_NAME {
        return Ok(format!(in alloc; "a name has at most {MAX_NAME} bytes, and this one {len}")?);
    }
    match bad_char(section, name) {
        Some(c) if c == '.' || c == ':' => Ok(format!(in alloc;
            "a caller's name has no {c:?}: a trace has work.NAME and timer.NAME"
        )?),
        Some(c) => Ok(format!(in alloc;
            "a name has letters, digits, _, -, . and : of ASCII, and no {c:?}"
        )?),
        None => Ok(format!(in alloc; "a name has letters, digits, _, -, . and : of ASCII")?),
    }
}

fn bad_char(section: Section, name: &str) -> Option<char> {
    for c in name.chars() {
        let fits = match c {
            '_' | '-' => true,
            '.' | ':' => section != Section::Caller,
            _ => c.is_ascii_alphanumeric(),
        };
        if !fits {
            return Some(c);
        }
    }
    None
}

/// The note on what stands twice. Fails where memory runs out.
pub fn repeat_note<'a>(
    alloc: Global,
    tree: &'a Table,
    section: Section,
    item: usize,
) -> Result<Option<Note<'a>>, NoMemory> {
    let rows = list(tree, section);
    let Some(value) = rows.get(item) else {
        return Ok(None);
    };
    let who = called(alloc, tree, section, item)?;
    let message = format!(in alloc; "a second {who}")?;
    if let Section::Link = section {
        let Some(first) = first_pair(rows, value) else {
            return Ok(None);
        };
        let note = Note::on_value(alloc, message, item_path(section, item));
        return Ok(Some(note.with_other("the first is at line ", item_path(section, first))));
    }
    let Some(first) = place_of(rows, name_of(value)) else {
        return Ok(None);
    };
    let note = Note::on_value(alloc, message, key_path(section, item, "name"));
    Ok(Some(note.with_other("the first is at line ", key_path(section, first, "name"))))
}

/// The first link of the same consumer and supplier.
fn first_pair(rows: &[Value], value: &Value) -> Option<usize> {
    let pair = pair_of(value);
    for (place, row) in rows.iter().enumerate() {
        if pair_of(row) == pair {
            return Some(place);
        }
    }
    None
}

fn pair_of(value: &Value) -> (&str, &str) {
    match value.as_table() {
        Some(table) => (
            text(table, "consumer").unwrap_or(""),
            text(table, "supplier").unwrap_or(""),
        ),
        None => ("", ""),
    }
}

/// A name that an item refers to: the key, and the section of what is named.
#[derive(Clone, Copy)]
struct Reference {
    key: &'static str,
    to: Section,
}

/// The references of an item of a section, of which there are at most two.
fn reference_of(section: Section, number: u32) -> Option<Reference> {
    let (key, to) = match (section, number) {
        (Section::Domain, 0) => ("parent", Section::Domain),
        (Section::Device, 0) => ("parent", Section::Device),
        (Section::Device, 1) => ("domain", Section::Domain),
        (Section::Link, 0) => ("consumer", Section::Device),
        (Section::Link, 1) => ("supplier", Section::Device),
        _ => return None,
    };
    Some(Reference { key, to })
}

/// The note on a name that isn't there. Fails where memory runs out.
pub fn unknown_note<'a>(
    alloc: Global,
    tree: &'a Table,
    section: Section,
    item: usize,
) -> Result<Option<Note<'a>>, NoMemory> {
    let Some(table) = row(tree, section, item) else {
        return Ok(None);
    };
    for number in 0..2 {
        if let Some(lost) = reference_of(section, number) {
            if let Some(name) = text(table, lost.key) {
                if place_of(list(tree, lost.to), name).is_none() {
                    return Ok(Some(lost_note(alloc, tree, section, item, lost, name)?));
                }
            }
        }
    }
    Ok(None)
}

fn lost_note<'a>(
    alloc: Global,
    tree: &'a Table,
    section: Section,
    item: usize,
    lost: Reference,
    name: &'a str,
) -> Result<Note<'a>, NoMemory> {
    let who = called(alloc, tree, section, item)?;
    let (word, front) = (lost.to.word(), shown(name));
    let message = format!(in alloc; "{who}: no {word} {front:?}")?;
    let note = Note::on_value(alloc, message, key_path(section, item, lost.key));
    match nearest_row(alloc, list(tree, lost.to), name)? {
        Some(guess) => note.with_hint(format!(in alloc; "did you mean {guess:?}?")?),
        None => Ok(note),
    }
}

/// The nearest name of the rows.
pub fn nearest_row<'a>(
    alloc: Global,
    rows: &'a [Value],
    name: &'a str,
) -> Result<Option<&'a str>, NoMemory> {
    let mut guess = Guess::new(name);
    for row in rows {
        guess.look_at(alloc, name_of(row))?;
    }
    Ok(guess.best())
}

/// The note on what stands later. Fails where memory runs out.
pub fn later_note<'a>(
    alloc: Global,
    tree: &'a Table,
    section: Section,
    item: usize,
) -> Result<Option<Note<'a>>, NoMemory> {
    let Some(table) = row(tree, section, item) else {
        return Ok(None);
    };
    let (key, to) = match section {
        Section::Link => ("supplier", Section::Device),
        _ => ("parent", section),
    };
    let Some(name) = text(table, key) else {
        return Ok(None);
    };
    let Some(place) = place_of(list(tree, to), name) else {
        return Ok(None);
    };
    let who = called(alloc, tree, section, item)?;
    let front = shown(name);
    let message = format!(in alloc; "{who}: its {key} {front:?} doesn't stand before it")?;
    let note = Note::on_value(alloc, message, key_path(section, item, key));
    if place == item && section != Section::Link {
        return Ok(Some(note.with_hint(format!(in alloc; "it is its own {key}")?)?));
    }
    Ok(Some(with_order(alloc, note, section, to, place)?))
}

fn with_order<'a>(
    alloc: Global,
    note: Note<'a>,
    section: Section,
    to: Section,
    place: usize,
) -> Result<Note<'a>, NoMemory> {
    let note = note.with_other("it stands at line ", item_path(to, place));
    let hint = match section {
        Section::Link => format!(in alloc;
            "a supplier stands before its consumer among the devices"
        )?,
        _ => format!(in alloc; "a parent stands before its children")?,
    };
    note.with_hint(hint)
}

/// The note on a device with `no_callbacks` and a domain. Fails where memory runs out.
pub fn domain_note<'a>(
    alloc: Global,
    tree: &'a Table,
    item: usize,
) -> Result<Option<Note<'a>>, NoMemory> {
    let who = called(alloc, tree, Section::Device, item)?;
    let message = format!(in alloc; "{who} has \"no_callbacks\" and a domain")?;
    let at = key_path(Section::Device, item, "no_callbacks");
    let note = Note::on_key(alloc, message, at);
    let domain = key_path(Section::Device, item, "domain");
    Ok(Some(note.with_other("the domain is at line ", domain)))
}

/// The note on a link that acts on a consumer with `no_callbacks`. Fails where memory runs out.
pub fn link_note<'a>(
    alloc: Global,
    tree: &'a Table,
    item: usize,
) -> Result<Option<Note<'a>>, NoMemory> {
    let Some(table) = row(tree, Section::Link, item) else {
        return Ok(None);
    };
    let Some(name) = text(table, "consumer") else {
        return Ok(None);
    };
    let Some(place) = place_of(list(tree, Section::Device), name) else {
        return Ok(None);
    };
    let who = called(alloc, tree, Section::Link, item)?;
    let message = format!(in alloc; "{who}: its consumer has \"no_callbacks\"")?;
    let at = key_path(Section::Link, item, "consumer");
    let note = Note::on_value(alloc, message, at);
    let other = key_path(Section::Device, place, "no_callbacks");
    let note = note.with_other("that stands at line ", other);
    let hint = format!(in alloc; "with pm_runtime = false the link has no effect")?;
    Ok(Some(note.with_hint(hint)?))
}
