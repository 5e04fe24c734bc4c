//! Too many of something, numbers out of their range, and codes that are none.

use crate::notes::kinds::before_key;
use crate::notes::note::Note;
use crate::notes::rows::{called, element_path, item_path, key_path, list_under, row};
use pm_base::{
    EACCES, MAX_CALLERS, MAX_CODES, MAX_COMMANDS, MAX_DEVICES, MAX_DOMAINS, MAX_LINES, MAX_LINKS,
    MAX_MS, MIN_CODE, NoMemory,
};
use pm_planread::tree::Section;
use std::alloc::Global;
use toml::{Table, Value};

/// The keys of a device's lists of codes, in the order in which they are looked at.
fn code_key(number: u32) -> &'static str {
    match number {
        0 => "idle",
        1 => "suspend",
        _ => "resume",
    }
}

/// The keys of a device's times, in the order in which they are looked at.
fn time_key(number: u32) -> &'static str {
    match number {
        0 => "idle_ms",
        1 => "suspend_ms",
        _ => "resume_ms",
    }
}

fn limit_of(section: Section) -> usize {
    match section {
        Section::Top | Section::Domain => MAX_DOMAINS,
        Section::Device => MAX_DEVICES,
        Section::Link => MAX_LINKS,
        Section::Caller => MAX_CALLERS,
    }
}

/// The note on an item past the limit, or on a list that is too long. Fails where memory runs out.
pub fn many_note<'a>(
    alloc: Global,
    tree: &'a Table,
    section: Section,
    item: usize,
    part: usize,
) -> Result<Option<Note<'a>>, NoMemory> {
    if part == 0 {
        let (word, limit) = (section.word(), limit_of(section));
        let message = format!(in alloc; "more than {limit} {word}s")?;
        return Ok(Some(Note::on_value(alloc, message, item_path(section, item))));
    }
    let Some(table) = row(tree, section, item) else {
        return Ok(None);
    };
    let (key, limit) = match section {
        Section::Caller => ("script", MAX_COMMANDS),
        _ => (long_key(table), MAX_CODES),
    };
    let who = called(alloc, tree, section, item)?;
    let message = format!(in alloc; "{who}: {key:?} has more than {limit} elements")?;
    Ok(Some(Note::on_value(alloc, message, element_path(section, item, key, limit))))
}

/// The first list of codes that is too long.
fn long_key(table: &Table) -> &'static str {
    for number in 0..3 {
        if list_under(table, code_key(number)).len() > MAX_CODES {
            return code_key(number);
        }
    }
    code_key(0)
}

/// The note on a number out of its range: of the top the first, or for part 1 the one behind it. Fails where memory runs out.
pub fn number_note<'a>(
    alloc: Global,
    tree: &'a Table,
    section: Section,
    item: usize,
    part: usize,
) -> Result<Option<Note<'a>>, NoMemory> {
    let (table, key, low, high) = match section {
        Section::Top => top_number(tree, part),
        _ => match row(tree, section, item) {
            Some(table) => (table, bad_time(table), 0, MAX_MS),
            None => return Ok(None),
        },
    };
    let Some(number) = number_in(table, key) else {
        return Ok(None);
    };
    let before = before_key(alloc, tree, section, item)?;
    let message = format!(in alloc; "{before}{key:?} is {number}, and wants {low} to {high}")?;
    Ok(Some(Note::on_value(alloc, message, key_path(section, item, key))))
}

/// Whether `lines` is out of its range.
pub fn lines_are_outside(tree: &Table) -> bool {
    is_outside(tree, "lines", 1, MAX_LINES)
}

fn top_number(tree: &Table, part: usize) -> (&Table, &'static str, u32, u32) {
    if part == 0 && lines_are_outside(tree) {
        (tree, "lines", 1, MAX_LINES)
    } else {
        (tree, "trace", 1, 2)
    }
}

/// The first time of a device that is out of its range.
fn bad_time(table: &Table) -> &'static str {
    for number in 0..3 {
        if is_outside(table, time_key(number), 0, MAX_MS) {
            return time_key(number);
        }
    }
    time_key(0)
}

fn is_outside(table: &Table, key: &str, low: u32, high: u32) -> bool {
    match number_in(table, key) {
        Some(number) => number < i64::from(low) || i64::from(high) < number,
        None => false,
    }
}

fn number_in(table: &Table, key: &str) -> Option<i64> {
    table.get(key)?.as_integer()
}

/// The note on a code that is none. Fails where memory runs out.
pub fn code_note<'a>(
    alloc: Global,
    tree: &'a Table,
    item: usize,
    part: usize,
) -> Result<Option<Note<'a>>, NoMemory> {
    let Some(table) = row(tree, Section::Device, item) else {
        return Ok(None);
    };
    let key = bad_list(table);
    let Some(value) = list_under(table, key).get(part) else {
        return Ok(None);
    };
    let Some(code) = value.as_integer() else {
        return Ok(None);
    };
    let who = called(alloc, tree, Section::Device, item)?;
    let message = format!(in alloc; "{who}: {code} in {key:?} is no code")?;
    let note = Note::on_value(
        alloc,
        message,
        element_path(Section::Device, item, key, part),
    );
    Ok(Some(note.with_hint(code_hint(alloc, code)?)?))
}

fn code_hint(alloc: Global, code: i64) -> Result<String, NoMemory> {
    if code == i64::from(EACCES) {
        return Ok(format!(in alloc; "the core itself answers {code} where a device is disabled")?);
    }
    if 0 < code && code <= 4095 && code != 13 {
        return Ok(format!(in alloc; "an error is negative: did you mean -{code}?")?);
    }
    Ok(format!(in alloc; "a code is 0, or {MIN_CODE} to -1 but for {EACCES}")?)
}

/// The first list with a code that is none.
fn bad_list(table: &Table) -> &'static str {
    for number in 0..3 {
        if has_other_code(list_under(table, code_key(number))) {
            return code_key(number);
        }
    }
    code_key(0)
}

fn has_other_code(values: &[Value]) -> bool {
    for value in values {
        if let Some(code) = value.as_integer() {
            if !is_code(code) {
                return true;
            }
        }
    }
    false
}

fn is_code(code: i64) -> bool {
    i64::from(MIN_CODE) <= code && code <= 0 && code != i64::from(EACCES)
}
