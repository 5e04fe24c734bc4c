//! Values of another kind than their keys'.

use crate::notes::keys::key_number;
use crate::notes::note::Note;
use crate::notes::rows::{called, elements, item_path, key_path, list, row, shown};
use pm_base::NoMemory;
use pm_planread::tree::Section;
use pm_spans::keys::Path;
use std::alloc::Global;
use toml::{Table, Value};

/// What a value is, in words.
fn kind_word(value: &Value) -> &'static str {
    match value {
        Value::String(_) => "a string",
        Value::Integer(_) => "an integer",
        Value::Float(_) => "a number with a point",
        Value::Boolean(_) => "true or false",
        Value::Datetime(_) => "a date",
        Value::Array(_) => "an array",
        Value::Table(_) => "a table",
    }
}

/// What a key wants.
#[derive(Clone, Copy, PartialEq, Eq)]
enum Want {
    Text,
    Number,
    Switch,
    Numbers,
    Texts,
    Tables,
}

fn want_of(key: &str) -> Want {
    match key {
        "lines" | "trace" | "idle_ms" | "suspend_ms" | "resume_ms" => Want::Number,
        "always_on" | "ignore_children" | "no_callbacks" | "busy" | "pm_runtime" | "later" =>
            Want::Switch,
        "idle" | "suspend" | "resume" => Want::Numbers,
        "script" => Want::Texts,
        _ => Want::Text,
    }
}

fn want_word(want: Want) -> &'static str {
    match want {
        Want::Text => "a string",
        Want::Number => "an integer",
        Want::Switch => "true or false",
        Want::Numbers => "an array of integers",
        Want::Texts => "an array of strings",
        Want::Tables => "an array of tables",
    }
}

/// The note on a value. Fails where memory runs out.
pub fn kind_note<'a>(
    alloc: Global,
    tree: &'a Table,
    section: Section,
    item: usize,
    part: usize,
) -> Result<Option<Note<'a>>, NoMemory> {
    if let Section::Top = section {
        let Some(key) = key_number(tree, item) else {
            return Ok(None);
        };
        return top_note(alloc, tree, key);
    }
    let Some(table) = row(tree, section, item) else {
        return no_table_note(alloc, tree, section, item);
    };
    match key_number(table, part) {
        Some(key) => value_note(alloc, tree, table, section, item, key),
        None => Ok(None),
    }
}

fn top_note<'a>(
    alloc: Global,
    tree: &'a Table,
    key: &'a str,
) -> Result<Option<Note<'a>>, NoMemory> {
    if want_of(key) == Want::Number {
        return value_note(alloc, tree, tree, Section::Top, 0, key);
    }
    let Some(value) = tree.get(key) else {
        return Ok(None);
    };
    let (is, wants) = (kind_word(value), want_word(Want::Tables));
    let message = format!(in alloc; "{key:?} is {is}, and wants {wants}")?;
    let note = Note::on_value(alloc, message, key_path(Section::Top, 0, key));
    let hint = format!(in alloc; "write [[{key}]] before the keys of each {key}")?;
    Ok(Some(note.with_hint(hint)?))
}

fn no_table_note<'a>(
    alloc: Global,
    tree: &'a Table,
    section: Section,
    item: usize,
) -> Result<Option<Note<'a>>, NoMemory> {
    let Some(value) = list(tree, section).get(item) else {
        return Ok(None);
    };
    let (word, is) = (section.word(), kind_word(value));
    let number = item.saturating_add(1);
    let message = format!(in alloc; "{word} {number} is {is}, and wants a table")?;
    Ok(Some(Note::on_value(alloc, message, item_path(section, item))))
}

fn value_note<'a>(
    alloc: Global,
    tree: &'a Table,
    table: &'a Table,
    section: Section,
    item: usize,
    key: &'a str,
) -> Result<Option<Note<'a>>, NoMemory> {
    let Some(value) = table.get(key) else {
        return Ok(None);
    };
    let want = want_of(key);
    let before = before_key(alloc, tree, section, item)?;
    let wants = want_word(want);
    if let Some(index) = bad_element(want, value) {
        return element_note(alloc, before, value, key_path(section, item, key), index);
    }
    let is = kind_word(value);
    let message = format!(in alloc; "{before}{key:?} is {is}, and wants {wants}")?;
    let note = Note::on_value(alloc, message, key_path(section, item, key));
    Ok(Some(with_value(alloc, note, want, value)?))
}

/// What a message says before a key.
pub fn before_key(
    alloc: Global,
    tree: &Table,
    section: Section,
    item: usize,
) -> Result<String, NoMemory> {
    if let Section::Top = section {
        return Ok(String::new(alloc));
    }
    let who = called(alloc, tree, section, item)?;
    Ok(format!(in alloc; "{who}: ")?)
}

/// The first element of an array that is of another kind.
fn bad_element(want: Want, value: &Value) -> Option<usize> {
    for (index, element) in elements(value).iter().enumerate() {
        let fits = match want {
            Want::Numbers => element.is_integer(),
            Want::Texts => element.is_str(),
            Want::Text | Want::Number | Want::Switch | Want::Tables => true,
        };
        if !fits {
            return Some(index);
        }
    }
    None
}

fn element_note<'a>(
    alloc: Global,
    before: String,
    value: &'a Value,
    path: Path<'a>,
    index: usize,
) -> Result<Option<Note<'a>>, NoMemory> {
    let (Some(element), Some(key)) = (elements(value).get(index), path.key) else {
        return Ok(None);
    };
    let is = kind_word(element);
    let want = if key == "script" {
        Want::Text
    } else {
        Want::Number
    };
    let wants = want_word(want);
    let message = format!(in alloc; "{before}{key:?} has {is}, and wants {wants}")?;
    let at = Path {
        element: Some(index),
        ..path
    };
    let note = Note::on_value(alloc, message, at);
    Ok(Some(with_value(alloc, note, want, element)?))
}

/// With what may be written for the value.
fn with_value<'a>(
    alloc: Global,
    note: Note<'a>,
    want: Want,
    value: &Value,
) -> Result<Note<'a>, NoMemory> {
    let hint = match (want, value) {
        (Want::Number, Value::String(text)) => number_hint(alloc, text.as_str())?,
        (Want::Number, Value::Float(_)) => Some(format!(in alloc; "write a whole number")?),
        (Want::Numbers, Value::Integer(number)) => Some(format!(in alloc; "write [{number}]")?),
        (Want::Texts, Value::String(text)) => {
            let text = shown(text.as_str());
            Some(format!(in alloc; "write [{text:?}]")?)
        }
        (Want::Switch, Value::String(text)) => switch_hint(alloc, text.as_str())?,
        (Want::Switch, Value::Integer(number)) => Some(format!(in alloc;
            "write {}",
            *number != 0
        )?),
        (Want::Text, Value::Integer(number)) => Some(format!(in alloc; "write \"{number}\"")?),
        _ => None,
    };
    match hint {
        Some(hint) => note.with_hint(hint),
        None => Ok(note),
    }
}

/// The number that a string holds, or the code that it names.
fn number_hint(alloc: Global, text: &str) -> Result<Option<String>, NoMemory> {
    let number = match text.parse::<i64>() {
        Ok(number) => Some(number),
        Err(_) => code_named(text),
    };
    match number {
        Some(number) => Ok(Some(format!(in alloc; "write {number}, without quotes")?)),
        None => Ok(None),
    }
}

fn switch_hint(alloc: Global, text: &str) -> Result<Option<String>, NoMemory> {
    let word = match text {
        "true" | "yes" | "on" | "1" => "true",
        "false" | "no" | "off" | "0" => "false",
        _ => return Ok(None),
    };
    Ok(Some(format!(in alloc; "write {word}, without quotes")?))
}

/// The code that the kernel's name of an error stands for.
fn code_named(text: &str) -> Option<i64> {
    match text.trim_start_matches('-') {
        "EPERM" => Some(-1),
        "EIO" => Some(-5),
        "EAGAIN" => Some(-11),
        "ENOMEM" => Some(-12),
        "EBUSY" => Some(-16),
        "ENODEV" => Some(-19),
        "EINVAL" => Some(-22),
        "ETIMEDOUT" => Some(-110),
        "EINPROGRESS" => Some(-115),
        _ => None,
    }
}
