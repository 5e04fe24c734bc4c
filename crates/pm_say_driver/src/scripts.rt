//! Steps that are refused among those of their script.

ghost use Rattle.std.specs.Prelude.{◌≤◌};

use crate::steps::{caller_name, front_of, note_at};
use crate::tree_words::{step_text, word_at, words_before};
use pm_base::NoMemory;
use pm_driver_script::ScriptWhy;
use pm_messages::notes::{Note, element_path, list, list_under, name_of, place_of};
use pm_planread::tree::Section;
use pm_spans::nearest::Guess;
use std::alloc::Global;
use toml::{Table, Value};

/// The steps of a caller's script.
fn steps_of(tree: &Table, caller: usize) -> &[Value] {
    match list(tree, Section::Caller).get(caller) {
        Some(value) => match value.as_table() {
            Some(table) => list_under(table, "script"),
            None => &[],
        },
        None => &[],
    }
}

/// The label of a step's string.
fn label_of(text: &str) -> Option<&str> {
    word_at(text, 0)?.strip_suffix(":")
}

/// The first step that has the label.
fn labelled(steps: &[Value], label: &str) -> Option<usize> {
    for (step, value) in steps.iter().enumerate() {
        if let Some(text) = value.as_str() {
            if label_of(text) == Some(label) {
                return Some(step);
            }
        }
    }
    None
}

/// Whether a step of this number or a later one has the label.
fn is_further(steps: &[Value], from: usize, label: &str) -> bool {
    for (step, value) in steps.iter().enumerate() {
        if step > from {
            if let Some(text) = value.as_str() {
                if label_of(text) == Some(label) {
                    return true;
                }
            }
        }
    }
    false
}

/// Words of a step's string that may be labels of its exits, at most.
const MOST_WORDS: usize = 40;

/// The word of this number, where it is the label of an exit.
fn exit_label(text: &str, number: usize) -> Option<&str>
    requires { 1 ≤ number }
{
    let label = word_at(text, number)?;
    if word_at(text, number - 1) == Some("or") {
        return Some(label);
    }
    if number >= 2 && word_at(text, number - 2) == Some("on") {
        return Some(label);
    }
    None
}

/// The first label of a step that goes nowhere further on: of its jump, or of its exits.
fn lost_label<'a>(steps: &[Value], step: usize, text: &'a str) -> &'a str {
    let before = words_before(text);
    if word_at(text, before) == Some("goto") {
        let label = word_at(text, before + 1).unwrap_or("");
        if !is_further(steps, step, label) {
            return label;
        }
    }
    for number in 1..MOST_WORDS {
        if let Some(label) = exit_label(text, number) {
            if !is_further(steps, step, label) {
                return label;
            }
        }
    }
    ""
}

/// The note on a step that its script refuses. Fails where memory runs out.
pub fn script_note<'a>(
    alloc: Global,
    tree: &'a Table,
    caller: usize,
    step: usize,
    why: ScriptWhy,
) -> Result<Note<'a>, NoMemory> {
    let text = step_text(tree, caller, step).unwrap_or("");
    match why {
        ScriptWhy::Twice => twice_note(alloc, tree, caller, step, text),
        ScriptWhy::NoCaller => stranger_note(alloc, tree, caller, step, text),
        ScriptWhy::NoLabel => lost_note(alloc, tree, caller, step, text),
        ScriptWhy::Behind => behind_note(alloc, tree, caller, step, text),
    }
}

/// The note on a step that nothing can undo. Fails where memory runs out.
pub fn devm_note<'a>(
    alloc: Global,
    tree: &'a Table,
    caller: usize,
    step: usize,
) -> Result<Note<'a>, NoMemory> {
    let text = step_text(tree, caller, step).unwrap_or("");
    match word_at(text, words_before(text)) {
        Some("goto" | "return" | "fail") => {
            note_at(
                alloc,
                tree,
                caller,
                step,
                "devm of a step that can't undo anything",
            )
        }
        _ => {
            let note = note_at(alloc, tree, caller, step, "nothing undoes it")?;
            note.with_hint(format!(in alloc;
                "devm is of a probe: give its caller role = \"probe\" and binds, or write out what undoes it"
            )?)
        }
    }
}

/// A label that stands earlier too.
fn twice_note<'a>(
    alloc: Global,
    tree: &'a Table,
    caller: usize,
    step: usize,
    text: &str,
) -> Result<Note<'a>, NoMemory> {
    let label = label_of(text).unwrap_or("");
    let front = front_of(label);
    let what = format!(in alloc; "a second label {front:?}")?;
    let note = note_at(alloc, tree, caller, step, what.as_str())?;
    match labelled(steps_of(tree, caller), label) {
        Some(first) => Ok(note.with_other(
            "the first is at line ",
            element_path(Section::Caller, caller, "script", first),
        )),
        None => Ok(note),
    }
}

/// A label that isn't there.
fn lost_note<'a>(
    alloc: Global,
    tree: &'a Table,
    caller: usize,
    step: usize,
    text: &str,
) -> Result<Note<'a>, NoMemory> {
    let steps = steps_of(tree, caller);
    let label = lost_label(steps, step, text);
    let front = front_of(label);
    let what = format!(in alloc; "no label {front:?}")?;
    let note = note_at(alloc, tree, caller, step, what.as_str())?;
    let mut guess = Guess::new(label);
    for value in steps {
        if let Some(text) = value.as_str() {
            if let Some(other) = label_of(text) {
                guess.look_at(alloc, other)?;
            }
        }
    }
    match guess.best() {
        Some(near) => note.with_hint(format!(in alloc; "did you mean {near:?}?")?),
        None => note.with_hint(format!(in alloc;
            "write \"{front}: \" before the step that it goes to"
        )?),
    }
}

/// A label that stands before.
fn behind_note<'a>(
    alloc: Global,
    tree: &'a Table,
    caller: usize,
    step: usize,
    text: &str,
) -> Result<Note<'a>, NoMemory> {
    let steps = steps_of(tree, caller);
    let label = lost_label(steps, step, text);
    let front = front_of(label);
    let what = format!(in alloc; "the label {front:?} isn't further on")?;
    let note = note_at(alloc, tree, caller, step, what.as_str())?;
    let note = note.with_hint(format!(in alloc;
        "a script has no loops: say by times = N how often a caller runs it"
    )?)?;
    match labelled(steps, label) {
        Some(first) => Ok(note.with_other(
            "it is at line ",
            element_path(Section::Caller, caller, "script", first),
        )),
        None => Ok(note),
    }
}

/// A caller that isn't there.
fn stranger_note<'a>(
    alloc: Global,
    tree: &'a Table,
    caller: usize,
    step: usize,
    text: &str,
) -> Result<Note<'a>, NoMemory> {
    let names = word_at(text, words_before(text) + 1).unwrap_or("");
    let lost = lost_caller(tree, names);
    let front = front_of(lost);
    let what = format!(in alloc; "no caller {front:?}")?;
    let note = note_at(alloc, tree, caller, step, what.as_str())?;
    near_caller(alloc, tree, note, lost)
}

/// With the caller that may have been meant.
pub fn near_caller<'a>(
    alloc: Global,
    tree: &Table,
    note: Note<'a>,
    name: &str,
) -> Result<Note<'a>, NoMemory> {
    let mut guess = Guess::new(name);
    for value in list(tree, Section::Caller) {
        guess.look_at(alloc, name_of(value))?;
    }
    match guess.best() {
        Some(near) => note.with_hint(format!(in alloc; "did you mean {near:?}?")?),
        None => Ok(note),
    }
}

/// The first of names, which commas part, that is no caller's.
fn lost_caller<'a>(tree: &Table, names: &'a str) -> &'a str {
    for name in names.split(',') {
        if !is_caller(tree, name) {
            return name;
        }
    }
    ""
}

/// Whether a caller has this name.
pub fn is_caller(tree: &Table, name: &str) -> bool {
    let count = list(tree, Section::Caller).len();
    for caller in 0..count {
        if caller_name(tree, caller) == name {
            return true;
        }
    }
    false
}

/// The flag that a step's string names.
fn flag_in(text: &str) -> Option<&str> {
    let before = words_before(text);
    match word_at(text, before)? {
        "set" | "clear" | "ask" => word_at(text, before + 1),
        "wait" => match word_at(text, before + 1) {
            Some("not") => word_at(text, before + 2),
            other => other,
        },
        _ => None,
    }
}

/// The first step of a caller whose flag has the name of a device, or of a flag of `devm` or of `force_resume`.
fn flag_step(tree: &Table, caller: usize) -> Option<usize> {
    for (step, value) in steps_of(tree, caller).iter().enumerate() {
        if let Some(flag) = flag_in(value.as_str().unwrap_or("")) {
            if place_of(list(tree, Section::Device), flag).is_some()
                || flag.starts_with("devm-")
                || flag.starts_with("force-")
            {
                return Some(step);
            }
        }
    }
    None
}

/// The note on a flag whose name is taken. Fails where memory runs out.
pub fn flag_note<'a>(alloc: Global, tree: &'a Table) -> Result<Note<'a>, NoMemory> {
    let what = "a flag has the name of a device, or of a flag of devm or force_resume";
    let count = list(tree, Section::Caller).len();
    for caller in 0..count {
        if let Some(step) = flag_step(tree, caller) {
            return note_at(alloc, tree, caller, step, what);
        }
    }
    let message = format!(in alloc; "{what}")?;
    Ok(Note::on_text(alloc, message))
}
