//! What looks wrong in a driver that is one.

ghost use Rattle.std.specs.Prelude.{◌≤◌};

use crate::steps::note_at;
use crate::tree_words::{step_text, word_at, words_before};
use pm_base::NoMemory;
use pm_driver_read::{Driver, DriverCaller};
use pm_driver_script::{Goal, ProgramPlace, Standing};
use pm_messages::notes::{Note, list, list_under};
use pm_planread::tree::Section;
use std::alloc::Global;
use toml::Table;

/// What looks wrong with a step.
#[derive(Clone, Copy, PartialEq, Eq)]
pub enum StepLint {
    /// No way reaches it.
    Unreached,
    /// It gives back a lock that its caller doesn't hold.
    Unheld,
    /// It takes a lock, and the script ends with it held.
    Held,
    /// Nothing goes to its label.
    Unused,
    /// An exit of `resume_and_get` by 1, which it never answers.
    NeverOne,
    /// A mark that stands before a step that may fail: others may begin though it does.
    Early,
}

/// The step of the file that a step of the program is of.
fn line_at(caller: &DriverCaller, step: u32) -> Option<u32> {
    *caller.lines.as_slice().get(step as usize)?
}

/// Whether a place is of this step of the file.
fn is_of(caller: &DriverCaller, place: &ProgramPlace, step: u32) -> bool {
    match place.standing.goal {
        Goal::At { step: at, .. } => line_at(caller, at) == Some(step),
        Goal::Returned | Goal::Failed => false,
    }
}

/// Whether a way comes to a step.
fn is_reached(caller: &DriverCaller, step: u32) -> bool {
    for place in caller.program.places.as_slice() {
        if is_of(caller, place, step) {
            return true;
        }
    }
    false
}

/// The verb of a step's string.
fn verb_of_text(text: &str) -> &str {
    word_at(text, words_before(text)).unwrap_or("")
}

/// Whether a step is a jump or an end, at which no caller stands.
fn is_jump(text: &str) -> bool {
    match verb_of_text(text) {
        "goto" | "return" | "fail" => true,
        _ => false,
    }
}

/// Whether a step gives back a lock that isn't held where a way comes to it.
fn is_unheld(caller: &DriverCaller, step: u32) -> bool {
    for place in caller.program.places.as_slice() {
        if is_of(caller, place, step) && place.standing.past.locks == 0 {
            return true;
        }
    }
    false
}

/// Whether the caller may end with a lock held.
fn ends_holding(caller: &DriverCaller) -> bool {
    for end in caller.program.ends.as_slice() {
        if holds_lock(end) {
            return true;
        }
    }
    false
}

fn holds_lock(standing: &Standing) -> bool {
    standing.past.locks != 0
}

/// Whether a step's string goes to a label, by its jump or an exit.
fn goes_to(text: &str, label: &str) -> bool {
    let mut first = true;
    for word in text.split(' ') {
        if !word.is_empty() {
            if !first && word == label {
                return true;
            }
            first = false;
        }
    }
    false
}

/// Whether a step of a caller goes to a label.
fn is_used(tree: &Table, caller: usize, label: &str) -> bool {
    for text in texts_of(tree, caller) {
        if let Some(text) = text.as_str() {
            if goes_to(text, label) {
                return true;
            }
        }
    }
    false
}

fn texts_of(tree: &Table, caller: usize) -> &[toml::Value] {
    match list(tree, Section::Caller).get(caller) {
        Some(value) => match value.as_table() {
            Some(table) => list_under(table, "script"),
            None => &[],
        },
        None => &[],
    }
}

/// Whether nothing goes to the label of a step.
fn is_label_unused(tree: &Table, caller: usize, text: &str) -> bool {
    match word_at(text, 0) {
        Some(word) => match word.strip_suffix(":") {
            Some(label) => !is_used(tree, caller, label),
            None => false,
        },
        None => false,
    }
}

/// The word of this number behind what stands before a step's verb.
fn word_behind(text: &str, number: usize) -> Option<&str>
    requires { number ≤ 64 }
{
    word_at(text, words_before(text) + number)
}

/// Words of a step's string that are looked at, at most.
const MOST_WORDS: usize = 40;

/// Whether a step has an exit by 1.
fn has_one(text: &str) -> bool {
    for number in 2..MOST_WORDS {
        if word_behind(text, number) == Some("on") && word_behind(text, number + 1) == Some("1") {
            return true;
        }
    }
    false
}

/// Whether a step is one of the driver's own that may fail.
fn may_fail(text: &str) -> bool {
    verb_of_text(text) == "do" && word_behind(text, 2).is_some()
}

/// What looks wrong with the words of a step, behind which another stands.
fn words_lint(text: &str, next: &str) -> Option<StepLint> {
    match verb_of_text(text) {
        "resume_and_get" if has_one(text) => Some(StepLint::NeverOne),
        "mark" if may_fail(next) => Some(StepLint::Early),
        _ => None,
    }
}

/// What looks wrong with a step.
fn lint_of(
    tree: &Table,
    caller: usize,
    made: &DriverCaller,
    step: u32,
    text: &str,
    next: &str,
) -> Option<StepLint> {
    if is_label_unused(tree, caller, text) {
        return Some(StepLint::Unused);
    }
    if is_jump(text) {
        return None;
    }
    if !is_reached(made, step) {
        return Some(StepLint::Unreached);
    }
    match verb_of_text(text) {
        "unlock" if is_unheld(made, step) => Some(StepLint::Unheld),
        "lock" if ends_holding(made) => Some(StepLint::Held),
        _ => words_lint(text, next),
    }
}

fn words_of_lint(lint: StepLint) -> &'static str {
    match lint {
        StepLint::Unreached => "no way comes to it",
        StepLint::Unheld => "the lock isn't held on a way that comes to it",
        StepLint::Held => "the script may end with a lock held",
        StepLint::Unused => "nothing goes to its label",
        StepLint::NeverOne => "resume_and_get answers 0 or a code below 0, never 1",
        StepLint::Early => "it stands before a step that may fail: others may begin though it does",
    }
}

/// The notes on what looks wrong in a caller's steps. Fails where memory runs out.
fn push_lints<'a>(
    alloc: Global,
    notes: &mut Vec<Note<'a>>,
    tree: &'a Table,
    caller: usize,
    made: &DriverCaller,
) -> Result<(), NoMemory> {
    let count = texts_of(tree, caller).len();
    for step in 0..count {
        let text = step_text(tree, caller, step).unwrap_or("");
        let next = step_text(tree, caller, step.saturating_add(1)).unwrap_or("");
        let number = step.min(u32::MAX as usize) as u32;
        if let Some(lint) = lint_of(tree, caller, made, number, text, next) {
            notes.push(note_at(alloc, tree, caller, step, words_of_lint(lint))?)?;
        }
    }
    Ok(())
}

/// The notes on what looks wrong in a driver. Fails where memory runs out.
pub fn lint_notes<'a>(
    alloc: Global,
    tree: &'a Table,
    driver: &Driver,
) -> Result<Vec<Note<'a>>, NoMemory> {
    let mut notes = Vec::new(alloc);
    for (caller, made) in driver.callers.as_slice().iter().enumerate() {
        push_lints(alloc, &mut notes, tree, caller, made)?;
    }
    Ok(notes)
}
