//! Whether a file has a driver's words, and the words of a step's string.

ghost use Rattle.std.specs.Prelude.{◌≤◌};

use pm_messages::notes::{list, list_under};
use pm_planread::tree::Section;
use toml::{Table, Value};

/// The keys that a driver's callers have beside a plan's.
pub const CALLER_KEYS: &str = "name script after times irq role binds bus adopts";

/// The keys of a driver's devices.
pub const DEVICE_KEYS: &str =
    "name parent domain ignore_children no_callbacks busy idle suspend resume idle_ms suspend_ms resume_ms fails";

/// The words that say what a driver's step does, beside the words of helpers.
pub const STEP_WORDS: &str =
    "resume_and_get touch do ask set clear wait mark stop lock unlock goto return fail devm devm_enable force_suspend force_resume";

/// Whether a word is one of these.
fn is_step_word(word: &str) -> bool {
    for known in STEP_WORDS.split_whitespace() {
        if known == word {
            return true;
        }
    }
    false
}

/// Whether a table of a driver has a key that a plan's hasn't.
fn has_own_key(table: &Table) -> bool {
    for (key, _) in table.iter() {
        match key.as_str() {
            "after" | "times" | "irq" | "role" | "binds" | "bus" | "adopts" | "fails" => {
                return true;
            }
            _ => {}
        }
    }
    false
}

/// Whether the string of a step has a driver's word: a label, one of its verbs, or an exit.
fn has_own_word(step: &str) -> bool {
    let mut first = true;
    for word in step.split(' ') {
        if !word.is_empty() {
            if (first && (word.ends_with(":") || is_step_word(word))) || word == "or" {
                return true;
            }
            first = false;
        }
    }
    false
}

fn is_own_row(value: &Value) -> bool {
    let Some(table) = value.as_table() else {
        return false;
    };
    if has_own_key(table) {
        return true;
    }
    for step in list_under(table, "script") {
        if let Some(text) = step.as_str() {
            if has_own_word(text) {
                return true;
            }
        }
    }
    false
}

/// Whether a tree has a driver's words: keys or steps that a plan hasn't. Contracts claim nothing of it.
pub fn has_driver_words(tree: &Table) -> bool {
    for value in list(tree, Section::Caller) {
        if is_own_row(value) {
            return true;
        }
    }
    for value in list(tree, Section::Device) {
        if is_own_row(value) {
            return true;
        }
    }
    false
}

/// The string of a step.
pub fn step_text(tree: &Table, caller: usize, step: usize) -> Option<&str> {
    let table = list(tree, Section::Caller).get(caller)?.as_table()?;
    list_under(table, "script").get(step)?.as_str()
}

/// The word of this number of a text, counted from 0.
pub fn word_at(text: &str, number: usize) -> Option<&str> {
    let mut left = number;
    for word in text.split(' ') {
        if !word.is_empty() {
            if left == 0 {
                return Some(word);
            }
            left -= 1;
        }
    }
    None
}

/// How many words of a step's string stand before what it does: its label, and `devm`.
pub fn words_before(text: &str) -> usize
    ensures { result ≤ 2 }
{
    let labelled = match word_at(text, 0) {
        Some(word) => word.ends_with(":"),
        None => false,
    };
    let before = if labelled { 1 } else { 0 };
    match word_at(text, before) {
        Some("devm") => before + 1,
        _ => before,
    }
}
