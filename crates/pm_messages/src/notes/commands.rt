//! Commands that are none.

use crate::notes::names::nearest_row;
use crate::notes::note::Note;
use crate::notes::rows::{called, element_path, list, list_under, place_of, row, shown};
use pm_base::{MAX_MS, NoMemory};
use pm_linetext::{helper_of, operand_of, takes_device};
use pm_model::{Helper, Operand};
use pm_names::helpers;
use pm_planread::tree::Section;
use pm_spans::nearest::Guess;
use std::alloc::Global;
use toml::{Table, Value};

/// Helpers that there are.
const HELPERS: usize = 34;

/// What is wrong with a command, and what may help.
#[derive(Drop)]
struct Wrong {
    what: String,
    hint: Option<String>,
}

/// The note on a command. Fails where memory runs out.
pub fn command_note<'a>(
    alloc: Global,
    tree: &'a Table,
    item: usize,
    part: usize,
) -> Result<Option<Note<'a>>, NoMemory> {
    let Some(table) = row(tree, Section::Caller, item) else {
        return Ok(None);
    };
    let Some(value) = list_under(table, "script").get(part) else {
        return Ok(None);
    };
    let Some(command) = value.as_str() else {
        return Ok(None);
    };
    let who = called(alloc, tree, Section::Caller, item)?;
    let Wrong { what, hint } = wrong_in(alloc, command, list(tree, Section::Device))?;
    let front = shown(command);
    let message = format!(in alloc; "{who}: {front:?}: {what}")?;
    let at = element_path(Section::Caller, item, "script", part);
    let note = Note::on_value(alloc, message, at);
    match hint {
        Some(hint) => Ok(Some(note.with_hint(hint)?)),
        None => Ok(Some(note)),
    }
}

fn plain(what: String) -> Wrong {
    Wrong { what, hint: None }
}

fn hinted(what: String, hint: String) -> Wrong {
    Wrong {
        what,
        hint: Some(hint),
    }
}

/// The first words of a command.
#[derive(Clone, Copy)]
struct Words<'a> {
    helper: &'a str,
    second: &'a str,
    third: &'a str,
    fourth: &'a str,
}

fn words_of(command: &str) -> Words {
    let mut words = Words {
        helper: "",
        second: "",
        third: "",
        fourth: "",
    };
    let mut count = 0u32;
    for word in command.split(' ') {
        if !word.is_empty() {
            match count {
                0 => words.helper = word,
                1 => words.second = word,
                2 => words.third = word,
                3 => words.fourth = word,
                _ => return words,
            }
            count += 1;
        }
    }
    words
}

fn wrong_in(alloc: Global, command: &str, devices: &[Value]) -> Result<Wrong, NoMemory> {
    if command.contains('\t') {
        let what = format!(in alloc; "a tab is no space")?;
        return Ok(hinted(what, format!(in alloc; "write spaces between the words")?));
    }
    let words = words_of(command);
    match helper_named(words.helper) {
        Some(helper) => wrong_with(alloc, helper, words, devices),
        None => wrong_helper(alloc, words),
    }
}

fn helper_named(word: &str) -> Option<Helper> {
    helper_of(helpers().number_of(word.as_bytes())?)
}

/// No such helper.
fn wrong_helper(alloc: Global, words: Words) -> Result<Wrong, NoMemory> {
    let word = words.helper;
    if word.is_empty() {
        return Ok(plain(format!(in alloc; "there is no word in it")?));
    }
    let front = shown(word);
    let what = format!(in alloc; "no helper {front:?}")?;
    let bare = word.strip_prefix("pm_runtime_").unwrap_or(word);
    if helper_named(bare).is_some() && bare.len() < word.len() {
        let hint = format!(in alloc; "write {bare:?}, without \"pm_runtime_\"")?;
        return Ok(hinted(what, hint));
    }
    if let Some(instead) = instead_of(bare) {
        return Ok(hinted(what, format!(in alloc; "{instead}")?));
    }
    guessed_helper(alloc, what, bare)
}

fn guessed_helper(alloc: Global, what: String, word: &str) -> Result<Wrong, NoMemory> {
    let words = helpers();
    let mut guess = Guess::new(word);
    for place in 0..HELPERS {
        if let Ok(name) = std::str::from_utf8(words.name_of(place)) {
            guess.look_at(alloc, name)?;
        }
    }
    match guess.best() {
        Some(name) => Ok(hinted(what, format!(in alloc; "did you mean {name:?}?")?)),
        None => Ok(plain(what)),
    }
}

/// What to write for a helper of the kernel that isn't modelled.
fn instead_of(helper: &str) -> Option<&'static str> {
    match helper {
        "resume_and_get" => Some(
            "write \"get_sync\"; where that may fail a driver file has resume_and_get, with where to go on",
        ),
        "force_suspend" => Some(
            "write \"disable\", and \"set_suspended\" where it is active; a driver file has force_suspend",
        ),
        "force_resume" => Some(
            "write \"set_active\" where it was in use, and \"enable\"; a driver file has force_resume",
        ),
        "devm_pm_runtime_enable" | "devm_enable" => Some(
            "write \"enable\", and \"disable\" where the driver is gone; a driver file has devm_enable",
        ),
        "get_active" => Some("it isn't modelled: write \"get_sync\""),
        "no_callbacks" => Some("it is a key of the device: write no_callbacks = true there"),
        "irq_safe" => Some("it isn't modelled: no callback runs with interrupts off"),
        "active" | "suspended" | "status_suspended" | "enabled" => Some(
            "it only asks, and a plan's script takes no branch: a driver file has \"ask\"",
        ),
        "set_memalloc_noio" | "reinit" | "init" | "remove" | "get_suppliers" | "put_suppliers" =>
            Some("it is of the core's own, and isn't modelled"),
        _ => None,
    }
}

/// A word that is missing, none, or too much.
fn wrong_with(
    alloc: Global,
    helper: Helper,
    words: Words,
    devices: &[Value],
) -> Result<Wrong, NoMemory> {
    let name = words.helper;
    if takes_device(helper) && place_of(devices, words.second).is_none() {
        return wrong_device(alloc, words, words.second, devices);
    }
    let (operand, left) = if takes_device(helper) {
        (words.third, words.fourth)
    } else {
        (words.second, words.third)
    };
    match operand_of(helper) {
        Operand::Milliseconds if !is_taken(helper, operand) => wrong_number(
            alloc, helper, name, operand,
        ),
        Operand::Switch if operand != "on" && operand != "off" => Ok(plain(format!(in alloc;
            "{name:?} wants on or off behind its device"
        )?)),
        Operand::Supplier if place_of(devices, operand).is_none() => wrong_device(
            alloc, words, operand, devices,
        ),
        Operand::Nothing => wrong_rest(alloc, operand),
        _ => wrong_rest(alloc, left),
    }
}

fn wrong_rest(alloc: Global, left: &str) -> Result<Wrong, NoMemory> {
    let left = shown(left);
    Ok(plain(format!(in alloc; "{left:?} is one word too much")?))
}

fn wrong_device(
    alloc: Global,
    words: Words,
    name: &str,
    devices: &[Value],
) -> Result<Wrong, NoMemory> {
    let helper = words.helper;
    if name.is_empty() {
        return Ok(plain(format!(in alloc; "{helper:?} wants a device")?));
    }
    let front = shown(name);
    let what = format!(in alloc; "no device {front:?}")?;
    let (second, third) = (words.second, words.third);
    if place_of(devices, third).is_some() && !third.is_empty() && number_in(second).is_some() {
        let hint = format!(in alloc;
            "write \"{helper} {third} {second}\": the device comes first"
        )?;
        return Ok(hinted(what, hint));
    }
    match nearest_row(alloc, devices, name)? {
        Some(guess) => Ok(hinted(what, format!(in alloc; "did you mean {guess:?}?")?)),
        None => Ok(plain(what)),
    }
}

/// The number that a word writes.
fn number_in(word: &str) -> Option<i64> {
    let digits = word.strip_prefix("-").unwrap_or(word);
    if digits.is_empty() || digits.len() > 10 || !digits.bytes().all(|c| c.is_ascii_digit()) {
        return None;
    }
    word.parse::<i64>().ok()
}

fn least(helper: Helper) -> i64 {
    match helper {
        Helper::SetAutosuspendDelay => -i64::from(MAX_MS),
        _ => 0,
    }
}

fn is_taken(helper: Helper, word: &str) -> bool {
    match number_in(word) {
        Some(number) => least(helper) <= number && number <= i64::from(MAX_MS),
        None => false,
    }
}

fn wrong_number(alloc: Global, helper: Helper, name: &str, word: &str) -> Result<Wrong, NoMemory> {
    if word.is_empty() {
        return Ok(plain(format!(in alloc; "{name:?} wants a number of milliseconds")?));
    }
    let front = shown(word);
    if let Some(number) = number_in(word) {
        let low = least(helper);
        return Ok(plain(format!(in alloc; "{number} isn't from {low} to {MAX_MS}")?));
    }
    let what = format!(in alloc; "{front:?} is no number")?;
    match in_milliseconds(word) {
        Some(number) => Ok(hinted(
            what,
            format!(in alloc; "write {number}: times are in milliseconds")?,
        )),
        None => Ok(plain(what)),
    }
}

/// The milliseconds of a time with its unit.
fn in_milliseconds(word: &str) -> Option<u32> {
    if let Some(number) = word.strip_suffix("ms") {
        return number.parse::<u32>().ok();
    }
    let seconds = word.strip_suffix("s")?.parse::<u32>().ok()?;
    seconds.checked_mul(1000)
}
