//! What may have been meant. Contracts claim nothing of what is guessed.

use pm_base::NoMemory;
use pm_expect::{Key, Section, times_by};
use pm_messages::notes::text;
use pm_model::{Command, Plan};
use pm_module::push_command;
use pm_script::read_command;
use pm_spans::nearest::{Guess, nearest};
use std::alloc::Global;
use toml::Table;

/// The keys of a section's tables, with spaces between them.
fn keys_of(section: Section) -> &'static str {
    match section {
        Section::Top => "answer end use",
        Section::Answer => "caller command nth code",
        Section::End => "device status usage",
        Section::Use => "device caller command",
    }
}

/// For a key that there isn't: the one that may have been meant, or else all keys that there are.
pub(crate) fn key_hint(alloc: Global, section: Section, key: &str) -> Result<String, NoMemory> {
    let keys = keys_of(section);
    match nearest(alloc, key, keys)? {
        Some(guess) => Ok(format!(in alloc; "did you mean {guess:?}?")?),
        None => Ok(format!(in alloc; "the keys are: {keys}")?),
    }
}

/// For a section that is no list of tables.
pub(crate) fn list_hint(alloc: Global, section: Section) -> Result<String, NoMemory> {
    let word = section.word();
    Ok(format!(in alloc; "write [[{word}]], and its keys below it")?)
}

fn meant(alloc: Global, guess: Option<&str>) -> Result<Option<String>, NoMemory> {
    match guess {
        Some(guess) => Ok(Some(format!(in alloc; "did you mean {guess:?}?")?)),
        None => Ok(None),
    }
}

/// For a caller that there isn't.
pub(crate) fn caller_hint(
    alloc: Global,
    plan: &Plan,
    table: &Table,
) -> Result<Option<String>, NoMemory> {
    let mut guess = Guess::new(text(table, Key::Caller.word()).unwrap_or(""));
    for row in plan.callers.as_slice() {
        if let Ok(name) = str::from_utf8(row.name.as_slice()) {
            guess.look_at(alloc, name)?;
        }
    }
    meant(alloc, guess.best())
}

/// For a device that there isn't.
pub(crate) fn device_hint(
    alloc: Global,
    plan: &Plan,
    table: &Table,
) -> Result<Option<String>, NoMemory> {
    let mut guess = Guess::new(text(table, Key::Device.word()).unwrap_or(""));
    for row in plan.devices.as_slice() {
        if let Ok(name) = str::from_utf8(row.name.as_slice()) {
            guess.look_at(alloc, name)?;
        }
    }
    meant(alloc, guess.best())
}

/// For a status that is none.
pub(crate) fn status_hint(alloc: Global, table: &Table) -> Result<Option<String>, NoMemory> {
    let word = text(table, Key::Status.word()).unwrap_or("");
    meant(alloc, nearest(alloc, word, "suspended active")?)
}

/// The script of the caller that a table names.
fn script_of<'a>(plan: &'a Plan, table: &Table) -> &'a [Command] {
    let name = text(table, Key::Caller.word()).unwrap_or("");
    match plan.callers.find(name.as_bytes()) {
        Some(place) => match plan.callers.get(place) {
            Some(row) => row.script.as_slice(),
            None => &[],
        },
        None => &[],
    }
}

/// The commands of a script, a line for each.
fn spelled(alloc: Global, plan: &Plan, script: &[Command]) -> Result<Vec<u8>, NoMemory> {
    let mut lines = Vec::new(alloc);
    for command in script {
        push_command(&mut lines, plan, command)?;
        lines.push(b'\n')?;
    }
    Ok(lines)
}

/// For a command that there isn't, or that the script doesn't have: the nearest one of the script.
pub(crate) fn command_hint(
    alloc: Global,
    plan: &Plan,
    table: &Table,
) -> Result<Option<String>, NoMemory> {
    let lines = spelled(alloc, plan, script_of(plan, table))?;
    let Ok(commands) = str::from_utf8(lines.as_slice()) else {
        return Ok(None);
    };
    let mut guess = Guess::new(text(table, Key::Command.word()).unwrap_or(""));
    for command in commands.split('\n') {
        guess.look_at(alloc, command)?;
    }
    meant(alloc, guess.best())
}

/// For a number of a call that there isn't: how often the script has the command.
pub(crate) fn times_hint(
    alloc: Global,
    plan: &Plan,
    table: &Table,
) -> Result<Option<String>, NoMemory> {
    let name = text(table, Key::Caller.word()).unwrap_or("");
    let Some(place) = plan.callers.find(name.as_bytes()) else {
        return Ok(None);
    };
    let words = text(table, Key::Command.word()).unwrap_or("");
    let Ok(command) = read_command(words.as_bytes(), plan) else {
        return Ok(None);
    };
    let times = times_by(plan, place as u32, &command);
    if times == 1 {
        return Ok(Some(format!(in alloc; "the script has it once")?));
    }
    Ok(Some(format!(in alloc; "the script has it {times} times")?))
}
