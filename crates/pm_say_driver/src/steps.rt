//! Steps that are none.

use crate::tree_words::{STEP_WORDS, step_text, word_at, words_before};
use pm_base::NoMemory;
use pm_driver_text::StepFault;
use pm_linetext::helper_of;
use pm_messages::notes::{Note, element_path, list, name_of, place_of};
use pm_model::Helper;
use pm_names::helpers;
use pm_planread::tree::Section;
use pm_script::ScriptFault;
use pm_spans::nearest::Guess;
use std::alloc::Global;
use toml::{Table, Value};

/// Helpers that there are.
const HELPERS: usize = 34;

/// Characters of a text that a message shows, at most.
const MAX_SHOWN: usize = 48;

/// The front of a text that a message shows.
pub fn front_of(text: &str) -> &str {
    match text.char_indices().nth(MAX_SHOWN) {
        Some((at, _)) => text.get(..at).unwrap_or(""),
        None => text,
    }
}

/// What is wrong with a step, and what may help.
#[derive(Drop)]
pub struct StepNote {
    what: String,
    hint: Option<String>,
}

fn bare(what: String) -> StepNote {
    StepNote { what, hint: None }
}

/// A step in the words of a person: its caller, its front and what is wrong.
pub fn note_at<'a>(
    alloc: Global,
    tree: &'a Table,
    caller: usize,
    step: usize,
    what: &str,
) -> Result<Note<'a>, NoMemory> {
    let who = front_of(caller_name(tree, caller));
    let text = front_of(step_text(tree, caller, step).unwrap_or(""));
    let message = format!(in alloc; "caller {who:?}: {text:?}: {what}")?;
    Ok(Note::on_value(
        alloc,
        message,
        element_path(Section::Caller, caller, "script", step),
    ))
}

/// The name of a caller.
pub fn caller_name(tree: &Table, caller: usize) -> &str {
    match list(tree, Section::Caller).get(caller) {
        Some(value) => name_of(value),
        None => "",
    }
}

/// The note on a step that is none. Fails where memory runs out.
pub fn step_note<'a>(
    alloc: Global,
    tree: &'a Table,
    caller: usize,
    step: usize,
    fault: StepFault,
) -> Result<Note<'a>, NoMemory> {
    let text = step_text(tree, caller, step).unwrap_or("");
    let StepNote { what, hint } = wrong_step(alloc, text, list(tree, Section::Device), fault)?;
    let note = note_at(alloc, tree, caller, step, what.as_str())?;
    match hint {
        Some(hint) => note.with_hint(hint),
        None => Ok(note),
    }
}

fn wrong_step(
    alloc: Global,
    text: &str,
    devices: &[Value],
    fault: StepFault,
) -> Result<StepNote, NoMemory> {
    if text.contains('\t') {
        return Ok(StepNote {
            what: format!(in alloc; "a tab is no space")?,
            hint: Some(format!(in alloc; "write spaces between the words")?),
        });
    }
    match fault {
        StepFault::NoWord => Ok(bare(format!(in alloc; "no word says what is done")?)),
        StepFault::NoHelper => wrong_word(alloc, word_at(text, words_before(text)).unwrap_or("")),
        StepFault::NoCommand { fault } => wrong_command(alloc, text, devices, fault),
        StepFault::NoDevice => wrong_device(alloc, text, devices),
        StepFault::NoNumber => Ok(bare(format!(in alloc;
            "a number is missing, is none, or is out of its range: milliseconds are 0 to 1000000, codes -4095 to 1"
        )?)),
        StepFault::NoName => wrong_name(alloc, text),
        StepFault::NoExit => wrong_exit(alloc, text),
        StepFault::ManyExits => Ok(bare(format!(in alloc; "a step has at most 8 exits")?)),
    }
}

/// A name that is missing or none.
fn wrong_name(alloc: Global, text: &str) -> Result<StepNote, NoMemory> {
    Ok(StepNote {
        what: format!(in alloc; "a name is missing or is none")?,
        hint: Some(match word_at(text, words_before(text)) {
            Some("stop") => format!(in alloc; "write stop CALLER, and more behind commas")?,
            _ => format!(in alloc; "a name is 1 to 32 letters, digits, _ and - of ASCII")?,
        }),
    })
}

/// Words behind what is done that are no exits.
fn wrong_exit(alloc: Global, text: &str) -> Result<StepNote, NoMemory> {
    let hint = match text.contains('=') || text.contains('<') {
        true => format!(in alloc;
            "a code is tested by: or LABEL, on CODE LABEL, on nonzero LABEL"
        )?,
        false => format!(in alloc;
            "behind it stand exits alone: or LABEL, on CODE LABEL, on nonzero LABEL"
        )?,
    };
    Ok(StepNote {
        what: format!(in alloc; "words are left that are no exits")?,
        hint: Some(hint),
    })
}

fn helper_named(word: &str) -> Option<Helper> {
    helper_of(helpers().number_of(word.as_bytes())?)
}

/// No such word and no such helper.
fn wrong_word(alloc: Global, word: &str) -> Result<StepNote, NoMemory> {
    let front = front_of(word);
    let what = format!(in alloc; "no helper, and no word of a step: {front:?}")?;
    let bare_word = word.strip_prefix("pm_runtime_").unwrap_or(word);
    if bare_word.len() < word.len()
        && (helper_named(bare_word).is_some() || is_step_word(bare_word))
    {
        return Ok(StepNote {
            what,
            hint: Some(format!(in alloc; "write {bare_word:?}, without \"pm_runtime_\"")?),
        });
    }
    if let Some(instead) = instead_of(bare_word) {
        return Ok(StepNote {
            what,
            hint: Some(format!(in alloc; "{instead}")?),
        });
    }
    guessed(alloc, what, bare_word)
}

fn is_step_word(word: &str) -> bool {
    for known in STEP_WORDS.split_whitespace() {
        if known == word {
            return true;
        }
    }
    false
}

fn guessed(alloc: Global, what: String, word: &str) -> Result<StepNote, NoMemory> {
    let words = helpers();
    let mut guess = Guess::new(word);
    for known in STEP_WORDS.split_whitespace() {
        guess.look_at(alloc, known)?;
    }
    for place in 0..HELPERS {
        if let Ok(name) = std::str::from_utf8(words.name_of(place)) {
            guess.look_at(alloc, name)?;
        }
    }
    match guess.best() {
        Some(name) => Ok(StepNote {
            what,
            hint: Some(format!(in alloc; "did you mean {name:?}?")?),
        }),
        None => Ok(bare(what)),
    }
}

/// What to write for what a driver calls.
fn instead_of(word: &str) -> Option<&'static str> {
    match word {
        "get_active" => Some("write \"resume_and_get\", which answers 0 or an error as it does"),
        "suspended" | "status_suspended" | "active" | "enabled" => Some(
            "it only asks: write \"ask\" before it, and an exit: on 1 LABEL",
        ),
        "no_callbacks" => Some("it is a key of the device: write no_callbacks = true there"),
        "irq_safe" => Some(
            "it isn't modelled: its parent's count is kept, so write get_sync of it",
        ),
        "reinit" | "get_suppliers" | "put_suppliers" => Some(
            "the driver core calls it: give the caller a role and binds",
        ),
        "mutex_lock" | "spin_lock" | "spin_lock_irqsave" | "mutex_trylock" => Some(
            "write lock NAME",
        ),
        "mutex_unlock" | "spin_unlock" | "spin_unlock_irqrestore" => Some("write unlock NAME"),
        "free_irq"
        | "disable_irq"
        | "synchronize_irq"
        | "cancel_work_sync"
        | "cancel_delayed_work_sync"
        | "flush_work"
        | "i2c_del_adapter"
        | "del_timer_sync" => Some(
            "write stop CALLER: none begins any more, and those that run have ended",
        ),
        "wait_event" | "wait_for_completion" | "wait_for_completion_timeout" => Some(
            "write wait FLAG, or wait not FLAG",
        ),
        "complete" | "wake_up" => Some("write set FLAG"),
        "reinit_completion" => Some("write clear FLAG"),
        "request_irq" | "devm_request_irq" | "i2c_add_adapter" | "schedule_work" => Some(
            "write do NAME, and mark NAME behind it: others begin after CALLER:NAME",
        ),
        "msleep" | "usleep_range" | "mdelay" | "udelay" => Some("write delay MS"),
        "readl" | "writel" | "regmap_read" | "regmap_write" => Some("write touch DEVICE"),
        "if" | "while" | "for" => Some(
            "a step branches by its exits: or LABEL, on CODE LABEL, on nonzero LABEL",
        ),
        _ => None,
    }
}

/// The first word of a step behind what it does that isn't a device and is to be one.
fn wrong_device(alloc: Global, text: &str, devices: &[Value]) -> Result<StepNote, NoMemory> {
    let before = words_before(text);
    let at = match word_at(text, before) {
        Some("ask") => before + 2,
        _ => before + 1,
    };
    let Some(name) = word_at(text, at) else {
        return Ok(bare(format!(in alloc; "it wants a device")?));
    };
    lost_device(alloc, name, devices)
}

fn lost_device(alloc: Global, name: &str, devices: &[Value]) -> Result<StepNote, NoMemory> {
    let front = front_of(name);
    let what = format!(in alloc; "no device {front:?}")?;
    let mut guess = Guess::new(name);
    for value in devices {
        guess.look_at(alloc, name_of(value))?;
    }
    match guess.best() {
        Some(near) => Ok(StepNote {
            what,
            hint: Some(format!(in alloc; "did you mean {near:?}?")?),
        }),
        None => Ok(bare(what)),
    }
}

/// A helper's command that is none.
fn wrong_command(
    alloc: Global,
    text: &str,
    devices: &[Value],
    fault: ScriptFault,
) -> Result<StepNote, NoMemory> {
    let before = words_before(text);
    let helper = front_of(word_at(text, before).unwrap_or(""));
    match fault {
        ScriptFault::Word | ScriptFault::Extra => Ok(bare(format!(in alloc;
            "{helper:?} has words that are none of its own"
        )?)),
        ScriptFault::Number => Ok(bare(format!(in alloc;
            "{helper:?} wants milliseconds, or on or off, which are missing or are none"
        )?)),
        ScriptFault::Device => {
            let Some(name) = word_at(text, before + 1) else {
                return Ok(bare(format!(in alloc; "{helper:?} wants a device")?));
            };
            if place_of(devices, name).is_some() {
                let second = word_at(text, before + 2).unwrap_or("");
                return lost_device(alloc, second, devices);
            }
            lost_device(alloc, name, devices)
        }
    }
}
