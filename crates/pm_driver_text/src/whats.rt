//! What a step does.

ghost use Rattle.std.specs.Prelude.{◌≡◌, ◌<◌, ◌≤◌, IfSome, IfOk, length, map, option_and_then, slice_get, take, true};
ghost use Rattle.std.specs.Option.{option_copied};
ghost use Rattle.pm_base.specs.declared.limits.TheConstants.{MAX_DEVICES};
ghost use Rattle.pm_names.specs.Table.{all_distinct};
ghost use Rattle.pm_script.specs.Command.{device_named};
ghost use Rattle.pm_driver_text.specs.Names.{is_exit_word, is_not};
ghost use Rattle.pm_driver_text.specs.Verbs.{question_of, verb_of};
ghost use Rattle.pm_driver_text.specs.Whats.{asked_in, callers_at, count_of, device_at, has_number, helper_what, milliseconds_at, named_what, touched_in, verb_what, waited_in, what_in, words_of_helper};

use crate::fault::StepFault;
use crate::names::{name_at, word_at};
use crate::verbs::{Question, Verb, question_of, verb_of};
use pm_base::DevId;
use pm_linetext::{operand_of, takes_device};
use pm_model::{Command, DeviceList, Helper, Operand};
use pm_names::{Finder, find};
use pm_script::{ScriptWord, helper_named, milliseconds_in, read_command_in};

/// What a step does. Names are those of its text.
#[derive(Drop)]
pub enum StepWhat<'a> {
    /// Calls a helper.
    Call { command: Command },
    /// Takes a count and resumes; where that fails, gives it back.
    ResumeAndGet { dev: DevId },
    /// Uses a device for so many milliseconds.
    Touch { dev: DevId, ms: i64 },
    /// Does something of the driver's own.
    Do { name: ScriptWord<'a> },
    /// Asks how a device is.
    Ask { question: Question, dev: DevId },
    /// Asks whether a flag is set.
    AskFlag { flag: ScriptWord<'a> },
    Set { flag: ScriptWord<'a> },
    Clear { flag: ScriptWord<'a> },
    /// Waits until a flag is set, or is clear.
    Wait { flag: ScriptWord<'a>, set: bool },
    /// Has come so far.
    Mark { name: ScriptWord<'a> },
    /// Ends callers, which commas part.
    Stop { callers: ScriptWord<'a> },
    Lock { name: ScriptWord<'a> },
    Unlock { name: ScriptWord<'a> },
    Goto { label: ScriptWord<'a> },
    Return,
    Fail,
    /// Enables a device, which is undone where the driver goes.
    DevmEnable { dev: DevId },
    ForceSuspend { dev: DevId },
    ForceResume { dev: DevId },
}

/// The place of the device that a word names.
fn device_named(word: Option<&[u8]>, devices: &DeviceList, finder: Option<&Finder>) -> Option<usize>
    requires { IfSome finder (λ _. all_distinct (map (λ row. row.name) devices.now) ≡ true) }
    ensures place { result ≡ device_named (map (λ row. row.name) devices.now) (option_copied word.entry) }
    ensures in_range { IfSome result (λ d. d < length devices.now) }
{
    find(finder, devices, word?)
}

/// The device that the word at a place names.
fn device_at(
    words: &[ScriptWord],
    at: usize,
    devices: &DeviceList,
    finder: Option<&Finder>,
) -> Result<DevId, StepFault>
    requires few { length devices.now ≤ MAX_DEVICES }
    requires distinct { IfSome finder (λ _. all_distinct (map (λ row. row.name) devices.now) ≡ true) }
    ensures device { result ≡ device_at (map (λ row. row.name) devices.now) words.now at }
    ensures valid { IfOk result (λ d. d.0 < length devices.now) }
{
    match device_named(word_at(words, at), devices, finder) {
        Some(place) => Ok(DevId(place as u32)),
        None => Err(StepFault::NoDevice),
    }
}

/// How many words a helper's command has.
fn words_of_helper(helper: Helper) -> usize
    ensures { result ≡ words_of_helper helper }
{
    let before = if takes_device(helper) { 2 } else { 1 };
    match operand_of(helper) {
        Operand::Nothing => before,
        Operand::Milliseconds | Operand::Switch | Operand::Supplier => before + 1,
    }
}

/// The first words, or all where there are fewer.
#[tactic(auto, using(crate::proofs::CutLemmas::first_least))]
fn first_of<'a, 'b>(words: &'b [ScriptWord<'a>], count: usize) -> &'b [ScriptWord<'a>]
    ensures { result.now ≡ take count words.now }
{
    words.split_at(count.min(words.len())).0
}

/// The call of a helper.
fn helper_what<'a>(
    words: &[ScriptWord<'a>],
    devices: &DeviceList,
    finder: Option<&Finder>,
) -> Result<StepWhat<'a>, StepFault>
    requires few { length devices.now ≤ MAX_DEVICES }
    requires distinct { IfSome finder (λ _. all_distinct (map (λ row. row.name) devices.now) ≡ true) }
    ensures { result ≡ helper_what (map (λ row. row.name) devices.now) words.now }
{
    let Some(first) = word_at(words, 0) else {
        return Err(StepFault::NoWord);
    };
    let Some(helper) = helper_named(first) else {
        return Err(StepFault::NoHelper);
    };
    match read_command_in(first_of(words, words_of_helper(helper)), devices, finder) {
        Ok(command) => Ok(StepWhat::Call { command }),
        Err(fault) => Err(StepFault::NoCommand { fault }),
    }
}

/// Whether a word begins an exit.
fn is_exit_word(word: &[u8]) -> bool
    ensures { result ≡ is_exit_word word.now }
{
    word == b"or".as_slice() || word == b"on".as_slice()
}

/// Whether a number of milliseconds stands behind a device.
fn has_number(words: &[ScriptWord]) -> bool
    ensures { result ≡ has_number words.now }
{
    match word_at(words, 2) {
        Some(word) => !is_exit_word(word),
        None => false,
    }
}

/// The milliseconds of a touch.
fn milliseconds_at(words: &[ScriptWord]) -> Result<i64, StepFault>
    ensures { result ≡ milliseconds_at words.now }
{
    if !has_number(words) {
        return Ok(0);
    }
    match word_at(words, 2) {
        Some(word) => match milliseconds_in(Helper::Delay, word) {
            Some(ms) => Ok(ms),
            None => Err(StepFault::NoNumber),
        },
        None => Ok(0),
    }
}

/// The use of a device.
fn touched_in<'a>(
    words: &[ScriptWord<'a>],
    devices: &DeviceList,
    finder: Option<&Finder>,
) -> Result<StepWhat<'a>, StepFault>
    requires few { length devices.now ≤ MAX_DEVICES }
    requires distinct { IfSome finder (λ _. all_distinct (map (λ row. row.name) devices.now) ≡ true) }
    ensures { result ≡ touched_in (map (λ row. row.name) devices.now) words.now }
{
    let dev = device_at(words, 1, devices, finder)?;
    let ms = milliseconds_at(words)?;
    Ok(StepWhat::Touch { dev, ms })
}

/// What the second word asks of a device.
fn asked_question(words: &[ScriptWord]) -> Option<Question>
    ensures { result ≡ option_and_then question_of (slice_get words.now 1) }
{
    question_of(word_at(words, 1)?)
}

/// A question.
fn asked_in<'a>(
    words: &[ScriptWord<'a>],
    devices: &DeviceList,
    finder: Option<&Finder>,
) -> Result<StepWhat<'a>, StepFault>
    requires few { length devices.now ≤ MAX_DEVICES }
    requires distinct { IfSome finder (λ _. all_distinct (map (λ row. row.name) devices.now) ≡ true) }
    ensures { result ≡ asked_in (map (λ row. row.name) devices.now) words.now }
{
    match asked_question(words) {
        Some(question) => {
            let dev = device_at(words, 2, devices, finder)?;
            Ok(StepWhat::Ask { question, dev })
        }
        None => {
            let flag = name_at(words, 1)?;
            Ok(StepWhat::AskFlag { flag })
        }
    }
}

/// Whether the second word is `not`.
fn is_not(words: &[ScriptWord]) -> bool
    ensures { result ≡ is_not words.now }
{
    match word_at(words, 1) {
        Some(word) => word == b"not".as_slice(),
        None => false,
    }
}

/// A wait.
fn waited_in<'a>(words: &[ScriptWord<'a>]) -> Result<StepWhat<'a>, StepFault>
    ensures { result ≡ waited_in words.now }
{
    if is_not(words) {
        let flag = name_at(words, 2)?;
        Ok(StepWhat::Wait { flag, set: false })
    } else {
        let flag = name_at(words, 1)?;
        Ok(StepWhat::Wait { flag, set: true })
    }
}

/// The word of callers.
fn callers_at<'a>(words: &[ScriptWord<'a>]) -> Result<ScriptWord<'a>, StepFault>
    ensures { result ≡ callers_at words.now }
{
    match word_at(words, 1) {
        Some(word) => Ok(ScriptWord::new(word)),
        None => Err(StepFault::NoName),
    }
}

/// What a step of one of a driver's words does that names no device.
fn named_what<'a>(verb: Verb, words: &[ScriptWord<'a>]) -> Result<StepWhat<'a>, StepFault>
    ensures { result ≡ named_what verb words.now }
{
    match verb {
        Verb::Wait => waited_in(words),
        Verb::Do => Ok(StepWhat::Do {
            name: name_at(words, 1)?,
        }),
        Verb::Set => Ok(StepWhat::Set {
            flag: name_at(words, 1)?,
        }),
        Verb::Clear => Ok(StepWhat::Clear {
            flag: name_at(words, 1)?,
        }),
        Verb::Mark => Ok(StepWhat::Mark {
            name: name_at(words, 1)?,
        }),
        Verb::Stop => Ok(StepWhat::Stop {
            callers: callers_at(words)?,
        }),
        Verb::Lock => Ok(StepWhat::Lock {
            name: name_at(words, 1)?,
        }),
        Verb::Unlock => Ok(StepWhat::Unlock {
            name: name_at(words, 1)?,
        }),
        Verb::Goto => Ok(StepWhat::Goto {
            label: name_at(words, 1)?,
        }),
        Verb::Fail => Ok(StepWhat::Fail),
        _ => Ok(StepWhat::Return),
    }
}

/// What a step of one of a driver's words does.
fn verb_what<'a>(
    verb: Verb,
    words: &[ScriptWord<'a>],
    devices: &DeviceList,
    finder: Option<&Finder>,
) -> Result<StepWhat<'a>, StepFault>
    requires few { length devices.now ≤ MAX_DEVICES }
    requires distinct { IfSome finder (λ _. all_distinct (map (λ row. row.name) devices.now) ≡ true) }
    ensures { result ≡ verb_what (map (λ row. row.name) devices.now) verb words.now }
{
    match verb {
        Verb::Touch => touched_in(words, devices, finder),
        Verb::Ask => asked_in(words, devices, finder),
        Verb::ResumeAndGet => Ok(StepWhat::ResumeAndGet {
            dev: device_at(words, 1, devices, finder)?,
        }),
        Verb::DevmEnable => Ok(StepWhat::DevmEnable {
            dev: device_at(words, 1, devices, finder)?,
        }),
        Verb::ForceSuspend => Ok(StepWhat::ForceSuspend {
            dev: device_at(words, 1, devices, finder)?,
        }),
        Verb::ForceResume => Ok(StepWhat::ForceResume {
            dev: device_at(words, 1, devices, finder)?,
        }),
        _ => named_what(verb, words),
    }
}

/// What the words of a step do, or why they do nothing.
#[tactic(auto, unfolding(crate::specs::Whats::what_in))]
pub(crate) fn what_in<'a>(
    words: &[ScriptWord<'a>],
    devices: &DeviceList,
    finder: Option<&Finder>,
) -> Result<StepWhat<'a>, StepFault>
    requires few { length devices.now ≤ MAX_DEVICES }
    requires distinct { IfSome finder (λ _. all_distinct (map (λ row. row.name) devices.now) ≡ true) }
    ensures { result ≡ what_in (map (λ row. row.name) devices.now) words.now }
{
    match verb_at(words) {
        Some(verb) => verb_what(verb, words, devices, finder),
        None => helper_what(words, devices, finder),
    }
}

/// What the first word says that a step does.
fn verb_at(words: &[ScriptWord]) -> Option<Verb>
    ensures { result ≡ option_and_then verb_of (slice_get words.now 0) }
{
    verb_of(word_at(words, 0)?)
}

/// How many words say what is done.
pub(crate) fn count_of(words: &[ScriptWord], what: &StepWhat) -> usize
    ensures { result ≡ count_of words.now what.now }
{
    match what {
        StepWhat::Call { command } => words_of_helper(command.helper),
        StepWhat::Touch { .. } => if has_number(words) { 3 } else { 2 },
        StepWhat::Ask { .. } => 3,
        StepWhat::Wait { set, .. } => if *set { 2 } else { 3 },
        StepWhat::Return | StepWhat::Fail => 1,
        _ => 2,
    }
}
