//! A step.

ghost use Rattle.std.specs.Prelude.{◌≡◌, ◌≤◌, IfErr, IfOk, IfSome, Ok, drop, length, map, option_and_then, slice_get, true, if◌then◌else◌};
ghost use Rattle.std.specs.Option.{option_copied};
ghost use Rattle.pm_base.specs.declared.limits.TheConstants.{MAX_DEVICES};
ghost use Rattle.pm_names.specs.Table.{all_distinct};
ghost use Rattle.pm_driver_text.specs.Names.{label_front};
ghost use Rattle.pm_driver_text.specs.Results.{IsErrorOf};
ghost use Rattle.pm_driver_text.specs.Steps.{is_devm, label_in, step_behind, step_in_words, step_of};

use crate::exits::{StepExit, few_exits};
use crate::fault::{StepError, StepFault};
use crate::names::{is_plain_name, label_front, word_at};
use crate::whats::{StepWhat, count_of, what_in};
use pm_model::{DeviceList, Items};
use pm_names::Finder;
use pm_script::{ScriptWord, words_in};
use std::alloc::Global;

/// A step of a driver's script.
#[derive(Drop)]
pub struct ScriptStep<'a> {
    /// Its label.
    pub label: Option<ScriptWord<'a>>,
    /// Whether it is undone where the driver goes.
    pub devm: bool,
    pub what: StepWhat<'a>,
    /// Where it goes on by the code that it is answered. The first that fits is taken.
    pub exits: Items<StepExit<'a>>,
}

/// The label of the words, where they have one.
fn label_in<'a>(words: &[ScriptWord<'a>]) -> Result<Option<ScriptWord<'a>>, StepFault>
    ensures { result ≡ label_in words.now }
{
    match front_in(words) {
        Some(front) => {
            if is_plain_name(front) {
                Ok(Some(ScriptWord::new(front)))
            } else {
                Err(StepFault::NoName)
            }
        }
        None => Ok(None),
    }
}

/// What stands before the last colon of the first word.
fn front_in<'a>(words: &[ScriptWord<'a>]) -> Option<&'a [u8]>
    ensures { option_copied result ≡ option_and_then label_front (slice_get words.now 0) }
{
    label_front(word_at(words, 0)?)
}

/// The words behind a first one, where there is one.
fn behind_first<'a, 'b>(words: &'b [ScriptWord<'a>], first: bool) -> &'b [ScriptWord<'a>]
    ensures { result.now ≡ (if first then drop 1 words.now else words.now) }
{
    if first { behind(words, 1) } else { words }
}

/// The words behind so many.
#[tactic(auto, using(crate::proofs::CutLemmas::behind_least))]
fn behind<'a, 'b>(words: &'b [ScriptWord<'a>], count: usize) -> &'b [ScriptWord<'a>]
    ensures { result.now ≡ drop count words.now }
{
    words.split_at(count.min(words.len())).1
}

/// Whether the first word is `devm`.
fn is_devm(words: &[ScriptWord]) -> bool
    ensures { result ≡ is_devm words.now }
{
    match word_at(words, 0) {
        Some(word) => word == b"devm".as_slice(),
        None => false,
    }
}

/// What is done, and the exits behind it.
fn step_behind<'a>(
    alloc: Global,
    label: Option<ScriptWord<'a>>,
    devm: bool,
    words: &[ScriptWord<'a>],
    devices: &DeviceList,
    finder: Option<&Finder>,
) -> Result<ScriptStep<'a>, StepError>
    requires few { length devices.now ≤ MAX_DEVICES }
    requires distinct { IfSome finder (λ _. all_distinct (map (λ row. row.name) devices.now) ≡ true) }
    ensures ok { IfOk result (λ step. step_behind (map (λ row. row.name) devices.now) label.entry devm words.now ≡ Ok step) }
    ensures exits { IfOk result (λ step. length step.exits ≤ 8) }
    ensures fault { IfErr result (IsErrorOf (step_behind (map (λ row. row.name) devices.now) label.entry devm words.now)) }
{
    let what = what_in(words, devices, finder)?;
    let exits = few_exits(alloc, behind(words, count_of(words, &what)))?;
    Ok(ScriptStep {
        label,
        devm,
        what,
        exits: Items::new(exits),
    })
}

/// The step of words.
fn step_in_words<'a>(
    alloc: Global,
    words: &[ScriptWord<'a>],
    devices: &DeviceList,
    finder: Option<&Finder>,
) -> Result<ScriptStep<'a>, StepError>
    requires few { length devices.now ≤ MAX_DEVICES }
    requires distinct { IfSome finder (λ _. all_distinct (map (λ row. row.name) devices.now) ≡ true) }
    ensures ok { IfOk result (λ step. step_in_words (map (λ row. row.name) devices.now) words.now ≡ Ok step) }
    ensures exits { IfOk result (λ step. length step.exits ≤ 8) }
    ensures fault { IfErr result (IsErrorOf (step_in_words (map (λ row. row.name) devices.now) words.now)) }
{
    let label = label_in(words)?;
    let words = behind_first(words, label.is_some());
    let devm = is_devm(words);
    step_behind(
        alloc,
        label,
        devm,
        behind_first(words, devm),
        devices,
        finder,
    )
}

/// The step that these bytes are over the devices of a plan, or the first fault in the order of its words (this
/// project's own). Where there is a finder, no two devices have one name.
#[tactic(auto, unfolding(crate::specs::Steps::step_of))]
pub fn step_in<'a>(
    alloc: Global,
    bytes: &'a [u8],
    devices: &DeviceList,
    finder: Option<&Finder>,
) -> Result<ScriptStep<'a>, StepError>
    requires few { length devices.now ≤ MAX_DEVICES }
    requires distinct { IfSome finder (λ _. all_distinct (map (λ row. row.name) devices.now) ≡ true) }
    ensures ok { IfOk result (λ step. step_of (map (λ row. row.name) devices.now) bytes.now ≡ Ok step) }
    ensures exits { IfOk result (λ step. length step.exits ≤ 8) }
    ensures fault { IfErr result (IsErrorOf (step_of (map (λ row. row.name) devices.now) bytes.now)) }
{
    let words = words_in(alloc, bytes)?;
    step_in_words(alloc, words.as_slice(), devices, finder)
}
