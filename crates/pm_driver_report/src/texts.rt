//! The text of what is reported of a driver.

ghost use Rattle.std.specs.Prelude.{◌≡◌, ◌++◌, IfOk, OnOk};
ghost use Rattle.std.specs.List.{list_any};
ghost use Rattle.pm_driver_find.specs.declared.sights.DriverSight.TheVariants as sight;
ghost use Rattle.pm_driver_report.specs.Texts.{call_text, counted, failing_text, has_all_of, is_whole, kind_word, last_text, message_text, no_finding_line, pace_word, pass_text, passes_text, rounds_text, setting_text, shown_text, sight_text, states_in, unmade_line};

use crate::follows::is_same_pace;
use crate::lines::{DriverKind, DriverLine, program_place};
use crate::passes::DriverPass;
use pm_base::{DevId, NoMemory};
use pm_driver_find::{DriverSight, ProbeSetting};
use pm_driver_read::Driver;
use pm_explore::schedule::Pace;
use pm_explore::search::Ended;
use pm_find::text::push_code;
use pm_linetext::{push, push_caller, push_command, push_device, push_number};
use std::alloc::Global;

fn kind_word(kind: DriverKind) -> &'static [u8]
    ensures { result.now ≡ kind_word kind }
{
    match kind {
        DriverKind::Disabled => b"disabled",
        DriverKind::RefusedStatus => b"refused status",
        DriverKind::Unread => b"unread",
        DriverKind::RefusedPut => b"refused put",
        DriverKind::TouchedOff => b"touched off",
        DriverKind::Hangs => b"hangs",
        DriverKind::LeftOn => b"left on",
        DriverKind::Leak => b"leak",
        DriverKind::LeftEnabled => b"left enabled",
        DriverKind::LeftForbidden => b"left forbidden",
        DriverKind::LeftAutosuspend => b"autosuspend left in use",
    }
}

// Appends so many of something.
fn push_counted(text: &mut Vec<u8>, count: usize, word: &[u8]) -> Result<(), NoMemory>
    ensures { OnOk result (text.new.items ≡ text.old.items ++ counted count word.now) }
{
    match count {
        0 => {
            push(text, b"no ")?;
            push(text, word)
        }
        1 => {
            push(text, b"1 ")?;
            push(text, word)
        }
        _ => {
            push_number(text, count as u64)?;
            push(text, b" ")?;
            push(text, word)?;
            push(text, b"s")
        }
    }
}

// Appends a call of a caller, as `stream: get_sync hi846`.
fn push_call(text: &mut Vec<u8>, driver: &Driver, caller: u32, place: usize) -> Result<(), NoMemory>
    ensures { OnOk result (text.new.items ≡ text.old.items ++ call_text driver.now caller place) }
{
    let Some(place) = program_place(driver, caller, place) else {
        return Ok(());
    };
    push_caller(text, &driver.plan, caller)?;
    push(text, b": ")?;
    push_command(text, &driver.plan, &place.command)
}

fn setting_text(setting: ProbeSetting) -> &'static [u8]
    ensures { result.now ≡ setting_text setting }
{
    match setting {
        ProbeSetting::Enabled => b" is still enabled where its driver has gone",
        ProbeSetting::Forbidden => b" is still forbidden where its driver has gone",
        ProbeSetting::Autosuspend => b" still uses autosuspend where its driver has gone",
    }
}

// Appends that a call answers a code.
fn push_answer(
    text: &mut Vec<u8>,
    driver: &Driver,
    caller: u32,
    place: usize,
    code: i32,
) -> Result<(), NoMemory>
    ensures { OnOk result (text.new.items ≡ text.old.items ++ sight_text driver.now (sight.Answers caller place code)) }
{
    push_call(text, driver, caller, place)?;
    push(text, b" answers ")?;
    push_code(text, code)
}

// Appends that a device is used while it is off.
fn push_off(
    text: &mut Vec<u8>,
    driver: &Driver,
    caller: u32,
    place: usize,
    dev: DevId,
) -> Result<(), NoMemory>
    ensures { OnOk result (text.new.items ≡ text.old.items ++ sight_text driver.now (sight.MeetsOff caller place dev)) }
{
    push_caller(text, &driver.plan, caller)?;
    push(text, b": ")?;
    push_device(text, &driver.plan, dev)?;
    push(text, b" is used while it is off")
}

// Appends that a count isn't given back.
fn push_leak(text: &mut Vec<u8>, driver: &Driver, dev: DevId, kept: bool) -> Result<(), NoMemory>
    ensures { OnOk result (text.new.items ≡ text.old.items ++ sight_text driver.now (sight.Leaks dev kept)) }
{
    push(text, b"a count of ")?;
    push_device(text, &driver.plan, dev)?;
    push(text, b" is never given back")
}

// Appends what is seen.
fn push_sight(text: &mut Vec<u8>, driver: &Driver, sight: DriverSight) -> Result<(), NoMemory>
    ensures { OnOk result (text.new.items ≡ text.old.items ++ sight_text driver.now sight) }
{
    match sight {
        DriverSight::Answers {
            caller,
            place,
            code,
        } => push_answer(text, driver, caller, place, code),
        DriverSight::FailsUnread { caller, place } => {
            push_call(text, driver, caller, place)?;
            push(
                text,
                b" fails, which nobody reads, and the device is used behind it",
            )
        }
        DriverSight::PutsNone { caller, place, .. } => {
            push_call(text, driver, caller, place)?;
            push(text, b" finds no count to give back")
        }
        DriverSight::MeetsOff { caller, place, dev } => push_off(text, driver, caller, place, dev),
        DriverSight::Hangs { caller, .. } => {
            push_caller(text, &driver.plan, caller)?;
            push(text, b" waits here, and nothing more comes")
        }
        DriverSight::LeftOn { dev } => {
            push_device(text, &driver.plan, dev)?;
            push(text, b" is active at the end, and nobody holds it")
        }
        DriverSight::Leaks { dev, kept } => push_leak(text, driver, dev, kept),
        DriverSight::LeftSet { dev, setting } => {
            push_device(text, &driver.plan, dev)?;
            push(text, setting_text(setting))
        }
    }
}

/// Appends what is wrong, as `disabled: stream: get_sync hi846 answers -13 (EACCES)`.
pub fn push_message(text: &mut Vec<u8>, driver: &Driver, line: &DriverLine) -> Result<(), NoMemory>
    ensures { OnOk result (text.new.items ≡ text.old.items ++ message_text driver.now line.now) }
{
    push(text, kind_word(line.kind))?;
    push(text, b": ")?;
    push_sight(text, driver, line.sight)
}

fn pace_word(pace: Pace) -> &'static [u8]
    ensures { result.now ≡ pace_word pace }
{
    match pace {
        Pace::Eager => b"eager",
        Pace::Late => b"late",
    }
}

/// Appends which finding it is and how it shows first, as `finding 1: eager, 1 preemption, no failing callback`.
pub fn push_shown(text: &mut Vec<u8>, number: usize, line: &DriverLine) -> Result<(), NoMemory>
    ensures { OnOk result (text.new.items ≡ text.old.items ++ shown_text number line.now) }
{
    push(text, b"finding ")?;
    push_number(text, number as u64)?;
    push(text, b": ")?;
    push(text, pace_word(line.pace))?;
    push(text, b", ")?;
    push_counted(text, line.preemptions, b"preemption")?;
    push(text, b", ")?;
    push_counted(text, line.failures as usize, b"failing callback")
}

fn is_whole(ended: Ended) -> bool
    ensures { result ≡ is_whole ended }
{
    matches!(ended, Ended::Whole)
}

// Appends which rounds of a pace were gone through: so many.
fn push_rounds(text: &mut Vec<u8>, word: &[u8], rounds: usize) -> Result<(), NoMemory>
    ensures { OnOk result (text.new.items ≡ text.old.items ++ rounds_text word.now rounds) }
{
    match rounds {
        0 => {
            push(text, b"a part of the ")?;
            push(text, word)?;
            push(text, b" schedules with no preemption")
        }
        1 => {
            push(text, word)?;
            push(text, b" schedules with no preemption")
        }
        _ => {
            push(text, word)?;
            push(text, b" schedules with at most ")?;
            push_counted(text, rounds - 1, b"preemption")
        }
    }
}

// Appends that so many callbacks fail, at most.
fn push_failing(text: &mut Vec<u8>, failures: u32) -> Result<(), NoMemory>
    ensures { OnOk result (text.new.items ≡ text.old.items ++ failing_text failures) }
{
    if failures == 0 {
        return push(text, b"no failing callback");
    }
    push(text, b"at most ")?;
    push_counted(text, failures as usize, b"failing callback")
}

// Appends what was gone through of a pace with at most so many failing callbacks.
fn push_pass(text: &mut Vec<u8>, pass: &DriverPass) -> Result<(), NoMemory>
    ensures { OnOk result (text.new.items ≡ text.old.items ++ pass_text pass.now) }
{
    let word = pace_word(pass.pace);
    if is_whole(pass.all.found.ended) {
        push(text, b"all ")?;
        push(text, word)?;
        push(text, b" schedules with ")?;
    } else {
        push_rounds(text, word, pass.all.found.rounds.len())?;
        push(text, b" and ")?;
    }
    push_failing(text, pass.failures)
}

// Whether a pass has all that another one has.
fn has_all_of(pass: &DriverPass, later: &DriverPass) -> bool
    ensures { result ≡ has_all_of pass.now later.now }
{
    is_same_pace(pass.pace, later.pace)
        && is_whole(later.all.found.ended)
        && pass.failures <= later.failures
}

fn some_has_all_of(pass: &DriverPass, later: &[DriverPass]) -> bool
    ensures { result ≡ list_any (has_all_of pass.now) later.now }
{
    later.iter().any(|other| has_all_of(pass, other))
}

// Appends what was gone through, with a text before each that is told but the first.
fn push_passes(text: &mut Vec<u8>, before: &[u8], passes: &[DriverPass]) -> Result<(), NoMemory>
    ensures { OnOk result (text.new.items ≡ text.old.items ++ passes_text before.now passes.now) }
{
    let [pass, passes @ ..] = passes else {
        return Ok(());
    };
    if some_has_all_of(pass, passes) {
        return push_passes(text, before, passes);
    }
    push(text, before)?;
    push_pass(text, pass)?;
    push_passes(text, b", ", passes)
}

// How many states were looked at, as far as a number goes.
fn states_in(passes: &[DriverPass]) -> usize
    ensures { result ≡ states_in passes.now }
{
    let [pass, passes @ ..] = passes else {
        return 0;
    };
    let states = pass.all.found.tree.nodes.len();
    states.saturating_add(states_in(passes))
}

/// Appends the last line: how much is wrong, and what was gone through.
pub fn push_last(
    text: &mut Vec<u8>,
    passes: &[DriverPass],
    lines: &[DriverLine],
) -> Result<(), NoMemory>
    ensures { OnOk result (text.new.items ≡ text.old.items ++ last_text passes.now lines.now) }
{
    push_counted(text, lines.len(), b"finding")?;
    push(text, b"; gone through: ")?;
    push_passes(text, b"", passes)?;
    push(text, b" (")?;
    push_counted(text, states_in(passes), b"state")?;
    push(text, b")\n")
}

/// The line that says that there is no finding of this number, but so many.
pub fn no_finding_text(alloc: Global, number: usize, count: usize) -> Result<Vec<u8>, NoMemory>
    ensures { IfOk result (λ text. text.items ≡ no_finding_line number count) }
{
    let mut text = Vec::new(alloc);
    push(&mut text, b"order: no finding ")?;
    push_number(&mut text, number as u64)?;
    push(&mut text, b": `find` tells ")?;
    push_counted(&mut text, count, b"finding")?;
    push(&mut text, b"\n")?;
    Ok(text)
}

/// The line that says that the run of a finding can't be made.
pub fn unmade_text(alloc: Global) -> Result<Vec<u8>, NoMemory>
    ensures { IfOk result (λ text. text.items ≡ unmade_line) }
{
    let text = Vec::from_slice(
        alloc,
        b"order: the way there has more lines, calls or codes than a plan may have\n",
    )?;
    Ok(text)
}
