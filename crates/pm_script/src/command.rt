//! Reads a command.

ghost use Rattle.std.specs.Prelude.{◌≡◌, ◌<◌, ◌≤◌, Some, true, option_and_then, length, map, nat_eq, nat_lt, slice_get, if◌then◌else◌, IfOk, IfSome, IsTrue};
ghost use Rattle.std.specs.Option.{option_copied};
ghost use Rattle.pm_base.specs.declared.limits.TheConstants.{MAX_DEVICES};
ghost use Rattle.pm_model.specs.IsPlan.{is_command, is_operand};
ghost use Rattle.pm_model.specs.Spelling.{operand_of, takes_device};
ghost use Rattle.pm_names.specs.Table.{all_distinct};
ghost use Rattle.pm_script.specs.Command.{command_at, command_in, command_of, device_in, device_named, helper_in, helper_named, operand_in, word_left};
ghost use Rattle.pm_script.specs.Numbers.{is_switch, is_taken, milliseconds_in, switch_in};

use crate::fault::ScriptFault;
use crate::numbers::{milliseconds_in, switch_in};
use crate::words::{FirstWords, ScriptWord, first_words};
use pm_base::DevId;
use pm_linetext::{helper_of, helper_place, operand_of, takes_device};
use pm_model::{Command, DeviceList, Helper, Operand, Plan};
use pm_names::{Finder, find, helpers, is_same};

/// The command that these bytes are over the devices of a plan, or why they are none.
///
/// It takes no memory, finds devices by the plan's index of their names, and looks at no script.
#[tactic(auto, using(crate::proofs::PlanLemmas::devices_of_plan))]
pub fn read_command(bytes: &[u8], plan: &Plan) -> Result<Command, ScriptFault>
    ensures command { result ≡ command_of (map (λ row. row.name) plan.now.devices) bytes.now }
    ensures valid { IfOk result (λ command. is_command (length plan.now.devices) command ≡ true) }
{
    read_command_of(bytes, &plan.devices, None)
}

/// The same over a list of devices, of which there are no more than a plan has, for whoever makes a
/// plan. Where there is a finder, no two devices have one name.
#[tactic(auto, unfolding(crate::specs::Command::command_of), using(crate::proofs::PlaceLemmas::command_at_words))]
pub fn read_command_of(
    bytes: &[u8],
    devices: &DeviceList,
    finder: Option<&Finder>,
) -> Result<Command, ScriptFault>
    requires few { length devices.now ≤ MAX_DEVICES }
    requires distinct { IfSome finder (λ _. all_distinct (map (λ row. row.name) devices.now) ≡ true) }
    ensures command { result ≡ command_of (map (λ row. row.name) devices.now) bytes.now }
    ensures valid { IfOk result (λ command. is_command (length devices.now) command ≡ true) }
{
    command_from(&first_words(bytes), devices, finder)
}

/// The same of words.
#[tactic(auto, using(crate::proofs::PlaceLemmas::command_at_words))]
pub fn read_command_in(
    words: &[ScriptWord],
    devices: &DeviceList,
    finder: Option<&Finder>,
) -> Result<Command, ScriptFault>
    requires few { length devices.now ≤ MAX_DEVICES }
    requires distinct { IfSome finder (λ _. all_distinct (map (λ row. row.name) devices.now) ≡ true) }
    ensures command { result ≡ command_in (map (λ row. row.name) devices.now) words.now }
    ensures valid { IfOk result (λ command. is_command (length devices.now) command ≡ true) }
{
    let words = FirstWords {
        first: bytes_at(words, 0),
        second: bytes_at(words, 1),
        third: bytes_at(words, 2),
        fourth: bytes_at(words, 3),
    };
    command_from(&words, devices, finder)
}

/// The word at a place.
fn bytes_at<'a>(words: &[ScriptWord<'a>], at: usize) -> Option<&'a [u8]>
    ensures { option_copied result ≡ slice_get words.now at }
{
    match words.get(at) {
        Some(word) => Some(word.as_slice()),
        None => None,
    }
}

/// The command of the first words.
fn command_from(
    words: &FirstWords,
    devices: &DeviceList,
    finder: Option<&Finder>,
) -> Result<Command, ScriptFault>
    requires few { length devices.now ≤ MAX_DEVICES }
    requires distinct { IfSome finder (λ _. all_distinct (map (λ row. row.name) devices.now) ≡ true) }
    ensures command { result ≡ command_at (map (λ row. row.name) devices.now) (option_copied words.now.first) (option_copied words.now.second) (option_copied words.now.third) (option_copied words.now.fourth) }
    ensures valid { IfOk result (λ command. is_command (length devices.now) command ≡ true) }
{
    let helper = helper_in(words.first)?;
    let operand = operand_of(helper);
    let dev = device_in(helper, words.second, devices, finder)?;
    let word = operand_word(words, helper);
    let number = operand_in(helper, operand, word, devices, finder)?;
    if word_left(words, helper, operand).is_some() {
        return Err(ScriptFault::Extra);
    }
    Ok(Command {
        helper,
        dev,
        number,
    })
}

/// The helper of a command.
fn helper_in(word: Option<&[u8]>) -> Result<Helper, ScriptFault>
    ensures { result ≡ helper_in (option_copied word.entry) }
{
    match word {
        Some(word) => helper_named(word).ok_or(ScriptFault::Word),
        None => Err(ScriptFault::Word),
    }
}

/// The helper that a word names. The likely one is looked at before all.
#[tactic(auto, using(crate::proofs::HelperLemmas::named_at))]
pub fn helper_named(word: &[u8]) -> Option<Helper>
    ensures { result ≡ helper_named word.now }
{
    let likely = likely_helper(word);
    if is_named(likely, word) {
        return Some(likely);
    }
    helper_of(helpers().number_of(word)?)
}

/// Of the helpers whose words begin with this one's first byte, one that scripts often name. Contracts
/// claim nothing of the choice.
fn likely_helper(word: &[u8]) -> Helper {
    let [first, ..] = word else {
        return Helper::Get;
    };
    match *first {
        b'g' => if word.len() == 3 {
            Helper::Get
        } else {
            Helper::GetSync
        },
        b'p' => if word.len() == 3 {
            Helper::Put
        } else {
            Helper::PutSync
        },
        b'd' => Helper::Delay,
        b'e' => Helper::Enable,
        b'r' => Helper::Resume,
        b's' => Helper::Suspend,
        _ => Helper::MarkLastBusy,
    }
}

/// Whether this is the helper that a word names. Where it isn't, the answer is no.
fn is_named(helper: Helper, word: &[u8]) -> bool
    ensures { IsTrue result → helper_named word.now ≡ Some helper }
{
    is_same(helpers().name_of(helper_place(helper)), word)
}

/// The place of the device that a word names.
fn device_named(word: Option<&[u8]>, devices: &DeviceList, finder: Option<&Finder>) -> Option<usize>
    requires { IfSome finder (λ _. all_distinct (map (λ row. row.name) devices.now) ≡ true) }
    ensures place { result ≡ device_named (map (λ row. row.name) devices.now) (option_copied word.entry) }
    ensures in_range { IfSome result (λ d. d < length devices.now) }
{
    find(finder, devices, word?)
}

/// The device of a command.
fn device_in(
    helper: Helper,
    word: Option<&[u8]>,
    devices: &DeviceList,
    finder: Option<&Finder>,
) -> Result<DevId, ScriptFault>
    requires few { length devices.now ≤ MAX_DEVICES }
    requires distinct { IfSome finder (λ _. all_distinct (map (λ row. row.name) devices.now) ≡ true) }
    ensures device { result ≡ device_in (map (λ row. row.name) devices.now) helper (option_copied word.entry) }
    ensures valid { IfOk result (λ d. (if takes_device helper then nat_lt d.0 (length devices.now) else nat_eq d.0 0) ≡ true) }
{
    if !takes_device(helper) {
        return Ok(DevId(0));
    }
    match device_named(word, devices, finder) {
        Some(place) => Ok(DevId(place as u32)),
        None => Err(ScriptFault::Device),
    }
}

/// The word of what a helper takes besides its device.
fn operand_word<'a>(words: &FirstWords<'a>, helper: Helper) -> Option<&'a [u8]>
    ensures { option_copied result ≡ (if takes_device helper then option_copied words.now.third else option_copied words.now.second) }
{
    if takes_device(helper) {
        words.third
    } else {
        words.second
    }
}

/// The first word that a command of the helper has no use for.
fn word_left<'a>(words: &FirstWords<'a>, helper: Helper, operand: Operand) -> Option<&'a [u8]>
    ensures { option_copied result ≡ word_left helper operand (option_copied words.now.second) (option_copied words.now.third) (option_copied words.now.fourth) }
{
    match operand {
        Operand::Nothing => operand_word(words, helper),
        Operand::Milliseconds | Operand::Switch | Operand::Supplier => {
            if takes_device(helper) {
                words.fourth
            } else {
                words.third
            }
        }
    }
}

/// The milliseconds that a word writes for a helper.
fn milliseconds_of(helper: Helper, word: Option<&[u8]>) -> Option<i64>
    ensures number { result ≡ option_and_then (milliseconds_in helper) (option_copied word.entry) }
    ensures valid { IfSome result (λ n. is_taken helper n ≡ true) }
{
    milliseconds_in(helper, word?)
}

/// What a word, `on` or `off`, is as a number.
fn switch_of(word: Option<&[u8]>) -> Option<i64>
    ensures number { result ≡ option_and_then switch_in (option_copied word.entry) }
    ensures valid { IfSome result (λ n. is_switch n ≡ true) }
{
    switch_in(word?)
}

/// What a helper takes besides its device, as a number.
fn operand_in(
    helper: Helper,
    operand: Operand,
    word: Option<&[u8]>,
    devices: &DeviceList,
    finder: Option<&Finder>,
) -> Result<i64, ScriptFault>
    requires few { length devices.now ≤ MAX_DEVICES }
    requires distinct { IfSome finder (λ _. all_distinct (map (λ row. row.name) devices.now) ≡ true) }
    ensures number { result ≡ operand_in (map (λ row. row.name) devices.now) helper operand (option_copied word.entry) }
    ensures valid { IfOk result (λ n. is_operand (length devices.now) helper operand n ≡ true) }
{
    match operand {
        Operand::Nothing => Ok(0),
        Operand::Milliseconds => match milliseconds_of(helper, word) {
            Some(number) => Ok(number),
            None => Err(ScriptFault::Number),
        },
        Operand::Switch => match switch_of(word) {
            Some(number) => Ok(number),
            None => Err(ScriptFault::Number),
        },
        Operand::Supplier => match device_named(word, devices, finder) {
            Some(supplier) => Ok(supplier as i64),
            None => Err(ScriptFault::Device),
        },
    }
}
