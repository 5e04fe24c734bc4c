//! Which callbacks of devices may fail.

ghost use Rattle.std.specs.Prelude.{◌≡◌, ◌+◌, ◌<◌, ◌^◌, ◌++◌, IfOk, OnOk, length, map};
ghost use Rattle.toml.specs.View.{view};
ghost use Rattle.pm_driver_read.specs.Fails.{codes_fault, fail_code, fails_fault, fails_of, fails_read, fails_said, failure_code, flag_parent, flag_row, flags_from, has_codes, is_long, list_of, said_at, unsaid, with_all_fails, with_fail, with_fails};

use crate::refusal::{DeviceRefusal, DeviceWhy};
use crate::words::parent_in;
use pm_base::{DevId, EACCES, MIN_CODE, NoMemory};
use pm_model::{Items, Name};
use pm_planread::tree::{Codes64, RawDevice, Text};
use pm_script::{ScriptWord, number_in, words_in};
use std::alloc::Global;
use toml::Value;

/// The code of a callback of which no code is said: `-EIO`.
const USUAL: i64 = -5;

/// Which callbacks of a device may fail, and with which code.
#[derive(Clone, Copy)]
pub struct DeviceFails {
    pub suspend: Option<i64>,
    pub resume: Option<i64>,
}

/// What the texts of a device say.
#[derive(Clone, Copy)]
pub enum FailsRead {
    Read { fails: DeviceFails },
    /// The text that says nothing, counted from 0.
    Refused { part: usize },
}

/// Of a device that says nothing: its resume may fail.
fn unsaid() -> DeviceFails
    ensures { result ≡ unsaid }
{
    DeviceFails {
        suspend: None,
        resume: Some(USUAL),
    }
}

/// The code, where a callback that fails may answer it: -4095 to -1 but for -13.
fn failure_code(number: i64) -> Option<i64>
    ensures { result ≡ failure_code number }
{
    if i64::from(MIN_CODE) <= number && number < 0 && number != i64::from(EACCES) {
        Some(number)
    } else {
        None
    }
}

/// The code that words behind a callback say.
fn fail_code(words: &[ScriptWord]) -> Option<i64>
    ensures { result ≡ fail_code words.now }
{
    match words {
        [_] => Some(USUAL),
        [_, code] => failure_code(number_in(code.as_slice())?),
        _ => None,
    }
}

/// The callbacks of a device with what words say; nothing where they say nothing, or of one that is said already.
fn with_fail(fails: DeviceFails, words: &[ScriptWord]) -> Option<DeviceFails>
    ensures { result ≡ with_fail fails words.now }
{
    let [callback, ..] = words else {
        return None;
    };
    let code = fail_code(words)?;
    if callback.as_slice() == b"suspend".as_slice() && fails.suspend.is_none() {
        return Some(DeviceFails {
            suspend: Some(code),
            resume: fails.resume,
        });
    }
    if callback.as_slice() == b"resume".as_slice() && fails.resume.is_none() {
        return Some(DeviceFails {
            suspend: fails.suspend,
            resume: Some(code),
        });
    }
    None
}

/// What texts say, the first of which has this number.
fn fails_read(
    alloc: Global,
    fails: DeviceFails,
    part: usize,
    texts: &[Text],
) -> Result<FailsRead, NoMemory>
    requires { part + length texts.now < 2 ^ 63 }
    ensures { IfOk result (λ read. read ≡ fails_read fails part texts.now) }
{
    let [text, rest @ ..] = texts else {
        return Ok(FailsRead::Read { fails });
    };
    let words = words_in(alloc, text.as_slice())?;
    match with_fail(fails, words.as_slice()) {
        Some(fails) => fails_read(alloc, fails, part + 1, rest),
        None => Ok(FailsRead::Refused { part }),
    }
}

/// What a device says.
fn fails_said(alloc: Global, said: &Option<Items<Text>>) -> Result<FailsRead, NoMemory>
    ensures { IfOk result (λ read. read ≡ fails_said said.now) }
{
    match said {
        Some(texts) => {
            let none = DeviceFails {
                suspend: None,
                resume: None,
            };
            fails_read(alloc, none, 0, texts.as_slice())
        }
        None => Ok(FailsRead::Read { fails: unsaid() }),
    }
}

/// Whether a device has a code in a list.
fn has_codes(row: &RawDevice) -> bool
    ensures { result ≡ has_codes row.now }
{
    is_long(&row.idle) || !row.suspend.as_slice().is_empty() || !row.resume.as_slice().is_empty()
}

fn is_long(codes: &Option<Codes64>) -> bool
    ensures { result ≡ is_long codes.now }
{
    match codes {
        Some(codes) => !codes.as_slice().is_empty(),
        None => false,
    }
}

/// The first device with a list of codes.
pub(crate) fn codes_fault(rows: &[RawDevice]) -> Option<DeviceRefusal>
    ensures { result ≡ codes_fault 0 rows.now }
{
    for (device, row) in rows.iter().enumerate() {
        if has_codes(row) {
            return Some(DeviceRefusal {
                why: DeviceWhy::Codes,
                device,
                part: 0,
            });
        }
    }
    None
}

/// The first device that says what can't be said.
pub(crate) fn fails_fault(
    alloc: Global,
    said: &[Option<Items<Text>>],
) -> Result<Option<DeviceRefusal>, NoMemory>
    ensures { IfOk result (λ fault. fault ≡ fails_fault 0 said.now) }
{
    for (device, texts) in said.iter().enumerate() {
        if let FailsRead::Refused { part } = fails_said(alloc, texts)? {
            return Ok(Some(DeviceRefusal {
                why: DeviceWhy::Fails,
                device,
                part,
            }));
        }
    }
    Ok(None)
}

/// Which callbacks of a device may fail; none where what it says is refused.
fn fails_of(alloc: Global, said: &Option<Items<Text>>) -> Result<DeviceFails, NoMemory>
    ensures { IfOk result (λ fails. fails ≡ fails_of said.now) }
{
    match fails_said(alloc, said)? {
        FailsRead::Read { fails } => Ok(fails),
        FailsRead::Refused { .. } => Ok(unsaid()),
    }
}

/// A list of a code, where there is one.
fn list_of(alloc: Global, code: Option<i64>) -> Result<Codes64, NoMemory>
    ensures { IfOk result (λ codes. codes ≡ list_of code) }
{
    let mut codes = Vec::new(alloc);
    if let Some(code) = code {
        codes.push(code)?;
    }
    Ok(Items::new(codes))
}

/// A device whose callbacks answer what they may fail with.
fn with_fails<'a>(
    alloc: Global,
    row: RawDevice<'a>,
    fails: DeviceFails,
) -> Result<RawDevice<'a>, NoMemory>
    ensures { IfOk result (λ made. made ≡ with_fails fails row.entry) }
{
    Ok(RawDevice {
        name: row.name,
        parent: row.parent,
        domain: row.domain,
        ignore_children: row.ignore_children,
        no_callbacks: row.no_callbacks,
        busy: row.busy,
        idle: row.idle,
        suspend: list_of(alloc, fails.suspend)?,
        resume: list_of(alloc, fails.resume)?,
        idle_ms: row.idle_ms,
        suspend_ms: row.suspend_ms,
        resume_ms: row.resume_ms,
    })
}

/// What a device says, of those that say something.
fn said_at(
    alloc: Global,
    said: &[Option<Items<Text>>],
    device: usize,
) -> Result<DeviceFails, NoMemory>
    ensures { IfOk result (λ fails. fails ≡ said_at said.now device) }
{
    match said.get(device) {
        Some(texts) => fails_of(alloc, texts),
        None => Ok(unsaid()),
    }
}

/// The devices, whose callbacks answer what they may fail with.
pub(crate) fn with_all_fails<'a>(
    alloc: Global,
    said: &[Option<Items<Text>>],
    rows: Vec<RawDevice<'a>>,
) -> Result<Vec<RawDevice<'a>>, NoMemory>
    ensures { IfOk result (λ made. made.items ≡ with_all_fails said.now 0 rows.entry.items) }
{
    let mut made = Vec::with_capacity(alloc, rows.len())?;
    for row in rows {
        let fails = said_at(alloc, said, made.len())?;
        made.push(with_fails(alloc, row, fails)?)?;
    }
    Ok(made)
}

/// A flag as a device.
fn flag_row<'a>(
    alloc: Global,
    upper: Option<Text<'a>>,
    flag: &ScriptWord,
) -> Result<RawDevice<'a>, NoMemory>
    ensures { IfOk result (λ row. row ≡ flag_row upper.entry flag.now) }
{
    let name: Name = Items::new(Vec::from_slice(alloc, flag.as_slice())?);
    Ok(RawDevice {
        name,
        parent: upper,
        domain: None,
        ignore_children: false,
        no_callbacks: false,
        busy: false,
        idle: None,
        suspend: Items::new(Vec::new(alloc)),
        resume: Items::new(Vec::new(alloc)),
        idle_ms: 0,
        suspend_ms: 0,
        resume_ms: 0,
    })
}

/// The parent of the flag of this number: that of the device that is resumed by force, where it is such a device's.
fn flag_parent<'a>(
    alloc: Global,
    values: &'a [Value],
    forced: &[DevId],
    place: usize,
) -> Result<Option<Text<'a>>, NoMemory>
    ensures { IfOk result (λ upper. upper ≡ flag_parent (map view values.now) forced.now place) }
{
    match forced.get(place) {
        Some(dev) => parent_in(alloc, values, *dev),
        None => Ok(None),
    }
}

/// Appends flags as devices.
pub(crate) fn push_flags<'a>(
    alloc: Global,
    rows: &mut Vec<RawDevice<'a>>,
    values: &'a [Value],
    forced: &[DevId],
    flags: &[ScriptWord],
) -> Result<(), NoMemory>
    ensures { OnOk result (rows.new.items ≡ rows.old.items ++ flags_from (map view values.now) forced.now 0 flags.now) }
{
    for (place, flag) in flags.iter().enumerate() {
        let upper = flag_parent(alloc, values, forced, place)?;
        rows.push(flag_row(alloc, upper, flag)?)?;
    }
    Ok(())
}
