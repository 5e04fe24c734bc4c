//! The names that scripts give to flags, marks and locks, and the devices that they resume by force.

ghost use Rattle.std.specs.Prelude.{◌≡◌, ◌<◌, IfOk, IfSome, OnOk, length, option_map, position};
ghost use Rattle.std.specs.Option.{option_copied};
ghost use Rattle.pm_model.specs.NamedList.{place_named};
ghost use Rattle.pm_driver_script.specs.Names.{forced_by, forced_from, is_same_device, name_of, names_from, with_forced, with_name};

use pm_base::DevId;
use pm_driver_text::{ScriptStep, StepWhat};
use pm_model::Items;
use pm_script::ScriptWord;
use std::alloc::{AllocError, Global};

/// What a script gives a name to.
#[derive(Clone, Copy)]
pub enum NameKind {
    /// A boolean of the driver's own.
    Flag,
    /// How far a caller has come.
    Mark,
    /// A mutex.
    Lock,
}

/// The names of a file's scripts, each list in the order in which they first stand there, and those of its callers.
#[derive(Drop)]
pub struct ScriptNames<'a> {
    /// The number of devices; flags are counted behind them.
    pub devices: u32,
    /// The devices that steps resume by force. The first flags are theirs: each is set while its device is down that has to come
    /// up again.
    pub forced: Items<DevId>,
    pub flags: Items<ScriptWord<'a>>,
    pub marks: Items<ScriptWord<'a>>,
    pub locks: Items<ScriptWord<'a>>,
    pub callers: Items<ScriptWord<'a>>,
}

/// The place of a name.
pub fn place_in(names: &[ScriptWord], name: &[u8]) -> Option<usize>
    ensures { result ≡ place_named name.now names.now }
{
    for (place, other) in names.iter().enumerate() {
        if name == other.as_slice() {
            return Some(place);
        }
    }
    None
}

/// The name of this kind that a step has.
fn name_of<'a>(kind: NameKind, what: &StepWhat<'a>) -> Option<&'a [u8]>
    ensures { option_copied result ≡ name_of kind what.now }
{
    match kind {
        NameKind::Flag => flag_of(what),
        NameKind::Mark => match what {
            StepWhat::Mark { name } => Some(name.as_slice()),
            _ => None,
        },
        NameKind::Lock => match what {
            StepWhat::Lock { name } => Some(name.as_slice()),
            StepWhat::Unlock { name } => Some(name.as_slice()),
            _ => None,
        },
    }
}

/// The flag of a step.
fn flag_of<'a>(what: &StepWhat<'a>) -> Option<&'a [u8]>
    ensures { option_copied result ≡ name_of NameKind.Flag what.now }
{
    match what {
        StepWhat::AskFlag { flag } => Some(flag.as_slice()),
        StepWhat::Set { flag } => Some(flag.as_slice()),
        StepWhat::Clear { flag } => Some(flag.as_slice()),
        StepWhat::Wait { flag, .. } => Some(flag.as_slice()),
        _ => None,
    }
}

/// Appends a name that isn't there yet.
fn push_name<'a>(names: &mut Vec<ScriptWord<'a>>, name: Option<&'a [u8]>) -> Result<(), AllocError>
    ensures { OnOk result (names.new.items ≡ with_name names.old.items (option_copied name.entry)) }
{
    let Some(name) = name else {
        return Ok(());
    };
    if place_in(names.as_slice(), name).is_none() {
        names.push(ScriptWord::new(name))?;
    }
    Ok(())
}

/// Appends the names of a kind that steps have and that aren't there yet.
pub fn names_in<'a>(
    names: &mut Vec<ScriptWord<'a>>,
    kind: NameKind,
    steps: &[ScriptStep<'a>],
) -> Result<(), AllocError>
    ensures { OnOk result (names.new.items ≡ names_from kind names.old.items steps.now) }
{
    for step in steps {
        push_name(names, name_of(kind, &step.what))?;
    }
    Ok(())
}

/// The device that a step resumes by force.
fn forced_by(what: &StepWhat) -> Option<DevId>
    ensures { result ≡ forced_by what.now }
{
    match what {
        StepWhat::ForceResume { dev } => Some(*dev),
        _ => None,
    }
}

/// The place of a device.
pub(crate) fn device_in(devices: &[DevId], dev: DevId) -> Option<usize>
    ensures place { result ≡ position (is_same_device dev) devices.now }
    ensures below { IfSome result (λ place. place < length devices.now) }
{
    for (place, other) in devices.iter().enumerate() {
        if dev.0 == other.0 {
            return Some(place);
        }
    }
    None
}

/// Appends a device that isn't there yet.
fn push_forced(forced: &mut Vec<DevId>, dev: Option<DevId>) -> Result<(), AllocError>
    ensures { OnOk result (forced.new.items ≡ with_forced forced.old.items dev) }
{
    let Some(dev) = dev else {
        return Ok(());
    };
    if device_in(forced.as_slice(), dev).is_none() {
        forced.push(dev)?;
    }
    Ok(())
}

/// Appends the devices that steps resume by force and that aren't there yet.
pub fn forced_in(forced: &mut Vec<DevId>, steps: &[ScriptStep]) -> Result<(), AllocError>
    ensures { OnOk result (forced.new.items ≡ forced_from forced.old.items steps.now) }
{
    for step in steps {
        push_forced(forced, forced_by(&step.what))?;
    }
    Ok(())
}
