//! What a caller calls at a place.

ghost use Rattle.std.specs.Prelude.{◌≡◌, ◌+◌, ◌<◌, ◌^◌, IfSome, length, unwrap_or};
ghost use Rattle.pm_model.specs.NamedList.{place_named};
ghost use Rattle.pm_driver_script.specs.Calls.{FewNames, asks_at, call_of, command_at, delay_of, flag_device, force_flag, force_place, guard_at, resume_asks, resume_command, suspend_asks, suspend_command, touched_by};

use crate::names::{ScriptNames, device_in, place_in};
use pm_base::DevId;
use pm_driver_text::{Question, StepWhat};
use pm_model::{Command, Helper};

/// A question whose answer, 1 or 0, stands for the code of its call.
#[derive(Clone, Copy)]
pub struct Asked {
    pub question: Question,
    pub dev: DevId,
}

/// When a call may begin.
#[derive(Clone, Copy)]
pub enum Guard {
    /// At any time.
    Open,
    /// When no other caller holds the lock.
    Free { lock: u32 },
    /// When none of the callers runs that this one has stopped.
    Stopped,
    /// When the flag is set, or is clear.
    Flag { dev: DevId, set: bool },
}

/// The call of a helper that takes a device alone.
fn call_of(helper: Helper, dev: DevId) -> Command
    ensures { result ≡ call_of helper dev }
{
    Command {
        helper,
        dev,
        number: 0,
    }
}

/// A delay of so many milliseconds.
fn delay_of(ms: i64) -> Command
    ensures { result ≡ delay_of ms }
{
    Command {
        helper: Helper::Delay,
        dev: DevId(0),
        number: ms,
    }
}

/// The device that a flag is.
fn flag_device(names: &ScriptNames, flag: &[u8]) -> DevId
    requires { FewNames names.now }
    ensures { result ≡ flag_device names.now flag.now }
{
    DevId(names.devices + place_in(names.flags.as_slice(), flag).unwrap_or(0) as u32)
}

/// The place of a device among those that are resumed by force.
pub(crate) fn force_place(names: &ScriptNames, dev: DevId) -> Option<usize>
    ensures place { result ≡ force_place names.now dev }
    ensures below { IfSome result (λ place. place < length names.now.forced) }
{
    device_in(names.forced.as_slice(), dev)
}

/// The device that the flag of a device is that is resumed by force.
fn force_flag(names: &ScriptNames, dev: DevId) -> DevId
    requires { FewNames names.now }
    ensures { result ≡ force_flag names.now dev }
{
    DevId(names.devices + force_place(names, dev).unwrap_or(0) as u32)
}

/// What the parts of `force_suspend` call.
fn suspend_command(dev: DevId, flag: DevId, part: u32) -> Command
    ensures { result ≡ suspend_command dev flag part }
{
    match part {
        0 => call_of(Helper::Disable, dev),
        2 => call_of(Helper::SetSuspended, dev),
        4 => call_of(Helper::SetActive, flag),
        _ => delay_of(0),
    }
}

/// What the parts of `force_resume` call.
fn resume_command(dev: DevId, flag: DevId, part: u32) -> Command
    ensures { result ≡ resume_command dev flag part }
{
    match part {
        0 => delay_of(0),
        1 => call_of(Helper::SetActive, dev),
        2 => call_of(Helper::SetSuspended, flag),
        _ => call_of(Helper::Enable, dev),
    }
}

/// What a part of a step calls.
pub(crate) fn command_at(names: &ScriptNames, what: &StepWhat, part: u32) -> Command
    requires { FewNames names.now }
    ensures { result ≡ command_at names.now what.now part }
{
    match what {
        StepWhat::Call { command } => *command,
        StepWhat::ResumeAndGet { dev } => {
            if part == 0 {
                call_of(Helper::GetSync, *dev)
            } else {
                call_of(Helper::PutNoidle, *dev)
            }
        }
        StepWhat::Touch { ms, .. } => delay_of(*ms),
        StepWhat::Set { flag } => call_of(Helper::SetActive, flag_device(names, flag.as_slice())),
        StepWhat::Clear { flag } => {
            call_of(Helper::SetSuspended, flag_device(names, flag.as_slice()))
        }
        StepWhat::ForceSuspend { dev } => suspend_command(*dev, force_flag(names, *dev), part),
        StepWhat::ForceResume { dev } => resume_command(*dev, force_flag(names, *dev), part),
        _ => delay_of(0),
    }
}

/// What the parts of `force_suspend` ask.
fn suspend_asks(dev: DevId, part: u32) -> Option<Asked>
    ensures { result ≡ suspend_asks dev part }
{
    match part {
        1 => Some(Asked {
            question: Question::StillActive,
            dev,
        }),
        3 => Some(Asked {
            question: Question::NeedsResume,
            dev,
        }),
        _ => None,
    }
}

/// What the parts of `force_resume` ask.
fn resume_asks(flag: DevId, part: u32) -> Option<Asked>
    ensures { result ≡ resume_asks flag part }
{
    match part {
        0 => Some(Asked {
            question: Question::StillActive,
            dev: flag,
        }),
        _ => None,
    }
}

/// What a part of a step asks.
pub(crate) fn asks_at(names: &ScriptNames, what: &StepWhat, part: u32) -> Option<Asked>
    requires { FewNames names.now }
    ensures { result ≡ asks_at names.now what.now part }
{
    match what {
        StepWhat::Ask { question, dev } => Some(Asked {
            question: *question,
            dev: *dev,
        }),
        StepWhat::AskFlag { flag } => Some(Asked {
            question: Question::StillActive,
            dev: flag_device(names, flag.as_slice()),
        }),
        StepWhat::ForceSuspend { dev } => suspend_asks(*dev, part),
        StepWhat::ForceResume { dev } => resume_asks(force_flag(names, *dev), part),
        _ => None,
    }
}

/// When a part of a step may begin.
pub(crate) fn guard_at(names: &ScriptNames, what: &StepWhat, part: u32) -> Guard
    requires { FewNames names.now }
    ensures { result ≡ guard_at names.now what.now part }
{
    match what {
        StepWhat::Lock { name } => Guard::Free {
            lock: place_in(names.locks.as_slice(), name.as_slice()).unwrap_or(0) as u32,
        },
        StepWhat::Wait { flag, set } => Guard::Flag {
            dev: flag_device(names, flag.as_slice()),
            set: *set,
        },
        StepWhat::Stop { .. } if part == 1 => Guard::Stopped,
        _ => Guard::Open,
    }
}

/// The device that a step uses.
pub(crate) fn touched_by(what: &StepWhat) -> Option<DevId>
    ensures { result ≡ touched_by what.now }
{
    match what {
        StepWhat::Touch { dev, .. } => Some(*dev),
        _ => None,
    }
}
