//! Why a file of expectations is refused.

ghost use Rattle.std.specs.Prelude.{◌≡◌};
ghost use Rattle.pm_expect.specs.Words.{key_word, section_word};

use pm_base::NoMemory;
use pm_script::ScriptFault;
use std::alloc::{AllocError, AllocFailed};

/// A part of a file of expectations (this project's own).
#[derive(Clone, Copy, PartialEq, Eq)]
pub enum Section {
    /// The top keys.
    Top,
    Answer,
    End,
    Use,
}

/// A key of its tables (this project's own).
#[derive(Clone, Copy, PartialEq, Eq)]
pub enum Key {
    Caller,
    Command,
    Nth,
    Code,
    Device,
    Status,
    Usage,
}

impl Section {
    /// The section's word. But for the top's, it is the key under which a file has the section's tables.
    pub fn word(self) -> &'static str
        ensures { result.now ≡ section_word self }
    {
        match self {
            Section::Top => "top",
            Section::Answer => "answer",
            Section::End => "end",
            Section::Use => "use",
        }
    }
}

impl Key {
    /// The key as a file has it.
    pub fn word(self) -> &'static str
        ensures { result.now ≡ key_word self }
    {
        match self {
            Key::Caller => "caller",
            Key::Command => "command",
            Key::Nth => "nth",
            Key::Code => "code",
            Key::Device => "device",
            Key::Status => "status",
            Key::Usage => "usage",
        }
    }
}

/// Why a file of expectations is refused (this project's own).
#[derive(Clone, Copy, PartialEq, Eq)]
pub enum Why {
    /// It has more than 262,144 bytes.
    TooLong,
    /// The bytes are no TOML document.
    NotToml,
    /// A key that its table doesn't have, by its place among the table's keys in byte order.
    NoKey { place: u32 },
    /// What stands under the section's key is no array.
    NoList,
    /// The section has more than 1,000 tables.
    TooMany,
    /// The item is no table.
    NoTable,
    /// A key is missing.
    Missing { key: Key },
    /// A value is of another kind than its key's.
    Kind { key: Key },
    /// The plan has no such caller.
    NoCaller,
    /// The plan has no such device.
    NoDevice,
    /// The status is neither `suspended` nor `active`.
    NoStatus,
    /// The command is none over the plan's devices.
    NoCommand { fault: ScriptFault },
    /// The caller's script doesn't have the command.
    NotInScript,
    /// A number is out of its range.
    Range { key: Key },
}

/// A refusal, and the item of the section, counted from 0, that is refused.
#[derive(Clone, Copy, PartialEq, Eq)]
pub struct Refusal {
    pub section: Section,
    pub item: u32,
    pub why: Why,
}

/// Why a file of expectations isn't read.
#[derive(Clone, Copy, PartialEq, Eq)]
pub enum Fault {
    /// The first refusal.
    Refused { refusal: Refusal },
    /// Memory ran out.
    NoMemory,
}

impl From<Refusal> for Fault {
    ghost use Rattle.pm_expect.specs.declared.refusal.Fault.TheVariants.{Refused};

    ghost from_gives = { λ refusal fault. fault ≡ Refused refusal };

    fn from(refusal: Refusal) -> Fault {
        Fault::Refused { refusal }
    }
}

impl From<NoMemory> for Fault {
    ghost use Rattle.pm_expect.specs.declared.refusal.Fault.TheVariants.{NoMemory};

    ghost from_gives = { λ _ fault. fault ≡ NoMemory };

    fn from(_error: NoMemory) -> Fault {
        Fault::NoMemory
    }
}

impl From<AllocError> for Fault {
    ghost use Rattle.pm_expect.specs.declared.refusal.Fault.TheVariants.{NoMemory};

    ghost from_gives = { λ _ fault. fault ≡ NoMemory };

    fn from(_error: AllocError) -> Fault {
        Fault::NoMemory
    }
}

impl<T: Drop> From<AllocFailed<T>> for Fault {
    ghost use Rattle.pm_expect.specs.declared.refusal.Fault.TheVariants.{NoMemory};

    ghost from_gives = { λ _ fault. fault ≡ NoMemory };

    fn from(_failed: AllocFailed<T>) -> Fault {
        Fault::NoMemory
    }
}
