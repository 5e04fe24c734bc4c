//! How a command ends: its status and its message (this project's own).

ghost use Rattle.std.specs.Prelude.{◌≡◌};
ghost use Rattle.pm_cmd_ends.specs.Coming.{fault_message, fault_status, work_message, work_status};
ghost use Rattle.pm_cmd_ends.specs.Ending.{Told, taking, usage};
ghost use Rattle.pm_cmd_ends.specs.declared.ending.TheConstants.{AT_LIMIT, DONE, NO_MEMORY, NOT_LAWFUL, READ_FAILED, REFUSED, WRITE_FAILED, WRONG_WORDS};

use crate::said::no_line;
use pm_audit::NoWhy;
use pm_base::{Failed, NoMemory};
use pm_io::{FileFault, Sink, write_whole};
use pm_planread::{PlanFault, PlanWhy, Section, refusal_message};
use std::alloc::AllocError;

/// Everything was done.
pub const DONE: u8 = 0;

/// The trace is the text of no lawful list.
pub const NOT_LAWFUL: u8 = 1;

/// The words are none of the commands.
pub const WRONG_WORDS: u8 = 2;

/// The plan is refused, the trace is too long, or no device has the name.
pub const REFUSED: u8 = 3;

/// Reading the plan or the trace failed.
pub const READ_FAILED: u8 = 4;

/// Writing the output failed.
pub const WRITE_FAILED: u8 = 5;

/// The run has all the lines that the plan allows, and isn't finished. It was written.
pub const AT_LIMIT: u8 = 6;

/// Memory ran out, before anything was written.
pub const NO_MEMORY: u8 = 7;

/// The statuses are the numbers that definitions have written out.
pub fn statuses_are_numbers()
    ensures done { DONE ≡ 0 }
    ensures not_lawful { NOT_LAWFUL ≡ 1 }
    ensures wrong_words { WRONG_WORDS ≡ 2 }
    ensures refused { REFUSED ≡ 3 }
    ensures read_failed { READ_FAILED ≡ 4 }
    ensures write_failed { WRITE_FAILED ≡ 5 }
    ensures at_limit { AT_LIMIT ≡ 6 }
    ensures no_memory { NO_MEMORY ≡ 7 }
{}

/// How the program is called.
const USAGE: &[u8] =
    b"usage: pm_top serial PLAN | run PLAN [--hands N] | audit PLAN TRACE | check PLAN | make NUMBER DEVICES | convert PLAN TRACE | times PLAN TRACE | why PLAN TRACE DEVICE | desk PLAN\n";

/// Why a command didn't do everything.
#[derive(Clone, Copy, PartialEq, Eq)]
pub enum Fault {
    /// The plan is refused, at this item of the section and this part of the item.
    Refused {
        why: PlanWhy,
        section: Section,
        item: u32,
        part: u32,
    },
    /// The trace has more bytes than a trace may have.
    TraceTooLong,
    /// No device of the plan has the name.
    NoDevice,
    /// The trace is the text of no lawful list: this line, counted from 1, is the first bad one.
    NotLawful {
        line: u64,
        why: NoWhy,
    },
    /// The trace is the text of no lawful list, and the line that says so was written.
    SaidNo,
    /// Reading the plan or the trace failed.
    ReadFailed,
    /// Writing the output failed.
    WriteFailed,
    /// The run has all the lines that the plan allows, and isn't finished.
    AtLimit,
    /// Memory ran out.
    NoMemory,
}

impl From<AllocError> for Fault {
    ghost use Rattle.std.specs.Prelude.{◌≡◌};
    ghost use Rattle.pm_cmd_ends.specs.declared.ending.Fault.TheVariants.{NoMemory};

    ghost from_gives = { λ _ fault. fault ≡ NoMemory };

    fn from(_error: AllocError) -> Fault {
        Fault::NoMemory
    }
}

impl From<NoMemory> for Fault {
    ghost use Rattle.std.specs.Prelude.{◌≡◌};
    ghost use Rattle.pm_cmd_ends.specs.declared.ending.Fault.TheVariants.{NoMemory};

    ghost from_gives = { λ _ fault. fault ≡ NoMemory };

    fn from(_error: NoMemory) -> Fault {
        Fault::NoMemory
    }
}

impl From<Failed> for Fault {
    ghost use Rattle.std.specs.Prelude.{◌≡◌};
    ghost use Rattle.pm_cmd_ends.specs.declared.ending.Fault.TheVariants.{WriteFailed};

    ghost from_gives = { λ _ fault. fault ≡ WriteFailed };

    fn from(_failed: Failed) -> Fault {
        Fault::WriteFailed
    }
}

impl From<PlanFault> for Fault {
    ghost use Rattle.std.specs.Prelude.{◌≡◌};
    ghost use Rattle.pm_cmd_ends.specs.Coming.{plan_fault};

    ghost from_gives = { λ plan fault. fault ≡ plan_fault plan };

    fn from(fault: PlanFault) -> Fault {
        match fault {
            PlanFault::Refused {
                why,
                section,
                item,
                part,
            } => Fault::Refused {
                why,
                section,
                item,
                part,
            },
            PlanFault::NoMemory => Fault::NoMemory,
        }
    }
}

impl From<FileFault> for Fault {
    ghost use Rattle.std.specs.Prelude.{◌≡◌};
    ghost use Rattle.pm_cmd_ends.specs.Coming.{file_fault};

    ghost from_gives = { λ file fault. fault ≡ file_fault file };

    fn from(fault: FileFault) -> Fault {
        match fault {
            FileFault::Failed => Fault::ReadFailed,
            FileFault::TooLong => Fault::Refused {
                why: PlanWhy::TooLong,
                section: Section::Top,
                item: 0,
                part: 0,
            },
            FileFault::NoMemory => Fault::NoMemory,
        }
    }
}

impl Fault {
    /// The status that the program ends with.
    pub fn status(self) -> u8
        ensures { result ≡ fault_status self }
    {
        match self {
            Fault::Refused { .. } | Fault::TraceTooLong | Fault::NoDevice => REFUSED,
            Fault::NotLawful { .. } | Fault::SaidNo => NOT_LAWFUL,
            Fault::ReadFailed => READ_FAILED,
            Fault::WriteFailed => WRITE_FAILED,
            Fault::AtLimit => AT_LIMIT,
            Fault::NoMemory => NO_MEMORY,
        }
    }

    /// Writes the line that tells of the fault to `err`, where it has one. It takes no memory, and a fault of
    /// `err` changes nothing.
    fn tell<E: Sink>(self, err: &mut E)
        ensures { Told (taking E.taken E.faults err.old err.new) (fault_message self) }
    {
        match self {
            Fault::Refused {
                why,
                section,
                item,
                part,
            } => say(err, refusal_message(why, section, item, part).as_slice()),
            Fault::TraceTooLong => say(err, b"trace: too_long\n"),
            Fault::NoDevice => say(err, b"device: unknown\n"),
            Fault::NotLawful { line, why } => say(err, no_line(line, why).as_slice()),
            Fault::SaidNo => {}
            Fault::ReadFailed => say(err, b"read\n"),
            Fault::WriteFailed => say(err, b"write\n"),
            Fault::AtLimit => say(err, b"limit\n"),
            Fault::NoMemory => say(err, b"memory\n"),
        }
    }

    /// Writes the fault's message to `err`, and answers its status. A fault of `err` changes nothing.
    pub fn report<E: Sink>(self, err: &mut E) -> u8
        ensures status { result ≡ fault_status self }
        ensures message { Told (taking E.taken E.faults err.old err.new) (fault_message self) }
    {
        self.tell(err);
        self.status()
    }
}

/// Ends a command: writes the message of its fault to `err`, where it has one, and answers its status.
pub fn finish<E: Sink>(work: Result<(), Fault>, err: &mut E) -> u8
    ensures status { result ≡ work_status work }
    ensures message { Told (taking E.taken E.faults err.old err.new) (work_message work) }
{
    match work {
        Ok(()) => DONE,
        Err(fault) => fault.report(err),
    }
}

/// Writes the usage text to `err`, and answers the status for wrong words. A fault of `err` changes
/// nothing.
pub fn refuse_words<E: Sink>(err: &mut E) -> u8
    ensures status { result ≡ WRONG_WORDS }
    ensures message { Told (taking E.taken E.faults err.old err.new) usage }
{
    say(err, USAGE);
    WRONG_WORDS
}

/// Writes the message. A fault changes nothing.
fn say<E: Sink>(err: &mut E, message: &[u8])
    ensures { Told (taking E.taken E.faults err.old err.new) message.now }
{
    let _ = write_whole(err, message);
}
