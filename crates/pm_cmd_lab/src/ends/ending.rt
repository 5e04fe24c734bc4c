//! How a command ends: its status and its message (this project's own).

ghost use Rattle.std.specs.Prelude.{◌≡◌, ◌++◌, ◌≤◌, OnErr, OnOk};
ghost use Rattle.std.specs.Io.KnownBytes.{append_known};
ghost use Rattle.pm_cmd_ends.specs.Ending.{Told, taking};
ghost use Rattle.pm_io.specs.Faults.{Rose};
ghost use Rattle.pm_io.specs.Sink.{TookPrefix};
ghost use Rattle.pm_cmd_lab.specs.ends.Coming.{Came, Writes, outcome_status, work_message, work_status};
ghost use Rattle.pm_cmd_lab.specs.ends.Ending.{read_message, usage};
ghost use Rattle.pm_model.specs.Spelling.{newline};

use pm_base::{Failed, NoMemory};
use pm_cmd_ends::{AT_LIMIT, DONE, NO_MEMORY, READ_FAILED, REFUSED, WRITE_FAILED, WRONG_WORDS};
use pm_io::{Sink, write_whole};
use std::alloc::AllocError;

/// How the program is called.
pub const USAGE: &[u8] =
    b"usage: pm_lab say PLAN | find PLAN TRACE [--expect FILE] [--ktap] [--notes] | find FILE [--eager|--late] [--most K] [--fail F] [--states N] [--notes] | picture PLAN TRACE [--json] | orders PLAN [--late] [--most K] [--states N] [--differ] [--expect FILE|--seen LOG] | order PLAN [--late] [--most K] [--states N] CALLER N CODE|end DEVICE STATUS USAGE ERROR|--expect FILE fails INDEX | order FILE [--plan] finding N, with the options of find FILE | kernel PLAN | help [COMMAND] | --version\n";

/// Something was found.
pub const FOUND: u8 = 1;

/// What a command told, once its text is written.
#[derive(Clone, Copy, PartialEq, Eq)]
pub enum Outcome {
    /// Everything is done, and nothing was found.
    Done,
    /// The text tells what was found.
    Found,
    /// The text tells why the plan is refused.
    Refused,
    /// A limit came first: what the text tells is true, but it may not be all.
    AtLimit,
}

/// Why a command didn't write its text.
#[derive(Drop)]
pub enum Fault {
    /// The plan is refused, and this tells of it.
    Refused { text: Vec<u8> },
    /// Reading a file failed.
    ReadFailed,
    /// Writing the output failed.
    WriteFailed,
    /// Memory ran out.
    NoMemory,
}

impl From<AllocError> for Fault {
    ghost use Rattle.std.specs.Prelude.{◌≡◌};
    ghost use Rattle.pm_cmd_lab.specs.declared.ends.ending.Fault.TheVariants.{NoMemory};

    ghost from_gives = { λ _ fault. fault ≡ NoMemory };

    fn from(_error: AllocError) -> Fault {
        Fault::NoMemory
    }
}

impl From<NoMemory> for Fault {
    ghost use Rattle.std.specs.Prelude.{◌≡◌};
    ghost use Rattle.pm_cmd_lab.specs.declared.ends.ending.Fault.TheVariants.{NoMemory};

    ghost from_gives = { λ _ fault. fault ≡ NoMemory };

    fn from(_error: NoMemory) -> Fault {
        Fault::NoMemory
    }
}

impl From<Failed> for Fault {
    ghost use Rattle.std.specs.Prelude.{◌≡◌};
    ghost use Rattle.pm_cmd_lab.specs.declared.ends.ending.Fault.TheVariants.{WriteFailed};

    ghost from_gives = { λ _ fault. fault ≡ WriteFailed };

    fn from(_failed: Failed) -> Fault {
        Fault::WriteFailed
    }
}

impl Outcome {
    /// The status that the program ends with.
    fn status(self) -> u8
        ensures { result ≡ outcome_status self }
    {
        match self {
            Outcome::Done => DONE,
            Outcome::Found => FOUND,
            Outcome::Refused => REFUSED,
            Outcome::AtLimit => AT_LIMIT,
        }
    }
}

/// Writes the text of a command. What takes memory comes before.
pub fn write_text<O: Sink>(text: &[u8], outcome: Outcome, out: &mut O) -> Result<Outcome, Fault>
    ensures { Came (Writes outcome text.now) result ⊥ (taking O.taken O.faults out.old out.new) }
{
    write_whole(out, text)?;
    Ok(outcome)
}

/// Ends a command over a file: writes the message of its fault to `err`, where it has one, and answers its
/// status. A read that failed names the file. A fault of `err` changes nothing.
pub fn finish<E: Sink>(work: Result<Outcome, Fault>, file: &str, err: &mut E) -> u8
    ensures status { result ≡ work_status work }
    ensures message { Told (taking E.taken E.faults err.old err.new) (work_message file.now work) }
{
    match work {
        Ok(outcome) => outcome.status(),
        Err(Fault::Refused { text }) => {
            tell(err, text.as_slice());
            REFUSED
        }
        Err(Fault::ReadFailed) => {
            tell_read(err, file);
            READ_FAILED
        }
        Err(Fault::WriteFailed) => {
            tell(err, b"write\n");
            WRITE_FAILED
        }
        Err(Fault::NoMemory) => {
            tell(err, b"memory\n");
            NO_MEMORY
        }
    }
}

/// Writes the usage text to `err`, and answers the status for wrong words. A fault of `err` changes
/// nothing.
pub fn refuse_words<E: Sink>(err: &mut E) -> u8
    ensures status { result ≡ WRONG_WORDS }
    ensures message { Told (taking E.taken E.faults err.old err.new) usage }
{
    tell(err, USAGE);
    WRONG_WORDS
}

/// Writes the message. A fault of `err` changes nothing.
fn tell<E: Sink>(err: &mut E, message: &[u8])
    ensures { Told (taking E.taken E.faults err.old err.new) message.now }
{
    let _ = write_whole(err, message);
}

/// Tells that a read of the file failed. A fault of `err` changes nothing.
fn tell_read<E: Sink>(err: &mut E, file: &str)
    ensures { Told (taking E.taken E.faults err.old err.new) (read_message file.now) }
{
    let _ = write_read(err, file);
}

/// Writes the line that names the file of which a read failed.
#[tactic(auto, using(pm_io::proofs::Taken::append_known_append))]
fn write_read<E: Sink>(err: &mut E, file: &str) -> Result<(), Failed>
    ensures text { OnOk result (E.taken err.new ≡ append_known (E.taken err.old) (read_message file.now)) }
    ensures prefix { OnErr result (TookPrefix (E.taken err.old) (E.taken err.new) (read_message file.now)) }
    ensures failed { OnErr result (Rose (E.faults err.old) (E.faults err.new)) }
{
    write_whole(err, b"read: ")?;
    write_line(err, file.as_bytes())
}

/// Writes a line's bytes and its newline.
#[tactic(auto, using(pm_io::proofs::Taken::append_known_append))]
fn write_line<E: Sink>(err: &mut E, line: &[u8]) -> Result<(), Failed>
    ensures text { OnOk result (E.taken err.new ≡ append_known (E.taken err.old) (line.now ++ newline)) }
    ensures prefix { OnErr result (TookPrefix (E.taken err.old) (E.taken err.new) (line.now ++ newline)) }
    ensures failed { OnErr result (Rose (E.faults err.old) (E.faults err.new)) }
    ensures never_falls { E.faults err.old ≤ E.faults err.new }
{
    write_whole(err, line)?;
    write_whole(err, b"\n")
}
