//! Why no run was written, and how the command ends.

ghost use Rattle.std.specs.Prelude.{◌≡◌};
ghost use Rattle.pm_cmd_ends.specs.Ending.{Told, taking};
ghost use Rattle.pm_cmd_lab.specs.order.Work.{message_after, status_after};

use crate::ends::{Fault, Outcome, finish};
use pm_base::NoMemory;
use pm_cmd_ends::AT_LIMIT;
use pm_io::{Sink, write_whole};

/// No schedule shows what is asked for.
const ABSENT: u8 = 1;

/// Why no run was written.
#[derive(Drop)]
pub enum Stop {
    Fault(Fault),
    /// No schedule shows what is asked for; the message says so.
    Absent(Vec<u8>),
    /// It wasn't seen before a limit came; the message says so.
    Unseen(Vec<u8>),
}

impl From<Fault> for Stop {
    ghost use Rattle.std.specs.Prelude.{◌≡◌};
    ghost use Rattle.pm_cmd_lab.specs.declared.order.stop.Stop.TheVariants as stop;

    ghost from_gives = { λ fault why. why ≡ stop.Fault fault };

    fn from(fault: Fault) -> Stop {
        Stop::Fault(fault)
    }
}

impl From<NoMemory> for Stop {
    ghost use Rattle.std.specs.Prelude.{◌≡◌};
    ghost use Rattle.pm_cmd_lab.specs.declared.ends.ending.Fault.TheVariants as fault;
    ghost use Rattle.pm_cmd_lab.specs.declared.order.stop.Stop.TheVariants as stop;

    ghost from_gives = { λ _ why. why ≡ stop.Fault fault.NoMemory };

    fn from(_error: NoMemory) -> Stop {
        Stop::Fault(Fault::NoMemory)
    }
}

/// Writes the message. A fault of `err` changes nothing.
fn tell<E: Sink>(err: &mut E, message: &[u8])
    ensures { Told (taking E.taken E.faults err.old err.new) message.now }
{
    let _ = write_whole(err, message);
}

/// Ends the command over a plan's file: writes its message to `err`, where there is one, and answers its status. A fault
/// of `err` changes nothing.
pub fn end<E: Sink>(work: Result<Outcome, Stop>, file: &str, err: &mut E) -> u8
    ensures status { result ≡ status_after work }
    ensures message { Told (taking E.taken E.faults err.old err.new) (message_after file.now work) }
{
    match work {
        Ok(outcome) => finish(Ok(outcome), file, err),
        Err(Stop::Fault(fault)) => finish(Err(fault), file, err),
        Err(Stop::Absent(message)) => {
            tell(err, message.as_slice());
            ABSENT
        }
        Err(Stop::Unseen(message)) => {
            tell(err, message.as_slice());
            AT_LIMIT
        }
    }
}
