//! The faults of a trace's file.

ghost use Rattle.std.specs.Prelude.{◌≡◌};
ghost use Rattle.pm_cmd_top.specs.Traces.{trace_fault};

use pm_cmd_ends::Fault;
use pm_io::FileFault;

/// The fault of a command over a trace that wasn't read whole.
pub(crate) fn trace_fault(fault: FileFault) -> Fault
    ensures { result ≡ trace_fault fault }
{
    match fault {
        FileFault::Failed => Fault::ReadFailed,
        FileFault::TooLong => Fault::TraceTooLong,
        FileFault::NoMemory => Fault::NoMemory,
    }
}
