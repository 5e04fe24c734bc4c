//! How a run on one thread ended.

ghost use Rattle.std.specs.Prelude.{◌≡◌};
ghost use Rattle.pm_cmd_top.specs.Runs.{ended, is_whole};

use pm_cmd_ends::Fault;
use pm_serial::End;

/// Whether the run is finished. Else it has all the lines that its plan allows.
pub fn is_whole(end: End) -> bool
    ensures { result ≡ is_whole end }
{
    matches!(end, End::Finished)
}

/// How the work of a command is done whose run ended so, and was written.
pub fn ended(end: End) -> Result<(), Fault>
    ensures { result ≡ ended end }
{
    match end {
        End::Finished => Ok(()),
        End::AtLimit => Err(Fault::AtLimit),
    }
}
