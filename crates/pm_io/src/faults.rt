//! The count of faults that the files and sinks of this crate keep.
ghost use Rattle.std.specs.Prelude.{◌≡◌, ◌≤◌};
ghost use Rattle.pm_io.specs.Faults.{Rose, counted};

use pm_base::Failed;

/// Counts a fault and answers it. The count stands still at `u64::MAX`.
pub(crate) fn fault(faults: &mut u64) -> Failed
    ensures counted { faults.new ≡ counted faults.old }
    ensures rose { Rose faults.old faults.new }
    ensures never_falls { faults.old ≤ faults.new }
{
    *faults = faults.saturating_add(1);
    Failed
}
