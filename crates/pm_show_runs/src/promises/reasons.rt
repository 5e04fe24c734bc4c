//! What keeps the devices of whole runs from suspending, by computation.

ghost use Rattle.std.specs.Prelude.{◌≡◌, [], ◌∷◌, drop};
ghost use Rattle.pm_base.specs.declared.Status.TheVariants.{Suspended};
ghost use Rattle.pm_base.specs.declared.Why.TheVariants.{Caller};
ghost use Rattle.pm_show_runs.specs.Counts.{disabled_get_plan, first_plan};
ghost use Rattle.pm_show_runs.specs.Parents.{parents_plan};
ghost use Rattle.pm_show_runs.specs.Suspends.{failed_suspend_plan};
ghost use Rattle.pm_show_runs.specs.Words.{dev, minus, run_of};
ghost use Rattle.pm_why.specs.declared.Reason.TheVariants as reason;
ghost use Rattle.pm_why.specs.Reasons.{reasons};

/// A device that is in use no more is free. One that was never enabled has its depth, its count and
/// its status.
pub fn one_device()
    ensures free { reasons first_plan (run_of first_plan) (dev 0) ≡ [] }
    ensures disabled { reasons disabled_get_plan (run_of disabled_get_plan) (dev 0) ≡ reason.Depth 1 ∷ reason.Count Caller 2 ∷ reason.State Suspended ∷ [] }
{}

/// A parent has its child, and the child the count of its caller.
pub fn parent_and_child()
    ensures parent { reasons parents_plan (run_of parents_plan) (dev 1) ≡ reason.Child (dev 2) ∷ [] }
    ensures child { reasons parents_plan (run_of parents_plan) (dev 2) ≡ reason.Count Caller 8 ∷ [] }
{}

/// After the first 22 of 37 lines a device has the error that line 20 stored.
pub fn stored_error()
    ensures { reasons failed_suspend_plan (drop 15 (run_of failed_suspend_plan)) (dev 0) ≡ reason.Error (minus 5) 20 ∷ [] }
{}
