//! What stands out in whole runs, by computation.

ghost use Rattle.std.specs.Prelude.{◌≡◌, Some, [], ◌∷◌, false, true};
ghost use Rattle.pm_base.specs.declared.ActorId.TheVariants.{Caller};
ghost use Rattle.pm_base.specs.declared.Cb.TheVariants as cb;
ghost use Rattle.pm_find.specs.findings.AllFound.{all_found};
ghost use Rattle.pm_find.specs.declared.findings.ending.Holder.TheVariants.{Nobody};
ghost use Rattle.pm_find.specs.declared.findings.Kind.TheVariants as kind;
ghost use Rattle.pm_model.specs.declared.event.Helper.TheVariants.{GetSync, PutSync};
ghost use Rattle.pm_show_runs.specs.Counts.{disabled_get_plan, first_plan};
ghost use Rattle.pm_show_runs.specs.Suspends.{busy_suspend_plan};
ghost use Rattle.pm_show_runs.specs.Words.{dev, minus, run_of};

/// A get of a device that was never enabled answers -13 in its fifth line, and keeps the count of the second, which
/// is given back by nobody; that is told only of a finished run.
pub fn disabled_get()
    ensures finished { all_found disabled_get_plan true (run_of disabled_get_plan) ≡ record { line = 2; kind = kind.Leak (Caller 0) (dev 0) (Some GetSync) } ∷ record { line = 5; kind = kind.Answer (Caller 0) GetSync (dev 0) (minus 13) true false } ∷ [] }
    ensures unfinished { all_found disabled_get_plan false (run_of disabled_get_plan) ≡ record { line = 5; kind = kind.Answer (Caller 0) GetSync (dev 0) (minus 13) true false } ∷ [] }
{}

/// A suspend callback that is busy is noted, and so is the put that it refuses.
pub fn busy_suspend()
    ensures { all_found busy_suspend_plan true (run_of busy_suspend_plan) ≡ record { line = 22; kind = kind.Failed (dev 0) cb.Suspend (minus 16) } ∷ record { line = 24; kind = kind.Refused (Caller 0) PutSync (dev 0) (minus 16) } ∷ [] }
{}

/// A device whose last count is put without an idle stays on, held by nobody, and that is told at the last line.
pub fn left_on()
    ensures { all_found first_plan true (run_of first_plan) ≡ record { line = 16; kind = kind.LeftOn (dev 0) Nobody } ∷ [] }
{}
