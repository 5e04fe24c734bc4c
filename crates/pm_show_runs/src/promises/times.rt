//! The times of whole runs and of short lists, by computation.

ghost use Rattle.std.specs.Prelude.{◌≡◌, [], ◌∷◌};
ghost use Rattle.pm_base.specs.declared.ActorId.TheVariants.{Caller};
ghost use Rattle.pm_model.specs.declared.event.Event.TheVariants as event;
ghost use Rattle.pm_show_runs.specs.Refusals.{line};
ghost use Rattle.pm_show_runs.specs.Requests.{deferred_resume_plan};
ghost use Rattle.pm_show_runs.specs.Suspends.{autosuspend_plan};
ghost use Rattle.pm_show_runs.specs.Words.{dev, run_of};
ghost use Rattle.pm_account.specs.Account.{no_times};
ghost use Rattle.pm_account.specs.Times.{times_of};

/// A device is Active from moment 0 on, until its autosuspend ends the run 19 milliseconds later.
/// Another is Suspending for 10 milliseconds, and is resumed and idle at the end.
pub fn whole_runs()
    ensures autosuspend { times_of (run_of autosuspend_plan) (dev 0) ≡ record { active = 19; suspended = 0; moving = 0 } }
    ensures deferred { times_of (run_of deferred_resume_plan) (dev 0) ≡ record { active = 0; suspended = 0; moving = 10 } }
{}

/// Before any line no time has passed. A device is Suspended until the first line, and no time has
/// passed after the last.
pub fn short_lists()
    ensures none { times_of [] (dev 0) ≡ no_times }
    ensures first { times_of (line 7 (Caller 0) (event.Wait (dev 0)) ∷ []) (dev 0) ≡ record { active = 0; suspended = 7; moving = 0 } }
{}
