//! Runs of counts: what callers, `forbid` and a negative autosuspend delay hold.

ghost use Rattle.std.specs.Prelude.{◌≡◌};
ghost use Rattle.pm_model.specs.Lawful.{IsFinished};
ghost use Rattle.pm_show_runs.specs.Words.{run_of, text_of};
ghost use Rattle.pm_show_runs.specs.Counts.{first_plan, first_text, disabled_get_plan, disabled_get_text, refused_put_plan, refused_put_text, conditional_gets_plan, conditional_gets_text, forbidden_plan, forbidden_text, negative_delay_plan, negative_delay_text, held_once_plan, held_once_text, refused_settings_plan, refused_settings_text};

/// A caller enables a device, takes a count on it, which resumes it, and gives the count back.
pub fn first()
    ensures text { text_of first_plan ≡ first_text }
    ensures finished { IsFinished first_plan (run_of first_plan) }
{}

/// A get on a disabled device answers -13, and keeps its count.
pub fn disabled_get()
    ensures text { text_of disabled_get_plan ≡ disabled_get_text }
    ensures finished { IsFinished disabled_get_plan (run_of disabled_get_plan) }
{}

/// A put without a count is refused; one that leaves a count goes no further.
pub fn refused_put()
    ensures text { text_of refused_put_plan ≡ refused_put_text }
    ensures finished { IsFinished refused_put_plan (run_of refused_put_plan) }
{}

/// The gets that ask first, and calls that are refused.
pub fn conditional_gets()
    ensures text { text_of conditional_gets_plan ≡ conditional_gets_text }
    ensures finished { IsFinished conditional_gets_plan (run_of conditional_gets_plan) }
{}

/// `forbid` holds a count that no put gives back; `allow` gives it back.
pub fn forbidden()
    ensures text { text_of forbidden_plan ≡ forbidden_text }
    ensures finished { IsFinished forbidden_plan (run_of forbidden_plan) }
{}

/// A negative autosuspend delay in use holds a count, until autosuspend is in use no more.
pub fn negative_delay()
    ensures text { text_of negative_delay_plan ≡ negative_delay_text }
    ensures finished { IsFinished negative_delay_plan (run_of negative_delay_plan) }
{}

/// A second `forbid`, and one negative delay after another, hold no second count.
pub fn held_once()
    ensures text { text_of held_once_plan ≡ held_once_text }
    ensures finished { IsFinished held_once_plan (run_of held_once_plan) }
{}

/// `forbid`, `allow` and the autosuspend settings answer 0 whatever the calls that they make
/// answer.
pub fn refused_settings()
    ensures text { text_of refused_settings_plan ≡ refused_settings_text }
    ensures finished { IsFinished refused_settings_plan (run_of refused_settings_plan) }
{}
