//! Runs of timers, and of what cancels them.

ghost use Rattle.std.specs.Prelude.{◌≡◌};
ghost use Rattle.pm_model.specs.Lawful.{IsFinished};
ghost use Rattle.pm_show_runs.specs.Words.{run_of, text_of};
ghost use Rattle.pm_show_runs.specs.Timers.{cancelled_in_suspend_plan, cancelled_in_suspend_text, cancelled_in_resume_plan, cancelled_in_resume_text, failed_resume_plan, failed_resume_text, cancelled_by_control_plan, cancelled_by_control_text, enabled_meanwhile_plan, enabled_meanwhile_text};

/// Whoever asks a device that suspends cancels a scheduled suspend, and so does a callback that
/// fails; one that answers -16 keeps it.
pub fn cancelled_in_suspend()
    ensures text { text_of cancelled_in_suspend_plan ≡ cancelled_in_suspend_text }
    ensures finished { IsFinished cancelled_in_suspend_plan (run_of cancelled_in_suspend_plan) }
{}

/// Whoever asks a device that resumes cancels a scheduled suspend and no autosuspend; a queued
/// suspend takes the place of either.
pub fn cancelled_in_resume()
    ensures text { text_of cancelled_in_resume_plan ≡ cancelled_in_resume_text }
    ensures finished { IsFinished cancelled_in_resume_plan (run_of cancelled_in_resume_plan) }
{}

/// A resume callback that fails cancels an autosuspend.
pub fn failed_resume()
    ensures text { text_of failed_resume_plan ≡ failed_resume_text }
    ensures finished { IsFinished failed_resume_plan (run_of failed_resume_plan) }
{}

/// `barrier` and `disable`, waiting or not, and a suspend that begins cancel an autosuspend.
pub fn cancelled_by_control()
    ensures text { text_of cancelled_by_control_plan ≡ cancelled_by_control_text }
    ensures finished { IsFinished cancelled_by_control_plan (run_of cancelled_by_control_plan) }
{}

/// A timer that is armed while `set_active` resumes the suppliers stays.
pub fn enabled_meanwhile()
    ensures text { text_of enabled_meanwhile_plan ≡ enabled_meanwhile_text }
    ensures finished { IsFinished enabled_meanwhile_plan (run_of enabled_meanwhile_plan) }
{}
