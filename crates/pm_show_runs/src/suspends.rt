//! Runs of suspends: what their callbacks answer, autosuspend and timers.

ghost use Rattle.std.specs.Prelude.{◌≡◌};
ghost use Rattle.pm_model.specs.Lawful.{IsFinished};
ghost use Rattle.pm_show_runs.specs.Words.{run_of, text_of};
ghost use Rattle.pm_show_runs.specs.Suspends.{busy_suspend_plan, busy_suspend_text, failed_suspend_plan, failed_suspend_text, no_callbacks_plan, no_callbacks_text, autosuspend_plan, autosuspend_text, marked_busy_plan, marked_busy_text, not_tried_again_plan, not_tried_again_text, scheduled_suspend_plan, scheduled_suspend_text, rearmed_timer_plan, rearmed_timer_text, callbacks_unused_plan, callbacks_unused_text, tried_again_plan, tried_again_text};

/// A suspend callback that answers -16 leaves the device active without an error; the next one
/// suspends it.
pub fn busy_suspend()
    ensures text { text_of busy_suspend_plan ≡ busy_suspend_text }
    ensures finished { IsFinished busy_suspend_plan (run_of busy_suspend_plan) }
{}

/// A suspend callback that answers -5 leaves an error, which refuses all but a forced status.
pub fn failed_suspend()
    ensures text { text_of failed_suspend_plan ≡ failed_suspend_text }
    ensures finished { IsFinished failed_suspend_plan (run_of failed_suspend_plan) }
{}

/// A device without callbacks changes its status at once.
pub fn no_callbacks()
    ensures text { text_of no_callbacks_plan ≡ no_callbacks_text }
    ensures finished { IsFinished no_callbacks_plan (run_of no_callbacks_plan) }
{}

/// An autosuspend waits by a timer for its delay since the device was last busy.
pub fn autosuspend()
    ensures text { text_of autosuspend_plan ≡ autosuspend_text }
    ensures finished { IsFinished autosuspend_plan (run_of autosuspend_plan) }
{}

/// A suspend callback that marks its device busy and answers -16 has the autosuspend wait anew.
pub fn marked_busy()
    ensures text { text_of marked_busy_plan ≡ marked_busy_text }
    ensures finished { IsFinished marked_busy_plan (run_of marked_busy_plan) }
{}

/// A suspend callback that answers -16 ends a suspend that is no autosuspend, or whose delay has
/// passed.
pub fn not_tried_again()
    ensures text { text_of not_tried_again_plan ≡ not_tried_again_text }
    ensures finished { IsFinished not_tried_again_plan (run_of not_tried_again_plan) }
{}

/// A device that was forced to active is suspended by a timer and then its work item.
pub fn scheduled_suspend()
    ensures text { text_of scheduled_suspend_plan ≡ scheduled_suspend_text }
    ensures finished { IsFinished scheduled_suspend_plan (run_of scheduled_suspend_plan) }
{}

/// An autosuspend keeps an earlier moment of its timer; a resume cancels a scheduled suspend and no
/// autosuspend.
pub fn rearmed_timer()
    ensures text { text_of rearmed_timer_plan ≡ rearmed_timer_text }
    ensures finished { IsFinished rearmed_timer_plan (run_of rearmed_timer_plan) }
{}

/// A device without callbacks uses none of its codes, and none marks it busy.
pub fn callbacks_unused()
    ensures text { text_of callbacks_unused_plan ≡ callbacks_unused_text }
    ensures finished { IsFinished callbacks_unused_plan (run_of callbacks_unused_plan) }
{}

/// A suspend callback that answers -11 has the autosuspend wait anew; one that answers -5 ends it,
/// and the resume deferred meanwhile is forgotten; without autosuspend -16 ends it too. Each end
/// marks the device busy.
pub fn tried_again()
    ensures text { text_of tried_again_plan ≡ tried_again_text }
    ensures finished { IsFinished tried_again_plan (run_of tried_again_plan) }
{}
