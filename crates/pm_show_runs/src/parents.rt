//! Runs of parents and their children.

ghost use Rattle.std.specs.Prelude.{◌≡◌, true, false, length};
ghost use Rattle.pm_model.specs.Excuse.{is_excused_from_parent};
ghost use Rattle.pm_model.specs.Lawful.{IsFinished};
ghost use Rattle.pm_show_runs.specs.Words.{dev, run_of, text_of};
ghost use Rattle.pm_show_runs.specs.Parents.{parents_plan, parents_text, limit_plan, limit_text, ignored_child_plan, ignored_child_text, failed_parent_plan, failed_parent_text, child_let_go_plan, child_let_go_text, parent_follows_plan, parent_follows_text, disabled_parent_plan, disabled_parent_text, kept_marks_plan, kept_marks_text, child_waits_plan, child_waits_text, taken_request_plan, taken_request_text};

/// A resume takes a count on the parent, resumes it first, and gives the count back at its end.
pub fn parents()
    ensures text { text_of parents_plan ≡ parents_text }
    ensures finished { IsFinished parents_plan (run_of parents_plan) }
    ensures kept { is_excused_from_parent parents_plan (run_of parents_plan) (dev 2) (dev 1) ≡ false }
{}

/// The same plan with a limit of ten lines: the run ends there, unfinished.
pub fn limit()
    ensures text { text_of limit_plan ≡ limit_text }
    ensures full { length (run_of limit_plan) ≡ limit_plan.lines }
    ensures unfinished { ¬ IsFinished limit_plan (run_of limit_plan) }
{}

/// A parent that ignores its children isn't resumed for a child, and suspends beside an active one.
pub fn ignored_child()
    ensures text { text_of ignored_child_plan ≡ ignored_child_text }
    ensures finished { IsFinished ignored_child_plan (run_of ignored_child_plan) }
    ensures excused { is_excused_from_parent ignored_child_plan (run_of ignored_child_plan) (dev 1) (dev 0) ≡ true }
{}

/// A parent that fails to resume leaves its child suspended, without an error of its own.
pub fn failed_parent()
    ensures text { text_of failed_parent_plan ≡ failed_parent_text }
    ensures finished { IsFinished failed_parent_plan (run_of failed_parent_plan) }
{}

/// A parent suspends beside an active child once it ignores its children.
pub fn child_let_go()
    ensures text { text_of child_let_go_plan ≡ child_let_go_text }
    ensures finished { IsFinished child_let_go_plan (run_of child_let_go_plan) }
    ensures excused { is_excused_from_parent child_let_go_plan (run_of child_let_go_plan) (dev 1) (dev 0) ≡ true }
{}

/// A parent that no longer ignores its children is suspended after its last one.
pub fn parent_follows()
    ensures text { text_of parent_follows_plan ≡ parent_follows_text }
    ensures finished { IsFinished parent_follows_plan (run_of parent_follows_plan) }
{}

/// A disabled parent is not resumed for a child, and its count comes before its children.
pub fn disabled_parent()
    ensures text { text_of disabled_parent_plan ≡ disabled_parent_text }
    ensures finished { IsFinished disabled_parent_plan (run_of disabled_parent_plan) }
{}

/// A resume that waited for another one neither takes a second count on the parent nor calls it
/// again.
pub fn kept_marks()
    ensures text { text_of kept_marks_plan ≡ kept_marks_text }
    ensures finished { IsFinished kept_marks_plan (run_of kept_marks_plan) }
{}

/// A resume that waited for another one gives back the count on the parent that it took before.
pub fn child_waits()
    ensures text { text_of child_waits_plan ≡ child_waits_text }
    ensures finished { IsFinished child_waits_plan (run_of child_waits_plan) }
{}

/// A resume takes a pending one away as soon as it has a count on the parent, and again where the
/// parent fails.
pub fn taken_request()
    ensures text { text_of taken_request_plan ≡ taken_request_text }
    ensures finished { IsFinished taken_request_plan (run_of taken_request_plan) }
{}
