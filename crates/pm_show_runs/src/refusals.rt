//! One line each that may not come where it is put: the first lines of a run, and then a line with
//! one thing changed.

ghost use Rattle.std.specs.Prelude.{true, false};
ghost use Rattle.pm_show_runs.specs.Counts.{conditional_gets_plan, first_plan, forbidden_plan, refused_settings_plan};
ghost use Rattle.pm_show_runs.specs.Suspends.{autosuspend_plan, busy_suspend_plan, callbacks_unused_plan, failed_suspend_plan, tried_again_plan};
ghost use Rattle.pm_show_runs.specs.Parents.{child_waits_plan, disabled_parent_plan, failed_parent_plan, kept_marks_plan, limit_plan, parents_plan, taken_request_plan};
ghost use Rattle.pm_show_runs.specs.Links.{absent_link_plan, failed_supplier_plan, suppliers_given_back_plan};
ghost use Rattle.pm_show_runs.specs.Domains.{domains_plan};
ghost use Rattle.pm_show_runs.specs.Requests.{barrier_takes_plan, deferred_resume_plan, nested_disable_plan, side_by_side_plan, waiting_resume_plan};
ghost use Rattle.pm_show_runs.specs.Timers.{cancelled_by_control_plan, cancelled_in_resume_plan, cancelled_in_suspend_plan, enabled_meanwhile_plan, failed_resume_plan};
ghost use Rattle.pm_show_runs.specs.Refusals.{IsRefused, wrong_count, wrong_children, wrong_code, wrong_domains, wrong_moment, swapped, left_out, given_back_early, begun_early, ended_early, fired_early, falling_time, other_caller, not_a_work_item, waiting, suspend_begun, forbidden_count, busy_as_error, without_parent, after_end, past_limit, fired, fired_of, idle_begun, not_awaited, taken_away, taken_by_barrier, taken_by_resume, found_active, found_suspended, absent_told, disabled_called, counted_twice, put_left_out, given_in_link_order, code_of_call};

/// Fields of a line that aren't the views before it.
pub fn wrong_fields()
    ensures count { IsRefused first_plan 4 wrong_count
        "0 c rpm_resume: a flags-4 cnt-2  dep-0  auto-1 p-0 irq-0 child-0" }
    ensures children { IsRefused parents_plan 28 wrong_children
        "0 c rpm_idle: g flags-5 cnt-0  dep-0  auto-1 p-0 irq-0 child-0" }
    ensures code { IsRefused first_plan 12 wrong_code "0 c pm_ret: get_sync a 1" }
    ensures domains { IsRefused domains_plan 8 wrong_domains "0 c pm_domain: a up 1" }
    ensures moment { IsRefused autosuspend_plan 38 wrong_moment
        "10 timer.a pm_timer: a arm 18 auto" }
{}

/// Lines that come too early.
pub fn wrong_order()
    ensures swapped { IsRefused parents_plan 20 swapped "0 c pm_callback: p resume begin" }
    ensures left_out { IsRefused parents_plan 7 left_out
        "0 c rpm_resume: k flags-4 cnt-1  dep-0  auto-1 p-0 irq-0 child-0" }
    ensures given_back_early { IsRefused parents_plan 33 given_back_early "0 c pm_put: p child k" }
    ensures begun_early { IsRefused failed_supplier_plan 14 begun_early
        "0 c pm_callback: k resume begin" }
{}

/// Times before a line is due, and a time before that of the last line.
pub fn wrong_times()
    ensures ended_early { IsRefused deferred_resume_plan 24 ended_early
        "9 c pm_callback: a suspend end 0" }
    ensures fired_early { IsRefused autosuspend_plan 36 fired_early
        "9 timer.a pm_timer: a fire auto" }
    ensures falling { IsRefused deferred_resume_plan 25 falling_time "9 c pm_status: a deferred" }
{}

/// Lines of an actor that stands elsewhere, or that waits.
pub fn wrong_actors()
    ensures other_caller { IsRefused deferred_resume_plan 24 other_caller
        "10 e pm_callback: a suspend end 0" }
    ensures not_a_work_item { IsRefused failed_supplier_plan 31 not_a_work_item
        "0 c pm_work: s run autosuspend" }
    ensures waiting { IsRefused waiting_resume_plan 11 waiting
        "0 c rpm_return_int: rpm_resume:a ret=1" }
{}

/// Steps that a count, an error or a parent rules out.
pub fn wrong_steps()
    ensures in_use { IsRefused conditional_gets_plan 40 suspend_begun
        "0 c pm_callback: a suspend begin" }
    ensures with_error { IsRefused failed_suspend_plan 24 suspend_begun
        "0 c pm_callback: a suspend begin" }
    ensures forbidden_count { IsRefused forbidden_plan 14 forbidden_count "0 c pm_put: a caller" }
    ensures busy_as_error { IsRefused busy_suspend_plan 26 busy_as_error
        "0 c rpm_return_int: rpm_suspend:a ret=-22" }
    ensures without_parent { IsRefused failed_parent_plan 13 without_parent
        "0 c pm_status: k resuming" }
{}

/// Lines after a finished run, and past the limit of lines.
pub fn after_the_end()
    ensures finished { IsRefused first_plan 16 after_end "0 c pm_call: enable a" }
    ensures limit { IsRefused limit_plan 10 past_limit
        "0 c rpm_resume: p flags-0 cnt-1  dep-0  auto-1 p-0 irq-0 child-0" }
{}

/// Timers that fire though a line has cancelled them, and two that do before they are due.
pub fn cancelled_timers()
    ensures begun { IsRefused cancelled_in_suspend_plan 16 (fired 2 false)
        "2 timer.a pm_timer: a fire plain" }
    ensures asked { IsRefused cancelled_in_suspend_plan 23 (fired 4 false)
        "4 timer.a pm_timer: a fire plain" }
    ensures too_early { IsRefused cancelled_in_suspend_plan 39 (fired 12 false)
        "12 timer.a pm_timer: a fire plain" }
    ensures too_early_after_force { IsRefused enabled_meanwhile_plan 25 (fired_of 1 14 false)
        "14 timer.k pm_timer: k fire plain" }
    ensures suspend_waits { IsRefused cancelled_in_suspend_plan 54 (fired 16 false)
        "16 timer.a pm_timer: a fire plain" }
    ensures resume_waits { IsRefused cancelled_in_suspend_plan 61 (fired 18 false)
        "18 timer.a pm_timer: a fire plain" }
    ensures failed { IsRefused cancelled_in_suspend_plan 67 (fired 24 false)
        "24 timer.a pm_timer: a fire plain" }
    ensures deferred { IsRefused cancelled_in_suspend_plan 87 (fired 28 false)
        "28 timer.a pm_timer: a fire plain" }
    ensures asked_again { IsRefused cancelled_in_resume_plan 29 (fired 2 false)
        "2 timer.a pm_timer: a fire plain" }
    ensures waited_for { IsRefused cancelled_in_resume_plan 87 (fired 22 false)
        "22 timer.a pm_timer: a fire plain" }
    ensures queued { IsRefused cancelled_in_resume_plan 131 (fired 32 false)
        "32 timer.a pm_timer: a fire plain" }
    ensures queued_over_auto { IsRefused cancelled_in_resume_plan 145 (fired 38 true)
        "38 timer.a pm_timer: a fire auto" }
    ensures resume_failed { IsRefused failed_resume_plan 22 (fired 10 true)
        "10 timer.a pm_timer: a fire auto" }
    ensures no_callbacks { IsRefused callbacks_unused_plan 35 (fired 7 true)
        "7 timer.a pm_timer: a fire auto" }
    ensures barrier { IsRefused cancelled_by_control_plan 31 (fired 5 true)
        "5 timer.a pm_timer: a fire auto" }
    ensures disable { IsRefused cancelled_by_control_plan 43 (fired 11 true)
        "11 timer.a pm_timer: a fire auto" }
    ensures barrier_waits { IsRefused cancelled_by_control_plan 61 (fired 18 true)
        "18 timer.a pm_timer: a fire auto" }
    ensures disable_waits { IsRefused cancelled_by_control_plan 80 (fired 28 true)
        "28 timer.a pm_timer: a fire auto" }
    ensures begun_over_auto { IsRefused cancelled_by_control_plan 97 (fired 37 true)
        "37 timer.a pm_timer: a fire auto" }
{}

/// Lines that a rare guard rules out.
pub fn rare_guards()
    ensures idle_callback { IsRefused callbacks_unused_plan 24 idle_begun
        "2 c pm_callback: a idle begin" }
    ensures not_awaited { IsRefused tried_again_plan 31 not_awaited
        "18 c rpm_return_int: rpm_suspend:a ret=-11" }
    ensures taken_away { IsRefused side_by_side_plan 35 taken_away
        "3 work.a pm_work: a run suspend" }
    ensures taken_by_barrier { IsRefused barrier_takes_plan 32 taken_by_barrier
        "10 work.a pm_work: a run autosuspend" }
    ensures taken_by_resume { IsRefused taken_request_plan 10 taken_by_resume
        "0 work.k pm_work: k run resume" }
    ensures found_active { IsRefused nested_disable_plan 57 found_active
        "0 c rpm_return_int: rpm_resume:a ret=1" }
    ensures found_suspended { IsRefused nested_disable_plan 35 found_suspended
        "0 c rpm_return_int: rpm_resume:a ret=-13" }
    ensures absent { IsRefused absent_link_plan 19 absent_told
        "0 c rpm_idle: s flags-1 cnt-0  dep-0  auto-1 p-0 irq-0 child-0" }
    ensures disabled { IsRefused disabled_parent_plan 6 disabled_called
        "0 c rpm_resume: p flags-0 cnt-1  dep-1  auto-1 p-0 irq-0 child-0" }
    ensures counted_twice { IsRefused kept_marks_plan 42 counted_twice "20 c pm_get: p child k" }
    ensures put_left_out { IsRefused child_waits_plan 46 put_left_out "20 f pm_ret: resume k 1" }
    ensures given_in_link_order { IsRefused suppliers_given_back_plan 36 given_in_link_order
        "0 c pm_put: t link k" }
    ensures code_of_call { IsRefused refused_settings_plan 4 code_of_call
        "0 c pm_ret: forbid a -13" }
{}
