//! The commands over a trace, by their own endings.

ghost use Rattle.std.specs.Prelude.{◌≤◌, ℕ, Bool, List, Some, Contains, IsOk, length};
ghost use Rattle.pm_base.specs.declared.limits.TheConstants.{TRACE_BYTES};
ghost use Rattle.pm_io.specs.Faults.{Rose};
ghost use Rattle.pm_planread.specs.PlanOf.{plan_of};
ghost use Rattle.pm_cmd_ends.specs.Ending.{Answered, Failed, Taking};
ghost use Rattle.pm_cmd_ends.specs.Reading.{OfPlan};
ghost use Rattle.pm_cmd_top.specs.TraceCommands.{OfAudit, OfConvert, OfTimes, OfWhy};
ghost use Rattle.pm_cmd_ends.specs.Told.{HasDevice};
ghost use Rattle.pm_cmd_top.specs.answers.Complete.{trace_statuses};

/// Where the plan's bytes are one, the trace has no more bytes than a trace may have, and neither reading nor
/// writing fails, `audit`, `convert` and `times` answer 0, 1 or 7, and so does `why` for a device of the plan.
pub fn traces_answer_exactly()
    ensures audit { (all : Bool) (bytes trace : List ℕ) (status old new : ℕ) (out err : Taking)
        → IsOk (plan_of bytes) → length trace ≤ TRACE_BYTES → ¬ Rose old new → ¬ Failed out
        → Answered (OfPlan all (Some bytes) (OfAudit all (Some trace))) status (Rose old new) out err
        → Contains trace_statuses status }
    ensures convert { (all : Bool) (bytes trace : List ℕ) (status old new : ℕ) (out err : Taking)
        → IsOk (plan_of bytes) → length trace ≤ TRACE_BYTES → ¬ Rose old new → ¬ Failed out
        → Answered (OfPlan all (Some bytes) (OfConvert all (Some trace))) status (Rose old new) out err
        → Contains trace_statuses status }
    ensures times { (all : Bool) (bytes trace : List ℕ) (status old new : ℕ) (out err : Taking)
        → IsOk (plan_of bytes) → length trace ≤ TRACE_BYTES → ¬ Rose old new → ¬ Failed out
        → Answered (OfPlan all (Some bytes) (OfTimes all (Some trace))) status (Rose old new) out err
        → Contains trace_statuses status }
    ensures why { (all : Bool) (bytes trace name : List ℕ) (status old new : ℕ) (out err : Taking)
        → HasDevice (Some bytes) name → length trace ≤ TRACE_BYTES → ¬ Rose old new → ¬ Failed out
        → Answered (OfPlan all (Some bytes) (OfWhy all (Some trace) name)) status (Rose old new) out err
        → Contains trace_statuses status }
{}
