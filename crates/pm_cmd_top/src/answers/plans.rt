//! The commands over a plan alone, by their own endings.

ghost use Rattle.std.specs.Prelude.{ℕ, Bool, List, Some, None, Contains, IsErr, IsOk, IsTrue};
ghost use Rattle.pm_io.specs.Faults.{Rose};
ghost use Rattle.pm_planread.specs.PlanOf.{plan_of};
ghost use Rattle.pm_cmd_top.specs.Runs.{RunEnds, SerialEnds};
ghost use Rattle.pm_cmd_ends.specs.Ending.{Answered, Failed, Taking};
ghost use Rattle.pm_cmd_ends.specs.Reading.{OfPlan};
ghost use Rattle.pm_cmd_top.specs.Commands.{CheckEnds, MakeEnds};
ghost use Rattle.pm_cmd_top.specs.answers.Complete.{count_statuses, refused_statuses, run_statuses};

/// `serial` says that a plan is refused exactly where its bytes are none, unless reading or memory fails
/// first, and runs it where they are one and neither reading nor writing nor memory fails. Where all files
/// are told, it runs none that isn't there.
pub fn serial_answers_exactly()
    ensures refused { (all : Bool) (bytes : List ℕ) (status old new : ℕ) (out err : Taking)
        → IsErr (plan_of bytes)
        → Answered (OfPlan all (Some bytes) SerialEnds) status (Rose old new) out err
        → Contains refused_statuses status }
    ensures missing { (all : Bool) (status old new : ℕ) (out err : Taking) → IsTrue all
        → Answered (OfPlan all None SerialEnds) status (Rose old new) out err
        → Contains refused_statuses status }
    ensures runs { (all : Bool) (bytes : List ℕ) (status old new : ℕ) (out err : Taking)
        → IsOk (plan_of bytes) → ¬ Rose old new → ¬ Failed out
        → Answered (OfPlan all (Some bytes) SerialEnds) status (Rose old new) out err
        → Contains run_statuses status }
{}

/// Where the plan's bytes are one and neither reading nor writing fails, `run` and `desk`, if they return,
/// answer 0, 6 or 7, and `check` 0 or 7. Where writing doesn't fail, `make` answers 0, 6 or 7.
pub fn plans_answer_exactly()
    // Of `run` and of `desk`, which have the same endings.
    ensures run { (all : Bool) (bytes : List ℕ) (status old new : ℕ) (out err : Taking)
        → IsOk (plan_of bytes) → ¬ Rose old new → ¬ Failed out
        → Answered (OfPlan all (Some bytes) RunEnds) status (Rose old new) out err
        → Contains run_statuses status }
    ensures check { (all : Bool) (bytes : List ℕ) (status old new : ℕ) (out err : Taking)
        → IsOk (plan_of bytes) → ¬ Rose old new → ¬ Failed out
        → Answered (OfPlan all (Some bytes) CheckEnds) status (Rose old new) out err
        → Contains count_statuses status }
    ensures make { (number devices status : ℕ) (out err : Taking) → ¬ Failed out
        → Answered (MakeEnds number devices) status ⊥ out err
        → Contains run_statuses status }
{}
