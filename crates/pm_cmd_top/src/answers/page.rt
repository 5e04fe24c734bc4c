//! What each command's status says, on one page: over files whose bytes are told, where no read and no write fails and
//! memory doesn't run out. README's sentences quote it.

ghost use Rattle.std.specs.Prelude.{◌≡◌, ◌⊎◌, ℕ, Bool, List, Some, IsErr, IsOk};
ghost use Rattle.pm_io.specs.Faults.{Rose};
ghost use Rattle.pm_cmd_top.specs.Commands.{CheckEnds, MakeEnds};
ghost use Rattle.pm_cmd_top.specs.Runs.{RunEnds, SerialEnds};
ghost use Rattle.pm_planread.specs.PlanOf.{plan_of};
ghost use Rattle.pm_cmd_ends.specs.Ending.{Answered, Taking};
ghost use Rattle.pm_cmd_ends.specs.Reading.{OfPlan};
ghost use Rattle.pm_cmd_top.specs.TraceCommands.{OfAudit, OfConvert, OfTimes, OfWhy};
ghost use Rattle.pm_cmd_ends.specs.Told.{HasDevice};
ghost use Rattle.pm_cmd_top.specs.answers.Page.{Exactly, FinishesAlone, IsBadTrace, IsCutAlone, IsLawfulTrace, IsRefusedTrace, IsRefusedWhy, IsUndisturbed, MadeFinishes, MadeIsCut, TookAlone, TookSomeRun};

/// `serial` answers 0 exactly where the plan's run on one thread is finished, 6 exactly where that isn't, and so has all the
/// lines that the plan allows (`pm_laws::turns::serial_ends`), and 3 exactly where the bytes are no plan. At 0 and 6 it wrote
/// the text of that run.
pub fn serial_says()
    ensures finished { (all : Bool) (plan : List ℕ) (status old new : ℕ) (out err : Taking) → IsUndisturbed status old new out
        → Answered (OfPlan all (Some plan) SerialEnds) status (Rose old new) out err → Exactly status 0 (FinishesAlone plan) }
    ensures cut { (all : Bool) (plan : List ℕ) (status old new : ℕ) (out err : Taking) → IsUndisturbed status old new out
        → Answered (OfPlan all (Some plan) SerialEnds) status (Rose old new) out err → Exactly status 6 (IsCutAlone plan) }
    ensures refused { (all : Bool) (plan : List ℕ) (status old new : ℕ) (out err : Taking) → IsUndisturbed status old new out
        → Answered (OfPlan all (Some plan) SerialEnds) status (Rose old new) out err → Exactly status 3 (IsErr (plan_of plan)) }
    ensures written { (all : Bool) (plan : List ℕ) (status old new : ℕ) (out err : Taking) → IsUndisturbed status old new out
        → Answered (OfPlan all (Some plan) SerialEnds) status (Rose old new) out err → IsOk (plan_of plan) → TookAlone plan out }
{}

/// `run` and `desk`, which have the same endings, answer 3 exactly where the bytes are no plan, and else 0 or 6: at 0 they
/// wrote the text of some lawful and finished run of the plan, at 6 that of the run of one thread, which isn't finished.
pub fn runs_say()
    ensures refused { (all : Bool) (plan : List ℕ) (status old new : ℕ) (out err : Taking) → IsUndisturbed status old new out
        → Answered (OfPlan all (Some plan) RunEnds) status (Rose old new) out err → Exactly status 3 (IsErr (plan_of plan)) }
    ensures runs { (all : Bool) (plan : List ℕ) (status old new : ℕ) (out err : Taking) → IsUndisturbed status old new out
        → Answered (OfPlan all (Some plan) RunEnds) status (Rose old new) out err → IsOk (plan_of plan) → (status ≡ 0) ⊎ (status ≡ 6) }
    ensures finished { (all : Bool) (plan : List ℕ) (status old new : ℕ) (out err : Taking) → IsUndisturbed status old new out
        → Answered (OfPlan all (Some plan) RunEnds) status (Rose old new) out err → status ≡ 0 → TookSomeRun plan out }
    ensures cut { (all : Bool) (plan : List ℕ) (status old new : ℕ) (out err : Taking) → IsUndisturbed status old new out
        → Answered (OfPlan all (Some plan) RunEnds) status (Rose old new) out err → status ≡ 6 → IsCutAlone plan × TookAlone plan out }
{}

/// `check` answers 0 exactly where the bytes are a plan, and 3 exactly where they are none.
pub fn check_says()
    ensures done { (all : Bool) (plan : List ℕ) (status old new : ℕ) (out err : Taking) → IsUndisturbed status old new out
        → Answered (OfPlan all (Some plan) CheckEnds) status (Rose old new) out err → Exactly status 0 (IsOk (plan_of plan)) }
    ensures refused { (all : Bool) (plan : List ℕ) (status old new : ℕ) (out err : Taking) → IsUndisturbed status old new out
        → Answered (OfPlan all (Some plan) CheckEnds) status (Rose old new) out err → Exactly status 3 (IsErr (plan_of plan)) }
{}

/// `make` answers 0 or 6: 0 only where the run of the generator's plan is finished, 6 only where it isn't.
pub fn make_says()
    ensures either { (number devices status : ℕ) (out err : Taking) → IsUndisturbed status 0 0 out
        → Answered (MakeEnds number devices) status ⊥ out err → (status ≡ 0) ⊎ (status ≡ 6) }
    ensures finished { (number devices status : ℕ) (out err : Taking) → IsUndisturbed status 0 0 out
        → Answered (MakeEnds number devices) status ⊥ out err → status ≡ 0 → MadeFinishes number devices }
    ensures cut { (number devices status : ℕ) (out err : Taking) → IsUndisturbed status 0 0 out
        → Answered (MakeEnds number devices) status ⊥ out err → status ≡ 6 → MadeIsCut number devices }
{}

/// `audit` answers 0 exactly where the bytes are a plan and the trace, of no more bytes than it may have, is the text of a
/// lawful list of it; 1 exactly where that has a first bad line; and 3 exactly where the bytes are no plan or the trace is
/// too long. What it wrote is told by `audit_is_exact`.
pub fn audit_says()
    ensures lawful { (all : Bool) (plan trace : List ℕ) (status old new : ℕ) (out err : Taking) → IsUndisturbed status old new out
        → Answered (OfPlan all (Some plan) (OfAudit all (Some trace))) status (Rose old new) out err → Exactly status 0 (IsLawfulTrace plan trace) }
    ensures bad { (all : Bool) (plan trace : List ℕ) (status old new : ℕ) (out err : Taking) → IsUndisturbed status old new out
        → Answered (OfPlan all (Some plan) (OfAudit all (Some trace))) status (Rose old new) out err → Exactly status 1 (IsBadTrace plan trace) }
    ensures refused { (all : Bool) (plan trace : List ℕ) (status old new : ℕ) (out err : Taking) → IsUndisturbed status old new out
        → Answered (OfPlan all (Some plan) (OfAudit all (Some trace))) status (Rose old new) out err → Exactly status 3 (IsRefusedTrace plan trace) }
{}

/// The same of `convert`.
pub fn convert_says()
    ensures lawful { (all : Bool) (plan trace : List ℕ) (status old new : ℕ) (out err : Taking) → IsUndisturbed status old new out
        → Answered (OfPlan all (Some plan) (OfConvert all (Some trace))) status (Rose old new) out err → Exactly status 0 (IsLawfulTrace plan trace) }
    ensures bad { (all : Bool) (plan trace : List ℕ) (status old new : ℕ) (out err : Taking) → IsUndisturbed status old new out
        → Answered (OfPlan all (Some plan) (OfConvert all (Some trace))) status (Rose old new) out err → Exactly status 1 (IsBadTrace plan trace) }
    ensures refused { (all : Bool) (plan trace : List ℕ) (status old new : ℕ) (out err : Taking) → IsUndisturbed status old new out
        → Answered (OfPlan all (Some plan) (OfConvert all (Some trace))) status (Rose old new) out err → Exactly status 3 (IsRefusedTrace plan trace) }
{}

/// The same of `times`.
pub fn times_says()
    ensures lawful { (all : Bool) (plan trace : List ℕ) (status old new : ℕ) (out err : Taking) → IsUndisturbed status old new out
        → Answered (OfPlan all (Some plan) (OfTimes all (Some trace))) status (Rose old new) out err → Exactly status 0 (IsLawfulTrace plan trace) }
    ensures bad { (all : Bool) (plan trace : List ℕ) (status old new : ℕ) (out err : Taking) → IsUndisturbed status old new out
        → Answered (OfPlan all (Some plan) (OfTimes all (Some trace))) status (Rose old new) out err → Exactly status 1 (IsBadTrace plan trace) }
    ensures refused { (all : Bool) (plan trace : List ℕ) (status old new : ℕ) (out err : Taking) → IsUndisturbed status old new out
        → Answered (OfPlan all (Some plan) (OfTimes all (Some trace))) status (Rose old new) out err → Exactly status 3 (IsRefusedTrace plan trace) }
{}

/// The same of `why`, for a device of the plan; and it answers 3 too exactly where no device has the name.
pub fn why_says()
    ensures lawful { (all : Bool) (plan trace name : List ℕ) (status old new : ℕ) (out err : Taking) → IsUndisturbed status old new out
        → Answered (OfPlan all (Some plan) (OfWhy all (Some trace) name)) status (Rose old new) out err
        → Exactly status 0 (HasDevice (Some plan) name × IsLawfulTrace plan trace) }
    ensures bad { (all : Bool) (plan trace name : List ℕ) (status old new : ℕ) (out err : Taking) → IsUndisturbed status old new out
        → Answered (OfPlan all (Some plan) (OfWhy all (Some trace) name)) status (Rose old new) out err
        → Exactly status 1 (HasDevice (Some plan) name × IsBadTrace plan trace) }
    ensures refused { (all : Bool) (plan trace name : List ℕ) (status old new : ℕ) (out err : Taking) → IsUndisturbed status old new out
        → Answered (OfPlan all (Some plan) (OfWhy all (Some trace) name)) status (Rose old new) out err
        → Exactly status 3 (IsRefusedWhy plan trace name) }
{}
