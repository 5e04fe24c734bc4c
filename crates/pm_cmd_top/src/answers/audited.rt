//! The headline: what is written is what `audit` says yes to.

ghost use Rattle.std.specs.Prelude.{ℕ, Bool, List, Some};
ghost use Rattle.pm_io.specs.Faults.{Rose};
ghost use Rattle.pm_model.specs.Verdict.{Verdict, YesFinished, YesOpen};
ghost use Rattle.pm_cmd_top.specs.Runs.{RunEnds, SerialEnds};
ghost use Rattle.pm_cmd_ends.specs.Ending.{Answered, Taking};
ghost use Rattle.pm_cmd_ends.specs.Reading.{OfPlan};
ghost use Rattle.pm_cmd_top.specs.TraceCommands.{OfConvert};
ghost use Rattle.pm_cmd_top.specs.answers.Audited.{AuditSays, HasVerdict, TookAll};

/// `audit` answers exactly what is so: status 0 and `yes finished` or `yes open` where the bytes are the text of a lawful
/// list that is finished or isn't, and else status 1 and the line with the first bad line and why it is bad.
pub fn audit_is_exact()
    ensures { (plan bytes : List ℕ) (verdict : Verdict) → HasVerdict plan bytes verdict → AuditSays plan bytes verdict }
{}

/// What `serial` wrote at status 0 is the text of a lawful and finished list, to which `audit` with that plan answers
/// `yes finished`; what it wrote at status 6 is that of a lawful list that isn't finished, and the answer is `yes open`.
pub fn serial_is_audited()
    ensures finished { (all : Bool) (plan bytes : List ℕ) (old new : ℕ) (out err : Taking) → TookAll out bytes
        → Answered (OfPlan all (Some plan) SerialEnds) 0 (Rose old new) out err
        → HasVerdict plan bytes YesFinished × AuditSays plan bytes YesFinished }
    ensures cut { (all : Bool) (plan bytes : List ℕ) (old new : ℕ) (out err : Taking) → TookAll out bytes
        → Answered (OfPlan all (Some plan) SerialEnds) 6 (Rose old new) out err
        → HasVerdict plan bytes YesOpen × AuditSays plan bytes YesOpen }
{}

/// The same of what `run` and `desk` wrote, which have the same endings.
pub fn runs_are_audited()
    ensures finished { (all : Bool) (plan bytes : List ℕ) (old new : ℕ) (out err : Taking) → TookAll out bytes
        → Answered (OfPlan all (Some plan) RunEnds) 0 (Rose old new) out err
        → HasVerdict plan bytes YesFinished × AuditSays plan bytes YesFinished }
    ensures cut { (all : Bool) (plan bytes : List ℕ) (old new : ℕ) (out err : Taking) → TookAll out bytes
        → Answered (OfPlan all (Some plan) RunEnds) 6 (Rose old new) out err
        → HasVerdict plan bytes YesOpen × AuditSays plan bytes YesOpen }
{}

/// What `convert` wrote at status 0 has the verdict of what it read.
pub fn converted_is_audited()
    ensures { (all : Bool) (plan trace bytes : List ℕ) (old new : ℕ) (out err : Taking) (verdict : Verdict) → TookAll out bytes
        → Answered (OfPlan all (Some plan) (OfConvert all (Some trace))) 0 (Rose old new) out err
        → HasVerdict plan trace verdict
        → HasVerdict plan bytes verdict × AuditSays plan bytes verdict }
{}
