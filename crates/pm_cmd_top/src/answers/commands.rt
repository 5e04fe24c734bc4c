//! All commands, by what they are asked for.

ghost use Rattle.std.specs.Prelude.{ℕ, ◌⊎◌, Bool, List, Option, Contains, IfSome, IsTrue};
ghost use Rattle.pm_io.specs.Faults.{Rose};
ghost use Rattle.pm_cmd_ends.specs.Ending.{Answered, Failed, Taking};
ghost use Rattle.pm_cmd_ends.specs.Request.{Asked, asked_by};
ghost use Rattle.pm_cmd_top.specs.Commands.{AskedEnds};
ghost use Rattle.pm_cmd_top.specs.answers.Complete.{HasAll, IsMissing, IsRefused, refused_statuses, statuses_of};

/// A command that has all that it needs answers one of its own statuses, where neither reading nor writing
/// fails. One that is refused answers 3, 4 or 7, and so does one whose file isn't there, where all files are
/// told. Of files that are told one of the three holds. `top` answers so of the command that the words name.
pub fn commands_answer_exactly()
    ensures complete { (all : Bool) (told : List ℕ → Option (List ℕ)) (asked : Asked)
        (status old new : ℕ) (out err : Taking)
        → HasAll told asked → ¬ Rose old new → ¬ Failed out
        → Answered (AskedEnds all told asked) status (Rose old new) out err
        → Contains (statuses_of asked) status }
    ensures refused { (all : Bool) (told : List ℕ → Option (List ℕ)) (asked : Asked)
        (status old new : ℕ) (out err : Taking)
        → IsRefused told asked
        → Answered (AskedEnds all told asked) status (Rose old new) out err
        → Contains refused_statuses status }
    ensures missing { (all : Bool) (told : List ℕ → Option (List ℕ)) (asked : Asked)
        (status old new : ℕ) (out err : Taking)
        → IsTrue all → IsMissing told asked
        → Answered (AskedEnds all told asked) status (Rose old new) out err
        → Contains refused_statuses status }
    ensures covered { (told : List ℕ → Option (List ℕ)) (asked : Asked)
        → HasAll told asked ⊎ (IsRefused told asked ⊎ IsMissing told asked) }
    ensures top { (all : Bool) (told : List ℕ → Option (List ℕ)) (words : List (List ℕ))
        (status old new : ℕ) (out err : Taking)
        → ¬ Rose old new → ¬ Failed out
        → IfSome (asked_by words)
        (λ asked. Answered (AskedEnds all told asked) status (Rose old new) out err)
        → IfSome (asked_by words) (λ asked. HasAll told asked → Contains (statuses_of asked) status) }
{}
