//! A command's answer is one.

ghost use Rattle.std.specs.Prelude.{ℕ, List, Option};
ghost use Rattle.pm_cmd_ends.specs.Request.{Asked};
ghost use Rattle.pm_cmd_top.specs.answers.Once.{AnswersOnce, IsSettled};

/// Two calls of `serial`, `check`, `audit`, `convert`, `times`, `why` or `make`, over files of which the same bytes are told, answer one
/// status and write one text, where no read and no write fails and memory doesn't run out.
pub fn answers_are_one()
    ensures { (told : List ℕ → Option (List ℕ)) (asked : Asked) → IsSettled told asked → AnswersOnce told asked }
{}
