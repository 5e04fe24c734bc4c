//! The one theorem that the others serve.

ghost use Rattle.pm_cmd_top.specs.Headline.{Headline};

/// What `serial`, `run` and `desk` write at status 0 is the text of a finished lawful run of the plan read, and `audit` answers
/// yes exactly to lawful text.
pub fn headline_holds()
    ensures { Headline }
{}
