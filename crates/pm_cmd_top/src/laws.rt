//! What books come to is one.

ghost use Rattle.std.specs.Prelude.{◌≡◌, List, Option};
ghost use Rattle.pm_book.specs.Pages.{Pages};
ghost use Rattle.pm_cmd_top.specs.Gathering.{Gathered};
ghost use Rattle.pm_model.specs.declared.event.Line.{Line};
ghost use Rattle.pm_model.specs.declared.plan.Plan.{Plan};

/// Books come to one run of their plan, or to none: of the cases of `Gathered` two hold of the same books
/// only where both come to the same.
pub fn gathered_once()
    ensures { (plan : Plan) (books : List Pages) (one other : Option (List Line))
        → Gathered plan books one → Gathered plan books other → one ≡ other }
{}
