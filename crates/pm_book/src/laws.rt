//! What the laws over all lawful lists give to a book: its state can take each line that may come next and has
//! room for it, and each actor may go on where it stands.

ghost use Rattle.std.specs.Prelude.{◌≡◌};
ghost use Rattle.pm_model.specs.declared.event.Line.{Line};
ghost use Rattle.pm_model.specs.declared.plan.Plan.{Plan};
ghost use Rattle.pm_model.specs.declared.stage.Change.{Change};
ghost use Rattle.pm_model.specs.declared.stage.Stage.{Stage};
ghost use Rattle.pm_model.specs.declared.stage.Then.{Then};
ghost use Rattle.pm_model.specs.History.{History};
ghost use Rattle.pm_model.specs.Lawful.{IsLawful};
ghost use Rattle.pm_model.specs.World.{World, world};
ghost use Rattle.pm_state.specs.Standing.{HasRoomFor, IsActor, IsOf, Standing, Takes};
ghost use Rattle.pm_book.specs.Pages.{MayWrite};

pub use crate::all_stand_well;
use crate::each_line_fits;

// No count falls below zero or passes its end with a line that may be written.
pub fn each_line_is_taken()
    ensures { (plan : Plan) (h : History) (w : World) (s : Stage) (line : Line) (c : Change) (next : Then) → IsLawful plan h → w ≡ world plan h → MayWrite plan h s line c next → Takes plan w line.actor c line.event }
{
    crate::each_line_is_taken();
}

// A line that may be written leaves no more stages open at its actor's place than that has room for.
pub fn stacks_have_room()
    ensures { (plan : Plan) (h : History) (state : Standing) (s : Stage) (line : Line) (c : Change) (next : Then) → IsLawful plan h → IsOf plan state → state.world ≡ world plan h → IsActor plan line.actor → MayWrite plan h s line c next → HasRoomFor state line.actor next }
{
    each_line_fits();
}
