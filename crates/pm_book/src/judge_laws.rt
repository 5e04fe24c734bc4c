//! What the laws over all lawful lists give to a judge.

ghost use Rattle.std.specs.Prelude.{◌≡◌, ◌<◌, ◌^◌, length};
ghost use Rattle.pm_model.specs.declared.event.Line.{Line};
ghost use Rattle.pm_model.specs.declared.plan.Plan.{Plan};
ghost use Rattle.pm_model.specs.declared.stage.Change.{Change};
ghost use Rattle.pm_model.specs.declared.stage.Then.{Then};
ghost use Rattle.pm_model.specs.History.{History};
ghost use Rattle.pm_model.specs.Lawful.{IsLawful, last_time};
ghost use Rattle.pm_model.specs.World.{World, world};
ghost use Rattle.pm_state.specs.Standing.{AllStandWell, HasRoomFor, IsActor, IsOf, Standing, Takes};
ghost use Rattle.pm_book.specs.Sometime.{Writes};

use pm_laws::bounds::{counts_have_room, lines_are_taken, stages_can_be_told, stages_have_moves};
use pm_laws::stacks::stacks_are_shallow;

// Each actor stands at a well formed stage that awaits no call, or at none.
pub fn all_stand_well()
    ensures { (plan : Plan) (h : History) (w : World) → IsLawful plan h → last_time h < 2 ^ 63 → w ≡ world plan h → AllStandWell plan w }
{
    stages_can_be_told();
    stages_have_moves();
}

// No count falls below zero or passes its end with a line that may come next.
pub fn each_line_is_taken()
    ensures { (plan : Plan) (h : History) (w : World) (line : Line) (c : Change) (next : Then) → IsLawful plan h → w ≡ world plan h → Writes plan w (last_time h) line c next → Takes plan w line.actor c line.event }
{
    lines_are_taken();
    counts_have_room();
}

// The place of its actor has room for what a line makes of its stages.
pub fn each_line_fits()
    ensures { (plan : Plan) (h : History) (s : Standing) (line : Line) (c : Change) (next : Then) → IsLawful plan h → length h < plan.lines → s.world ≡ world plan h → IsOf plan s → IsActor plan line.actor → Writes plan s.world (last_time h) line c next → HasRoomFor s line.actor next }
{
    stacks_are_shallow();
}
