//! Whether a line may come next, and what is wrong with it where it may not.

ghost use Rattle.std.specs.Prelude.{◌≡◌, ◌<◌, ◌^◌, List, Err, Some, IfErr, IfOk, length};
ghost use Rattle.pm_book.specs.Judging.{IsAnswer};
ghost use Rattle.pm_book.specs.Sometime.{Writes};
ghost use Rattle.pm_model.specs.declared.event.Line.{Line};
ghost use Rattle.pm_model.specs.Lawful.{last_time};
ghost use Rattle.pm_model.specs.World.{stage_at, world};
ghost use Rattle.pm_state.specs.Standing.{IsActor, IsOf, StandsWell};

use crate::judge::Bad;
use crate::sometime::comes;
use crate::standing::written;
use pm_model::{Change, Line, Plan, Stage, Then};
use pm_state::State;

/// What a line is that may come next.
#[derive(Clone, Copy)]
pub struct Permitted {
    /// The stage at which its actor stands.
    pub stage: Stage,
    /// What the row there changes beside the line's event.
    pub change: Change,
    /// What takes the stage's place.
    pub next: Then,
}

/// Decides on a line by an actor of the plan that stands well, where the last line was written at this
/// time; both times are below 2^63 milliseconds of the run. It says what the line is where it may come
/// next, and else what is wrong behind every list that isn't full and leads to this state. It takes no
/// memory.
pub fn decide(plan: &Plan, state: &State, last: u64, line: &Line) -> Result<Permitted, Bad>
    requires is_of { IsOf plan.now state.now }
    requires stands { StandsWell plan.now state.now.world line.now.actor }
    requires in_range { IsActor plan.now line.now.actor }
    requires last_in_time { last < 2 ^ 63 }
    requires in_time { line.now.time < 2 ^ 63 }
    ensures stage { IfOk result (λ coming. stage_at plan.now state.now.world line.now.actor ≡ Some coming.stage) }
    ensures ok { IfOk result (λ coming. Writes plan.now state.now.world last line.now coming.change coming.next) }
    ensures err { IfErr result (λ bad. (h : List Line) → state.now.world ≡ world plan.now h → last ≡ last_time h → length h < plan.now.lines → IsAnswer plan.now h line.now (Err bad)) }
{
    let Some(stage) = state.stage_at(plan, line.actor) else {
        return Err(Bad::Step);
    };
    if let Some(coming) = written(plan, state, stage, last, line) {
        return Ok(coming);
    }
    if comes(plan, state, stage, last, line.event) {
        return Err(Bad::Time);
    }
    Err(Bad::Step)
}
