//! The line that an actor may write next.

ghost use Rattle.std.specs.Prelude.{◌≡◌, ◌<◌, ◌^◌, false, true};
ghost use Rattle.pm_book.specs.Offering.{IsOffer};
ghost use Rattle.pm_book.specs.Sometime.{MayCome};
ghost use Rattle.pm_model.specs.declared.event.Event.{Event};
ghost use Rattle.pm_state.specs.Standing.{IsActor, IsOf, StandsWell};

use crate::standing::row_at;
use pm_base::ActorId;
use pm_model::{Move, Plan};
use pm_state::State;

/// Whether an actor of the plan that stands well may write a line at a time below 2^63 milliseconds of the run,
/// where the last line was written at this one: there is one at most. The move that writes it is put in `out`,
/// which a caller keeps, since a move is large. It takes no memory.
#[inline(always)]
pub fn offered(
    plan: &Plan,
    state: &State,
    last: u64,
    actor: ActorId,
    time: u64,
    out: &mut Move,
) -> bool
    requires is_of { IsOf plan.now state.now }
    requires stands { StandsWell plan.now state.now.world actor }
    requires in_range { IsActor plan.now actor }
    requires in_time { time < 2 ^ 63 }
    ensures writes { result ≡ true → IsOffer plan.now state.now.world last actor time out.new }
    ensures none { result ≡ false → (event : Event) → ¬ MayCome plan.now state.now.world last (record { time = time; actor = actor; event = event }) }
{
    // Where a stage is open it is looked at where it stands, without a copy.
    if let Some(stage) = state.top(plan, actor) {
        return row_at(plan, state, stage, last, time, out);
    }
    match state.stage_at(plan, actor) {
        Some(stage) => row_at(plan, state, &stage, last, time, out),
        None => false,
    }
}
