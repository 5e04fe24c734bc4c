//! What is asked of the state of a run.

ghost use Rattle.std.specs.Prelude.{◌≡◌, ◌≢◌, ◌<◌, ◌≤◌, ◌^◌, Some, IfNone, IfSome, IsTrue, ◌↔◌, false, true};
ghost use Rattle.pm_book.specs.Offering.{IsWrite};
ghost use Rattle.pm_book.specs.Sometime.{MayCome, Writes};
ghost use Rattle.pm_model.specs.declared.event.Event.{Event as AnEvent};
ghost use Rattle.pm_model.specs.declared.stage.Change.{Change as AChange};
ghost use Rattle.pm_model.specs.declared.stage.Move.TheVariants.{Write};
ghost use Rattle.pm_model.specs.declared.stage.Then.{Then as AThen};
ghost use Rattle.pm_model.specs.World.{due, move, stage_at};
ghost use Rattle.pm_state.specs.Standing.{IsOf, can_go_on};
ghost use Rattle.pm_laws.specs.bounds.Times.{event_at};

use crate::deciding::Permitted;
use pm_model::{Event, Line, Move, Plan, Stage};
use pm_state::State;

// Whether two events are equal.
pub(crate) fn same(one: Event, other: Event) -> bool
    ensures { IsTrue result ↔ (one ≡ other) }
{
    one == other
}

// The event of the row at a stage that is due at this moment; `None` where it waits.
pub(crate) fn event_of(plan: &Plan, state: &State, stage: Stage, time: u64) -> Option<Event>
    requires is_of { IsOf plan.now state.now }
    requires stands { can_go_on plan.now state.now.world.views stage ≡ true }
    requires in_time { time < 2 ^ 63 }
    requires at_once { due plan.now state.now.world.views stage ≤ time }
    ensures { result ≡ event_at plan.now state.now.world.views stage time }
{
    match state.next(plan, &stage, time) {
        Move::Write(event, _, _) => Some(event),
        Move::Late(_) | Move::Wait(_) => None,
    }
}

// Whether the row at a stage writes at this moment, where the last line was written at this: it doesn't where it
// waits or comes later. What it writes is put in `out`.
#[inline(always)]
pub(crate) fn row_at(
    plan: &Plan,
    state: &State,
    stage: &Stage,
    last: u64,
    time: u64,
    out: &mut Move,
) -> bool
    requires is_of { IsOf plan.now state.now }
    requires stands { can_go_on plan.now state.now.world.views stage.now ≡ true }
    requires in_time { time < 2 ^ 63 }
    ensures gives { result ≡ true → IsWrite out.new (λ event change next. move plan.now state.now.world.views stage.now time ≡ Some (Write event change next)) }
    ensures in_order { result ≡ true → last ≤ time }
    ensures none { result ≡ false → (event : AnEvent) (change : AChange) (next : AThen) → last ≤ time → move plan.now state.now.world.views stage.now time ≢ Some (Write event change next) }
{
    if time < last {
        return false;
    }
    state.write_next(plan, stage, time, out);
    matches!(*out, Move::Write(_, _, _))
}

// A line that may come next at its time, where the last one was written at this.
pub(crate) fn written(
    plan: &Plan,
    state: &State,
    stage: Stage,
    last: u64,
    line: &Line,
) -> Option<Permitted>
    requires is_of { IsOf plan.now state.now }
    requires at { stage_at plan.now state.now.world line.now.actor ≡ Some stage }
    requires stands { can_go_on plan.now state.now.world.views stage ≡ true }
    requires in_time { line.now.time < 2 ^ 63 }
    ensures stage { IfSome result (λ coming. coming.stage ≡ stage) }
    ensures some { IfSome result (λ coming. Writes plan.now state.now.world last line.now coming.change coming.next) }
    ensures none { IfNone result (¬ MayCome plan.now state.now.world last line.now) }
{
    let mut row = Move::Late(last);
    if !row_at(plan, state, &stage, last, line.time, &mut row) {
        return None;
    }
    let Move::Write(event, change, next) = row else {
        return None;
    };
    if same(event, line.event) {
        Some(Permitted {
            stage,
            change,
            next,
        })
    } else {
        None
    }
}
