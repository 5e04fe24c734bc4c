//! A run whose lines are read again.

ghost use Rattle.std.specs.Prelude.{◌≡◌, ◌<◌, ◌^◌, ◌∷◌, [], IfOk, true};
ghost use Rattle.pm_book.specs.Replayed.{IsAfter};
ghost use Rattle.pm_book.specs.Offering.{IsWrite};
ghost use Rattle.pm_book.specs.Sometime.{MayCome, Writes};
ghost use Rattle.pm_model.specs.History.{History};
ghost use Rattle.pm_model.specs.Lawful.{IsLawful};
ghost use Rattle.pm_model.specs.LineOf.{is_line_of};
ghost use Rattle.pm_state.specs.Standing.{IsActor, IsOf, StandsWell, counters};

use crate::judge_laws::{all_stand_well, each_line_fits, each_line_is_taken};
use crate::offering::offered;
use pm_base::NoMemory;
use pm_device::Parts;
use pm_model::{Line, Move, Plan};
use pm_state::State;
use std::alloc::Global;
use std::marker::Model;

/// Where a run of a plan stands after some of its lines, and when the last of them was written, in milliseconds of the
/// run; 0 where there is none. It keeps no lines.
pub struct Replay {
    state: State,
    last: u64,
}

impl Drop for Replay {
    fn drop(self) {
        let Replay { state, last: _ } = self;
        drop(state);
    }
}

impl Model for Replay {
    ghost use Rattle.pm_book.specs.Replayed.{Replayed};

    ghost Value = { Replayed };

    ghost view = { λ r. record { standing = r.state; last = r.last } };
}

// Puts in `out` the move by which a line is written that may come next: its actor has no other at this time.
#[tactic(auto, using(crate::proofs::ReplayLemmas::offer_is))]
fn put_move(plan: &Plan, state: &State, last: u64, line: &Line, out: &mut Move)
    requires is_of { IsOf plan.now state.now }
    requires stands { StandsWell plan.now state.now.world line.now.actor }
    requires in_range { IsActor plan.now line.now.actor }
    requires in_time { line.now.time < 2 ^ 63 }
    requires may { MayCome plan.now state.now.world last line.now }
    ensures { IsWrite out.new (λ event change next. (event ≡ line.now.event) × Writes plan.now state.now.world last line.now change next) }
{
    if !offered(plan, state, last, line.actor, line.time, out) {
        unreachable!();
    }
}

impl Replay {
    /// The run of a plan before any line. All memory is taken here.
    pub fn start(alloc: Global, plan: &Plan) -> Result<Replay, NoMemory>
        ensures { IfOk result (λ replay. IsAfter plan.now replay []) }
    {
        let state = State::fresh(alloc, plan)?;
        Ok(Replay { state, last: 0 })
    }

    /// The counters, and where each actor stands.
    pub fn state(&self) -> &State
        ensures { result.now ≡ self.now.standing }
    {
        &self.state
    }

    /// The counters.
    pub fn parts(&self) -> &Parts
        ensures { result.now ≡ counters self.now.standing }
    {
        self.state.parts()
    }

    /// Goes on by a line that may come next. It takes no memory.
    pub fn go(&mut self, plan: &Plan, line: &Line)
        requires of_plan { is_line_of plan.now line.now ≡ true }
        requires some { (h : History) × IsLawful plan.now (line.now ∷ h) × IsAfter plan.now self.old h }
        ensures { (h : History) → IsLawful plan.now (line.now ∷ h) → IsAfter plan.now self.old h → IsAfter plan.now self.new (line.now ∷ h) }
    {
        all_stand_well();
        each_line_is_taken();
        each_line_fits();
        let mut coming = Move::Late(line.time);
        put_move(plan, &self.state, self.last, line, &mut coming);
        let Move::Write(_, change, next) = &coming else {
            unreachable!();
        };
        self.state
            .go(plan, line.time, line.actor, &line.event, change, next);
        self.last = line.time;
    }
}
