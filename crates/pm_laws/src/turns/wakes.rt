//! From when each actor may write its next line, and whose turn it is on one thread by these moments alone.

ghost use Rattle.std.specs.Prelude.{◌≡◌, ℕ};
ghost use Rattle.std.specs.Option.{option_and_then};
ghost use Rattle.pm_base.specs.declared.ActorId.{ActorId};
ghost use Rattle.pm_model.specs.declared.plan.Plan.{Plan};
ghost use Rattle.pm_model.specs.History.{History};
ghost use Rattle.pm_model.specs.Lawful.{last_time};
ghost use Rattle.pm_model.specs.Serial.{late_moment, may_write, move_at, next_turn, round};
ghost use Rattle.pm_model.specs.World.{World, world};
ghost use Rattle.pm_laws.specs.turns.Wakes.{after, is_within, turn_by, wakes};

/// An actor may write its next line from one moment on, and till then it awaits that moment; or it may never write while
/// the views stay as they are.
pub fn moments()
    ensures may { (plan : Plan) (w : World) (t : ℕ) (a : ActorId) → may_write plan w t a ≡ is_within t (wakes plan w a) }
    ensures late { (plan : Plan) (w : World) (t : ℕ) (a : ActorId) → option_and_then late_moment (move_at plan w t a) ≡ after t (wakes plan w a) }
{}

/// Whose turn it is on one thread, and when, by these moments alone.
pub fn turns()
    ensures { (plan : Plan) (h : History) → next_turn plan h ≡ turn_by (wakes plan (world plan h)) (round plan h) (last_time h) }
{}
