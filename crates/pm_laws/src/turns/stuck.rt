//! A run that isn't finished goes on.

ghost use Rattle.std.specs.Prelude.{◌≡◌, ◌≤◌, ◌+◌, ◌⊎◌, ℕ, List, [], None, length};
ghost use Rattle.pm_model.specs.declared.plan.Plan.{Plan};
ghost use Rattle.pm_model.specs.History.{History};
ghost use Rattle.pm_model.specs.Lawful.{IsFinished, IsLawful};
ghost use Rattle.pm_model.specs.Promises.{IsNeverStuck};
ghost use Rattle.pm_model.specs.Serial.{goes_on, next_line, next_turn, serial};

/// A lawful list that isn't finished and has room is followed by some line: an actor that carries out the transition of
/// a device waits only for devices that stand earlier.
pub fn never_stuck()
    ensures { (plan : Plan) (h : History) → IsLawful plan h → IsNeverStuck plan h }
{}

/// On one thread it is nobody's turn, and no line comes next, exactly where the run is finished.
pub fn serial_stops()
    ensures turn { (plan : Plan) (h : History) → IsLawful plan h → next_turn plan h ≡ None → IsFinished plan h }
    ensures line { (plan : Plan) (h : History) → IsLawful plan h → next_line plan h ≡ None → IsFinished plan h }
    ensures finished_turn { (plan : Plan) (h : History) → IsFinished plan h → next_turn plan h ≡ None }
    ensures finished_line { (plan : Plan) (h : History) → IsFinished plan h → next_line plan h ≡ None }
{}

/// One thread that goes on from a lawful list writes permitted lines until the run is finished, or until there is no room;
/// so `serial` is finished or full.
pub fn serial_ends()
    ensures lawful { (plan : Plan) (n : ℕ) (h : History) → length h + n ≤ plan.lines → IsLawful plan h → IsLawful plan (goes_on plan n h) }
    ensures ends { (plan : Plan) (n : ℕ) (h : History) → length h + n ≤ plan.lines → IsLawful plan h → IsFinished plan (goes_on plan n h) ⊎ (length (goes_on plan n h) ≡ length h + n) }
    ensures whole { (plan : Plan) → IsFinished plan (goes_on plan plan.lines []) ⊎ (length (serial plan) ≡ plan.lines) }
{}
