//! What holds of the runs of every plan.

ghost use Rattle.std.specs.Prelude.{◌≡◌, List, [], ◌++◌};
ghost use Rattle.pm_model.specs.declared.event.Line.{Line};
ghost use Rattle.pm_model.specs.declared.plan.Plan.{Plan};
ghost use Rattle.pm_model.specs.Lawful.{IsLawful, Permits};
ghost use Rattle.pm_model.specs.Serial.{goes_on};

/// Each line that one thread writes may come after those before it.
#[tactic(auto, using(pm_model::proofs::SerialLemmas::serial_lawful))]
pub fn serial_is_lawful()
    ensures { (plan : Plan) → IsLawful plan (goes_on plan plan.lines []) }
{}

/// An actor has at each moment one line that may come, at most.
#[tactic(auto, using(crate::proofs::RefusalLemmas::one_event))]
pub fn one_event_at_a_time()
    ensures { (plan : Plan) (h : List Line) (a b : Line) → Permits plan h a → Permits plan h b
        → a.actor ≡ b.actor → a.time ≡ b.time → a.event ≡ b.event }
{}

/// Lines that go on from a list that isn't lawful make no lawful one.
#[tactic(auto, using(crate::proofs::RefusalLemmas::unlawful_tail))]
pub fn unlawful_stays_unlawful()
    ensures { (plan : Plan) (h more : List Line) → ¬ IsLawful plan h → ¬ IsLawful plan (more ++ h) }
{}
