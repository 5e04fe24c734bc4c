//! What is true of every file.

ghost use Rattle.std.specs.Prelude.{ℕ, ◌≡◌, List, Ok};
ghost use Rattle.pm_model.specs.declared.event.Command.{Command};
ghost use Rattle.pm_driver_read.specs.Drivers.{driver_of, plain_driver};
ghost use Rattle.pm_driver_read.specs.Plans.{commands_of};
ghost use Rattle.pm_driver_read.specs.Straight.{straight};
ghost use Rattle.pm_planread.specs.PlanOf.{Contents, plan_of};

/// The bytes of a plan are read as the plan that they are, and each program as its script.
#[tactic(auto, using(crate::proofs::PlainLemmas::read_so, crate::proofs::PlainLemmas::commands_so))]
pub fn plans_are_drivers()
    ensures plan { (bytes : List ℕ) (contents : Contents) → plan_of bytes ≡ Ok contents → driver_of bytes ≡ Ok (plain_driver contents) }
    ensures scripts { (script : List Command) → commands_of (straight script).program.places ≡ script }
{}
