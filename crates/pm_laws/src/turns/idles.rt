//! Which stages wait for their device, and where an idle callback runs.

ghost use Rattle.std.specs.Prelude.{◌≡◌, ◌<◌, ℕ, Some, not, length};
ghost use Rattle.pm_base.specs.declared.Cb.TheVariants as cb;
ghost use Rattle.pm_base.specs.declared.DevId.{DevId};
ghost use Rattle.pm_model.specs.declared.plan.Plan.{Plan};
ghost use Rattle.pm_model.specs.declared.stage.Stage.{Stage};
ghost use Rattle.pm_model.specs.Counted.{runs};
ghost use Rattle.pm_model.specs.History.{History};
ghost use Rattle.pm_model.specs.Lawful.{IsLawful};
ghost use Rattle.pm_model.specs.Row.{Row, move_of};
ghost use Rattle.pm_model.specs.Serial.{writes_line};
ghost use Rattle.pm_model.specs.Views.{Views};
ghost use Rattle.pm_model.specs.World.{row, world};
ghost use Rattle.pm_laws.specs.counts.Sums.{one, tally};
ghost use Rattle.pm_laws.specs.counts.Owners.{places};
ghost use Rattle.pm_laws.specs.turns.Blocks.{blocks};
ghost use Rattle.pm_laws.specs.turns.Idles.{HasOneIdle, runs_idle};

/// A stage that awaits no call waits for its device exactly where it blocks; everywhere else its row writes a line.
pub fn stages_wait()
    ensures { (plan : Plan) (v : Views) (t : ℕ) (s : Stage) (r : Row) → row plan v s t ≡ Some r → writes_line (move_of r) ≡ not (blocks v s) }
{}

/// The idle callback of a device runs exactly where one stage of all actors runs it; no two ever do
/// (`runtime_pm.rst`, section 2).
pub fn one_idle()
    ensures running { (plan : Plan) (h : History) → IsLawful plan h → HasOneIdle plan (world plan h) }
    ensures begun { (plan : Plan) (h : History) (d : DevId) → IsLawful plan h → d.0 < length plan.devices → tally (runs_idle d) (places (world plan h)) ≡ one (runs cb.Idle d h) }
{}
