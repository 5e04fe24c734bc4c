//! The text of a run.

ghost use Rattle.std.specs.Prelude.{◌≡◌, reverse, true};
ghost use Rattle.std.specs.List.{list_all};
ghost use Rattle.pm_cmd_ends.specs.Ending.{taking};
ghost use Rattle.pm_cmd_lab.specs.ends.Coming.{Came, Writes};
ghost use Rattle.pm_model.specs.Lawful.{IsLawful};
ghost use Rattle.pm_model.specs.LineOf.{is_line_of};
ghost use Rattle.pm_model.specs.Text.{text};

use crate::ends::{Fault, Outcome};
use pm_cmd_ends::{Format, write_text};
use pm_io::Sink;
use pm_linetext::LineSpeller;
use pm_model::{Line, Plan};
use std::alloc::Global;

/// Writes the text of a run's lines in the format that the plan's `trace` names. What takes memory comes before.
pub fn write_lines<O: Sink>(
    alloc: Global,
    plan: &Plan,
    lines: &[Line],
    outcome: Outcome,
    out: &mut O,
) -> Result<Outcome, Fault>
    requires lawful { IsLawful plan.now (reverse lines.now) }
    requires of_plan { list_all (is_line_of plan.now) (reverse lines.now) ≡ true }
    ensures { Came (Writes outcome (text plan.now lines.now)) result ⊥ (taking O.taken O.faults out.old out.new) }
{
    let speller = LineSpeller::new(alloc, plan)?;
    write_text(out, &speller, Format::of(plan), lines)?;
    Ok(outcome)
}
