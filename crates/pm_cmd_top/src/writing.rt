//! Writes the lines of a run.

ghost use Rattle.std.specs.Prelude.{◌≡◌, reverse, true};
ghost use Rattle.std.specs.List.{list_all};
ghost use Rattle.pm_model.specs.Lawful.{IsLawful};
ghost use Rattle.pm_model.specs.LineOf.{is_line_of};
ghost use Rattle.pm_model.specs.Text.{text};
ghost use Rattle.pm_cmd_ends.specs.Coming.{Wrote};
ghost use Rattle.pm_cmd_ends.specs.Ending.{taking};

use pm_cmd_ends::{Fault, Format, write_text};
use pm_io::Sink;
use pm_linetext::LineSpeller;
use pm_model::{Line, Plan};
use std::alloc::Global;

/// Writes lines of the plan, in the format of its traces. Everything that takes memory comes before the
/// first write.
pub(crate) fn write_lines<O: Sink>(
    alloc: Global,
    plan: &Plan,
    lines: &[Line],
    out: &mut O,
) -> Result<(), Fault>
    requires lawful { IsLawful plan.now (reverse lines.now) }
    requires of_plan { list_all (is_line_of plan.now) (reverse lines.now) ≡ true }
    ensures { Wrote (text plan.now lines.now) result (taking O.taken O.faults out.old out.new) }
{
    let speller = LineSpeller::new(alloc, plan)?;
    write_text(out, &speller, Format::of(plan), lines)?;
    Ok(())
}
