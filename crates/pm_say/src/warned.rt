//! What is told of a plan that is one.

ghost use Rattle.std.specs.Prelude.{◌≡◌, IfOk};
ghost use Rattle.pm_planread.specs.PlanOf.{contents_of};
ghost use Rattle.pm_say.specs.Warned.{TellsPlan, kind_of};

use crate::lint_text::warnings_text;
use crate::lints::{Warning, warnings};
use crate::told::{Kind, Said, counts_text};
use pm_base::NoMemory;
use pm_islands::islands;
use pm_model::Plan;
use pm_spans::source::push;
use std::alloc::Global;

/// Tells of a plan, whose text these bytes are: each warning with its place, and how much the plan has.
/// Fails where memory runs out.
pub fn told_plan(alloc: Global, file: &[u8], bytes: &[u8], plan: &Plan) -> Result<Said, NoMemory>
    ensures { IfOk result (TellsPlan file.now bytes.now (contents_of plan.now)) }
{
    let found = warnings(alloc, plan)?;
    let mut text = warnings_text(alloc, file, bytes, plan, &found)?;
    let counts = counts_text(alloc, file, plan, islands(plan))?;
    push(&mut text, counts.as_slice())?;
    Ok(Said {
        text,
        kind: kind_of(&found),
    })
}

/// The kind of a plan with these warnings.
fn kind_of(warnings: &[Warning]) -> Kind
    ensures { result ≡ kind_of warnings.now }
{
    if warnings.is_empty() {
        Kind::Clean
    } else {
        Kind::Warned
    }
}
