//! The text of the warnings.

ghost use Rattle.std.specs.Prelude.{◌≡◌, ◌++◌, IfOk, OnOk, take};
ghost use Rattle.pm_say.specs.lint_text.Told.{AddsToken, TellsEach, more_told, TellsWarnings};

use crate::lint_text::notes::note_of;
use crate::lints::Warning;
use pm_base::NoMemory;
use pm_messages::located::{of_note, push_located};
use pm_model::Plan;
use pm_spans::source::{push, push_number};
use std::alloc::Global;

/// How many warnings are told with their places; of the others only how many they are.
pub const MAX_TOLD: usize = 100;

/// The text that is told of warnings of these bytes, which are the text of the plan: of each its place as
/// `FILE:LINE:COLUMN: warning:`, what looks wrong, the line with the token underlined and what may help.
/// Those past the first `MAX_TOLD` are counted in a line. `file` is how the file is called. Fails where
/// memory runs out.
#[tactic(auto, using(crate::proofs::lint_text::ToldLemmas::tells_first))]
pub fn warnings_text(
    alloc: Global,
    file: &[u8],
    bytes: &[u8],
    plan: &Plan,
    warnings: &[Warning],
) -> Result<Vec<u8>, NoMemory>
    ensures { IfOk result (λ text. TellsWarnings file.now bytes.now warnings.now text.items) }
{
    let mut out = each_text(alloc, file, bytes, plan, first(warnings))?;
    push_more(&mut out, file, warnings.len().saturating_sub(MAX_TOLD))?;
    Ok(out)
}

/// Those that are told with their places.
fn first(warnings: &[Warning]) -> &[Warning]
    ensures { result.now ≡ take 100 warnings.now }
{
    if warnings.len() <= MAX_TOLD {
        warnings
    } else {
        &warnings[..MAX_TOLD]
    }
}

fn each_text(
    alloc: Global,
    file: &[u8],
    bytes: &[u8],
    plan: &Plan,
    warnings: &[Warning],
) -> Result<Vec<u8>, NoMemory>
    ensures { IfOk result (λ text. TellsEach file.now bytes.now warnings.now text.items) }
{
    let mut out = Vec::new(alloc);
    for warning in warnings {
        push_warning(alloc, &mut out, file, bytes, plan, *warning)?;
    }
    Ok(out)
}

/// Appends the text of a warning.
#[tactic(auto, using(crate::proofs::lint_text::ToldLemmas::adds_at))]
fn push_warning(
    alloc: Global,
    out: &mut Vec<u8>,
    file: &[u8],
    bytes: &[u8],
    plan: &Plan,
    warning: Warning,
) -> Result<(), NoMemory>
    ensures { OnOk result (AddsToken file.now bytes.now out.old.items out.new.items) }
{
    let note = note_of(alloc, plan, warning)?;
    let located = of_note(alloc, bytes, note)?;
    push_located(alloc, out, file, bytes, "warning", &located)
}

/// Appends how many more warnings there are, where there are any.
#[tactic(auto, unfolding(crate::specs::lint_text::Told::more_told))]
fn push_more(out: &mut Vec<u8>, file: &[u8], count: usize) -> Result<(), NoMemory>
    ensures { OnOk result (out.new.items ≡ out.old.items ++ more_told file.now count) }
{
    if count > 0 {
        push(out, file)?;
        push(out, b": more warnings: ")?;
        push_number(out, count)?;
        push(out, b"\n")?;
    }
    Ok(())
}
