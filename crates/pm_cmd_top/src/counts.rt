//! The line of counts that `check` writes.

ghost use Rattle.std.specs.Prelude.{◌≡◌, ◌++◌, IfOk, OnOk, decimal};
ghost use Rattle.std.specs.String.{string_bytes};
ghost use Rattle.pm_cmd_top.specs.Counts.{counts_text};

use pm_base::NoMemory;
use pm_model::Plan;
use std::alloc::{AllocError, Global};

/// The line of a plan's counts, with its newline: `devices 2 domains 3 links 0 callers 1 islands 1`. It is
/// told how many islands the plan has. Fails where memory runs out.
pub fn counts_text(alloc: Global, plan: &Plan, islands: u32) -> Result<Vec<u8>, NoMemory>
    ensures { IfOk result (λ text. text.items ≡ counts_text plan.now islands) }
{
    let mut text = String::new(alloc);
    push_count(&mut text, "devices ", plan.devices.len())?;
    push_count(&mut text, " domains ", plan.domains.len())?;
    push_count(&mut text, " links ", plan.links.as_slice().len())?;
    push_count(&mut text, " callers ", plan.callers.len())?;
    push_count(&mut text, " islands ", islands as usize)?;
    text.push_str("\n")?;
    Ok(text.into_bytes())
}

// Appends a count behind its word.
fn push_count(text: &mut String, word: &str, count: usize) -> Result<(), AllocError>
    ensures { OnOk result (string_bytes text.new ≡ string_bytes text.old ++ (word.now ++ decimal count)) }
{
    write!(text, "{word}{count}")
}
