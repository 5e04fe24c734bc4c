//! The refusals that are told besides the first.

ghost use Rattle.std.specs.Prelude.{◌≤◌, All, IfOk, length};

use crate::further::{Refusal, further};
use crate::notes::note_of;
use pm_base::NoMemory;
use pm_messages::located::{Located, of_note};
use pm_planread::PlanWhy;
use pm_planread::tree::document;
use std::alloc::Global;
use toml::Table;

/// Refusals that are told besides the first, at most.
const MOST: usize = 19;

/// What is told of refusals of these bytes besides the one that is told already, in the order of the text. Fails
/// where memory runs out.
pub fn others(alloc: Global, bytes: &[u8], told: Refusal) -> Result<Vec<Located>, NoMemory>
    ensures in_text { IfOk result (λ all. All (λ located. located.span.end ≤ length bytes.now) all.items) }
    ensures few { IfOk result (λ all. length all.items ≤ 19) }
{
    let mut all = all_others(alloc, bytes, told)?;
    all.sort_by_key(|located| located.span.start)?;
    all.truncate(MOST);
    Ok(all)
}

fn all_others(alloc: Global, bytes: &[u8], told: Refusal) -> Result<Vec<Located>, NoMemory>
    ensures { IfOk result (λ all. All (λ located. located.span.end ≤ length bytes.now) all.items) }
{
    if let PlanWhy::TooLong | PlanWhy::NotToml = told.why {
        return Ok(Vec::new(alloc));
    }
    match document(alloc, bytes)? {
        Some(tree) => {
            let refusals = further(alloc, &tree, told)?;
            located_in(alloc, bytes, &tree, refusals.as_slice())
        }
        None => Ok(Vec::new(alloc)),
    }
}

/// What is told of refusals of a tree, one after the other.
fn located_in(
    alloc: Global,
    bytes: &[u8],
    tree: &Table,
    refusals: &[Refusal],
) -> Result<Vec<Located>, NoMemory>
    ensures { IfOk result (λ all. All (λ located. located.span.end ≤ length bytes.now) all.items) }
{
    let mut all = Vec::new(alloc);
    for refusal in refusals {
        let note = note_of(alloc, tree, *refusal)?;
        all.push(of_note(alloc, bytes, note)?)?;
    }
    Ok(all)
}
