//! The text of a refusal.

ghost use Rattle.std.specs.Prelude.{◌≤◌, [], IfOk, length};
ghost use Rattle.pm_planread.specs.declared.tree.place.Section.TheVariants.{Top};
ghost use Rattle.pm_planread.specs.declared.refusal.PlanWhy.TheVariants.{TooLong};
ghost use Rattle.pm_say.specs.Faults.{Tells};

use crate::further::Refusal;
use crate::notes::note_of;
use crate::others::others;
use pm_base::NoMemory;
use pm_messages::located::{Located, of_long_text, of_no_toml, of_note, push_each, push_located};
use pm_planread::tree::{Section, document};
use pm_planread::{PlanFault, PlanWhy, refusal_message};
use pm_spans::source::push;
use std::alloc::Global;

/// What is told of a refusal of these bytes, with its token. Fails where memory runs out.
fn locate(alloc: Global, bytes: &[u8], refusal: Refusal) -> Result<Located, NoMemory>
    ensures { IfOk result (λ located. located.span.end ≤ length bytes.now) }
{
    match refusal.why {
        PlanWhy::TooLong => of_long_text(alloc, bytes),
        PlanWhy::NotToml => of_no_toml(alloc, bytes),
        _ => of_tree(alloc, bytes, refusal),
    }
}

fn of_tree(alloc: Global, bytes: &[u8], refusal: Refusal) -> Result<Located, NoMemory>
    ensures { IfOk result (λ located. located.span.end ≤ length bytes.now) }
{
    let Some(tree) = document(alloc, bytes)? else {
        return of_no_toml(alloc, bytes);
    };
    let note = note_of(alloc, &tree, refusal)?;
    of_note(alloc, bytes, note)
}

/// The text that is told of a refusal of these bytes: its place as `FILE:LINE:COLUMN: error:`, a message, the
/// line with the token underlined and lines that help; the same of other refusals; and as the last line the
/// message that `PlanFault` has. `file` is how the file is called. Fails where memory runs out.
pub fn refused_text(
    alloc: Global,
    file: &[u8],
    bytes: &[u8],
    refusal: Refusal,
) -> Result<Vec<u8>, NoMemory>
    ensures { IfOk result (λ text. Tells file.now bytes.now (PlanFault.Refused refusal.why refusal.section refusal.item refusal.part) text.items) }
{
    let located = locate(alloc, bytes, refusal)?;
    let others = others(alloc, bytes, refusal)?;
    let mut out = Vec::new(alloc);
    push_located(alloc, &mut out, file, bytes, "error", &located)?;
    push_each(alloc, &mut out, file, bytes, "error", others.as_slice())?;
    let last = refusal_message(refusal.why, refusal.section, refusal.item, refusal.part);
    push(&mut out, last.as_slice())?;
    Ok(out)
}

/// The text that is told of a file with more bytes than a plan may have, of which nothing is shown. `file`
/// is how the file is called. Fails where memory runs out.
pub fn too_long_text(alloc: Global, file: &[u8]) -> Result<Vec<u8>, NoMemory>
    ensures { IfOk result (λ text. Tells file.now [] (PlanFault.Refused TooLong Top 0 0) text.items) }
{
    let refusal = Refusal {
        why: PlanWhy::TooLong,
        section: Section::Top,
        item: 0,
        part: 0,
    };
    refused_text(alloc, file, &[], refusal)
}
