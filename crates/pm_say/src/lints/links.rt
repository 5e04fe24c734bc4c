//! Warnings of links.

ghost use Rattle.std.specs.Prelude.{◌≡◌, ◌++◌, OnOk};
ghost use Rattle.std.specs.List.{list_any};
ghost use Rattle.pm_say.specs.lints.Scripts.{adds, is_added};
ghost use Rattle.pm_say.specs.lints.Warnings.{of_link, of_rows};

use crate::lints::Warning;
use crate::lints::helpers::is_link_add;
use crate::lints::listed::push_if;
use pm_base::NoMemory;
use pm_model::{Command, LinkRow, Plan};

/// Appends the warnings of the links. Fails where memory runs out.
pub(crate) fn push_links(out: &mut Vec<Warning>, plan: &Plan) -> Result<(), NoMemory>
    ensures { OnOk result (out.new.items ≡ out.old.items ++ of_rows (of_link plan.now) plan.now.links) }
{
    for (link, row) in plan.links.as_slice().iter().enumerate() {
        push_link(out, plan, link, row)?;
    }
    Ok(())
}

#[tactic(auto, unfolding(crate::specs::lints::Warnings::of_link))]
fn push_link(
    out: &mut Vec<Warning>,
    plan: &Plan,
    link: usize,
    row: &LinkRow,
) -> Result<(), NoMemory>
    ensures { OnOk result (out.new.items ≡ out.old.items ++ of_link plan.now link row.now) }
{
    let missing = row.later && !is_added(plan, row);
    push_if(out, missing, Warning::NeverAdded { link })
}

fn is_added(plan: &Plan, row: &LinkRow) -> bool
    ensures { result ≡ is_added plan.now row.now }
{
    plan.callers
        .as_slice()
        .iter()
        .any(|caller| is_added_in(caller.script.as_slice(), row))
}

fn is_added_in(script: &[Command], row: &LinkRow) -> bool
    ensures { result ≡ list_any (adds row.now) script.now }
{
    script.iter().any(|command| adds(row, command))
}

fn adds(row: &LinkRow, command: &Command) -> bool
    ensures { result ≡ adds row.now command.now }
{
    is_link_add(command.helper)
        && command.dev.0 == row.consumer.0
        && command.number.unsigned_abs() == u64::from(row.supplier.0)
}
