//! The tables, and the whole text.

ghost use Rattle.std.specs.Prelude.{◌≡◌, ◌++◌, IfOk, OnOk};
ghost use Rattle.std.specs.List.{flat_map};
ghost use Rattle.pm_module.specs.Module.{caller_table, device_table, domain_table, end_row, link_table, module_text, tables};

use crate::engine::ENGINE;
use crate::head::HEAD;
use crate::rows::{Row, push_rows};
use pm_base::NoMemory;
use pm_linetext::push;
use pm_model::Plan;
use std::alloc::Global;

/// Appends a table: what opens it, its rows and an empty one.
fn push_table<R: Row>(
    text: &mut Vec<u8>,
    plan: &Plan,
    opening: &[u8],
    rows: &[R],
) -> Result<(), NoMemory>
    ensures { OnOk result
        (text.new.items ≡ text.old.items ++ (opening.now ++ flat_map (R.text_of plan.now) rows.now ++ end_row)) }
{
    push(text, opening)?;
    push_rows(text, plan, rows)?;
    push(text, b"\t{ }\n};\n\n")
}

/// Appends the table of power domains.
fn push_domains(text: &mut Vec<u8>, plan: &Plan) -> Result<(), NoMemory>
    ensures { OnOk result (text.new.items ≡ text.old.items ++ domain_table plan.now) }
{
    let opening = b"static const struct lab_domain lab_domains[] = {\n";
    push_table(text, plan, opening, plan.domains.as_slice())
}

/// Appends the table of devices.
fn push_devices(text: &mut Vec<u8>, plan: &Plan) -> Result<(), NoMemory>
    ensures { OnOk result (text.new.items ≡ text.old.items ++ device_table plan.now) }
{
    let opening = b"static const struct lab_device lab_devices[] = {\n";
    push_table(text, plan, opening, plan.devices.as_slice())
}

/// Appends the table of links.
fn push_links(text: &mut Vec<u8>, plan: &Plan) -> Result<(), NoMemory>
    ensures { OnOk result (text.new.items ≡ text.old.items ++ link_table plan.now) }
{
    let opening = b"static const struct lab_link lab_links[] = {\n";
    push_table(text, plan, opening, plan.links.as_slice())
}

/// Appends the table of callers.
fn push_callers(text: &mut Vec<u8>, plan: &Plan) -> Result<(), NoMemory>
    ensures { OnOk result (text.new.items ≡ text.old.items ++ caller_table plan.now) }
{
    let opening = b"static const struct lab_caller lab_callers[] = {\n";
    push_table(text, plan, opening, plan.callers.as_slice())
}

/// Appends the tables of the plan.
fn push_tables(text: &mut Vec<u8>, plan: &Plan) -> Result<(), NoMemory>
    ensures { OnOk result (text.new.items ≡ text.old.items ++ tables plan.now) }
{
    push_domains(text, plan)?;
    push_devices(text, plan)?;
    push_links(text, plan)?;
    push_callers(text, plan)
}

/// The text of a plan as a module for a kernel. It fails where memory runs out.
#[tactic(auto, unfolding(crate::specs::Module::module_text))]
pub fn module_text(alloc: Global, plan: &Plan) -> Result<Vec<u8>, NoMemory>
    ensures { IfOk result (λ text. text.items ≡ module_text plan.now) }
{
    let mut text = Vec::new(alloc);
    push(&mut text, HEAD)?;
    push_tables(&mut text, plan)?;
    push(&mut text, ENGINE)?;
    Ok(text)
}
