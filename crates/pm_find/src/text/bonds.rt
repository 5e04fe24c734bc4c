//! What is told of bonds that are off.

ghost use Rattle.std.specs.Prelude.{◌≡◌, ◌++◌, OnOk};
ghost use Rattle.pm_safety.specs.declared.dependencies.bond.Bond.TheVariants as bond;
ghost use Rattle.pm_safety.specs.declared.dependencies.bond.Excuse.TheVariants as excuse;
ghost use Rattle.pm_find.specs.text.Texts.{bond_text, excuse_text, off_text};
ghost use Rattle.pm_model.specs.Text.{names_of};

use crate::findings::{Bond, Excuse};
use crate::text::pieces::{push, push_device, push_domain, push_number};
use pm_base::{DevId, DomId, NoMemory};
use pm_model::Plan;

/// Appends that a line forced the status of a parent or a supplier.
fn push_forced(
    text: &mut Vec<u8>,
    plan: &Plan,
    dev: DevId,
    other: DevId,
    line: u32,
) -> Result<(), NoMemory>
    ensures { OnOk result (text.new.items ≡ text.old.items ++ excuse_text (names_of plan.now) dev other (excuse.Forced line)) }
{
    push(text, b"line ")?;
    push_number(text, line)?;
    push(text, b" forced the status of ")?;
    push_device(text, plan, other)?;
    Ok(())
}

/// Appends that a parent or a supplier was disabled.
fn push_disabled(text: &mut Vec<u8>, plan: &Plan, dev: DevId, other: DevId) -> Result<(), NoMemory>
    ensures { OnOk result (text.new.items ≡ text.old.items ++ excuse_text (names_of plan.now) dev other excuse.Disabled) }
{
    push_device(text, plan, other)?;
    push(text, b" was disabled when ")?;
    push_device(text, plan, dev)?;
    push(text, b" went on")?;
    Ok(())
}

/// Appends that a parent ignored its children.
fn push_ignored(text: &mut Vec<u8>, plan: &Plan, dev: DevId, other: DevId) -> Result<(), NoMemory>
    ensures { OnOk result (text.new.items ≡ text.old.items ++ excuse_text (names_of plan.now) dev other excuse.Ignored) }
{
    push_device(text, plan, other)?;
    push(text, b" ignored its children")?;
    Ok(())
}

/// Appends what excuses a device from its parent or a supplier.
fn push_excuse(
    text: &mut Vec<u8>,
    plan: &Plan,
    dev: DevId,
    other: DevId,
    excuse: Excuse,
) -> Result<(), NoMemory>
    ensures { OnOk result (text.new.items ≡ text.old.items ++ excuse_text (names_of plan.now) dev other excuse) }
{
    match excuse {
        Excuse::Forced { line } => push_forced(text, plan, dev, other, line),
        Excuse::Disabled => push_disabled(text, plan, dev, other),
        Excuse::Ignored => push_ignored(text, plan, dev, other),
    }
}

/// Appends that a device is Active, and its parent or a supplier isn't.
fn push_off(
    text: &mut Vec<u8>,
    plan: &Plan,
    dev: DevId,
    bond: &[u8],
    other: DevId,
    excuse: Excuse,
) -> Result<(), NoMemory>
    ensures { OnOk result (text.new.items ≡ text.old.items ++ off_text (names_of plan.now) dev bond.now other excuse) }
{
    push_device(text, plan, dev)?;
    push(text, b" is active and its ")?;
    push(text, bond)?;
    push(text, b" ")?;
    push_device(text, plan, other)?;
    push(text, b" isn't: ")?;
    push_excuse(text, plan, dev, other, excuse)?;
    Ok(())
}

/// Appends that a device is Active, and its domain is off.
fn push_off_domain(
    text: &mut Vec<u8>,
    plan: &Plan,
    dev: DevId,
    domain: DomId,
) -> Result<(), NoMemory>
    ensures { OnOk result (text.new.items ≡ text.old.items ++ bond_text plan.now (bond.Domain dev domain)) }
{
    push_device(text, plan, dev)?;
    push(text, b" is active and its domain ")?;
    push_domain(text, plan, domain)?;
    push(text, b" is off: its status is forced here")?;
    Ok(())
}

/// Appends what is told of a bond that is off.
pub(crate) fn push_bond(text: &mut Vec<u8>, plan: &Plan, bond: Bond) -> Result<(), NoMemory>
    ensures { OnOk result (text.new.items ≡ text.old.items ++ bond_text plan.now bond) }
{
    match bond {
        Bond::Domain { dev, domain } => push_off_domain(text, plan, dev, domain),
        Bond::Parent {
            dev,
            parent,
            excuse,
        } => push_off(text, plan, dev, b"parent", parent, excuse),
        Bond::Supplier {
            dev,
            supplier,
            excuse,
        } => push_off(text, plan, dev, b"supplier", supplier, excuse),
    }
}
