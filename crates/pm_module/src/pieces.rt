//! The pieces of a module's text, each of which is appended to what stands before it.

ghost use Rattle.std.specs.Prelude.{◌≡◌, ◌++◌, OnOk, codes};
ghost use Rattle.pm_module.specs.Rows.{device_place, domain_place, field_line, field_start, quoted, truth};

use pm_base::{DevId, DomId, NoMemory};
use pm_linetext::{push, push_number};
use pm_model::Name;

/// Appends a text of C.
fn push_quoted(text: &mut Vec<u8>, bytes: &[u8]) -> Result<(), NoMemory>
    ensures { OnOk result (text.new.items ≡ text.old.items ++ quoted bytes.now) }
{
    push(text, b"\"")?;
    push(text, bytes)?;
    push(text, b"\"")
}

/// Appends `true` or `false`.
pub(crate) fn push_truth(text: &mut Vec<u8>, value: bool) -> Result<(), NoMemory>
    ensures { OnOk result (text.new.items ≡ text.old.items ++ truth value) }
{
    push(text, if value { b"true" } else { b"false" })
}

/// Appends the place of a device, or -1 where there is none.
pub(crate) fn push_device_place(text: &mut Vec<u8>, dev: Option<DevId>) -> Result<(), NoMemory>
    ensures { OnOk result (text.new.items ≡ text.old.items ++ device_place dev) }
{
    match dev {
        Some(dev) => push_number(text, dev.0 as u64),
        None => push(text, b"-1"),
    }
}

/// Appends the place of a power domain, or -1 where there is none.
pub(crate) fn push_domain_place(text: &mut Vec<u8>, dom: Option<DomId>) -> Result<(), NoMemory>
    ensures { OnOk result (text.new.items ≡ text.old.items ++ domain_place dom) }
{
    match dom {
        Some(dom) => push_number(text, dom.0 as u64),
        None => push(text, b"-1"),
    }
}

/// Appends what stands before the value in a line of a row.
pub(crate) fn start_field(text: &mut Vec<u8>, name: &[u8]) -> Result<(), NoMemory>
    ensures { OnOk result (text.new.items ≡ text.old.items ++ field_start name.now) }
{
    push(text, b"\t\t.")?;
    push(text, name)?;
    push(text, b" = ")
}

/// Appends a name as a text of C.
pub(crate) fn push_name(text: &mut Vec<u8>, name: &Name) -> Result<(), NoMemory>
    ensures { OnOk result (text.new.items ≡ text.old.items ++ quoted name.now) }
{
    push_quoted(text, name.as_slice())
}

/// Appends the line with the name of a row.
pub(crate) fn push_name_field(text: &mut Vec<u8>, name: &Name) -> Result<(), NoMemory>
    ensures { OnOk result
        (text.new.items ≡ text.old.items ++ field_line (codes "name") (quoted name.now)) }
{
    start_field(text, b"name")?;
    push_name(text, name)?;
    push(text, b",\n")
}
