//! The attributes of an element.

ghost use Rattle.std.specs.Prelude.{◌≡◌, ◌++◌, OnOk};
ghost use Rattle.pm_sheet.specs.svg.Shapes.{attribute};

use pm_base::NoMemory;
use pm_linetext::{push, push_number};

/// Appends the begin of an attribute and a number in decimal.
pub fn push_attribute(text: &mut Vec<u8>, begin: &[u8], number: u32) -> Result<(), NoMemory>
    ensures { OnOk result (text.new.items ≡ text.old.items ++ attribute begin.now number) }
{
    push(text, begin)?;
    push_number(text, number as u64)
}
