//! The fields of an event.

ghost use Rattle.std.specs.Prelude.{◌≡◌, ◌++◌, OnOk};
ghost use Rattle.pm_picture.specs.events.Events.{field};

use pm_base::NoMemory;
use pm_linetext::{push, push_number};

/// Appends the begin of a field and a number in decimal.
pub fn push_field(text: &mut Vec<u8>, begin: &[u8], number: u64) -> Result<(), NoMemory>
    ensures { OnOk result (text.new.items ≡ text.old.items ++ field begin.now number) }
{
    push(text, begin)?;
    push_number(text, number)
}
