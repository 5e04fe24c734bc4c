//! The words of commands, as texts of C.

ghost use Rattle.std.specs.Prelude.{◌≡◌, ◌++◌, OnOk};
ghost use Rattle.pm_model.specs.Spelling.{command_text};
ghost use Rattle.pm_model.specs.Text.{names_of};
ghost use Rattle.pm_module.specs.Rows.{quoted, return_text};

use pm_base::NoMemory;
use pm_linetext::{push, push_call, push_command};
use pm_model::{Command, Plan};

/// Appends a command as a text of C.
pub(crate) fn push_call_text(
    text: &mut Vec<u8>,
    plan: &Plan,
    command: &Command,
) -> Result<(), NoMemory>
    ensures { OnOk result
        (text.new.items ≡ text.old.items ++ quoted (command_text (names_of plan.now) command.now)) }
{
    push(text, b"\"")?;
    push_command(text, plan, command)?;
    push(text, b"\"")
}

/// Appends what a command's return is told with, as a text of C.
pub(crate) fn push_return_text(
    text: &mut Vec<u8>,
    plan: &Plan,
    command: &Command,
) -> Result<(), NoMemory>
    ensures { OnOk result
        (text.new.items ≡ text.old.items ++ quoted (return_text (names_of plan.now) command.now)) }
{
    push(text, b"\"")?;
    push_call(text, plan, command.helper, command.dev)?;
    push(text, b"\"")
}
