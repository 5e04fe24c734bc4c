//! The note on a warning.

use crate::lint_text::commands::{dark_note, delay_note, kept_note, put_note, uneven_note};
use crate::lint_text::names::script;
use crate::lint_text::rows::{disabled_note, empty_note, later_note, needless_note};
use crate::lints::Warning;
use pm_base::NoMemory;
use pm_messages::notes::Note;
use pm_model::{Helper, Plan};
use std::alloc::Global;

/// A command of a script, by its place.
#[derive(Clone, Copy)]
pub struct At {
    pub caller: usize,
    pub command: usize,
}

/// The note on a warning. Fails where memory runs out.
pub fn note_of(alloc: Global, plan: &Plan, warning: Warning) -> Result<Note<'static>, NoMemory> {
    match warning {
        Warning::NeverEnabled { device } => disabled_note(alloc, plan, device),
        Warning::NotNeeded { device } => needless_note(alloc, plan, device),
        Warning::NeverAdded { link } => later_note(alloc, plan, link),
        Warning::NoCommands { caller } => empty_note(alloc, plan, caller),
        Warning::NoAutosuspend { caller, command } => autosuspend_note(
            alloc,
            plan,
            At { caller, command },
        ),
        Warning::DomainOff { caller, command } => dark_note(alloc, plan, At { caller, command }),
        Warning::Uneven { caller, command } => uneven_note(alloc, plan, At { caller, command }),
        Warning::KeepsAutosuspend { caller, command } => kept_note(
            alloc,
            plan,
            At { caller, command },
        ),
    }
}

fn autosuspend_note(alloc: Global, plan: &Plan, at: At) -> Result<Note<'static>, NoMemory> {
    match script(plan, at.caller).get(at.command) {
        Some(command) if command.helper == Helper::SetAutosuspendDelay => delay_note(
            alloc, plan, at,
        ),
        _ => put_note(alloc, plan, at),
    }
}
