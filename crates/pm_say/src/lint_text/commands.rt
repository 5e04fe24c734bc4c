//! What is told of commands.

use crate::lint_text::names::{caller_name, device_name, domain_name, script};
use crate::lint_text::notes::At;
use crate::lints::{Move, moved};
use pm_base::{DevId, NoMemory};
use pm_messages::notes::{Note, element_path};
use pm_model::Plan;
use pm_planread::tree::Section;
use std::alloc::Global;

/// The device of a command.
fn device_at(plan: &Plan, at: At) -> DevId {
    match script(plan, at.caller).get(at.command) {
        Some(command) => command.dev,
        None => DevId(0),
    }
}

/// A note on a command.
fn on_command(alloc: Global, plan: &Plan, at: At, what: String) -> Result<Note<'static>, NoMemory> {
    let who = caller_name(plan, at.caller);
    let message = format!(in alloc; "caller {who:?}: {what}")?;
    let path = element_path(Section::Caller, at.caller, "script", at.command);
    Ok(Note::on_value(alloc, message, path))
}

/// The note on a delay of a device that doesn't go by it.
pub fn delay_note(alloc: Global, plan: &Plan, at: At) -> Result<Note<'static>, NoMemory> {
    let name = device_name(plan, device_at(plan, at).0 as usize);
    let what = format!(in alloc; "no script lets {name:?} go by its autosuspend delay")?;
    let hint = format!(in alloc; "write \"use_autosuspend {name}\" too")?;
    on_command(alloc, plan, at, what)?.with_hint(hint)
}

/// The note on an autosuspend of a device that has no delay.
pub fn put_note(alloc: Global, plan: &Plan, at: At) -> Result<Note<'static>, NoMemory> {
    let name = device_name(plan, device_at(plan, at).0 as usize);
    let what = format!(in alloc; "{name:?} has no autosuspend delay, and suspends at once")?;
    let hint = format!(in alloc;
        "write \"set_autosuspend_delay {name} N\" and \"use_autosuspend {name}\", or \"put {name}\" here"
    )?;
    on_command(alloc, plan, at, what)?.with_hint(hint)
}

/// The note on a device that is said to be active while its domain is off.
pub fn dark_note(alloc: Global, plan: &Plan, at: At) -> Result<Note<'static>, NoMemory> {
    let dev = device_at(plan, at);
    let (name, domain) = (device_name(plan, dev.0 as usize), domain_name(plan, dev));
    let what = format!(in alloc;
        "{name:?} is said to be active, and nothing before it switches its domain {domain:?} on"
    )?;
    let hint = format!(in alloc;
        "resume a device of the domain first, or write always_on = true in {domain:?}"
    )?;
    on_command(alloc, plan, at, what)?.with_hint(hint)
}

/// The note on a device that still uses autosuspend when it is disabled.
pub fn kept_note(alloc: Global, plan: &Plan, at: At) -> Result<Note<'static>, NoMemory> {
    let name = device_name(plan, device_at(plan, at).0 as usize);
    let what = format!(in alloc;
        "{name:?} is disabled, and no script says that it uses autosuspend no more"
    )?;
    let hint = format!(in alloc;
        "write \"dont_use_autosuspend {name}\" before it: that suspends {name:?} too, where nobody uses it"
    )?;
    on_command(alloc, plan, at, what)?.with_hint(hint)
}

/// The note on gets and puts that don't add up.
pub fn uneven_note(alloc: Global, plan: &Plan, at: At) -> Result<Note<'static>, NoMemory> {
    let dev = device_at(plan, at);
    let name = device_name(plan, dev.0 as usize);
    let commands = script(plan, at.caller);
    let least = moved(commands, dev, Move::Raises);
    let may = moved(commands, dev, Move::MayRaise);
    let puts = moved(commands, dev, Move::Lowers);
    let what = if may == 0 {
        format!(in alloc; "gets of {name:?}: {least}, puts: {puts}")?
    } else {
        let most = least.saturating_add(may);
        format!(in alloc; "gets of {name:?}: {least} to {most}, puts: {puts}")?
    };
    let hint = format!(in alloc; "this is the last of them in the script")?;
    on_command(alloc, plan, at, what)?.with_hint(hint)
}
