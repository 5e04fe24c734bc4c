//! The refusals of commands.

ghost use Rattle.std.specs.Prelude.{◌≡◌, ◌≤◌, IfOk, length, vec_len};

use crate::further::found::Found;
use pm_base::{MAX_CALLERS, MAX_COMMANDS, MAX_DEVICES, NoMemory};
use pm_messages::notes::{list, list_under, name_of};
use pm_model::{DeviceList, DeviceRow, Items, NamedList};
use pm_planread::PlanWhy;
use pm_planread::tree::Section;
use pm_script::{ScriptFault, read_command_of};
use std::alloc::Global;
use toml::{Table, Value};

/// The devices that commands may name.
#[derive(Drop)]
pub struct Devices {
    list: DeviceList,
    /// Whether it is known what they are called.
    are_known: bool,
    ghost few: { length list ≤ 1024 },
}

impl Devices {
    /// The devices of a tree, and none where there are more than a plan has. Fails where memory runs out.
    pub fn new(alloc: Global, tree: &Table, are_known: bool) -> Result<Option<Devices>, NoMemory> {
        let rows = list(tree, Section::Device);
        if rows.len() > MAX_DEVICES {
            return Ok(None);
        }
        let list = NamedList::new(alloc, named_rows(alloc, rows)?)?;
        Ok(Some(Devices { list, are_known }))
    }

    /// Whether a command is refused, and not for a device where their names aren't known.
    fn refuse(&self, command: &str) -> bool {
        match read_command_of(command.as_bytes(), &self.list, None) {
            Ok(_) => false,
            Err(ScriptFault::Device) => self.are_known,
            Err(_) => true,
        }
    }
}

/// Rows of the names, and of nothing else that items say.
fn named_rows(alloc: Global, items: &[Value]) -> Result<Vec<DeviceRow>, NoMemory>
    ensures { IfOk result (λ rows. vec_len rows ≡ length items.now) }
{
    let mut rows = Vec::with_capacity(alloc, items.len())?;
    for item in items {
        rows.push(named_row(alloc, name_of(item))?)?;
    }
    Ok(rows)
}

fn named_row(alloc: Global, name: &str) -> Result<DeviceRow, NoMemory> {
    Ok(DeviceRow {
        name: Items::new(Vec::from_slice(alloc, name.as_bytes())?),
        parent: None,
        domain: None,
        ignore_children: false,
        no_callbacks: false,
        busy: false,
        idle: None,
        suspend: Items::new(Vec::new(alloc)),
        resume: Items::new(Vec::new(alloc)),
        idle_ms: 0,
        suspend_ms: 0,
        resume_ms: 0,
    })
}

/// The refusals of the commands of callers, of which no more are looked at than a plan has.
pub fn look_at_scripts(
    devices: &Devices,
    callers: &[Value],
    found: &mut Found,
) -> Result<(), NoMemory> {
    for (item, caller) in callers.iter().take(MAX_CALLERS).enumerate() {
        if let Some(table) = caller.as_table() {
            look_at_script(devices, item, list_under(table, "script"), found)?;
        }
    }
    Ok(())
}

/// The refusals of the commands of a caller, each looked at by itself.
fn look_at_script(
    devices: &Devices,
    item: usize,
    script: &[Value],
    found: &mut Found,
) -> Result<(), NoMemory> {
    for (part, command) in script.iter().take(MAX_COMMANDS).enumerate() {
        if let Some(command) = command.as_str() {
            if devices.refuse(command) {
                found.keep(PlanWhy::Script, item, part)?;
            }
        }
    }
    Ok(())
}
