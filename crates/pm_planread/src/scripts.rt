//! The scripts of callers.

ghost use Rattle.std.specs.Prelude.{◌≡◌, ◌≤◌, true, None, length, map, option_map, IfErr, IfOk, OnOk};
ghost use Rattle.std.specs.List.{list_all};
ghost use Rattle.pm_base.specs.declared.limits.TheConstants.{MAX_CALLERS, MAX_DEVICES};
ghost use Rattle.pm_model.specs.IsPlan.{is_command};
ghost use Rattle.pm_names.specs.Table.{all_distinct};
ghost use Rattle.pm_planread.specs.tree.Places.{first_place, place};
ghost use Rattle.pm_planread.specs.declared.tree.place.Section.TheVariants.{Caller};
ghost use Rattle.pm_planread.specs.Faults.{IsScriptFault};
ghost use Rattle.pm_planread.specs.Scripts.{are_commands, bad_command, caller_row, commands_in, is_no_command, script_fault};

use crate::refusal::{PlanFault, PlanWhy, refused};
use crate::rows::names::copied;
use crate::tree::{Place, RawCaller, Section, Text};
use pm_model::{CallerList, CallerRow, Command, DeviceList, Items, NamedList};
use pm_names::Finder;
use pm_script::read_command_of;
use std::alloc::Global;

/// The callers of a plan, with their commands, each of which is read once; else the first command that
/// is refused.
pub fn caller_rows(
    alloc: Global,
    devices: &DeviceList,
    finder: &Finder,
    callers: &[RawCaller],
) -> Result<CallerList, PlanFault>
    requires devices { length devices.now ≤ MAX_DEVICES }
    requires distinct { all_distinct (map (λ row. row.name) devices.now) ≡ true }
    requires callers { length callers.now ≤ MAX_CALLERS }
    ensures rows { IfOk result (λ rows. rows ≡ map (caller_row (map (λ row. row.name) devices.now)) callers.now) }
    ensures valid { IfOk result (λ rows. list_all (are_commands (length devices.now)) rows ≡ true) }
    ensures none { OnOk result (script_fault (map (λ row. row.name) devices.now) callers.now ≡ None) }
    ensures fault { IfErr result (IsScriptFault (script_fault (map (λ row. row.name) devices.now) callers.now)) }
{
    let rows = callers_in(alloc, devices, finder, callers)?;
    Ok(NamedList::new(alloc, rows)?)
}

#[tactic(auto, unfolding(crate::specs::Scripts::script_fault))]
fn callers_in(
    alloc: Global,
    devices: &DeviceList,
    finder: &Finder,
    rows: &[RawCaller],
) -> Result<Vec<CallerRow>, PlanFault>
    requires few { length devices.now ≤ MAX_DEVICES }
    requires distinct { all_distinct (map (λ row. row.name) devices.now) ≡ true }
    ensures rows { IfOk result (λ v. v.items ≡ map (caller_row (map (λ row. row.name) devices.now)) rows.now) }
    ensures valid { IfOk result (λ v. list_all (are_commands (length devices.now)) v.items ≡ true) }
    ensures none { OnOk result (script_fault (map (λ row. row.name) devices.now) rows.now ≡ None) }
    ensures fault { IfErr result (IsScriptFault (script_fault (map (λ row. row.name) devices.now) rows.now)) }
{
    let mut made = Vec::with_capacity(alloc, rows.len())?;
    for (i, row) in rows.iter().enumerate() {
        made.push(caller_row(alloc, devices, finder, row, i)?)?;
    }
    Ok(made)
}

// The caller with this number.
fn caller_row(
    alloc: Global,
    devices: &DeviceList,
    finder: &Finder,
    row: &RawCaller,
    caller: usize,
) -> Result<CallerRow, PlanFault>
    requires few { length devices.now ≤ MAX_DEVICES }
    requires distinct { all_distinct (map (λ row. row.name) devices.now) ≡ true }
    ensures row { IfOk result (λ made. made ≡ caller_row (map (λ row. row.name) devices.now) row.now) }
    ensures valid { IfOk result (λ made. are_commands (length devices.now) made ≡ true) }
    ensures none { OnOk result (bad_command (map (λ row. row.name) devices.now) caller row.now ≡ None) }
    ensures fault { IfErr result (IsScriptFault (bad_command (map (λ row. row.name) devices.now) caller row.now)) }
{
    let script = commands_in(alloc, devices, finder, row.script.as_slice(), caller)?;
    Ok(CallerRow {
        name: copied(alloc, &row.name)?,
        script: Items::new(script),
    })
}

// The commands of a caller's script.
fn commands_in(
    alloc: Global,
    devices: &DeviceList,
    finder: &Finder,
    texts: &[Text],
    caller: usize,
) -> Result<Vec<Command>, PlanFault>
    requires few { length devices.now ≤ MAX_DEVICES }
    requires distinct { all_distinct (map (λ row. row.name) devices.now) ≡ true }
    ensures commands { IfOk result (λ v. v.items ≡ commands_in (map (λ row. row.name) devices.now) texts.now) }
    ensures valid { IfOk result (λ v. list_all (is_command (length devices.now)) v.items ≡ true) }
    ensures none { OnOk result (first_place (is_no_command (map (λ row. row.name) devices.now)) 0 texts.now ≡ None) }
    ensures fault { IfErr result (IsScriptFault (option_map (place Caller caller) (first_place (is_no_command (map (λ row. row.name) devices.now)) 0 texts.now))) }
{
    let mut commands = Vec::with_capacity(alloc, texts.len())?;
    for (i, text) in texts.iter().enumerate() {
        match read_command_of(text.as_slice(), devices, Some(finder)) {
            Ok(command) => commands.push(command)?,
            Err(_) => {
                let at = Place::new(Section::Caller, caller, i);
                return Err(refused(PlanWhy::Script, at));
            }
        }
    }
    Ok(commands)
}
