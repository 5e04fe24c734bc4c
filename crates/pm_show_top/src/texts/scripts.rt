//! Cases of `pm_script`: commands over the devices a, b, delay and on.

use crate::texts::plans::WORDS;
use crate::texts::told::{Case, Told};
use pm_base::DevId;
use pm_model::{Command, Helper, Plan};
use pm_planread::{PlanFault, read_plan};
use pm_script::{ScriptFault, read_command, read_command_of};
use std::alloc::Global;

pub fn cases(alloc: Global) -> Result<Vec<Case>, PlanFault> {
    let plan = read_plan(alloc, WORDS)?;
    let cases = [
        ("commands are read", are_read(&plan)),
        ("other commands are refused", are_refused(&plan)),
    ];
    Ok(Vec::from_slice(alloc, &cases)?)
}

/// Each command is read over a plan and over its devices.
fn are_read(plan: &Plan) -> Told {
    let mut told = Told::All(0);
    for (text, helper, dev, number) in &READ {
        let wanted = Ok(Command {
            helper: *helper,
            dev: DevId(*dev),
            number: *number,
        });
        let is_read = read_command(*text, plan) == wanted;
        told.note(is_read && read_command_of(*text, &plan.devices, None) == wanted);
    }
    told
}

fn are_refused(plan: &Plan) -> Told {
    let mut told = Told::All(0);
    for (text, fault) in &REFUSED {
        told.note(read_command(*text, plan) == Err(*fault));
    }
    told
}

/// A text, and the helper, device and number of its command.
type Read = (&'static [u8], Helper, u32, i64);

static READ: [Read; 16] = [
    (b"get_sync a", Helper::GetSync, 0, 0),
    (b"  enable   on  ", Helper::Enable, 3, 0),
    (b"delay 1000000", Helper::Delay, 0, 1_000_000),
    (b"delay 0000000001", Helper::Delay, 0, 1),
    (b"delay -0", Helper::Delay, 0, 0),
    (b"schedule_suspend a 5", Helper::ScheduleSuspend, 0, 5),
    (
        b"set_autosuspend_delay on -1000000",
        Helper::SetAutosuspendDelay,
        3,
        -1_000_000,
    ),
    (
        b"set_autosuspend_delay a -01000000",
        Helper::SetAutosuspendDelay,
        0,
        -1_000_000,
    ),
    (
        b"set_autosuspend_delay b 1000000",
        Helper::SetAutosuspendDelay,
        1,
        1_000_000,
    ),
    (b"ignore_children on on", Helper::IgnoreChildren, 3, 1),
    (b"ignore_children a off", Helper::IgnoreChildren, 0, 0),
    (b"link_add b a", Helper::LinkAdd, 1, 0),
    (b"link_add a b", Helper::LinkAdd, 0, 1),
    (b"link_del on on", Helper::LinkDel, 3, 3),
    (b"get delay", Helper::Get, 2, 0),
    (b"request_autosuspend a", Helper::RequestAutosuspend, 0, 0),
];

static REFUSED: [(&[u8], ScriptFault); 33] = [
    (b"", ScriptFault::Word),
    (b"  ", ScriptFault::Word),
    (b"nothing a", ScriptFault::Word),
    (b"GET a", ScriptFault::Word),
    (b"\tdelay 1", ScriptFault::Word),
    (b"get\0 a", ScriptFault::Word),
    (b"nothing", ScriptFault::Word),
    (b"get", ScriptFault::Device),
    (b"get ", ScriptFault::Device),
    (b"get nowhere", ScriptFault::Device),
    (b"get del", ScriptFault::Device),
    (b"get aa b c", ScriptFault::Device),
    (b"schedule_suspend nowhere x", ScriptFault::Device),
    (b"link_add a", ScriptFault::Device),
    (b"link_add a nowhere b", ScriptFault::Device),
    (b"link_del nowhere a", ScriptFault::Device),
    (b"delay", ScriptFault::Number),
    (b"delay x", ScriptFault::Number),
    (b"delay -1", ScriptFault::Number),
    (b"delay 1000001 2", ScriptFault::Number),
    (b"delay 01234567890", ScriptFault::Number),
    (b"delay 00000000001", ScriptFault::Number),
    (b"delay +1", ScriptFault::Number),
    (b"delay 1\t", ScriptFault::Number),
    (b"delay -", ScriptFault::Number),
    (b"delay --1", ScriptFault::Number),
    (b"set_autosuspend_delay a -1000001", ScriptFault::Number),
    (b"schedule_suspend a -1", ScriptFault::Number),
    (b"ignore_children a", ScriptFault::Number),
    (b"ignore_children a ON", ScriptFault::Number),
    (b"delay 1 2", ScriptFault::Extra),
    (b"get_sync on on", ScriptFault::Extra),
    (b"link_del a a 1", ScriptFault::Extra),
];
