//! The calls that lead to what is reported. No clause says which.

ghost use Rattle.std.specs.Prelude.{◌<◌, length};

use crate::follows::pass_of;
use crate::lines::{DriverLine, program_place, step_at};
use crate::passes::DriverPass;
use pm_base::{ActorId, NoMemory};
use pm_driver_read::Driver;
use pm_driver_rules::DriverNode;
use pm_explore::search::{Tree, path_back};
use pm_find::text::push_code;
use pm_linetext::{push, push_caller, push_command};
use pm_messages::notes::{list, list_under};
use pm_model::Helper;
use pm_planread::tree::Section;
use std::alloc::Global;
use toml::Table;

/// Calls that are told, at most: the last ones.
const MOST_CALLS: usize = 16;

/// A call that has returned.
#[derive(Clone, Copy)]
struct Return {
    caller: u32,
    place: usize,
    code: i32,
}

// The call that returned with the last line of a node, if one did.
fn return_of(node: &DriverNode) -> Option<Return> {
    let Some(ActorId::Caller(caller)) = node.snapshot.last else {
        return None;
    };
    let code = node.snapshot.code?;
    let place = node.returned? as usize;
    Some(Return {
        caller,
        place,
        code,
    })
}

// Whether a call is told: all but the waits that the driver core makes.
fn is_shown(driver: &Driver, call: Return) -> bool {
    match program_place(driver, call.caller, call.place) {
        Some(place) => {
            !matches!(place.command.helper, Helper::Delay)
                || step_at(driver, call.caller, call.place).is_some()
        }
        None => false,
    }
}

// The calls that returned on the way to a place, the last first.
fn returns_back(
    alloc: Global,
    driver: &Driver,
    tree: &Tree<DriverNode>,
    place: usize,
) -> Result<Vec<Return>, NoMemory> {
    let mut returns = Vec::new(alloc);
    if place >= tree.parents.len() {
        return Ok(returns);
    }
    let path = path_back(alloc, tree.parents.as_slice(), place)?;
    for at in path.as_slice() {
        if let Some(node) = tree.nodes.get_index(*at) {
            if let Some(call) = return_of(node) {
                if is_shown(driver, call) {
                    returns.push(call)?;
                }
            }
        }
    }
    Ok(returns)
}

// The step of a caller's script in the tree of its file.
fn step_text(tree: &Table, caller: usize, step: usize) -> Option<&str> {
    let table = list(tree, Section::Caller).get(caller)?.as_table()?;
    list_under(table, "script").get(step)?.as_str()
}

// Appends a step of the driver's own as it stands in the file: the plan has but a delay for it.
fn push_own(
    text: &mut Vec<u8>,
    driver: &Driver,
    tree: &Table,
    call: Return,
) -> Result<(), NoMemory> {
    let step = step_at(driver, call.caller, call.place).unwrap_or(u32::MAX);
    let words = step_text(tree, call.caller as usize, step as usize).unwrap_or("");
    push(text, words.as_bytes())
}

// Appends a call that has returned.
fn push_return(
    text: &mut Vec<u8>,
    driver: &Driver,
    tree: &Table,
    call: Return,
) -> Result<(), NoMemory> {
    push_caller(text, &driver.plan, call.caller)?;
    push(text, b" ")?;
    let Some(place) = program_place(driver, call.caller, call.place) else {
        return Ok(());
    };
    if let Helper::Delay = place.command.helper {
        return push_own(text, driver, tree, call);
    }
    push_command(text, &driver.plan, &place.command)?;
    push(text, b" ")?;
    push_code(text, call.code)
}

// Appends calls, the last of which stands first.
fn push_returns(
    text: &mut Vec<u8>,
    driver: &Driver,
    tree: &Table,
    returns: &[Return],
) -> Result<(), NoMemory> {
    if returns.len() > MOST_CALLS {
        push(text, b".., ")?;
    }
    let mut is_first = true;
    for call in returns.iter().take(MOST_CALLS).rev() {
        if !is_first {
            push(text, b", ")?;
        }
        is_first = false;
        push_return(text, driver, tree, *call)?;
    }
    Ok(())
}

/// The calls that returned on the way to what is reported: `calls: probe enable hi846 0, probe do register, ..`.
pub fn way_of(
    alloc: Global,
    driver: &Driver,
    tree: &Table,
    passes: &[DriverPass],
    line: &DriverLine,
) -> Result<Vec<u8>, NoMemory> {
    let mut text = Vec::new(alloc);
    push(&mut text, b"calls: ")?;
    if let Some(pass) = pass_of(passes, line.pace, line.allowed) {
        let returns = returns_back(alloc, driver, &pass.all.found.tree, line.place)?;
        push_returns(&mut text, driver, tree, returns.as_slice())?;
    }
    Ok(text)
}
