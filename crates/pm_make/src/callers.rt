//! The callers and their scripts.

ghost use Rattle.std.specs.Prelude.{◌≡◌, ◌<◌, ◌++◌, IfOk, OnOk};
ghost use Rattle.pm_make.specs.Draws.{in_turn};
ghost use Rattle.pm_make.specs.Generator.{caller, caller_step, command, enables, round, round_step};

use crate::draws::Draws;
use crate::rows::name;
use pm_base::{DevId, NoMemory};
use pm_model::{CallerRow, Command, Helper, Items};
use std::alloc::Global;

fn command(helper: Helper, dev: u32, number: u32) -> Command
    ensures { result ≡ command helper dev number }
{
    Command {
        helper,
        dev: DevId(dev),
        number: i64::from(number),
    }
}

#[tactic(auto, using(crate::proofs::Scripts::enables_more, crate::proofs::Scripts::enables_same))]
fn enables(alloc: Global, devices: u32, place: u32) -> Result<Vec<Command>, NoMemory>
    ensures { IfOk result (λ made. made.items ≡ enables devices place) }
{
    let mut commands = Vec::new(alloc);
    for dev in 0..devices {
        if dev % 4 == place {
            commands.push(command(Helper::Enable, dev, 0))?;
        }
    }
    Ok(commands)
}

#[tactic(auto, unfolding(crate::specs::Generator::round))]
fn push_round(commands: &mut Vec<Command>, draws: &mut Draws, devices: u32) -> Result<(), NoMemory>
    requires { 0 < devices }
    ensures item { OnOk result (commands.new.items ≡ commands.old.items ++ (round devices draws.old.state).item) }
    ensures state { OnOk result (draws.new.state ≡ (round devices draws.old.state).state) }
{
    let dev = draws.below(devices);
    let ms = draws.below(10) + 1;
    commands.push(command(Helper::GetSync, dev, 0))?;
    commands.push(command(Helper::Delay, 0, ms))?;
    commands.push(command(Helper::Put, dev, 0))?;
    Ok(())
}

#[tactic(auto, using(crate::proofs::InTurn::behind_more, crate::proofs::InTurn::state_more))]
fn push_rounds(commands: &mut Vec<Command>, draws: &mut Draws, devices: u32) -> Result<(), NoMemory>
    requires { 0 < devices }
    ensures item { OnOk result (commands.new.items ≡ commands.old.items ++ (in_turn (round_step devices) 50 draws.old.state).item) }
    ensures state { OnOk result (draws.new.state ≡ (in_turn (round_step devices) 50 draws.old.state).state) }
{
    for _round in 0..50_u32 {
        push_round(commands, draws, devices)?;
    }
    Ok(())
}

#[tactic(auto, unfolding(crate::specs::Generator::caller))]
fn caller(alloc: Global, draws: &mut Draws, devices: u32, place: u32) -> Result<CallerRow, NoMemory>
    requires { 0 < devices }
    ensures item { IfOk result (λ row. row ≡ (caller devices place draws.old.state).item) }
    ensures state { OnOk result (draws.new.state ≡ (caller devices place draws.old.state).state) }
{
    let mut script = enables(alloc, devices, place)?;
    push_rounds(&mut script, draws, devices)?;
    Ok(CallerRow {
        name: name(alloc, "c", place)?,
        script: Items::new(script),
    })
}

/// The four callers.
#[tactic(auto, using(crate::proofs::InTurn::item_more, crate::proofs::InTurn::state_more))]
pub fn caller_rows(
    alloc: Global,
    draws: &mut Draws,
    devices: u32,
) -> Result<Vec<CallerRow>, NoMemory>
    requires { 0 < devices }
    ensures item { IfOk result (λ rows. rows.items ≡ (in_turn (caller_step devices) 4 draws.old.state).item) }
    ensures state { OnOk result (draws.new.state ≡ (in_turn (caller_step devices) 4 draws.old.state).state) }
{
    let mut rows = Vec::new(alloc);
    for place in 0..4 {
        rows.push(caller(alloc, draws, devices, place)?)?;
    }
    Ok(rows)
}
