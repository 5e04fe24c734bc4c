//! The program of a plan's script, which runs straight on.

ghost use Rattle.std.specs.Prelude.{◌≡◌, ◌<◌, ◌^◌, IfOk, length};
ghost use Rattle.pm_driver_read.specs.Straight.{no_past, straight, straight_from, straight_lines, straight_place};

use crate::reading::LocatedProgram;
use pm_base::NoMemory;
use pm_driver_script::{Goal, Guard, Past, Program, ProgramPlace, Standing};
use pm_model::{Command, Items};
use std::alloc::Global;

/// A caller that has come to nothing yet.
fn no_past() -> Past
    ensures { result ≡ no_past }
{
    Past {
        marks: 0,
        locks: 0,
        stopped: 0,
    }
}

/// The place of a command of this number.
fn straight_place(alloc: Global, number: u32, command: Command) -> Result<ProgramPlace, NoMemory>
    requires { number < 2 ^ 31 }
    ensures { IfOk result (λ place. place ≡ straight_place number command) }
{
    let mut otherwise = Vec::new(alloc);
    otherwise.push(number + 1)?;
    Ok(ProgramPlace {
        standing: Standing {
            turn: 0,
            goal: Goal::At {
                step: number,
                part: 0,
            },
            past: no_past(),
        },
        command,
        asks: None,
        guard: Guard::Open,
        touches: None,
        reads: false,
        exits: Items::new(Vec::new(alloc)),
        otherwise: Items::new(otherwise),
    })
}

/// The places of commands.
fn straight_places(alloc: Global, commands: &[Command]) -> Result<Vec<ProgramPlace>, NoMemory>
    requires { length commands.now < 2 ^ 31 }
    ensures { IfOk result (λ places. places.items ≡ straight_from 0 commands.now) }
{
    let mut places = Vec::with_capacity(alloc, commands.len())?;
    for (number, command) in commands.iter().enumerate() {
        places.push(straight_place(alloc, number as u32, *command)?)?;
    }
    Ok(places)
}

/// The steps of a script that its steps are of: each its own.
#[tactic(auto, using(crate::proofs::LineLemmas::own_more))]
pub(crate) fn straight_lines(alloc: Global, count: usize) -> Result<Vec<Option<u32>>, NoMemory>
    requires { count < 2 ^ 31 }
    ensures { IfOk result (λ lines. lines.items ≡ straight_lines count) }
{
    let mut lines = Vec::with_capacity(alloc, count)?;
    for step in 0..count {
        lines.push(Some(step as u32))?;
    }
    Ok(lines)
}

/// The program of commands, one after the other.
pub(crate) fn straight(alloc: Global, commands: &[Command]) -> Result<LocatedProgram, NoMemory>
    requires { length commands.now < 2 ^ 31 }
    ensures { IfOk result (λ made. made ≡ straight commands.now) }
{
    let mut ends = Vec::new(alloc);
    ends.push(Standing {
        turn: 0,
        goal: Goal::Returned,
        past: no_past(),
    })?;
    Ok(LocatedProgram {
        program: Program {
            places: Items::new(straight_places(alloc, commands)?),
            ends: Items::new(ends),
        },
        lines: Items::new(straight_lines(alloc, commands.len())?),
    })
}
