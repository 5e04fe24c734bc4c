//! What the callers of a run called.

ghost use Rattle.std.specs.Prelude.{◌≡◌, IfOk, reverse};
ghost use Rattle.std.specs.List.{filter_map};
ghost use Rattle.pm_driver_runs.specs.Collected.{called_in, scripts_in};

use pm_base::ActorId;
use pm_model::{Command, Event, Line};
use std::alloc::{AllocError, Global};

// The command that a caller calls by a line.
fn called_in(caller: u32, line: &Line) -> Option<Command>
    ensures { result ≡ called_in caller line.now.actor line.now.event }
{
    let ActorId::Caller(by) = line.actor else {
        return None;
    };
    match line.event {
        Event::Call { command } if by == caller => Some(command),
        _ => None,
    }
}

// What a caller called, in order.
fn calls_in(alloc: Global, caller: u32, lines: &[Line]) -> Result<Vec<Command>, AllocError>
    ensures { IfOk result (λ calls. calls.items ≡ filter_map (λ line. called_in caller line.actor line.event) lines.now) }
{
    lines
        .iter()
        .filter_map(|line| called_in(caller, line))
        .collect(alloc)
}

/// What a caller called, in order. Fails where memory runs out.
#[tactic(auto, using(crate::proofs::OneRun::kept_in_order))]
pub fn script_of(alloc: Global, caller: u32, lines: &[Line]) -> Result<Vec<Command>, AllocError>
    ensures { IfOk result (λ script. script.items ≡ scripts_in (reverse lines.now) caller) }
{
    calls_in(alloc, caller, lines)
}
