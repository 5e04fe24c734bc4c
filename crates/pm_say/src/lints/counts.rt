//! Gets and puts of a script.

ghost use Rattle.std.specs.Prelude.{◌≡◌, ◌<◌, ◌≤◌, length};
ghost use Rattle.std.specs.List.{list_any};
ghost use Rattle.pm_say.specs.lints.Commands.{adds_up, is_move_of, is_uneven, moved, moves_of};

use crate::lints::helpers::{Move, is_move, moves};
use pm_base::DevId;
use pm_model::Command;

/// Whether a command, at its place in the script, is the last get or put of a device of which there
/// are more gets than puts, or fewer.
pub(crate) fn is_uneven(script: &[Command], place: usize, command: &Command) -> bool
    requires { place < length script.now }
    ensures { result ≡ is_uneven script.now place command.now }
{
    is_move(command.helper)
        && !has_move(&script[place + 1..], command.dev)
        && !adds_up(script, command.dev)
}

fn has_move(script: &[Command], dev: DevId) -> bool
    ensures { result ≡ list_any (is_move_of dev) script.now }
{
    script.iter().any(|command| is_move_of(dev, command))
}

fn is_move_of(dev: DevId, command: &Command) -> bool
    ensures { result ≡ is_move_of dev command.now }
{
    command.dev.0 == dev.0 && is_move(command.helper)
}

fn moves_of(dev: DevId, to: Move, command: &Command) -> bool
    ensures { result ≡ moves_of dev to command.now }
{
    command.dev.0 == dev.0 && moves(to, command.helper)
}

/// How many commands of a script move the usage count of a device so.
pub fn moved(script: &[Command], dev: DevId, to: Move) -> usize
    ensures value { result ≡ moved script.now dev to }
    ensures within { result ≤ length script.now }
{
    script
        .iter()
        .filter(|command| moves_of(dev, to, *command))
        .count()
}

fn adds_up(script: &[Command], dev: DevId) -> bool
    ensures { result ≡ adds_up script.now dev }
{
    let raised = moved(script, dev, Move::Raises);
    let lowered = moved(script, dev, Move::Lowers);
    raised <= lowered && lowered - raised <= moved(script, dev, Move::MayRaise)
}
