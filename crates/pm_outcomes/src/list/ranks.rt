//! The order of the text.

ghost use Rattle.std.specs.Prelude.{◌≡◌};
ghost use Rattle.pm_outcomes.specs.list.Order.{status_rank};
ghost use Rattle.pm_outcomes.specs.list.Ranks.{rank_of};

use crate::list::observations::{Observation, Outcome};
use pm_base::Status;

/// What decides where an outcome stands: returns come first, by their callers and commands, and then devices; those
/// of one command or device by their rounds, and then by what they tell.
#[derive(Clone, Copy, PartialEq, Eq, PartialOrd, Ord)]
pub enum Rank {
    Return {
        caller: u32,
        command: u32,
        round: usize,
        code: i32,
    },
    End {
        device: u32,
        round: usize,
        status: u8,
        usage: u32,
        error: i32,
    },
}

fn status_rank(status: Status) -> u8
    ensures { result ≡ status_rank status }
{
    match status {
        Status::Active => 0,
        Status::Suspended => 1,
        Status::Suspending => 2,
        Status::Resuming => 3,
    }
}

/// The rank of an outcome.
pub fn rank_of(outcome: &Outcome) -> Rank
    ensures { result ≡ rank_of outcome.now }
{
    match outcome.observation {
        Observation::Return(returned) => Rank::Return {
            caller: returned.caller,
            command: returned.command,
            round: outcome.round,
            code: returned.code,
        },
        Observation::End(left) => Rank::End {
            device: left.device.0,
            round: outcome.round,
            status: status_rank(left.status),
            usage: left.usage,
            error: left.error,
        },
    }
}
