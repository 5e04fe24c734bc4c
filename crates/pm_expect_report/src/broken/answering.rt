//! Whether a snapshot breaks an answer.

ghost use Rattle.std.specs.Prelude.{◌≡◌, ◌≤◌, length, take};
ghost use Rattle.pm_expect_report.specs.broken.Breaches.{is_command_at, is_meant, is_meant_in, is_nth, other_code, script_of};
ghost use Rattle.pm_expect.specs.Same.{times_of};
ghost use Rattle.pm_explore.specs.state.SnapshotOf.{snapshot_of};

use pm_expect::{Answer, Which, is_same_command};
use pm_explore::state::Snapshot;
use pm_model::{Command, Plan};
use pm_outcomes::list::Returned;
use pm_outcomes::observe::shown_return;

/// The script of a caller.
pub fn script_of(plan: &Plan, caller: u32) -> &[Command]
    ensures { result.now ≡ script_of plan.now caller }
{
    match plan.callers.get(caller as usize) {
        Some(row) => row.script.as_slice(),
        None => &[],
    }
}

/// Whether the command of this number of a script, from 1, is this one.
pub fn is_command_at(command: &Command, script: &[Command], number: u32) -> bool
    ensures { result ≡ is_command_at command.now script.now number }
{
    match script.get((number as usize).saturating_sub(1)) {
        Some(other) => is_same_command(command, other),
        None => false,
    }
}

// How often a script has a command.
fn times_of(command: &Command, script: &[Command]) -> usize
    ensures times { result ≡ times_of command.now script.now }
{
    script
        .iter()
        .filter(|other| is_same_command(command, other))
        .count()
}

// The first commands of a script, as many as are asked for.
fn first_of(script: &[Command], count: usize) -> &[Command]
    ensures { result.now ≡ take count script.now }
{
    if count >= script.len() {
        script
    } else {
        script.split_at(count).0
    }
}

// Whether so many calls of a command are as many as an answer counts.
fn is_nth(which: Which, times: usize) -> bool
    ensures { result ≡ is_nth which times }
{
    match which {
        Which::Each => true,
        Which::Nth(n) => times == n as usize,
    }
}

// Whether an answer means the call of this number of a script.
fn is_meant_in(script: &[Command], answer: &Answer, number: u32) -> bool
    ensures { result ≡ is_meant_in script.now answer.now number }
{
    is_command_at(&answer.command, script, number)
        && is_nth(
            answer.which,
            times_of(&answer.command, first_of(script, number as usize)),
        )
}

// Whether an answer means a return.
fn is_meant(plan: &Plan, answer: &Answer, returned: &Returned) -> bool
    ensures { result ≡ is_meant plan.now answer.now returned.now }
{
    returned.caller == answer.caller
        && is_meant_in(script_of(plan, answer.caller), answer, returned.command)
}

/// The code of the call that returned at a snapshot, where the answer means it and expects another.
pub fn other_code(plan: &Plan, answer: &Answer, snapshot: &Snapshot) -> Option<i32>
    ensures { result ≡ other_code plan.now answer.now (snapshot_of snapshot.now) }
{
    let returned = shown_return(snapshot)?;
    if is_meant(plan, answer, &returned) && returned.code != answer.code {
        Some(returned.code)
    } else {
        None
    }
}
