//! What a caller's return shows.

ghost use Rattle.std.specs.Prelude.{◌≡◌};
ghost use Rattle.pm_model.specs.World.{called_by};
ghost use Rattle.pm_explore.specs.state.SnapshotOf.{snapshot_of};
ghost use Rattle.pm_outcomes.specs.observe.Shows.{return_at};

use crate::list::Returned;
use pm_base::ActorId;
use pm_explore::state::Snapshot;

/// What a snapshot shows of a caller's return, where the last line is one.
pub fn shown_return(snapshot: &Snapshot) -> Option<Returned>
    ensures { result ≡ return_at (snapshot_of snapshot.now) }
{
    let Some(ActorId::Caller(caller)) = snapshot.last else {
        return None;
    };
    let code = snapshot.code?;
    let command = command_of(snapshot, caller);
    Some(Returned {
        caller,
        command,
        code,
    })
}

// How many commands a caller has called.
fn command_of(snapshot: &Snapshot, caller: u32) -> u32
    ensures { result ≡ called_by (snapshot_of snapshot.now).world caller }
{
    let caller = caller as usize;
    if caller < snapshot.called.len() {
        snapshot.called[caller]
    } else {
        0
    }
}
