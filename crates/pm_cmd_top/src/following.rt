//! Traces of whose lines something is kept, and not the lines.

ghost use Rattle.std.specs.Prelude.{◌≡◌, [], List, ℕ, IfErr, IfOk, IsErrOf};
ghost use Rattle.pm_audit.specs.Auditing.{AuditorStandsFor, IsWhole};
ghost use Rattle.pm_audit.specs.Following.{FollowerStandsFor};
ghost use Rattle.pm_io.specs.Faults.{Rose};
ghost use Rattle.pm_cmd_top.specs.Following.{IsFollowed};
ghost use Rattle.pm_cmd_top.specs.Traces.{IsNoBook, IsUnloaded};

use crate::feeding::feed_trace;
use pm_audit::{Auditor, BadLine, Follower};
use pm_cmd_ends::Fault;
use pm_io::Files;
use pm_model::Plan;
use pm_model::keeper::Keeper;
use std::alloc::Global;

/// Reads the trace from its file, to its end, and has of its lines what the keeper keeps. All memory but the keeper's
/// is taken before the file is started.
pub(crate) fn follow_trace<F: Files, K: Keeper>(
    alloc: Global,
    plan: Plan,
    trace: &str,
    files: &mut F,
    keeper: K,
) -> Result<Follower<K>, Fault>
    requires { K.Keeps keeper [] }
    ensures plan { IfOk result (λ follower. follower.judge.plan ≡ plan) }
    ensures same { IfOk result (λ follower. K.subject follower.keeper ≡ K.subject keeper) }
    ensures followed { IfOk result
        (λ follower. IsFollowed K.Keeps F.tells_all (F.told files.old trace.now) plan follower.judge follower.keeper) }
    ensures unloaded { IfErr result (IsUnloaded F.tells_all (F.told files.old trace.now) plan
        (Rose (F.faults files.old) (F.faults files.new))) }
    ensures calm { ¬ IsErrOf result Fault.ReadFailed → F.faults files.new ≡ F.faults files.old }
{
    let Ok(mut auditor) = Auditor::following(alloc, plan, keeper) else {
        return Err(Fault::NoMemory);
    };
    match feed_trace(alloc, files, trace, &mut auditor) {
        Ok(()) => follower_of(auditor),
        Err(fault) => Err(fault),
    }
}

/// What followed the lines whose text the bytes are that the auditor was fed.
fn follower_of<K: Keeper>(auditor: Auditor<Follower<K>>) -> Result<Follower<K>, Fault>
    ensures plan { IfOk result (λ follower. follower.judge.plan ≡ auditor.reader.judge.plan) }
    ensures same { IfOk result (λ follower. K.subject follower.keeper ≡ auditor.reader.subject) }
    ensures whole { IfOk result (λ follower. (b : List ℕ) → AuditorStandsFor (FollowerStandsFor K.Keeps) auditor b
        → IsWhole auditor.reader.judge.plan (FollowerStandsFor K.Keeps follower) b) }
    ensures refused { IfErr result (λ fault. (b : List ℕ) → AuditorStandsFor (FollowerStandsFor K.Keeps) auditor b
        → IsNoBook auditor.reader.judge.plan b fault) }
{
    match auditor.taken() {
        Ok(follower) => Ok(follower),
        Err(BadLine { line, why }) => Err(Fault::NotLawful { line, why }),
    }
}
