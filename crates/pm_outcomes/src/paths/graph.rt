//! The graph of the snapshots of a plan.

ghost use Rattle.std.specs.Prelude.{◌≡◌, map};
ghost use Rattle.pm_explore.specs.schedule.Snapshots.{Follows, all_actors, start_snapshot};
ghost use Rattle.pm_explore.specs.schedule.Snapshots.{Snapshot as Where};
ghost use Rattle.pm_explore.specs.state.SnapshotOf.{snapshot_of};
ghost use Rattle.pm_outcomes.specs.paths.Found.{IsTooFar};
ghost use Rattle.pm_outcomes.specs.paths.Runs.{IsRunOf};

use crate::paths::next::next_snapshots;
use crate::paths::run::Run;
use pm_base::{ActorId, NoMemory};
use pm_explore::schedule::Pace;
use pm_explore::search::{Graph, Stop, Tree, steps_to};
use pm_explore::state::Snapshot;
use pm_model::Plan;
use std::alloc::Global;

/// The snapshots of a plan, each followed by those to which the lines of a pace lead.
#[derive(Drop)]
pub struct PaceGraph<'a> {
    pub plan: &'a Plan,
    pub pace: Pace,
    /// All actors of the plan.
    pub actors: &'a [ActorId],
    ghost all: { actors.now ≡ all_actors plan.now },
}

impl Graph<Snapshot> for PaceGraph<'_> {
    type Scratch = Run;

    ghost use Rattle.pm_explore.proofs.state.SnapshotAlike.{same_if, same_then};

    ghost Point = { Where };

    ghost point = { λ g n. snapshot_of n };

    ghost start = { λ g. start_snapshot g.plan.now };

    ghost Follows = { λ g. Follows g.pace g.plan.now };

    ghost IsTooFar = { λ g points parents at. IsTooFar g.plan.now parents at };

    ghost IsReady = { λ g run. IsRunOf g.plan.now run };

    #[tactic(auto, using(crate::proofs::paths::NodeLemmas::too_far))]
    fn successors(
        &self,
        alloc: Global,
        run: &mut Run,
        tree: &Tree<Snapshot>,
        at: usize,
        spends: bool,
    ) -> Result<Vec<Snapshot>, Stop> {
        let steps = steps_to(tree, at);
        if steps >= self.plan.lines as usize {
            return Err(Stop::TooFar);
        }
        match next_snapshots(
            alloc,
            self.plan,
            self.pace,
            self.actors,
            run,
            tree,
            at,
            steps as u32,
            spends,
        ) {
            Ok(snapshots) => Ok(snapshots),
            Err(NoMemory) => Err(Stop::NoMemory),
        }
    }

    ghost same = { λ g n m is. same_if n m is };

    ghost alike = { λ g n m is. same_then n m is };
}
