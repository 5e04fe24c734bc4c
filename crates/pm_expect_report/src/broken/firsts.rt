//! The first snapshot of a search at which an expectation is broken.

ghost use Rattle.std.specs.Prelude.{◌≡◌, ◌<◌, Some, length, map, slice_get};
ghost use Rattle.pm_expect_report.specs.broken.Breaches.{breach_at};
ghost use Rattle.pm_expect_report.specs.broken.Found.{IsFirstOf};
ghost use Rattle.pm_explore.specs.schedule.Snapshots.{Snapshot as Where};
ghost use Rattle.pm_explore.specs.state.SnapshotOf.{snapshot_of};

use crate::broken::expectation::{Breach, Expectation, breach_at};
use pm_explore::search::{Found, Tree};
use pm_explore::state::Snapshot;
use pm_model::Plan;
use pm_outcomes::list::round_of;

/// Where an expectation is broken first, of the snapshots of a search.
#[derive(Clone, Copy, PartialEq, Eq)]
pub struct Broken {
    /// The place of the snapshot.
    pub place: usize,
    /// The number of its round: the first that reaches beyond the place, or how many there are.
    pub round: usize,
    pub breach: Breach,
}

// How an expectation is broken at the snapshot of a place, if it is.
fn breach_there(
    plan: &Plan,
    expectation: &Expectation,
    tree: &Tree<Snapshot>,
    place: usize,
) -> Option<Breach>
    requires { place < length tree.now.nodes.keys }
    ensures { (s : Where) → slice_get (map snapshot_of tree.now.nodes.keys) place ≡ Some s → result ≡ breach_at plan.now expectation.now s }
{
    let Some(snapshot) = tree.nodes.get_index(place) else {
        unreachable!();
    };
    breach_at(plan, expectation, snapshot)
}

/// The first snapshot of a search at which an expectation is broken, if it is at any. It looks at each snapshot up to there.
pub fn first_broken(
    plan: &Plan,
    expectation: &Expectation,
    found: &Found<Snapshot>,
) -> Option<Broken>
    ensures { IsFirstOf plan.now expectation.now (map snapshot_of found.now.tree.nodes.keys) found.now.rounds.items result }
{
    for place in 0..found.tree.nodes.len() {
        if let Some(breach) = breach_there(plan, expectation, &found.tree, place) {
            return Some(Broken {
                place,
                round: round_of(found.rounds.as_slice(), place),
                breach,
            });
        }
    }
    None
}
