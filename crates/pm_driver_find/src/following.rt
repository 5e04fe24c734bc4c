//! What shows before a finding does.

ghost use Rattle.std.specs.Prelude.{ℕ, ◌≡◌, ◌<◌, ◌^◌, IfSome, None, length, map};
ghost use Rattle.pm_driver_rules.specs.Nodes.{driver_snapshot_of};
ghost use Rattle.pm_driver_find.specs.Following.{IsBefore, ShowsBefore, ShowsFirst, ShowsFirstAt, ShowsNone, ShowsNoneAt, newer_of, parent_in};

use crate::examined::ExaminedDriver;
use crate::firsts::DriverFinding;
use crate::sights::is_seen;
use pm_driver_rules::DriverNode;
use pm_explore::search::Tree;

// The first of these findings whose sight a node shows.
fn first_shown(
    examined: &ExaminedDriver,
    node: &DriverNode,
    told: &[DriverFinding],
) -> Option<usize>
    requires { length examined.now.rules.now.callers.now < 2 ^ 32 }
    ensures some { IfSome result (ShowsFirst examined.now (driver_snapshot_of node.now) told.now) }
    ensures none { result ≡ None → ShowsNone examined.now (driver_snapshot_of node.now) told.now (length told.now) }
{
    for (number, finding) in told.iter().enumerate() {
        if is_seen(examined, node, finding.sight) {
            return Some(number);
        }
    }
    None
}

// The first whose sight the node at a place shows.
fn shown_at(
    examined: &ExaminedDriver,
    tree: &Tree<DriverNode>,
    told: &[DriverFinding],
    place: usize,
) -> Option<usize>
    requires { length examined.now.rules.now.callers.now < 2 ^ 32 }
    ensures some { IfSome result (ShowsFirstAt examined.now (map driver_snapshot_of tree.now.nodes.keys) told.now place) }
    ensures none { result ≡ None → ShowsNoneAt examined.now (map driver_snapshot_of tree.now.nodes.keys) told.now place }
{
    let node = tree.nodes.get_index(place)?;
    first_shown(examined, node, told)
}

// The place that one follows; none for the first.
fn parent_in(parents: &[usize], place: usize) -> Option<usize>
    ensures { result ≡ parent_in parents.now place }
{
    if place > 0 {
        parents.get(place).copied()
    } else {
        None
    }
}

fn newer_of(new: Option<usize>, old: Option<usize>) -> Option<usize>
    ensures { result ≡ newer_of new old }
{
    match new {
        Some(number) => Some(number),
        None => old,
    }
}

/// Which of these findings shows first on the way to a place of the tree, before that place: what is found there may only follow from
/// it. The number of the finding.
pub fn shown_before(
    examined: &ExaminedDriver,
    tree: &Tree<DriverNode>,
    told: &[DriverFinding],
    place: usize,
) -> Option<usize>
    requires { length examined.now.rules.now.callers.now < 2 ^ 32 }
    ensures some { IfSome result (ShowsBefore examined.now (map driver_snapshot_of tree.now.nodes.keys) tree.now.parents.items told.now place) }
    ensures none { result ≡ None → (q : ℕ) → IsBefore tree.now.parents.items place q → ShowsNoneAt examined.now (map driver_snapshot_of tree.now.nodes.keys) told.now q }
{
    let mut here = place;
    let mut first = None;
    while let Some(parent) = parent_in(tree.parents.as_slice(), here) {
        here = parent;
        first = newer_of(shown_at(examined, tree, told, here), first);
    }
    first
}
