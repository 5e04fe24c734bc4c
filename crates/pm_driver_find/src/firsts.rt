//! Where each sight shows first.

ghost use Rattle.std.specs.Prelude.{ℕ, ◌≡◌, ◌<◌, ◌^◌, IfOk, IfSome, None, length, map};
ghost use Rattle.pm_driver_rules.specs.Nodes.{driver_snapshot_of};
ghost use Rattle.pm_driver_find.specs.Told.{AreFirstSeen, IsFirstSeen, IsUnseen};

use crate::examined::ExaminedDriver;
use crate::sights::{DriverSight, is_seen};
use pm_driver_rules::DriverNode;
use pm_explore::search::Tree;
use std::alloc::{AllocError, Global};

/// What some schedule shows, and the place of the first node that shows it: where that stands before the end of a round, some schedule
/// of no more preemptions than the round has shows it.
#[derive(Clone, Copy)]
pub struct DriverFinding {
    pub sight: DriverSight,
    pub place: usize,
}

// The first node that shows it.
fn first_seen(
    examined: &ExaminedDriver,
    tree: &Tree<DriverNode>,
    sight: DriverSight,
) -> Option<usize>
    requires { length examined.now.rules.now.callers.now < 2 ^ 32 }
    ensures some { IfSome result (IsFirstSeen examined.now (map driver_snapshot_of tree.now.nodes.keys) sight) }
    ensures none { result ≡ None → (n : ℕ) → IsUnseen examined.now (map driver_snapshot_of tree.now.nodes.keys) n sight }
{
    for place in 0..tree.nodes.len() {
        let Some(node) = tree.nodes.get_index(place) else {
            unreachable!();
        };
        if is_seen(examined, node, sight) {
            return Some(place);
        }
    }
    None
}

/// Each of these sights that any node of a tree shows, with the first one.
pub fn all_first_seen(
    alloc: Global,
    examined: &ExaminedDriver,
    tree: &Tree<DriverNode>,
    sights: &[DriverSight],
) -> Result<Vec<DriverFinding>, AllocError>
    requires { length examined.now.rules.now.callers.now < 2 ^ 32 }
    ensures { IfOk result (λ told. AreFirstSeen examined.now (map driver_snapshot_of tree.now.nodes.keys) sights.now (length sights.now) told.items) }
{
    let mut told = Vec::new(alloc);
    for sight in sights {
        if let Some(place) = first_seen(examined, tree, *sight) {
            told.push(DriverFinding {
                sight: *sight,
                place,
            })?;
        }
    }
    Ok(told)
}
