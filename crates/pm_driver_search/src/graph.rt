//! The graph of the snapshots of a driver.

ghost use Rattle.std.specs.Prelude.{◌≡◌, map};
ghost use Rattle.pm_driver_orders.specs.DriverSnapshots.{DriverFollows, DriverSnapshot, start_driver};
ghost use Rattle.pm_driver_rules.specs.GoingOn.{driver_of};
ghost use Rattle.pm_driver_rules.specs.Nodes.{driver_snapshot_of};
ghost use Rattle.pm_driver_search.specs.Standing.{IsRun};

use crate::next::{Going, push_turns};
use crate::run::DriverRun;
use pm_driver_rules::DriverNode;
use pm_explore::search::{Graph, Stop, Tree};
use std::alloc::Global;

/// The snapshots of a driver, each followed by those to which its turns lead.
#[derive(Drop)]
pub struct DriverGraph<'a> {
    pub going: Going<'a>,
}

impl Graph<DriverNode> for DriverGraph<'_> {
    type Scratch = DriverRun;

    ghost use Rattle.pm_driver_rules.proofs.NodeAlike.{same_if, same_then};

    ghost Point = { DriverSnapshot };

    ghost point = { λ g n. driver_snapshot_of n };

    ghost start = { λ g. start_driver (driver_of g.going.rules.now) };

    ghost Follows = { λ g. DriverFollows g.going.pace (driver_of g.going.rules.now) g.going.most };

    ghost IsTooFar = { λ g points parents at. Unit };

    ghost IsReady = { λ g run. IsRun g.going.rules.now.plan.now run };

    fn successors(
        &self,
        alloc: Global,
        run: &mut DriverRun,
        tree: &Tree<DriverNode>,
        at: usize,
        spends: bool,
    ) -> Result<Vec<DriverNode>, Stop> {
        let Some(node) = tree.nodes.get_index(at) else {
            unreachable!();
        };
        let mut out = Vec::new(alloc);
        push_turns(alloc, &self.going, run, node, spends, false, &mut out)?;
        push_turns(alloc, &self.going, run, node, spends, true, &mut out)?;
        Ok(out)
    }

    ghost same = { λ g n m is. same_if n m is };

    ghost alike = { λ g n m is. same_then n m is };
}
