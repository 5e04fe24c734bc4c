//! One node is spread.

ghost use Rattle.std.specs.Prelude.{◌≡◌, ◌<◌, ◌≤◌, Some, Err, OnOk, map, max, slice_get, length};
ghost use Rattle.pm_explore.specs.declared.search.graph.Stop.TheVariants.{Full, NoMemory, TooFar};
ghost use Rattle.pm_explore.specs.search.Growing.{Grows, IsSpread};
ghost use Rattle.pm_explore.specs.search.Trees.{IsTree};

use crate::search::graph::{Graph, Stop};
use crate::search::tree::{Tree, add, lacks_room};
use std::alloc::Global;
use std::hash::Hash;

// Puts all nodes that follow one at the end, where they aren't there, up to so many nodes.
pub fn spread<N: Eq + Hash + Drop, G: Graph<N>>(
    alloc: Global,
    graph: &G,
    scratch: &mut G::Scratch,
    tree: &mut Tree<N>,
    at: usize,
    spends: bool,
    limit: usize,
) -> Result<(), Stop>
    requires ready { G.IsReady graph.now scratch.old }
    requires within { at < length tree.old.nodes.keys }
    requires tree { IsTree (G.Follows graph.now) (G.start graph.now) (map (G.point graph.now) tree.old.nodes.keys) tree.old.parents.items }
    requires room { length tree.old.nodes.keys ≤ max limit 1 }
    ensures ready { G.IsReady graph.now scratch.new }
    ensures tree { IsTree (G.Follows graph.now) (G.start graph.now) (map (G.point graph.now) tree.new.nodes.keys) tree.new.parents.items }
    ensures points { (p : G.Point) → slice_get (map (G.point graph.now) tree.old.nodes.keys) at ≡ Some p → Grows (G.Follows graph.now spends p) (map (G.point graph.now) tree.old.nodes.keys) (map (G.point graph.now) tree.new.nodes.keys) }
    ensures parents { Grows (λ parent. parent ≡ at) tree.old.parents.items tree.new.parents.items }
    ensures spread { OnOk result ((p : G.Point) → slice_get (map (G.point graph.now) tree.old.nodes.keys) at ≡ Some p → IsSpread (G.Follows graph.now) spends (map (G.point graph.now) tree.new.nodes.keys) p) }
    ensures too_far { result ≡ Err Stop.TooFar → G.IsTooFar graph.now (map (G.point graph.now) tree.new.nodes.keys) tree.new.parents.items at }
    ensures room { length tree.new.nodes.keys ≤ max limit 1 }
    ensures full { result ≡ Err Stop.Full → limit ≤ length tree.new.nodes.keys }
{
    let mut next = graph.successors(alloc, scratch, tree, at, spends)?;
    while let Some(node) = next.pop() {
        if lacks_room(tree, &node, limit) {
            return Err(Stop::Full);
        }
        add(graph, tree, node, at)?;
    }
    Ok(())
}
