//! Many nodes are spread, one after another.

ghost use Rattle.std.specs.Prelude.{◌≡◌, ◌≤◌, ◌+◌, ℕ, true, false, Err, OnOk, length, map, max};
ghost use Rattle.pm_explore.specs.declared.search.graph.Stop.TheVariants.{Full, NoMemory, TooFar};
ghost use Rattle.pm_explore.specs.search.Growing.{AreSpread, IsKept, IsLed};
ghost use Rattle.pm_explore.specs.search.Trees.{IsTree};

use crate::search::graph::{Graph, Stop};
use crate::search::spread::spread;
use crate::search::tree::Tree;
use std::alloc::Global;
use std::hash::Hash;

// Spreads by free steps all nodes from one on, those too that are found on the path.
pub fn settle<N: Eq + Hash + Drop, G: Graph<N>>(
    alloc: Global,
    graph: &G,
    scratch: &mut G::Scratch,
    tree: &mut Tree<N>,
    from: usize,
    limit: usize,
) -> Result<(), Stop>
    requires ready { G.IsReady graph.now scratch.old }
    requires within { from ≤ length (map (G.point graph.now) tree.old.nodes.keys) }
    requires spread { AreSpread (G.Follows graph.now) false from (map (G.point graph.now) tree.old.nodes.keys) }
    requires tree { IsTree (G.Follows graph.now) (G.start graph.now) (map (G.point graph.now) tree.old.nodes.keys) tree.old.parents.items }
    requires room { length tree.old.nodes.keys ≤ max limit 1 }
    ensures ready { G.IsReady graph.now scratch.new }
    ensures tree { IsTree (G.Follows graph.now) (G.start graph.now) (map (G.point graph.now) tree.new.nodes.keys) tree.new.parents.items }
    ensures points { IsKept (map (G.point graph.now) tree.old.nodes.keys) (map (G.point graph.now) tree.new.nodes.keys) }
    ensures parents { IsKept tree.old.parents.items tree.new.parents.items }
    ensures led { (k : ℕ) → IsLed (G.Follows graph.now) k (map (G.point graph.now) tree.old.nodes.keys) tree.old.parents.items → IsLed (G.Follows graph.now) k (map (G.point graph.now) tree.new.nodes.keys) tree.new.parents.items }
    ensures spread { OnOk result (AreSpread (G.Follows graph.now) false (length (map (G.point graph.now) tree.new.nodes.keys)) (map (G.point graph.now) tree.new.nodes.keys)) }
    ensures room { length tree.new.nodes.keys ≤ max limit 1 }
    ensures full { result ≡ Err Stop.Full → limit ≤ length tree.new.nodes.keys }
    ensures too_far { result ≡ Err Stop.TooFar → (at : ℕ) × G.IsTooFar graph.now (map (G.point graph.now) tree.new.nodes.keys) tree.new.parents.items at }
{
    let mut at = from;
    while at < tree.nodes.len() {
        spread(alloc, graph, scratch, tree, at, false, limit)?;
        at += 1;
    }
    Ok(())
}

// Spreads by steps that spend those of the nodes that are there, from one on.
pub fn spend<N: Eq + Hash + Drop, G: Graph<N>>(
    alloc: Global,
    graph: &G,
    scratch: &mut G::Scratch,
    tree: &mut Tree<N>,
    from: usize,
    limit: usize,
) -> Result<(), Stop>
    requires ready { G.IsReady graph.now scratch.old }
    requires within { from ≤ length (map (G.point graph.now) tree.old.nodes.keys) }
    requires spread { AreSpread (G.Follows graph.now) true from (map (G.point graph.now) tree.old.nodes.keys) }
    requires tree { IsTree (G.Follows graph.now) (G.start graph.now) (map (G.point graph.now) tree.old.nodes.keys) tree.old.parents.items }
    requires room { length tree.old.nodes.keys ≤ max limit 1 }
    ensures ready { G.IsReady graph.now scratch.new }
    ensures tree { IsTree (G.Follows graph.now) (G.start graph.now) (map (G.point graph.now) tree.new.nodes.keys) tree.new.parents.items }
    ensures points { IsKept (map (G.point graph.now) tree.old.nodes.keys) (map (G.point graph.now) tree.new.nodes.keys) }
    ensures parents { IsKept tree.old.parents.items tree.new.parents.items }
    ensures led { (k : ℕ) → IsLed (G.Follows graph.now) k (map (G.point graph.now) tree.old.nodes.keys) tree.old.parents.items → IsLed (G.Follows graph.now) (k + 1) (map (G.point graph.now) tree.new.nodes.keys) tree.new.parents.items }
    ensures spread { OnOk result (AreSpread (G.Follows graph.now) true (length (map (G.point graph.now) tree.old.nodes.keys)) (map (G.point graph.now) tree.new.nodes.keys)) }
    ensures room { length tree.new.nodes.keys ≤ max limit 1 }
    ensures full { result ≡ Err Stop.Full → limit ≤ length tree.new.nodes.keys }
    ensures too_far { result ≡ Err Stop.TooFar → (at : ℕ) × G.IsTooFar graph.now (map (G.point graph.now) tree.new.nodes.keys) tree.new.parents.items at }
{
    let end = tree.nodes.len();
    let mut at = from;
    while at < end {
        spread(alloc, graph, scratch, tree, at, true, limit)?;
        at += 1;
    }
    Ok(())
}
