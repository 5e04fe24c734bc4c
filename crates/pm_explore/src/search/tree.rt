//! Nodes that were found, and how.

ghost use Rattle.std.specs.Prelude.{ℕ, ◌≡◌, ◌<◌, ◌+◌, ◌++◌, ◌∷◌, ◌&&◌, [], IfOk, OnOk, OnErr, Some, length, map, nat_le, not, slice_get, if◌then◌else◌};
ghost use Rattle.std.specs.List.{list_any};
ghost use Rattle.indexmap.specs.IndexSet.{insert_key};
ghost use Rattle.pm_explore.specs.search.Growing.{Adds, CanFollow, IsStored};
ghost use Rattle.pm_explore.specs.search.Trees.{AreCounted, HasPath, IsPath, LeadDown};

use crate::search::graph::Graph;
use indexmap::IndexSet;
use std::alloc::{AllocError, Global};
use std::hash::Hash;

/// Nodes that were found, no two of them equal, and for each the place of one that it follows.
#[derive(Drop)]
pub struct Tree<N: Eq + Hash + Drop> {
    /// The nodes in the order in which they were found.
    pub nodes: IndexSet<N>,
    /// For each node the place of one that it follows; 0 for the first.
    pub parents: Vec<usize>,
    /// For each node how many steps the path back from it has.
    pub steps: Vec<usize>,
    ghost counted: { AreCounted parents.items steps.items },
}

// A tree with no node.
pub fn new_tree<N: Eq + Hash + Drop>(alloc: Global) -> Tree<N>
    ensures nodes { result.nodes.keys ≡ [] }
    ensures parents { result.parents.items ≡ [] }
{
    Tree {
        nodes: IndexSet::new(alloc),
        parents: Vec::new(alloc),
        steps: Vec::new(alloc),
    }
}

/// How many steps the path back from a node has.
pub fn steps_to<N: Eq + Hash + Drop>(tree: &Tree<N>, at: usize) -> usize
    requires within { at < length tree.now.parents.items }
    ensures { HasPath tree.now.parents.items at result }
{
    let steps = tree.steps[at];
    steps
}

// How many it has from one that follows this place, or from the first.
fn steps_after<N: Eq + Hash + Drop>(tree: &Tree<N>, parent: usize) -> usize
    ensures first { tree.now.parents.items ≡ [] → result ≡ 0 }
    ensures next { (steps : ℕ) → slice_get tree.now.steps.items parent ≡ Some steps → result ≡ steps + 1 }
{
    if parent >= tree.steps.len() {
        return 0;
    }
    let before = tree.steps[parent];
    before + 1
}

// Puts a node and its parent at the end, unless an equal one is there.
fn insert<N: Eq + Hash + Drop>(tree: &mut Tree<N>, node: N, parent: usize) -> Result<(), AllocError>
    requires follows { CanFollow tree.old.parents.items parent }
    ensures nodes { OnOk result (tree.new.nodes.keys ≡ insert_key N.eq tree.old.nodes.keys node) }
    ensures parents { OnOk result (tree.new.parents.items ≡ (if list_any (N.eq node) tree.old.nodes.keys then tree.old.parents.items else tree.old.parents.items ++ parent ∷ [])) }
    ensures stored { OnOk result (IsStored N.eq tree.new.nodes.keys node) }
    ensures same_nodes { OnErr result (tree.new.nodes.keys ≡ tree.old.nodes.keys) }
    ensures same_parents { OnErr result (tree.new.parents.items ≡ tree.old.parents.items) }
{
    let steps = steps_after(tree, parent);
    tree.parents.reserve(1)?;
    tree.steps.reserve(1)?;
    let (_, is_new) = tree.nodes.insert_full(node)?;
    if is_new {
        tree.parents.push_reserved(parent);
        tree.steps.push_reserved(steps);
    }
    Ok(())
}

// Puts a point and its parent at the end, unless it is there.
pub fn add<N: Eq + Hash + Drop, G: Graph<N>>(
    _graph: &G,
    tree: &mut Tree<N>,
    node: N,
    parent: usize,
) -> Result<(), AllocError>
    requires follows { CanFollow tree.old.parents.items parent }
    ensures added { OnOk result (Adds (G.point _graph.now node) parent (map (G.point _graph.now) tree.old.nodes.keys) tree.old.parents.items (map (G.point _graph.now) tree.new.nodes.keys) tree.new.parents.items) }
    ensures nodes { OnOk result (tree.new.nodes.keys ≡ insert_key N.eq tree.old.nodes.keys node) }
    ensures same_nodes { OnErr result (tree.new.nodes.keys ≡ tree.old.nodes.keys) }
    ensures same_parents { OnErr result (tree.new.parents.items ≡ tree.old.parents.items) }
{
    insert(tree, node, parent)?;
    Ok(())
}

// Whether so many nodes are there, and none that is equal to this one.
pub fn lacks_room<N: Eq + Hash + Drop>(tree: &Tree<N>, node: &N, limit: usize) -> bool
    ensures { result ≡ (nat_le limit (length tree.now.nodes.keys) && not (list_any (N.eq node.now) tree.now.nodes.keys)) }
{
    tree.nodes.len() >= limit && !tree.nodes.contains(node)
}

/// The places on the path back from one to the first, by the place that each has as its parent.
pub fn path_back(alloc: Global, parents: &[usize], at: usize) -> Result<Vec<usize>, AllocError>
    requires within { at < length parents.now }
    requires lead_down { LeadDown parents.now }
    ensures { IfOk result (λ path. IsPath parents.now at path.items) }
{
    let mut path = Vec::new(alloc);
    let mut here = at;
    path.push(here)?;
    while here > 0 {
        here = parents[here];
        path.push(here)?;
    }
    Ok(path)
}
