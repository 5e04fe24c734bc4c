//! The search.

ghost use Rattle.std.specs.Prelude.{◌≡◌, ◌≤◌, ◌+◌, [], ℕ, true, false, Err, Ok, length, map, max, min};
ghost use Rattle.pm_explore.specs.declared.search.graph.Stop.TheVariants.{Full, NoMemory, TooFar};
ghost use Rattle.pm_explore.specs.declared.search.found.Ended.TheVariants.{Rounds, Stopped, Whole};
ghost use Rattle.pm_explore.specs.search.Exact.{AreExact, EndWithAll, IsWhole};
ghost use Rattle.pm_explore.specs.search.Growing.{IsLed};
ghost use Rattle.pm_explore.specs.search.Trees.{AreLed, IsTree};

use crate::search::graph::{Graph, Stop};
use crate::search::rounds::{settle, spend};
use crate::search::tree::{Tree, add, new_tree};
use std::alloc::Global;
use std::hash::Hash;

/// How a search ended.
#[derive(Clone, Copy)]
pub enum Ended {
    /// The nodes are all that are reached at all.
    Whole,
    /// Each round that was asked for is complete.
    Rounds,
    /// It stopped within a round.
    Stopped(Stop),
}

/// What was found.
#[derive(Drop)]
pub struct Found<N: Eq + Hash + Drop> {
    pub tree: Tree<N>,
    /// How many of the nodes are all that are reached by steps of which at most 0, 1, .. spend.
    pub rounds: Vec<usize>,
    pub ended: Ended,
}

// Finds round by round; whether the nodes are all that are reached at all.
fn find<N: Eq + Hash + Drop, G: Graph<N>>(
    alloc: Global,
    graph: &G,
    scratch: &mut G::Scratch,
    start: N,
    most: usize,
    limit: usize,
    tree: &mut Tree<N>,
    rounds: &mut Vec<usize>,
) -> Result<bool, Stop>
    requires ready { G.IsReady graph.now scratch.old }
    requires start { G.point graph.now start ≡ G.start graph.now }
    requires no_nodes { tree.old.nodes.keys ≡ [] }
    requires no_parents { tree.old.parents.items ≡ [] }
    requires no_rounds { rounds.old.items ≡ [] }
    ensures ready { G.IsReady graph.now scratch.new }
    ensures tree { IsTree (G.Follows graph.now) (G.start graph.now) (map (G.point graph.now) tree.new.nodes.keys) tree.new.parents.items }
    ensures rounds { AreExact (G.Follows graph.now) (G.start graph.now) (map (G.point graph.now) tree.new.nodes.keys) rounds.new.items }
    ensures led { AreLed (G.Follows graph.now) (map (G.point graph.now) tree.new.nodes.keys) tree.new.parents.items rounds.new.items }
    ensures whole { result ≡ Ok true → IsWhole (G.Follows graph.now) (G.start graph.now) (map (G.point graph.now) tree.new.nodes.keys) }
    ensures last { result ≡ Ok true → EndWithAll (map (G.point graph.now) tree.new.nodes.keys) rounds.new.items }
    ensures end { result ≡ Ok false → EndWithAll (map (G.point graph.now) tree.new.nodes.keys) rounds.new.items }
    ensures few { length rounds.new.items ≤ most + 1 }
    ensures near { IsLed (G.Follows graph.now) (min most (length rounds.new.items)) (map (G.point graph.now) tree.new.nodes.keys) tree.new.parents.items }
    ensures complete { result ≡ Ok false → length rounds.new.items ≡ most + 1 }
    ensures room { length tree.new.nodes.keys ≤ max limit 1 }
    ensures full { result ≡ Err Stop.Full → limit ≤ length tree.new.nodes.keys }
    ensures too_far { result ≡ Err Stop.TooFar → (at : ℕ) × G.IsTooFar graph.now (map (G.point graph.now) tree.new.nodes.keys) tree.new.parents.items at }
{
    add(graph, tree, start, 0)?;
    settle(alloc, graph, scratch, tree, 0, limit)?;
    rounds.push(tree.nodes.len())?;
    let mut spent = 0;
    for k in 0..most {
        let end = tree.nodes.len();
        spend(alloc, graph, scratch, tree, spent, limit)?;
        if tree.nodes.len() == end {
            return Ok(true);
        }
        spent = end;
        settle(alloc, graph, scratch, tree, end, limit)?;
        rounds.push(tree.nodes.len())?;
    }
    Ok(false)
}

/// All nodes that are reached from a first one by steps of which at most so many spend, round by round; or all
/// that are reached at all, where that is seen; or what was found before a node more than the limit, or another stop.
pub fn search<N: Eq + Hash + Drop, G: Graph<N>>(
    alloc: Global,
    graph: &G,
    scratch: &mut G::Scratch,
    start: N,
    most: usize,
    limit: usize,
) -> Found<N>
    requires ready { G.IsReady graph.now scratch.old }
    requires start { G.point graph.now start ≡ G.start graph.now }
    ensures tree { IsTree (G.Follows graph.now) (G.start graph.now) (map (G.point graph.now) result.tree.nodes.keys) result.tree.parents.items }

    // The k-th round has exactly what is reached by steps of which at most k spend, and the parents lead there.
    ensures rounds { AreExact (G.Follows graph.now) (G.start graph.now) (map (G.point graph.now) result.tree.nodes.keys) result.rounds.items }
    ensures led { AreLed (G.Follows graph.now) (map (G.point graph.now) result.tree.nodes.keys) result.tree.parents.items result.rounds.items }

    // There is no round of more steps that spend than were asked for. On the path to whichever node no more spend, nor
    // more than rounds are complete.
    ensures few { length result.rounds.items ≤ most + 1 }
    ensures near { IsLed (G.Follows graph.now) (min most (length result.rounds.items)) (map (G.point graph.now) result.tree.nodes.keys) result.tree.parents.items }

    // How it ended. Where it didn't stop, its last round has all.
    ensures whole { result.ended ≡ Ended.Whole → IsWhole (G.Follows graph.now) (G.start graph.now) (map (G.point graph.now) result.tree.nodes.keys) }
    ensures last { result.ended ≡ Ended.Whole → EndWithAll (map (G.point graph.now) result.tree.nodes.keys) result.rounds.items }
    ensures end { result.ended ≡ Ended.Rounds → EndWithAll (map (G.point graph.now) result.tree.nodes.keys) result.rounds.items }
    ensures complete { result.ended ≡ Ended.Rounds → length result.rounds.items ≡ most + 1 }
    ensures room { length result.tree.nodes.keys ≤ max limit 1 }
    ensures full { result.ended ≡ Ended.Stopped Stop.Full → limit ≤ length result.tree.nodes.keys }
    ensures too_far { result.ended ≡ Ended.Stopped Stop.TooFar → (at : ℕ) × G.IsTooFar graph.now (map (G.point graph.now) result.tree.nodes.keys) result.tree.parents.items at }
{
    let mut tree = new_tree(alloc);
    let mut rounds = Vec::new(alloc);
    let ended = match find(
        alloc,
        graph,
        scratch,
        start,
        most,
        limit,
        &mut tree,
        &mut rounds,
    ) {
        Ok(true) => Ended::Whole,
        Ok(false) => Ended::Rounds,
        Err(stop) => Ended::Stopped(stop),
    };
    Found {
        tree,
        rounds,
        ended,
    }
}
