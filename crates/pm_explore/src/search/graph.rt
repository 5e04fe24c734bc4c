//! A graph.

ghost use Rattle.std.specs.Prelude.{◌≡◌, ◌≢◌, ◌<◌, ℕ, Bool, List, true, Some, Err, IfOk, map, slice_get, length};
ghost use Rattle.pm_explore.specs.declared.search.graph.Stop.TheVariants.{Full, NoMemory, TooFar};
ghost use Rattle.pm_explore.specs.search.Exact.{HasExactly};
ghost use Rattle.pm_explore.specs.search.Trees.{IsTree};

use crate::search::tree::Tree;
use std::alloc::{AllocError, AllocFailed, Global};
use std::hash::Hash;

/// Why a search goes no further.
#[derive(Clone, Copy)]
pub enum Stop {
    /// There are as many nodes as were allowed.
    Full,
    /// A node is as far from the first as the graph lets a path go.
    TooFar,
    /// Memory is wanting.
    NoMemory,
}

impl From<AllocError> for Stop {
    ghost from_gives = { λ _ stop. stop ≡ NoMemory };

    fn from(_error: AllocError) -> Stop {
        Stop::NoMemory
    }
}

impl<T: Drop> From<AllocFailed<T>> for Stop {
    ghost from_gives = { λ _ stop. stop ≡ NoMemory };

    fn from(_failed: AllocFailed<T>) -> Stop {
        Stop::NoMemory
    }
}

/// A graph. Its points are kept as nodes. A step from one point to another is free, or it spends.
pub trait Graph<N: Eq + Hash + Drop> {
    /// What successors are found with, again and again, so that it isn't made anew for each node.
    type Scratch;

    ghost Point: { Type 0 };

    /// The point that a node stands for.
    ghost point: { Self → N → Point };

    ghost start: { Self → Point };

    /// Whether the second point follows the first by a step that spends, or by one that doesn't.
    ghost Follows: { Self → Bool → Point → Point → Type 0 };

    /// Whether the path to a place of a tree is as long as the graph lets one be.
    ghost IsTooFar: { Self → List Point → List ℕ → ℕ → Type 0 };

    /// Whether successors can be found with it.
    ghost IsReady: { Self → Self.Scratch → Type 0 };

    /// Nodes for all that follows one of a tree, and for nothing else.
    fn successors(
        &self,
        alloc: Global,
        scratch: &mut Self::Scratch,
        tree: &Tree<N>,
        at: usize,
        spends: bool,
    ) -> Result<Vec<N>, Stop>
        requires within { at < length tree.now.nodes.keys }
        requires tree { IsTree (Follows self.now) (start self.now) (map (point self.now) tree.now.nodes.keys) tree.now.parents.items }
        requires ready { IsReady self.now scratch.old }
        ensures ready { IsReady self.now scratch.new }
        ensures all { IfOk result (λ out. (p : Point) → slice_get (map (point self.now) tree.now.nodes.keys) at ≡ Some p → HasExactly (Follows self.now spends p) (map (point self.now) out.items)) }
        ensures too_far { result ≡ Err Stop.TooFar → IsTooFar self.now (map (point self.now) tree.now.nodes.keys) tree.now.parents.items at }

        // How many nodes there may be is for the search to say.
        ensures never_full { result ≢ Err Stop.Full };

    /// Equal nodes stand for the same point, and nodes that do are equal.
    ghost same: { (g : Self) (n m : N) → N.eq n m ≡ true → point g n ≡ point g m };

    ghost alike: { (g : Self) (n m : N) → point g n ≡ point g m → N.eq n m ≡ true };
}
