//! A tree of the later moments, kept up to date in a logarithmic number of steps, and what is asked of
//! it.

ghost use Rattle.std.specs.Prelude.{◌≡◌, ◌+◌, ◌*◌, ◌<◌, ◌≤◌, ◌^◌, true, drop, length, replicate, slice_index, slice_set, IfNone, IfOk, IfSome};
ghost use Rattle.pm_index.specs.Tree.{AreKept, NoneUnder, first_leaf, is_now, later_of, lesser, moment_by, never};

use std::alloc::{AllocError, Global};

/// What a leaf holds where its place has no later moment.
const NEVER: u64 = u64::MAX;

/// Whether a moment is 0. Such a one is not held in the tree.
pub fn is_now(moment: Option<u64>) -> bool
    ensures { result ≡ is_now moment }
{
    match moment {
        Some(at) => at == 0,
        None => false,
    }
}

/// What a leaf holds of a moment. A later one than 0 is held less 1, which leaves the greatest number
/// for none.
pub fn key_of(moment: Option<u64>) -> u64
    ensures held { moment_by (is_now moment) result ≡ moment }
    ensures none { is_now moment ≡ true → result ≡ never }
{
    match moment {
        Some(at) if at > 0 => at - 1,
        _ => NEVER,
    }
}

/// The later moment that a leaf or a node holds.
pub fn later_of(key: u64) -> Option<u64>
    ensures { result ≡ later_of key }
{
    if key < NEVER { Some(key + 1) } else { None }
}

/// Of two places the lesser.
pub fn lesser(a: Option<usize>, b: Option<usize>) -> Option<usize>
    ensures { result ≡ lesser a b }
{
    let Some(x) = a else {
        return b;
    };
    let Some(y) = b else {
        return a;
    };
    Some(x.min(y))
}

/// How many levels stand above the leaves, where there is a leaf for each of so many places.
pub fn levels_for(places: usize) -> u32
    requires { places < 2 ^ 32 }
    ensures enough { places ≤ first_leaf 1 result }
    ensures few { result ≤ 32 }
{
    if places <= 1 {
        0
    } else {
        (places - 1).ilog2() + 1
    }
}

/// How many leaves stand so many levels, at most 32, below the top node.
pub fn leaves_below(levels: u32) -> usize
    requires { levels ≤ 32 }
    ensures leaves { result ≡ first_leaf 1 levels }
    ensures some { 0 < result }
    ensures few { result ≤ 2 ^ 32 }
{
    1 << levels
}

/// So many nodes that hold nothing.
pub fn nothing(alloc: Global, nodes: usize) -> Result<Vec<u64>, AllocError>
    ensures { IfOk result (λ v. v.items ≡ replicate nodes never) }
{
    vec![in alloc; NEVER; nodes]
}

/// The least number of all: what the top node holds.
pub fn top(nodes: &[u64]) -> u64
    requires { 1 < length nodes.now }
    ensures { result ≡ slice_index nodes.now 1 }
{
    nodes[1]
}

/// Puts a number into a leaf, and keeps each node above it, from below.
pub fn put(nodes: &mut [u64], leaves: usize, leaf: usize, key: u64)
    requires halves { length nodes.old ≡ 2 * leaves }
    requires in_range { leaf < leaves }
    requires kept { AreKept nodes.old }
    ensures kept { AreKept nodes.new }
    ensures put { drop leaves nodes.new ≡ slice_set (drop leaves nodes.old) leaf key }
{
    if nodes[leaves + leaf] == key {
        return;
    }
    nodes[leaves + leaf] = key;
    let mut node = (leaves + leaf) / 2;
    while node > 0 {
        let least = nodes[2 * node].min(nodes[2 * node + 1]);
        // Then all nodes above hold what they should, too.
        if nodes[node] == least {
            break;
        }
        nodes[node] = least;
        node /= 2;
    }
}

// The first leaf under a node that holds less than the bound, where the node does. It stands so many
// levels above the leaves.
fn descend(nodes: &[u64], node: usize, levels: u32, bound: u64) -> usize
    requires node { 0 < node }
    requires in_range { first_leaf (node + 1) levels ≤ length nodes.now }
    requires kept { AreKept nodes.now }
    requires under { slice_index nodes.now node < bound }
    ensures found { (first_leaf node levels ≤ result) × (result < first_leaf (node + 1) levels) × (slice_index nodes.now result < bound) }
    ensures first { NoneUnder nodes.now bound (first_leaf node levels) result }
{
    let mut at = node;
    let mut below = levels;
    while below > 0 {
        below -= 1;
        at *= 2;
        if nodes[at] >= bound {
            at += 1;
        }
    }
    at
}

// The node, and how many levels it stands above the leaves, that has under it the first leaf at or
// after `from` that holds less than the bound.
fn climb(nodes: &[u64], levels: u32, from: usize, bound: u64) -> Option<(usize, u32)>
    requires halves { length nodes.now ≡ 2 * first_leaf 1 levels }
    requires in_range { (first_leaf 1 levels ≤ from) × (from < length nodes.now) }
    requires kept { AreKept nodes.now }
    requires under { slice_index nodes.now 1 < bound }
    ensures found { IfSome result (λ top. (0 < top.0) × (first_leaf (top.0 + 1) top.1 ≤ length nodes.now) × (slice_index nodes.now top.0 < bound)) }
    ensures first { IfSome result (λ top. (from ≤ first_leaf top.0 top.1) × NoneUnder nodes.now bound from (first_leaf top.0 top.1)) }
    ensures missing { IfNone result (NoneUnder nodes.now bound from (length nodes.now)) }
{
    // All leaves stand under the top node.
    if from == nodes.len() / 2 {
        return Some((1, levels));
    }
    if nodes[from] < bound {
        return Some((from, 0));
    }
    let mut node = from;
    for level in 0..levels {
        if node % 2 == 0 && nodes[node + 1] < bound {
            return Some((node + 1, level));
        }
        node /= 2;
    }
    None
}

/// The first leaf at or after `from` that holds less than the bound. A leaf, and `from`, goes by its
/// number as a node.
pub fn first_under(nodes: &[u64], levels: u32, from: usize, bound: u64) -> Option<usize>
    requires halves { length nodes.now ≡ 2 * first_leaf 1 levels }
    requires in_range { (first_leaf 1 levels ≤ from) × (from ≤ length nodes.now) }
    requires kept { AreKept nodes.now }
    ensures found { IfSome result (λ i. (from ≤ i) × (i < length nodes.now) × (slice_index nodes.now i < bound)) }
    ensures first { IfSome result (λ i. NoneUnder nodes.now bound from i) }
    ensures missing { IfNone result (NoneUnder nodes.now bound from (length nodes.now)) }
{
    if nodes[1] >= bound || from == nodes.len() {
        return None;
    }
    let (node, level) = climb(nodes, levels, from, bound)?;
    Some(descend(nodes, node, level, bound))
}
