//! The labels of a plan's nodes, which all nodes of an island share.

ghost use Rattle.std.specs.Prelude.{ℕ, ◌≡◌, ◌≤◌, ◌<◌, length};
ghost use Rattle.pm_islands.specs.declared.touching.TheConstants.{MAX_NODES};
ghost use Rattle.pm_islands.specs.declared.touching.Tie.TheVariants.{ToParent};
ghost use Rattle.pm_islands.specs.Labels.{AreLabels, AreShared, Joined, joined, label_at, put_for, relabelled};
ghost use Rattle.pm_islands.specs.Places.{nodes, rows};

use crate::touching::{Tie, row_count, tied};
use pm_model::Plan;

// What stands for a label where one is put for another.
fn put_for(label: u32, from: u32, to: u32) -> u32
    ensures { result ≡ put_for from to label }
{
    if label == from { to } else { label }
}

// Puts one label for another.
#[tactic(auto, using(crate::proofs::Joining::relabelled_same))]
fn relabel(labels: &mut [u32], from: u32, to: u32)
    ensures { labels.new ≡ relabelled from to labels.old }
{
    if from == to {
        return;
    }
    for label in labels.iter_mut() {
        *label = put_for(*label, from, to);
    }
}

// Puts the lower of the labels at two places for the other, wherever it stands: no label stands before the
// place that it names.
fn join(labels: &mut [u32], a: usize, b: usize)
    requires a_in_range { a < length labels.old }
    requires b_in_range { b < length labels.old }
    requires no_later { (k : ℕ) → k < length labels.old → label_at labels.old k ≤ k }
    ensures { labels.new ≡ joined a b labels.old }
{
    let (a, b) = (labels[a], labels[b]);
    let from = a.max(b);
    relabel(&mut labels[from as usize..], from, a.min(b));
}

// Joins all that is tied in this way. A pair that shares its label already costs one look.
fn join_all(plan: &Plan, tie: Tie, labels: &mut [u32])
    requires { AreLabels plan.now labels.old }
    ensures { Joined plan.now tie (rows plan.now tie) labels.old labels.new }
{
    for row in 0..row_count(plan, tie) {
        if let Some((a, b)) = tied(plan, tie, row) {
            join(labels, a, b);
        }
    }
}

// Joins each device and its parent, where each node has its own label. A parent stands earlier, so a
// device's label is no other node's when its turn comes.
fn join_parents(plan: &Plan, labels: &mut [u32])
    requires one_each { length labels.old ≡ nodes plan.now }
    requires own_place { (k : ℕ) → k < nodes plan.now → label_at labels.old k ≡ k }
    ensures { Joined plan.now ToParent (rows plan.now ToParent) labels.old labels.new }
{
    for row in 0..row_count(plan, Tie::ToParent) {
        if let Some((device, parent)) = tied(plan, Tie::ToParent, row) {
            labels[device] = labels[parent];
        }
    }
}

// Labels each node by its place.
fn label_apart(labels: &mut [u32])
    requires { length labels.old ≤ MAX_NODES }
    ensures one_each { length labels.new ≡ length labels.old }
    ensures own_place { (k : ℕ) → k < length labels.old → label_at labels.new k ≡ k }
{
    for (place, label) in labels.iter_mut().enumerate() {
        *label = place as u32;
    }
}

/// Labels the nodes of a plan, in their order, so that nodes share a label where they are connected,
/// and there alone: the place of the first of them.
pub fn label(plan: &Plan, labels: &mut [u32])
    requires one_each { length labels.old ≡ nodes plan.now }
    requires few { length labels.old ≤ MAX_NODES }
    ensures { AreShared plan.now labels.new }
{
    label_apart(labels);
    join_parents(plan, labels);
    join_all(plan, Tie::ToDomain, labels);
    join_all(plan, Tie::ToSupplier, labels);
    join_all(plan, Tie::OfDomains, labels);
    for caller in 0..plan.callers.len() {
        join_all(plan, Tie::OfCaller(caller), labels);
    }
}
