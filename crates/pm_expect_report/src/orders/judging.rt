//! What the schedules of a plan make of each expectation.

ghost use Rattle.std.specs.Prelude.{◌≡◌, ◌++◌, ◌∷◌, [], All, IfOk, OnOk, map};
ghost use Rattle.pm_expect_report.specs.broken.Found.{IsFirstOf};
ghost use Rattle.pm_expect_report.specs.trace.Plain.{IsLineOf};
ghost use Rattle.pm_expect_report.specs.orders.Judged.{AreJudged, HasLine, IsJudgedFirst, what_of};
ghost use Rattle.pm_expect_report.specs.orders.Texts.{has_broken};
ghost use Rattle.pm_explore.specs.state.SnapshotOf.{snapshot_of};

use crate::broken::{Broken, Expectation, all_of, first_broken};
use crate::trace::line_of;
use pm_base::NoMemory;
use pm_expect::Expectations;
use pm_explore::search::Found;
use pm_explore::state::Snapshot;
use pm_model::Plan;
use std::alloc::Global;

/// An expectation, with what schedules make of it.
#[derive(Clone, Copy, PartialEq, Eq)]
pub struct Judged {
    /// The line of the file at which its table begins.
    pub line: usize,
    pub expectation: Expectation,
    /// Where a schedule breaks it first, if one does.
    pub broken: Option<Broken>,
}

// What the snapshots of a search make of the expectation of a number.
fn judge_one(
    alloc: Global,
    plan: &Plan,
    found: &Found<Snapshot>,
    text: &[u8],
    expected: &Expectations,
    number: usize,
    expectation: &Expectation,
) -> Result<Judged, NoMemory>
    ensures same { IfOk result (λ j. j.expectation ≡ expectation.now) }
    ensures first { IfOk result (λ j. IsFirstOf plan.now j.expectation (map snapshot_of found.now.tree.nodes.keys) found.now.rounds.items j.broken) }
    ensures line { IfOk result (λ j. IsLineOf text.now j.line) }
{
    let line = line_of(alloc, text, expected, number)?;
    Ok(Judged {
        line,
        expectation: *expectation,
        broken: first_broken(plan, expectation, found),
    })
}

fn push_one(all: &mut Vec<Judged>, judged: Judged) -> Result<(), NoMemory>
    ensures { OnOk result (all.new.items ≡ all.old.items ++ judged ∷ []) }
{
    all.push(judged)?;
    Ok(())
}

// What the snapshots of a search make of each of these.
fn judge_all(
    alloc: Global,
    plan: &Plan,
    found: &Found<Snapshot>,
    text: &[u8],
    expected: &Expectations,
    each: &[Expectation],
) -> Result<Vec<Judged>, NoMemory>
    ensures each { IfOk result (λ all. map what_of all.items ≡ each.now) }
    ensures firsts { IfOk result (λ all. All (IsJudgedFirst plan.now (map snapshot_of found.now.tree.nodes.keys) found.now.rounds.items) all.items) }
    ensures lines { IfOk result (λ all. All (HasLine text.now) all.items) }
{
    let mut all = Vec::new(alloc);
    for (number, expectation) in each.iter().enumerate() {
        let judged = judge_one(alloc, plan, found, text, expected, number, expectation)?;
        push_one(&mut all, judged)?;
    }
    Ok(all)
}

/// What the snapshots of a search make of what a file of this text expects. Fails where memory runs out.
pub fn judge(
    alloc: Global,
    plan: &Plan,
    found: &Found<Snapshot>,
    text: &[u8],
    expected: &Expectations,
) -> Result<Vec<Judged>, NoMemory>
    ensures { IfOk result (λ all. AreJudged plan.now (map snapshot_of found.now.tree.nodes.keys) found.now.rounds.items text.now expected.now all.items) }
{
    let each = all_of(alloc, expected)?;
    let all = judge_all(alloc, plan, found, text, expected, each.as_slice())?;
    Ok(all)
}

/// Whether a schedule breaks one of them.
pub fn has_broken(all: &[Judged]) -> bool
    ensures { result ≡ has_broken all.now }
{
    all.iter().any(|judged| judged.broken.is_some())
}
