//! Expectations of all kinds, and what of them is broken where a schedule stands.

ghost use Rattle.std.specs.Prelude.{◌≡◌, ◌++◌, IfOk, OnOk, map};
ghost use Rattle.pm_expect_report.specs.broken.Breaches.{breach_at};
ghost use Rattle.pm_expect_report.specs.broken.Found.{all_of};
ghost use Rattle.pm_expect_report.specs.declared.broken.expectation.Expectation.TheVariants as expectation;
ghost use Rattle.pm_explore.specs.state.SnapshotOf.{snapshot_of};

use crate::broken::answering::other_code;
use crate::broken::ending::other_end;
use crate::broken::using::lack_in_use;
use pm_base::NoMemory;
use pm_expect::verdicts::{Lack, Leaves};
use pm_expect::{Answer, End, Expectations, Use};
use pm_explore::state::Snapshot;
use pm_model::Plan;
use std::alloc::Global;

/// What an author expects.
#[derive(Clone, Copy, PartialEq, Eq)]
pub enum Expectation {
    /// A call answers a code.
    Answer(Answer),
    /// A finished run leaves a device so.
    End(End),
    /// A device can be used in each call of a command.
    Use(Use),
}

/// How an expectation is broken.
#[derive(Clone, Copy, PartialEq, Eq)]
pub enum Breach {
    /// The call answered another code.
    Answered(i32),
    /// The run is finished, and leaves the device otherwise.
    Leaving(Leaves),
    /// The device lacks something in the call.
    Lacking(Lack),
}

// Appends answers.
fn push_answers(all: &mut Vec<Expectation>, answers: &[Answer]) -> Result<(), NoMemory>
    ensures { OnOk result (all.new.items ≡ all.old.items ++ map (λ a. expectation.Answer a) answers.now) }
{
    for answer in answers {
        all.push(Expectation::Answer(*answer))?;
    }
    Ok(())
}

// Appends ends.
fn push_ends(all: &mut Vec<Expectation>, ends: &[End]) -> Result<(), NoMemory>
    ensures { OnOk result (all.new.items ≡ all.old.items ++ map (λ e. expectation.End e) ends.now) }
{
    for end in ends {
        all.push(Expectation::End(*end))?;
    }
    Ok(())
}

// Appends uses.
fn push_uses(all: &mut Vec<Expectation>, uses: &[Use]) -> Result<(), NoMemory>
    ensures { OnOk result (all.new.items ≡ all.old.items ++ map (λ u. expectation.Use u) uses.now) }
{
    for each in uses {
        all.push(Expectation::Use(*each))?;
    }
    Ok(())
}

/// What a file expects: its answers, its ends and its uses, each in the file's order. Fails where memory runs out.
pub fn all_of(alloc: Global, expected: &Expectations) -> Result<Vec<Expectation>, NoMemory>
    ensures { IfOk result (λ all. all.items ≡ all_of expected.now) }
{
    let mut all = Vec::new(alloc);
    push_answers(&mut all, expected.answers.as_slice())?;
    push_ends(&mut all, expected.ends.as_slice())?;
    push_uses(&mut all, expected.uses.as_slice())?;
    Ok(all)
}

/// How an expectation is broken at a snapshot, if it is.
#[tactic(auto, unfolding(crate::specs::broken::Breaches::breach_at))]
pub fn breach_at(plan: &Plan, expectation: &Expectation, snapshot: &Snapshot) -> Option<Breach>
    ensures { result ≡ breach_at plan.now expectation.now (snapshot_of snapshot.now) }
{
    match expectation {
        Expectation::Answer(answer) => match other_code(plan, answer, snapshot) {
            Some(code) => Some(Breach::Answered(code)),
            None => None,
        },
        Expectation::End(end) => match other_end(plan, end, snapshot) {
            Some(leaves) => Some(Breach::Leaving(leaves)),
            None => None,
        },
        Expectation::Use(each) => match lack_in_use(plan, each, snapshot) {
            Some(lack) => Some(Breach::Lacking(lack)),
            None => None,
        },
    }
}
