//! The pieces of the text, each of which is appended to what stands before it.

ghost use Rattle.std.specs.Prelude.{◌≡◌, ◌++◌, IfOk, OnOk};
ghost use Rattle.pm_expect_report.specs.declared.broken.expectation.Expectation.TheVariants as expectation;
ghost use Rattle.pm_expect_report.specs.orders.Texts.{beyond_text, breach_told, fewest_text, holds_text, holds_within, name_of, within_text};
ghost use Rattle.pm_model.specs.Text.{names_of};
ghost use Rattle.pm_outcomes.specs.text.Reached.{last_round};

use crate::broken::{Breach, Expectation};
use pm_base::NoMemory;
use pm_expect::text::{answer_name, answer_told, end_name, end_told, use_name, use_told};
use pm_expect::{Answer, End, Use};
use pm_model::{Items, Plan};
use pm_outcomes::text::{Reach, push, push_after, push_number};
use std::alloc::Global;

// How an expectation is called.
fn name_of(alloc: Global, plan: &Plan, expectation: &Expectation) -> Result<Items<u8>, NoMemory>
    ensures { IfOk result (λ name. name ≡ name_of (names_of plan.now) expectation.now) }
{
    match expectation {
        Expectation::Answer(answer) => answer_name(alloc, plan, answer),
        Expectation::End(end) => end_name(alloc, plan, end),
        Expectation::Use(each) => use_name(alloc, plan, each),
    }
}

// How an answer is broken.
fn answer_breach(
    alloc: Global,
    plan: &Plan,
    answer: &Answer,
    breach: &Breach,
) -> Result<Items<u8>, NoMemory>
    ensures { IfOk result (λ told. told ≡ breach_told (names_of plan.now) (expectation.Answer answer.now) breach.now) }
{
    match breach {
        Breach::Answered(code) => answer_told(alloc, plan, answer, *code),
        _ => Ok(Items::new(Vec::new(alloc))),
    }
}

// How an end is broken.
fn end_breach(alloc: Global, plan: &Plan, end: &End, breach: &Breach) -> Result<Items<u8>, NoMemory>
    ensures { IfOk result (λ told. told ≡ breach_told (names_of plan.now) (expectation.End end.now) breach.now) }
{
    match breach {
        Breach::Leaving(leaves) => end_told(alloc, plan, end, *leaves),
        _ => Ok(Items::new(Vec::new(alloc))),
    }
}

// How a use is broken.
fn use_breach(
    alloc: Global,
    plan: &Plan,
    each: &Use,
    breach: &Breach,
) -> Result<Items<u8>, NoMemory>
    ensures { IfOk result (λ told. told ≡ breach_told (names_of plan.now) (expectation.Use each.now) breach.now) }
{
    match breach {
        Breach::Lacking(lack) => use_told(alloc, plan, each, *lack),
        _ => Ok(Items::new(Vec::new(alloc))),
    }
}

// How an expectation is broken.
fn breach_told(
    alloc: Global,
    plan: &Plan,
    expectation: &Expectation,
    breach: &Breach,
) -> Result<Items<u8>, NoMemory>
    ensures { IfOk result (λ told. told ≡ breach_told (names_of plan.now) expectation.now breach.now) }
{
    match expectation {
        Expectation::Answer(answer) => answer_breach(alloc, plan, answer, breach),
        Expectation::End(end) => end_breach(alloc, plan, end, breach),
        Expectation::Use(each) => use_breach(alloc, plan, each, breach),
    }
}

/// Appends how an expectation is called.
pub fn push_name(
    text: &mut Vec<u8>,
    alloc: Global,
    plan: &Plan,
    expectation: &Expectation,
) -> Result<(), NoMemory>
    ensures { OnOk result (text.new.items ≡ text.old.items ++ name_of (names_of plan.now) expectation.now) }
{
    let name = name_of(alloc, plan, expectation)?;
    push(text, name.as_slice())
}

/// Appends how an expectation is broken.
pub fn push_breach(
    text: &mut Vec<u8>,
    alloc: Global,
    plan: &Plan,
    expectation: &Expectation,
    breach: &Breach,
) -> Result<(), NoMemory>
    ensures { OnOk result (text.new.items ≡ text.old.items ++ breach_told (names_of plan.now) expectation.now breach.now) }
{
    let told = breach_told(alloc, plan, expectation, breach)?;
    push(text, told.as_slice())
}

// Appends that there are more preemptions than the last complete round has, if one is complete.
fn push_beyond(text: &mut Vec<u8>, rounds: usize) -> Result<(), NoMemory>
    ensures { OnOk result (text.new.items ≡ text.old.items ++ beyond_text (last_round rounds)) }
{
    if rounds == 0 {
        return push(text, b" in some schedule");
    }
    push(text, b" after more than ")?;
    push_number(text, rounds - 1)
}

/// Appends by how many preemptions an expectation is broken, of so many rounds.
pub fn push_fewest(text: &mut Vec<u8>, rounds: usize, round: usize) -> Result<(), NoMemory>
    ensures { OnOk result (text.new.items ≡ text.old.items ++ fewest_text rounds round) }
{
    if round < rounds {
        push_after(text, round)
    } else {
        push_beyond(text, rounds)
    }
}

// Appends that schedules of at most so many preemptions are meant.
#[tactic(auto, unfolding(crate::specs::orders::Texts::within_text))]
fn push_within(text: &mut Vec<u8>, round: usize) -> Result<(), NoMemory>
    ensures { OnOk result (text.new.items ≡ text.old.items ++ within_text round) }
{
    push(text, b" of at most ")?;
    push_number(text, round)?;
    push(text, b" preemptions")
}

// Appends that it holds in every schedule of at most so many preemptions.
fn push_holds_within(text: &mut Vec<u8>, round: usize) -> Result<(), NoMemory>
    ensures { OnOk result (text.new.items ≡ text.old.items ++ holds_within round) }
{
    push(text, b"holds in every schedule")?;
    push_within(text, round)
}

/// Appends in which schedules it holds.
pub fn push_holds(text: &mut Vec<u8>, reach: Reach) -> Result<(), NoMemory>
    ensures { OnOk result (text.new.items ≡ text.old.items ++ holds_text reach) }
{
    match reach {
        Reach::All => push(text, b"holds in every schedule"),
        Reach::Within(round) => push_holds_within(text, round),
        Reach::Limit(Some(round)) => push_holds_within(text, round),
        Reach::Limit(None) => push(text, b"no round is complete"),
    }
}
