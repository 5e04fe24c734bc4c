//! The exits of a step.

ghost use Rattle.std.specs.Prelude.{◌≡◌, ◌≤◌, ◌++◌, IfErr, IfOk, Ok, OnOk, length};
ghost use Rattle.pm_driver_text.specs.Exits.{end_of, exits_in, few_of, found_in, next_in};
ghost use Rattle.pm_driver_text.specs.Results.{IsErrorOf};
ghost use Rattle.pm_driver_text.specs.declared.exits.Awaited.TheVariants as Awaited;

use crate::fault::{StepError, StepFault};
use crate::names::is_plain_name;
use crate::verbs::{CodeTest, test_of};
use pm_script::ScriptWord;
use std::alloc::{AllocError, Global};

/// The exits of a step, at most.
pub const MAX_EXITS: usize = 8;

/// Where a step goes on for some codes.
#[derive(Drop)]
pub struct StepExit<'a> {
    pub test: CodeTest,
    pub label: ScriptWord<'a>,
}

/// What the next word of exits is to be.
#[derive(Clone, Copy)]
pub enum Awaited {
    /// `or` or `on`, or there is none.
    Start,
    /// A code or `nonzero`.
    Code,
    /// A label.
    Label { test: CodeTest },
}

/// What is awaited behind `or` or `on`.
fn behind_start(word: &[u8]) -> Result<Awaited, StepFault>
    ensures { result ≡ next_in Awaited.Start word.now }
{
    match word {
        b"or" => Ok(Awaited::Label {
            test: CodeTest::Negative,
        }),
        b"on" => Ok(Awaited::Code),
        _ => Err(StepFault::NoExit),
    }
}

/// What is awaited behind a code.
fn behind_code(word: &[u8]) -> Result<Awaited, StepFault>
    ensures { result ≡ next_in Awaited.Code word.now }
{
    match test_of(word) {
        Some(test) => Ok(Awaited::Label { test }),
        None => Err(StepFault::NoNumber),
    }
}

/// What is awaited behind a word.
fn next_in(awaited: Awaited, word: &[u8]) -> Result<Awaited, StepFault>
    ensures { result ≡ next_in awaited word.now }
{
    match awaited {
        Awaited::Start => behind_start(word),
        Awaited::Code => behind_code(word),
        Awaited::Label { .. } => {
            if is_plain_name(word) {
                Ok(Awaited::Start)
            } else {
                Err(StepFault::NoName)
            }
        }
    }
}

/// Appends the exit that ends with a word.
fn push_found<'a>(
    exits: &mut Vec<StepExit<'a>>,
    awaited: Awaited,
    word: &'a [u8],
) -> Result<(), AllocError>
    ensures { OnOk result (exits.new.items ≡ exits.old.items ++ found_in awaited word.now) }
{
    match awaited {
        Awaited::Label { test } => {
            exits.push(StepExit {
                test,
                label: ScriptWord::new(word),
            })?;
            Ok(())
        }
        Awaited::Start | Awaited::Code => Ok(()),
    }
}

/// Whether exits may end where this is awaited.
fn end_of(awaited: Awaited) -> Result<(), StepFault>
    ensures { result ≡ end_of awaited }
{
    match awaited {
        Awaited::Start => Ok(()),
        Awaited::Code => Err(StepFault::NoNumber),
        Awaited::Label { .. } => Err(StepFault::NoName),
    }
}

/// The exits that words are, or why they are none.
#[tactic(auto, using(crate::proofs::ExitLemmas::behind_nothing, crate::proofs::ExitLemmas::read_more, crate::proofs::ExitLemmas::read_refused, crate::proofs::ExitLemmas::read_all, crate::proofs::ExitLemmas::read_cut))]
pub(crate) fn exits_in<'a>(
    alloc: Global,
    words: &[ScriptWord<'a>],
) -> Result<Vec<StepExit<'a>>, StepError>
    ensures ok { IfOk result (λ exits. exits_in words.now ≡ Ok exits.items) }
    ensures fault { IfErr result (IsErrorOf (exits_in words.now)) }
{
    let mut exits = Vec::new(alloc);
    let mut awaited = Awaited::Start;
    for word in words {
        let next = next_in(awaited, word.as_slice())?;
        push_found(&mut exits, awaited, word.as_slice())?;
        awaited = next;
    }
    end_of(awaited)?;
    Ok(exits)
}

/// The exits, where there aren't too many.
pub(crate) fn few_exits<'a>(
    alloc: Global,
    words: &[ScriptWord<'a>],
) -> Result<Vec<StepExit<'a>>, StepError>
    ensures few { IfOk result (λ exits. length exits.items ≤ 8) }
    ensures ok { IfOk result (λ exits. few_of (exits_in words.now) ≡ Ok exits.items) }
    ensures fault { IfErr result (IsErrorOf (few_of (exits_in words.now))) }
{
    let exits = exits_in(alloc, words)?;
    if exits.len() > MAX_EXITS {
        return Err(StepError::Refused {
            fault: StepFault::ManyExits,
        });
    }
    Ok(exits)
}
