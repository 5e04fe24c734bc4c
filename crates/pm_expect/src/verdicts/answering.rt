//! Whether answers hold.

ghost use Rattle.std.specs.Prelude.{◌≡◌, IfOk, filter, find, map};
ghost use Rattle.pm_expect.specs.verdicts.Verdicts.{answer_by, answered, first_other, have_all, is_call_of, judged, is_other, once, returns_of};

use crate::verdicts::calls::Return;
use crate::verdicts::verdict::{Judged, Verdict};
use crate::{Answer, Which, is_same_command, times_by};
use pm_base::NoMemory;
use pm_model::{Command, Plan};
use std::alloc::Global;

/// Whether a return is that of a command of a caller.
fn is_call_of(caller: u32, command: &Command, returned: &Return) -> bool
    ensures { result ≡ is_call_of caller command.now returned.now }
{
    returned.caller == caller && is_same_command(command, &returned.command)
}

/// The returns of a command of a caller. Fails where memory runs out.
pub fn returns_of(
    alloc: Global,
    caller: u32,
    command: &Command,
    all: &[Return],
) -> Result<Vec<Return>, NoMemory>
    ensures { IfOk result (λ mine. mine.items ≡ returns_of caller command.now all.now) }
{
    let mut mine = Vec::new(alloc);
    for returned in all {
        if is_call_of(caller, command, returned) {
            mine.push(*returned)?;
        }
    }
    Ok(mine)
}

/// Whether a return has another code.
fn is_other(code: i32, returned: &Return) -> bool
    ensures { result ≡ is_other code returned.now }
{
    returned.code != code
}

/// The first return that has another code.
fn find_other(code: i32, all: &[Return]) -> Option<Return>
    ensures { result ≡ find (is_other code) all.now }
{
    for returned in all {
        if is_other(code, returned) {
            return Some(*returned);
        }
    }
    None
}

/// The first return that is meant and has another code.
fn first_other(code: i32, which: Which, all: &[Return]) -> Option<Return>
    ensures { result ≡ first_other code which all.now }
{
    match which {
        Which::Each => find_other(code, all),
        Which::Nth(n) => match all.get((n as usize).saturating_sub(1)) {
            Some(returned) if is_other(code, returned) => Some(*returned),
            _ => None,
        },
    }
}

/// Whether all calls that are meant are among so many that have returned, where the script has so many.
fn have_all(times: usize, which: Which, returned: usize) -> bool
    ensures { result ≡ have_all times which returned }
{
    match which {
        Which::Each => times <= returned,
        Which::Nth(n) => n as usize <= returned,
    }
}

/// An expectation that doesn't fail holds once it is decided, and is open else.
pub fn once<T>(done: bool) -> Verdict<T>
    ensures { result ≡ once done }
{
    if done { Verdict::Holds } else { Verdict::Open }
}

/// What becomes of an answer, where all calls that it means have returned or not.
fn answered(done: bool, other: Option<Return>) -> Verdict<i32>
    ensures { result ≡ answered done other }
{
    match other {
        Some(returned) => Verdict::Fails {
            line: returned.line,
            told: returned.code,
        },
        None => once(done),
    }
}

/// What becomes of an answer, by the calls that have returned.
#[tactic(auto, unfolding(crate::specs::verdicts::Verdicts::answer_by))]
fn answer_by(
    alloc: Global,
    plan: &Plan,
    all: &[Return],
    answer: &Answer,
) -> Result<Verdict<i32>, NoMemory>
    ensures { IfOk result (λ v. v ≡ answer_by plan.now all.now answer.now) }
{
    let mine = returns_of(alloc, answer.caller, &answer.command, all)?;
    let times = times_by(plan, answer.caller, &answer.command);
    let done = have_all(times, answer.which, mine.len());
    Ok(answered(done, first_other(answer.code, answer.which, &mine)))
}

/// An answer with what becomes of it.
fn judged_answer(
    alloc: Global,
    plan: &Plan,
    all: &[Return],
    answer: &Answer,
) -> Result<Judged<Answer, i32>, NoMemory>
    ensures { IfOk result (λ j. j ≡ judged (answer_by plan.now all.now) answer.now) }
{
    Ok(Judged {
        expected: *answer,
        verdict: answer_by(alloc, plan, all, answer)?,
    })
}

/// What becomes of each answer, by the calls that have returned. Fails where memory runs out.
pub fn answers(
    alloc: Global,
    plan: &Plan,
    all: &[Return],
    expected: &[Answer],
) -> Result<Vec<Judged<Answer, i32>>, NoMemory>
    ensures { IfOk result (λ v. v.items ≡ map (judged (answer_by plan.now all.now)) expected.now) }
{
    let mut verdicts = Vec::with_capacity(alloc, expected.len())?;
    for answer in expected {
        verdicts.push(judged_answer(alloc, plan, all, answer)?)?;
    }
    Ok(verdicts)
}
