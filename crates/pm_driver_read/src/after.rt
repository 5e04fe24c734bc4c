//! What callers begin after.

ghost use Rattle.std.specs.Prelude.{◌≡◌, IfOk, length, map, not, option_map, position};
ghost use Rattle.std.specs.List.{list_all, list_any};
ghost use Rattle.pm_driver_read.specs.After.{all_needs, circle_fault, circle_of, is_ready, is_set, is_unset, marks_fault, need_caller, need_of, ready_in, ready_more, sets};

use crate::driver::CallerNeed;
use crate::keys::{after_mark, after_name, caller_named};
use crate::refusal::{KeyRefusal, KeyWhy};
use crate::scripts::CallerSteps;
use crate::words::CallerWords;
use pm_base::NoMemory;
use pm_driver_script::place_in;
use pm_driver_text::{ScriptStep, StepWhat};
use pm_model::Items;
use pm_planread::tree::Text;
use pm_script::ScriptWord;
use std::alloc::Global;

/// Whether a step sets a mark.
fn sets(mark: &[u8], step: &ScriptStep) -> bool
    ensures { result ≡ sets mark.now step.now }
{
    match &step.what {
        StepWhat::Mark { name } => name.as_slice() == mark,
        _ => false,
    }
}

/// Whether one of the steps sets a mark.
fn sets_any(mark: &[u8], steps: &[ScriptStep]) -> bool
    ensures { result ≡ list_any (sets mark.now) steps.now }
{
    steps.iter().any(|step| sets(mark, step))
}

/// Whether the script of a caller sets a mark.
fn is_set(mark: &[u8], scripts: &[CallerSteps], caller: usize) -> bool
    ensures { result ≡ is_set mark.now scripts.now caller }
{
    match scripts.get(caller) {
        Some(script) => sets_any(mark, script.steps.as_slice()),
        None => false,
    }
}

/// The caller that a text of `after` names; the first where there is none, which is refused before.
fn need_caller(callers: &[CallerWords], text: &[u8]) -> usize
    ensures { result ≡ need_caller (map (λ c. c.name) callers.now) text.now }
{
    caller_named(callers, after_name(text)).unwrap_or(0)
}

/// Whether a text of `after` names a mark that its caller doesn't set.
fn is_unset(callers: &[CallerWords], scripts: &[CallerSteps], text: &[u8]) -> bool
    ensures { result ≡ is_unset (map (λ c. c.name) callers.now) scripts.now text.now }
{
    match after_mark(text) {
        Some(mark) => !is_set(mark, scripts, need_caller(callers, text)),
        None => false,
    }
}

/// The first such text.
fn first_unset(callers: &[CallerWords], scripts: &[CallerSteps], texts: &[Text]) -> Option<usize>
    ensures { result ≡ position (is_unset (map (λ c. c.name) callers.now) scripts.now) texts.now }
{
    for (at, text) in texts.iter().enumerate() {
        if is_unset(callers, scripts, text.as_slice()) {
            return Some(at);
        }
    }
    None
}

/// The first caller that begins after a mark that isn't set.
pub(crate) fn marks_fault(callers: &[CallerWords], scripts: &[CallerSteps]) -> Option<KeyRefusal>
    ensures { result ≡ marks_fault (map (λ c. c.name) callers.now) scripts.now 0 callers.now }
{
    for (caller, words) in callers.iter().enumerate() {
        if let Some(part) = first_unset(callers, scripts, words.after.as_slice()) {
            return Some(KeyRefusal {
                why: KeyWhy::Mark,
                caller,
                part,
            });
        }
    }
    None
}

/// How far another caller has to have come.
#[tactic(auto, unfolding(crate::specs::After::need_of))]
fn need_of(callers: &[CallerWords], marks: &[ScriptWord], text: &[u8]) -> CallerNeed
    ensures { result ≡ need_of (map (λ c. c.name) callers.now) marks.now text.now }
{
    CallerNeed {
        caller: need_caller(callers, text),
        mark: match after_mark(text) {
            Some(mark) => Some(place_in(marks, mark).unwrap_or(0)),
            None => None,
        },
    }
}

/// What a caller begins after.
pub(crate) fn needs_of(
    alloc: Global,
    callers: &[CallerWords],
    marks: &[ScriptWord],
    texts: &[Text],
) -> Result<Vec<CallerNeed>, NoMemory>
    ensures { IfOk result (λ v. v.items ≡ map (need_of (map (λ c. c.name) callers.now) marks.now) texts.now) }
{
    let mut needs = Vec::with_capacity(alloc, texts.len())?;
    for text in texts {
        needs.push(need_of(callers, marks, text.as_slice()))?;
    }
    Ok(needs)
}

/// What each caller begins after.
pub(crate) fn all_needs(
    alloc: Global,
    callers: &[CallerWords],
    marks: &[ScriptWord],
) -> Result<Vec<Items<CallerNeed>>, NoMemory>
    ensures { IfOk result (λ v. v.items ≡ all_needs marks.now callers.now) }
{
    let mut all = Vec::with_capacity(alloc, callers.len())?;
    for words in callers {
        all.push(Items::new(needs_of(alloc, callers, marks, words.after.as_slice())?))?;
    }
    Ok(all)
}

/// Whether a caller is among those that may begin.
fn is_ready(ready: &[bool], need: &CallerNeed) -> bool
    ensures { result ≡ is_ready ready.now need.now }
{
    match ready.get(need.caller) {
        Some(known) => *known,
        None => false,
    }
}

/// Whether all that a caller begins after may begin.
fn are_ready(ready: &[bool], needs: &[CallerNeed]) -> bool
    ensures { result ≡ list_all (is_ready ready.now) needs.now }
{
    needs.iter().all(|need| is_ready(ready, need))
}

/// Who may begin, where these may.
fn ready_more(
    alloc: Global,
    needs: &[Items<CallerNeed>],
    ready: &[bool],
) -> Result<Vec<bool>, NoMemory>
    ensures { IfOk result (λ v. v.items ≡ ready_more needs.now ready.now) }
{
    let mut more = Vec::with_capacity(alloc, needs.len())?;
    for row in needs {
        more.push(are_ready(ready, row.as_slice()))?;
    }
    Ok(more)
}

/// Who may begin, after as many rounds as there are callers.
fn ready_at_last(alloc: Global, needs: &[Items<CallerNeed>]) -> Result<Vec<bool>, NoMemory>
    ensures { IfOk result (λ v. v.items ≡ ready_in (length needs.now) needs.now) }
{
    let mut ready = Vec::new(alloc);
    for _round in 0..needs.len() {
        ready = ready_more(alloc, needs, ready.as_slice())?;
    }
    Ok(ready)
}

/// The first caller that never may begin, since it begins after callers that begin after it.
pub(crate) fn circle_fault(
    alloc: Global,
    needs: &[Items<CallerNeed>],
) -> Result<Option<KeyRefusal>, NoMemory>
    ensures { IfOk result (λ fault. fault ≡ circle_fault needs.now) }
{
    let ready = ready_at_last(alloc, needs)?;
    Ok(circle_at(first_never(ready.as_slice())))
}

/// The first that never may begin.
fn first_never(ready: &[bool]) -> Option<usize>
    ensures { result ≡ position not ready.now }
{
    for (caller, known) in ready.iter().enumerate() {
        if !*known {
            return Some(caller);
        }
    }
    None
}

fn circle_at(caller: Option<usize>) -> Option<KeyRefusal>
    ensures { result ≡ option_map circle_of caller }
{
    match caller {
        Some(caller) => Some(KeyRefusal {
            why: KeyWhy::Circle,
            caller,
            part: 0,
        }),
        None => None,
    }
}
