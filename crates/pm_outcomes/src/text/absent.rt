//! The line that says that no schedule shows what is asked for.

ghost use Rattle.std.specs.Prelude.{◌≡◌, ◌++◌, IfOk, OnOk};
ghost use Rattle.pm_outcomes.specs.text.Absent.{absent_line, limit_words, subject_text};

use crate::list::Observation;
use crate::text::pieces::push_value;
use crate::text::reach::Reach;
use crate::text::seen::{push_caller, push_none};
use pm_base::NoMemory;
use pm_linetext::{push, push_device};
use pm_model::Plan;
use std::alloc::Global;

// Appends the command that returned, or the device that is left so.
fn push_subject(text: &mut Vec<u8>, plan: &Plan, observation: &Observation) -> Result<(), NoMemory>
    ensures { OnOk result (text.new.items ≡ text.old.items ++ subject_text plan.now observation.now) }
{
    match observation {
        Observation::Return(returned) => push_caller(text, plan, returned.command, returned.caller),
        Observation::End(left) => {
            push(text, b"end ")?;
            push_device(text, plan, left.device)
        }
    }
}

/// Appends that a limit came first, where one did.
pub fn push_limit(text: &mut Vec<u8>, reach: Reach) -> Result<(), NoMemory>
    ensures { OnOk result (text.new.items ≡ text.old.items ++ limit_words reach) }
{
    match reach {
        Reach::All | Reach::Within(_) => Ok(()),
        Reach::Limit(_) => push(text, b"; a limit came first"),
    }
}

/// The line that says that an observation is in none of the schedules so far as they were gone through.
pub fn absent_text(
    alloc: Global,
    plan: &Plan,
    reach: Reach,
    observation: &Observation,
) -> Result<Vec<u8>, NoMemory>
    ensures { IfOk result (λ text. text.items ≡ absent_line plan.now reach observation.now) }
{
    let mut text = Vec::new(alloc);
    push(&mut text, b"order: ")?;
    push_subject(&mut text, plan, observation)?;
    push(&mut text, b": ")?;
    push_value(&mut text, observation)?;
    push(&mut text, b": ")?;
    push_none(&mut text, reach)?;
    push_limit(&mut text, reach)?;
    push(&mut text, b"\n")?;
    Ok(text)
}
