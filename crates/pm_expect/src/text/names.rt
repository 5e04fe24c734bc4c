//! How expectations are called.

ghost use Rattle.std.specs.Prelude.{◌≡◌, ◌++◌, IfOk, OnOk};
ghost use Rattle.pm_expect.specs.text.Names.{answer_name, end_name, left_word, usage_text, use_name, which_text};
ghost use Rattle.pm_model.specs.Text.{names_of};

use crate::{Answer, End, Left, Use, Which};
use itoa::Buffer;
use pm_base::{ActorId, NoMemory};
use pm_find::text::{push, push_actor, push_device, push_number};
use pm_model::{Items, Plan};
use pm_module::push_command;
use std::alloc::Global;

/// Appends which calls are meant, where it isn't each.
fn push_which(text: &mut Vec<u8>, which: Which) -> Result<(), NoMemory>
    ensures { OnOk result (text.new.items ≡ text.old.items ++ which_text which) }
{
    if let Which::Nth(n) = which {
        push(text, b" nth ")?;
        push_number(text, n)?;
    }
    Ok(())
}

/// How an answer is called, as `answer sensor get_sync imx -5`.
pub fn answer_name(alloc: Global, plan: &Plan, answer: &Answer) -> Result<Items<u8>, NoMemory>
    ensures { IfOk result (λ name. name ≡ answer_name (names_of plan.now) answer.now) }
{
    let mut text = Vec::new(alloc);
    push(&mut text, b"answer ")?;
    push_actor(&mut text, plan, ActorId::Caller(answer.caller))?;
    push(&mut text, b" ")?;
    push_command(&mut text, plan, &answer.command)?;
    push_which(&mut text, answer.which)?;
    push(&mut text, b" ")?;
    push(&mut text, Buffer::new().format(answer.code).as_bytes())?;
    Ok(Items::new(text))
}

fn left_word(left: Left) -> &'static [u8]
    ensures { result.now ≡ left_word left }
{
    match left {
        Left::Suspended => b"suspended",
        Left::Active => b"active",
    }
}

/// Appends the usage count that is expected, if one is.
fn push_usage(text: &mut Vec<u8>, usage: Option<u32>) -> Result<(), NoMemory>
    ensures { OnOk result (text.new.items ≡ text.old.items ++ usage_text usage) }
{
    if let Some(usage) = usage {
        push(text, b" usage ")?;
        push_number(text, usage)?;
    }
    Ok(())
}

/// How an end is called, as `end imx suspended`.
pub fn end_name(alloc: Global, plan: &Plan, end: &End) -> Result<Items<u8>, NoMemory>
    ensures { IfOk result (λ name. name ≡ end_name (names_of plan.now) end.now) }
{
    let mut text = Vec::new(alloc);
    push(&mut text, b"end ")?;
    push_device(&mut text, plan, end.dev)?;
    push(&mut text, b" ")?;
    push(&mut text, left_word(end.left))?;
    push_usage(&mut text, end.usage)?;
    Ok(Items::new(text))
}

/// How a use is called, as `use imx sensor delay 5`.
pub fn use_name(alloc: Global, plan: &Plan, used: &Use) -> Result<Items<u8>, NoMemory>
    ensures { IfOk result (λ name. name ≡ use_name (names_of plan.now) used.now) }
{
    let mut text = Vec::new(alloc);
    push(&mut text, b"use ")?;
    push_device(&mut text, plan, used.dev)?;
    push(&mut text, b" ")?;
    push_actor(&mut text, plan, ActorId::Caller(used.caller))?;
    push(&mut text, b" ")?;
    push_command(&mut text, plan, &used.command)?;
    Ok(Items::new(text))
}
