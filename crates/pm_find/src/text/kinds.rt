//! What is told of findings, kind by kind.

ghost use Rattle.std.specs.Prelude.{◌≡◌, ◌++◌, OnOk, false};
ghost use Rattle.pm_find.specs.declared.findings.Kind.TheVariants as kind;
ghost use Rattle.pm_find.specs.text.Texts.{holder_text, keeper_text, keeps_text, kind_text, taken_text};
ghost use Rattle.pm_model.specs.Spelling.{cb_word, device_name};
ghost use Rattle.pm_model.specs.Text.{names_of};

use crate::findings::{DomainOn, Holder, Kind};
use crate::text::bonds::push_bond;
use crate::text::pieces::{
    push, push_actor, push_call, push_code, push_device, push_domain, push_helper, push_long,
    push_number,
};
use crate::text::words::cb_word;
use pm_base::{ActorId, Cb, DevId, EINVAL, NoMemory};
use pm_model::{Helper, Plan};

/// Appends which call took a count.
fn push_taken(text: &mut Vec<u8>, helper: Option<Helper>) -> Result<(), NoMemory>
    ensures { OnOk result (text.new.items ≡ text.old.items ++ taken_text helper) }
{
    match helper {
        Some(helper) => {
            push(text, b" that ")?;
            push_helper(text, helper)?;
            push(text, b" took here")?;
        }
        None => push(text, b" that was taken here")?,
    }
    Ok(())
}

/// Appends which other device holds a device.
fn push_held(text: &mut Vec<u8>, plan: &Plan, what: &[u8], other: DevId) -> Result<(), NoMemory>
    ensures { OnOk result (text.new.items ≡ text.old.items ++ (what.now ++ device_name (names_of plan.now) other.0)) }
{
    push(text, what)?;
    push_device(text, plan, other)?;
    Ok(())
}

/// Appends what holds a device that no caller holds.
fn push_holder(text: &mut Vec<u8>, plan: &Plan, by: Holder) -> Result<(), NoMemory>
    ensures { OnOk result (text.new.items ≡ text.old.items ++ holder_text (names_of plan.now) by) }
{
    match by {
        Holder::Forbid => push(text, b", held by forbid"),
        Holder::Delay => push(text, b", held by a negative autosuspend delay"),
        Holder::Consumer(dev) => push_held(text, plan, b", held by its consumer ", dev),
        Holder::Child(dev) => push_held(text, plan, b", held by its child ", dev),
        Holder::Nobody => push(text, b", held by no caller"),
    }
}

/// Appends what is told of a count that isn't given back.
fn push_leak(
    text: &mut Vec<u8>,
    plan: &Plan,
    actor: ActorId,
    dev: DevId,
    helper: Option<Helper>,
) -> Result<(), NoMemory>
    ensures { OnOk result (text.new.items ≡ text.old.items ++ kind_text plan.now (kind.Leak actor dev helper)) }
{
    push_actor(text, plan, actor)?;
    push(text, b" never gives back the count of ")?;
    push_device(text, plan, dev)?;
    push_taken(text, helper)?;
    Ok(())
}

/// Appends what is told of a count of another caller.
fn push_stolen(
    text: &mut Vec<u8>,
    plan: &Plan,
    actor: ActorId,
    dev: DevId,
    owner: ActorId,
    line: u32,
) -> Result<(), NoMemory>
    ensures { OnOk result (text.new.items ≡ text.old.items ++ kind_text plan.now (kind.Stolen actor dev owner line)) }
{
    push_actor(text, plan, actor)?;
    push(text, b" puts a count of ")?;
    push_device(text, plan, dev)?;
    push(text, b" that ")?;
    push_actor(text, plan, owner)?;
    push(text, b" took in line ")?;
    push_number(text, line)?;
    Ok(())
}

/// Appends what a call answers.
fn push_answer(
    text: &mut Vec<u8>,
    plan: &Plan,
    actor: ActorId,
    helper: Helper,
    dev: DevId,
    code: i32,
) -> Result<(), NoMemory>
    ensures { OnOk result (text.new.items ≡ text.old.items ++ kind_text plan.now (kind.Refused actor helper dev code)) }
{
    push_actor(text, plan, actor)?;
    push(text, b": ")?;
    push_call(text, plan, helper, dev)?;
    push(text, b" answers ")?;
    push_code(text, code)?;
    Ok(())
}

/// Appends that a call keeps its count, if it does.
fn push_keeps(text: &mut Vec<u8>, keeps: bool) -> Result<(), NoMemory>
    ensures { OnOk result (text.new.items ≡ text.old.items ++ keeps_text keeps) }
{
    if keeps {
        push(text, b" and keeps its count")?;
    }
    Ok(())
}

/// Appends which error a call answers.
fn push_error(
    text: &mut Vec<u8>,
    plan: &Plan,
    actor: ActorId,
    helper: Helper,
    dev: DevId,
    code: i32,
    keeps: bool,
) -> Result<(), NoMemory>
    ensures { OnOk result (text.new.items ≡ text.old.items ++ kind_text plan.now (kind.Answer actor helper dev code keeps false)) }
{
    push_answer(text, plan, actor, helper, dev, code)?;
    push_keeps(text, keeps)?;
    Ok(())
}

/// Appends that a call that forces a status is refused.
fn push_refused_status(
    text: &mut Vec<u8>,
    plan: &Plan,
    actor: ActorId,
    helper: Helper,
    dev: DevId,
    code: i32,
) -> Result<(), NoMemory>
    ensures { OnOk result (text.new.items ≡ text.old.items ++ kind_text plan.now (kind.RefusedStatus actor helper dev code)) }
{
    push_answer(text, plan, actor, helper, dev, code)?;
    push(text, b", and the status stays")?;
    Ok(())
}

/// Appends that a put has no count to give back.
fn push_refused_put(
    text: &mut Vec<u8>,
    plan: &Plan,
    actor: ActorId,
    helper: Helper,
    dev: DevId,
    code: i32,
) -> Result<(), NoMemory>
    ensures { OnOk result (text.new.items ≡ text.old.items ++ kind_text plan.now (kind.RefusedPut actor helper dev code false)) }
{
    push_answer(text, plan, actor, helper, dev, code)?;
    push(text, b": there is no count to give back")?;
    Ok(())
}

/// Appends that a call takes no count.
fn push_no_count(
    text: &mut Vec<u8>,
    plan: &Plan,
    actor: ActorId,
    helper: Helper,
    dev: DevId,
) -> Result<(), NoMemory>
    ensures { OnOk result (text.new.items ≡ text.old.items ++ kind_text plan.now (kind.NoCount actor helper dev)) }
{
    push_actor(text, plan, actor)?;
    push(text, b": ")?;
    push_call(text, plan, helper, dev)?;
    push(text, b" answers 0 and takes no count")?;
    Ok(())
}

/// Appends what is told of a device that is left on.
fn push_left_on(text: &mut Vec<u8>, plan: &Plan, dev: DevId, by: Holder) -> Result<(), NoMemory>
    ensures { OnOk result (text.new.items ≡ text.old.items ++ kind_text plan.now (kind.LeftOn dev by)) }
{
    push_device(text, plan, dev)?;
    push(text, b" is active at the end")?;
    push_holder(text, plan, by)?;
    Ok(())
}

/// Appends what is told of a count under which its device was never on.
fn push_never_on(
    text: &mut Vec<u8>,
    plan: &Plan,
    actor: ActorId,
    dev: DevId,
    line: u32,
) -> Result<(), NoMemory>
    ensures { OnOk result (text.new.items ≡ text.old.items ++ kind_text plan.now (kind.NeverOn actor dev line)) }
{
    push_actor(text, plan, actor)?;
    push(text, b" puts the count of line ")?;
    push_number(text, line)?;
    push(text, b", and ")?;
    push_device(text, plan, dev)?;
    push(text, b" was never active in between")?;
    Ok(())
}

/// Appends what is told of a device that isn't marked as busy.
fn push_unmarked(
    text: &mut Vec<u8>,
    plan: &Plan,
    actor: ActorId,
    helper: Helper,
    dev: DevId,
    ms: u64,
    delay: u64,
) -> Result<(), NoMemory>
    ensures { OnOk result (text.new.items ≡ text.old.items ++ kind_text plan.now (kind.Unmarked actor helper dev ms delay)) }
{
    push_actor(text, plan, actor)?;
    push(text, b": ")?;
    push_call(text, plan, helper, dev)?;
    push(text, b" comes ")?;
    push_long(text, ms)?;
    push(
        text,
        b" ms after it was last marked as busy, and its delay of ",
    )?;
    push_long(text, delay)?;
    push(text, b" ms counts from there")?;
    Ok(())
}

/// Appends which device keeps a domain on, if one does.
fn push_keeper(text: &mut Vec<u8>, plan: &Plan, keeper: Option<DevId>) -> Result<(), NoMemory>
    ensures { OnOk result (text.new.items ≡ text.old.items ++ keeper_text (names_of plan.now) keeper) }
{
    if let Some(dev) = keeper {
        push(text, b"; ")?;
        push_device(text, plan, dev)?;
        push(text, b" is disabled")?;
    }
    Ok(())
}

/// Appends what is told of a domain that is left on.
fn push_domain_on(text: &mut Vec<u8>, plan: &Plan, left: DomainOn) -> Result<(), NoMemory>
    ensures { OnOk result (text.new.items ≡ text.old.items ++ kind_text plan.now (kind.DomainOn left)) }
{
    push(text, b"domain ")?;
    push_domain(text, plan, left.domain)?;
    push(text, b" is on at the end, and no device of it is active")?;
    push_keeper(text, plan, left.keeper)?;
    Ok(())
}

/// Appends the word of a callback.
fn push_cb(text: &mut Vec<u8>, cb: Cb) -> Result<(), NoMemory>
    ensures { OnOk result (text.new.items ≡ text.old.items ++ cb_word cb) }
{
    push(text, cb_word(cb))
}

/// Appends what a callback answers.
fn push_failed(
    text: &mut Vec<u8>,
    plan: &Plan,
    dev: DevId,
    cb: Cb,
    code: i32,
) -> Result<(), NoMemory>
    ensures { OnOk result (text.new.items ≡ text.old.items ++ kind_text plan.now (kind.Failed dev cb code)) }
{
    push_device(text, plan, dev)?;
    push(text, b": the ")?;
    push_cb(text, cb)?;
    push(text, b" callback answers ")?;
    push_code(text, code)?;
    Ok(())
}

/// Appends what is told of a call that a stored error refuses.
fn push_poisoned(
    text: &mut Vec<u8>,
    plan: &Plan,
    actor: ActorId,
    helper: Helper,
    dev: DevId,
    line: u32,
    keeps: bool,
) -> Result<(), NoMemory>
    ensures { OnOk result (text.new.items ≡ text.old.items ++ kind_text plan.now (kind.Poisoned actor helper dev line keeps)) }
{
    push_error(text, plan, actor, helper, dev, EINVAL, keeps)?;
    push(text, b": line ")?;
    push_number(text, line)?;
    push(text, b" stored an error")?;
    Ok(())
}

/// Appends what is told of a finding of this kind.
pub(crate) fn push_kind(text: &mut Vec<u8>, plan: &Plan, kind: &Kind) -> Result<(), NoMemory>
    ensures { OnOk result (text.new.items ≡ text.old.items ++ kind_text plan.now kind.now) }
{
    match *kind {
        Kind::Leak { actor, dev, helper } => push_leak(text, plan, actor, dev, helper),
        Kind::Stolen {
            actor,
            dev,
            owner,
            line,
        } => push_stolen(text, plan, actor, dev, owner, line),
        Kind::Answer {
            actor,
            helper,
            dev,
            code,
            keeps,
            ..
        } => push_error(text, plan, actor, helper, dev, code, keeps),
        Kind::Refused {
            actor,
            helper,
            dev,
            code,
        } => push_answer(text, plan, actor, helper, dev, code),
        Kind::RefusedStatus {
            actor,
            helper,
            dev,
            code,
        } => push_refused_status(text, plan, actor, helper, dev, code),
        Kind::RefusedPut {
            actor,
            helper,
            dev,
            code,
            ..
        } => push_refused_put(text, plan, actor, helper, dev, code),
        Kind::NoCount { actor, helper, dev } => push_no_count(text, plan, actor, helper, dev),
        Kind::LeftOn { dev, by } => push_left_on(text, plan, dev, by),
        Kind::NeverOn { actor, dev, line } => push_never_on(text, plan, actor, dev, line),
        Kind::Unmarked {
            actor,
            helper,
            dev,
            ms,
            delay,
        } => push_unmarked(text, plan, actor, helper, dev, ms, delay),
        Kind::Failed { dev, cb, code } => push_failed(text, plan, dev, cb, code),
        Kind::Poisoned {
            actor,
            helper,
            dev,
            line,
            keeps,
        } => push_poisoned(text, plan, actor, helper, dev, line, keeps),
        Kind::Off(bond) => push_bond(text, plan, bond),
        Kind::DomainOn(left) => push_domain_on(text, plan, left),
    }
}
