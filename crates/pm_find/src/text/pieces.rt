//! The pieces of a text, each of which is appended to what stands before it.

ghost use Rattle.std.specs.Prelude.{◌≡◌, ◌++◌, OnOk, codes, decimal, map, slice_index_or};
ghost use Rattle.std.specs.Fmt.{signed_decimal};
ghost use Rattle.pm_find.specs.text.Texts.{call_text, code_name, code_text, domain_name};
ghost use Rattle.pm_model.specs.Spelling.{actor_text, caller_name, cb_word, device_name, helper_word};
ghost use Rattle.pm_model.specs.Text.{names_of};

use itoa::Buffer;
use pm_base::{
    ActorId, Cb, DevId, DomId, EACCES, EAGAIN, EBUSY, EINPROGRESS, EINVAL, EIO, EPERM, ETIMEDOUT,
    NoMemory,
};
use pm_linetext::{helper_place, takes_device};
use pm_model::{Helper, Named, Plan};
use pm_names::helpers;

/// Appends bytes. Fails where memory runs out.
pub fn push(text: &mut Vec<u8>, piece: &[u8]) -> Result<(), NoMemory>
    ensures { OnOk result (text.new.items ≡ text.old.items ++ piece.now) }
{
    text.extend_from_slice(piece)?;
    Ok(())
}

/// Appends a number in decimal. Fails where memory runs out.
pub fn push_number(text: &mut Vec<u8>, number: u32) -> Result<(), NoMemory>
    ensures { OnOk result (text.new.items ≡ text.old.items ++ decimal number) }
{
    push(text, Buffer::new().format(number).as_bytes())
}

/// Appends a number of milliseconds in decimal.
pub(crate) fn push_long(text: &mut Vec<u8>, number: u64) -> Result<(), NoMemory>
    ensures { OnOk result (text.new.items ≡ text.old.items ++ decimal number) }
{
    push(text, Buffer::new().format(number).as_bytes())
}

/// Appends the word of a helper.
pub(crate) fn push_helper(text: &mut Vec<u8>, helper: Helper) -> Result<(), NoMemory>
    ensures { OnOk result (text.new.items ≡ text.old.items ++ helper_word helper) }
{
    push(text, helpers().name_of(helper_place(helper)))
}

/// The name of a device of the plan, and no bytes for another.
#[tactic(auto, using(crate::proofs::text::TextLemmas::name_here))]
fn device_name(plan: &Plan, place: u32) -> &[u8]
    ensures { result.now ≡ device_name (names_of plan.now) place }
{
    match plan.devices.get(place as usize) {
        Some(row) => row.name().as_slice(),
        None => &[],
    }
}

/// The name of a caller of the plan, and no bytes for another.
#[tactic(auto, using(crate::proofs::text::TextLemmas::name_here))]
fn caller_name(plan: &Plan, place: u32) -> &[u8]
    ensures { result.now ≡ caller_name (names_of plan.now) place }
{
    match plan.callers.get(place as usize) {
        Some(row) => row.name().as_slice(),
        None => &[],
    }
}

/// Appends the name of a device of the plan, and no bytes for another. Fails where memory runs out.
pub fn push_device(text: &mut Vec<u8>, plan: &Plan, dev: DevId) -> Result<(), NoMemory>
    ensures { OnOk result (text.new.items ≡ text.old.items ++ device_name (names_of plan.now) dev.0) }
{
    push(text, device_name(plan, dev.0))
}

/// The name of a domain of the plan, and no bytes for another.
#[tactic(auto, using(crate::proofs::text::TextLemmas::name_here))]
fn domain_name(plan: &Plan, place: u32) -> &[u8]
    ensures { result.now ≡ domain_name plan.now (record { 0 = place }) }
{
    match plan.domains.get(place as usize) {
        Some(row) => row.name().as_slice(),
        None => &[],
    }
}

/// Appends the name of a domain of the plan, and no bytes for another.
pub(crate) fn push_domain(text: &mut Vec<u8>, plan: &Plan, domain: DomId) -> Result<(), NoMemory>
    ensures { OnOk result (text.new.items ≡ text.old.items ++ domain_name plan.now domain) }
{
    push(text, domain_name(plan, domain.0))
}

/// Appends the name of an actor. Fails where memory runs out.
pub fn push_actor(text: &mut Vec<u8>, plan: &Plan, actor: ActorId) -> Result<(), NoMemory>
    ensures { OnOk result (text.new.items ≡ text.old.items ++ actor_text (names_of plan.now) actor) }
{
    match actor {
        ActorId::Caller(caller) => push(text, caller_name(plan, caller))?,
        ActorId::Work(device) => {
            push(text, b"work.")?;
            push(text, device_name(plan, device))?;
        }
        ActorId::Timer(device) => {
            push(text, b"timer.")?;
            push(text, device_name(plan, device))?;
        }
    }
    Ok(())
}

/// Appends a call, as in a line.
pub(crate) fn push_call(
    text: &mut Vec<u8>,
    plan: &Plan,
    helper: Helper,
    dev: DevId,
) -> Result<(), NoMemory>
    ensures { OnOk result (text.new.items ≡ text.old.items ++ call_text (names_of plan.now) helper dev) }
{
    push_helper(text, helper)?;
    if takes_device(helper) {
        push(text, b" ")?;
        push_device(text, plan, dev)?;
    }
    Ok(())
}

/// The name of a code, if it has one.
fn code_name(code: i32) -> &'static [u8]
    ensures { result.now ≡ code_name code }
{
    match code {
        EPERM => b" (EPERM)",
        EIO => b" (EIO)",
        EAGAIN => b" (EAGAIN)",
        EACCES => b" (EACCES)",
        EBUSY => b" (EBUSY)",
        EINVAL => b" (EINVAL)",
        ETIMEDOUT => b" (ETIMEDOUT)",
        EINPROGRESS => b" (EINPROGRESS)",
        _ => b"",
    }
}

/// Appends a code with its name, if it has one. Fails where memory runs out.
pub fn push_code(text: &mut Vec<u8>, code: i32) -> Result<(), NoMemory>
    ensures { OnOk result (text.new.items ≡ text.old.items ++ code_text code) }
{
    push(text, Buffer::new().format(code).as_bytes())?;
    push(text, code_name(code))?;
    Ok(())
}
