//! The pieces of a text, each of which is appended to what stands before it. Each fails only where memory runs out.

ghost use Rattle.std.specs.Prelude.{◌≡◌, ◌++◌, OnOk, decimal};
ghost use Rattle.std.specs.Fmt.{signed_decimal};
ghost use Rattle.pm_linetext.specs.Appended.{call_text, domain_name};
ghost use Rattle.pm_model.specs.Spelling.{actor_text, caller_name, command_text, device_name};
ghost use Rattle.pm_model.specs.Spelling.{device_part, helper_word, operand_part};
ghost use Rattle.pm_model.specs.Text.{names_of};

use crate::names::name_at;
use crate::words::{helper_place, operand_of, takes_device};
use itoa::Buffer;
use pm_base::{ActorId, DevId, DomId, NoMemory};
use pm_model::{Command, Helper, Operand, Plan};
use pm_names::helpers;

/// Appends bytes.
pub fn push(text: &mut Vec<u8>, piece: &[u8]) -> Result<(), NoMemory>
    ensures { OnOk result (text.new.items ≡ text.old.items ++ piece.now) }
{
    text.extend_from_slice(piece)?;
    Ok(())
}

/// Appends a number in decimal.
pub fn push_number(text: &mut Vec<u8>, number: u64) -> Result<(), NoMemory>
    ensures { OnOk result (text.new.items ≡ text.old.items ++ decimal number) }
{
    push(text, Buffer::new().format(number).as_bytes())
}

/// Appends a number in decimal, with a minus where it is below 0.
pub fn push_signed(text: &mut Vec<u8>, number: i64) -> Result<(), NoMemory>
    ensures { OnOk result (text.new.items ≡ text.old.items ++ signed_decimal number) }
{
    push(text, Buffer::new().format(number).as_bytes())
}

/// The name of a device of the plan, and no bytes for another.
pub fn device_name(plan: &Plan, dev: DevId) -> &[u8]
    ensures { result.now ≡ device_name (names_of plan.now) dev.0 }
{
    name_at(&plan.devices, dev.0 as usize)
}

/// The name of a caller of the plan, by its place, and no bytes for another.
pub fn caller_name(plan: &Plan, caller: u32) -> &[u8]
    ensures { result.now ≡ caller_name (names_of plan.now) caller }
{
    name_at(&plan.callers, caller as usize)
}

/// The name of a power domain of the plan, and no bytes for another.
pub fn domain_name(plan: &Plan, domain: DomId) -> &[u8]
    ensures { result.now ≡ domain_name plan.now domain }
{
    name_at(&plan.domains, domain.0 as usize)
}

/// Appends the name of a device of the plan, and no bytes for another.
pub fn push_device(text: &mut Vec<u8>, plan: &Plan, dev: DevId) -> Result<(), NoMemory>
    ensures { OnOk result (text.new.items ≡ text.old.items ++ device_name (names_of plan.now) dev.0) }
{
    push(text, device_name(plan, dev))
}

/// Appends the name of a caller of the plan, by its place, and no bytes for another.
pub fn push_caller(text: &mut Vec<u8>, plan: &Plan, caller: u32) -> Result<(), NoMemory>
    ensures { OnOk result (text.new.items ≡ text.old.items ++ caller_name (names_of plan.now) caller) }
{
    push(text, caller_name(plan, caller))
}

/// Appends the name of a power domain of the plan, and no bytes for another.
pub fn push_domain(text: &mut Vec<u8>, plan: &Plan, domain: DomId) -> Result<(), NoMemory>
    ensures { OnOk result (text.new.items ≡ text.old.items ++ domain_name plan.now domain) }
{
    push(text, domain_name(plan, domain))
}

/// Appends the name of an actor, as a line has it.
pub fn push_actor(text: &mut Vec<u8>, plan: &Plan, actor: ActorId) -> Result<(), NoMemory>
    ensures { OnOk result (text.new.items ≡ text.old.items ++ actor_text (names_of plan.now) actor) }
{
    match actor {
        ActorId::Caller(caller) => push_caller(text, plan, caller),
        ActorId::Work(place) => {
            push(text, b"work.")?;
            push_device(text, plan, DevId(place))
        }
        ActorId::Timer(place) => {
            push(text, b"timer.")?;
            push_device(text, plan, DevId(place))
        }
    }
}

/// Appends the word of a helper.
pub fn push_helper(text: &mut Vec<u8>, helper: Helper) -> Result<(), NoMemory>
    ensures { OnOk result (text.new.items ≡ text.old.items ++ helper_word helper) }
{
    push(text, helpers().name_of(helper_place(helper)))
}

/// Appends the device that a helper takes, behind a space, and nothing where it takes none.
fn push_device_part(
    text: &mut Vec<u8>,
    plan: &Plan,
    helper: Helper,
    dev: DevId,
) -> Result<(), NoMemory>
    ensures { OnOk result
        (text.new.items ≡ text.old.items ++ device_part (names_of plan.now) helper dev) }
{
    if takes_device(helper) {
        push(text, b" ")?;
        push_device(text, plan, dev)?;
    }
    Ok(())
}

/// Appends a call: its helper, and its device if it takes one.
pub fn push_call(
    text: &mut Vec<u8>,
    plan: &Plan,
    helper: Helper,
    dev: DevId,
) -> Result<(), NoMemory>
    ensures { OnOk result
        (text.new.items ≡ text.old.items ++ call_text (names_of plan.now) helper dev) }
{
    push_helper(text, helper)?;
    push_device_part(text, plan, helper, dev)
}

/// Appends what a helper takes besides its device.
fn push_operand(
    text: &mut Vec<u8>,
    plan: &Plan,
    operand: Operand,
    number: i64,
) -> Result<(), NoMemory>
    ensures { OnOk result
        (text.new.items ≡ text.old.items ++ operand_part (names_of plan.now) operand number) }
{
    match operand {
        Operand::Nothing => Ok(()),
        Operand::Milliseconds => {
            push(text, b" ")?;
            push_signed(text, number)
        }
        Operand::Switch => push(
            text,
            if number == 0 {
                b" off".as_slice()
            } else {
                b" on"
            },
        ),
        Operand::Supplier => {
            push(text, b" ")?;
            push(text, name_at(&plan.devices, number.unsigned_abs() as usize))
        }
    }
}

/// Appends a command as a script has it.
pub fn push_command(text: &mut Vec<u8>, plan: &Plan, command: &Command) -> Result<(), NoMemory>
    ensures { OnOk result
        (text.new.items ≡ text.old.items ++ command_text (names_of plan.now) command.now) }
{
    push_call(text, plan, command.helper, command.dev)?;
    push_operand(text, plan, operand_of(command.helper), command.number)
}
