//! The lines of a plan's text, each a key and its value. Each is appended, and fails where memory runs out.

ghost use Rattle.std.specs.Prelude.{◌≡◌, ◌++◌, OnOk};
ghost use Rattle.pm_driver_runs.specs.PlanText.{code_list, codes_line, device_line, domain_line, each_text, flag_line, later_code, ms_line, name_line, number_line, some_codes_line};

use pm_base::{DevId, DomId, NoMemory};
use pm_linetext::{device_name, domain_name, push, push_number, push_signed};
use pm_model::Plan;

/// A key whose value is a name.
pub fn push_name(text: &mut Vec<u8>, key: &[u8], name: &[u8]) -> Result<(), NoMemory>
    ensures { OnOk result (text.new.items ≡ text.old.items ++ name_line key.now name.now) }
{
    push(text, key)?;
    push(text, b" = \"")?;
    push(text, name)?;
    push(text, b"\"\n")
}

/// A key whose value is the name of a device, where there is one.
pub fn push_device_line(
    text: &mut Vec<u8>,
    plan: &Plan,
    key: &[u8],
    dev: Option<DevId>,
) -> Result<(), NoMemory>
    ensures { OnOk result (text.new.items ≡ text.old.items ++ device_line plan.now key.now dev) }
{
    match dev {
        Some(dev) => push_name(text, key, device_name(plan, dev)),
        None => Ok(()),
    }
}

/// A key whose value is the name of a power domain, where there is one.
pub fn push_domain_line(
    text: &mut Vec<u8>,
    plan: &Plan,
    key: &[u8],
    domain: Option<DomId>,
) -> Result<(), NoMemory>
    ensures { OnOk result (text.new.items ≡ text.old.items ++ domain_line plan.now key.now domain) }
{
    match domain {
        Some(domain) => push_name(text, key, domain_name(plan, domain)),
        None => Ok(()),
    }
}

/// A key that is set, where it is.
#[tactic(auto, unfolding(crate::specs::PlanText::flag_line))]
pub fn push_flag(text: &mut Vec<u8>, key: &[u8], is: bool) -> Result<(), NoMemory>
    ensures { OnOk result (text.new.items ≡ text.old.items ++ flag_line key.now is) }
{
    if is {
        push(text, key)?;
        push(text, b" = true\n")?;
    }
    Ok(())
}

/// A key whose value is a number.
pub fn push_number_line(text: &mut Vec<u8>, key: &[u8], number: u32) -> Result<(), NoMemory>
    ensures { OnOk result (text.new.items ≡ text.old.items ++ number_line key.now number) }
{
    push(text, key)?;
    push(text, b" = ")?;
    push_number(text, u64::from(number))?;
    push(text, b"\n")
}

/// A time in milliseconds, where it isn't 0.
pub fn push_ms(text: &mut Vec<u8>, key: &[u8], ms: u32) -> Result<(), NoMemory>
    ensures { OnOk result (text.new.items ≡ text.old.items ++ ms_line key.now ms) }
{
    if ms == 0 {
        Ok(())
    } else {
        push_number_line(text, key, ms)
    }
}

fn push_later_code(text: &mut Vec<u8>, code: i32) -> Result<(), NoMemory>
    ensures { OnOk result (text.new.items ≡ text.old.items ++ later_code code) }
{
    push(text, b", ")?;
    push_signed(text, i64::from(code))
}

fn push_later_codes(text: &mut Vec<u8>, codes: &[i32]) -> Result<(), NoMemory>
    ensures { OnOk result (text.new.items ≡ text.old.items ++ each_text later_code codes.now) }
{
    for code in codes {
        push_later_code(text, *code)?;
    }
    Ok(())
}

fn push_code_list(text: &mut Vec<u8>, codes: &[i32]) -> Result<(), NoMemory>
    ensures { OnOk result (text.new.items ≡ text.old.items ++ code_list codes.now) }
{
    let [first, more @ ..] = codes else {
        return Ok(());
    };
    push_signed(text, i64::from(*first))?;
    push_later_codes(text, more)
}

/// The codes of a callback.
pub fn push_codes(text: &mut Vec<u8>, key: &[u8], codes: &[i32]) -> Result<(), NoMemory>
    ensures { OnOk result (text.new.items ≡ text.old.items ++ codes_line key.now codes.now) }
{
    push(text, key)?;
    push(text, b" = [")?;
    push_code_list(text, codes)?;
    push(text, b"]\n")
}

/// The codes of a callback, where there are some.
pub fn push_some_codes(text: &mut Vec<u8>, key: &[u8], codes: &[i32]) -> Result<(), NoMemory>
    ensures { OnOk result (text.new.items ≡ text.old.items ++ some_codes_line key.now codes.now) }
{
    match codes {
        [] => Ok(()),
        [_, ..] => push_codes(text, key, codes),
    }
}
