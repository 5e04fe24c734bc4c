//! Expectations as KTAP, which the kernel's own tests write.

ghost use Rattle.std.specs.Prelude.{◌≡◌, ◌++◌, OnOk, codes, decimal};
ghost use Rattle.pm_expect.specs.text.Texts.{ktap_line, ktap_lines, ktap_text, place_text};

use crate::text::items::{Item, Outcome};
use itoa::Buffer;
use pm_base::NoMemory;
use pm_find::text::{push, push_number};

/// Appends a count in decimal.
pub(crate) fn push_count(text: &mut Vec<u8>, count: usize) -> Result<(), NoMemory>
    ensures { OnOk result (text.new.items ≡ text.old.items ++ decimal count) }
{
    push(text, Buffer::new().format(count).as_bytes())
}

/// Appends a place in the trace and what is so there.
pub(crate) fn push_at(
    text: &mut Vec<u8>,
    trace: &[u8],
    line: u32,
    told: &[u8],
) -> Result<(), NoMemory>
    ensures { OnOk result (text.new.items ≡ text.old.items ++ place_text trace.now line told.now) }
{
    push(text, trace)?;
    push(text, b":")?;
    push_number(text, line)?;
    push(text, b": ")?;
    push(text, told)?;
    push(text, b"\n")
}

/// Appends a word, a number, and how an expectation is called.
fn push_named(text: &mut Vec<u8>, word: &[u8], number: usize, name: &[u8]) -> Result<(), NoMemory>
    ensures { OnOk result (text.new.items ≡ text.old.items ++ (word.now ++ decimal number ++ codes " " ++ name.now)) }
{
    push(text, word)?;
    push_count(text, number)?;
    push(text, b" ")?;
    push(text, name)
}

/// Appends what is told of an expectation of this number.
fn push_item(text: &mut Vec<u8>, trace: &[u8], number: usize, item: &Item) -> Result<(), NoMemory>
    ensures { OnOk result (text.new.items ≡ text.old.items ++ ktap_line trace.now number item.now.name item.now.outcome) }
{
    let name = item.name.as_slice();
    match &item.outcome {
        Outcome::Held => {
            push_named(text, b"ok ", number, name)?;
            push(text, b"\n")
        }
        Outcome::Skipped => {
            push_named(text, b"ok ", number, name)?;
            push(text, b" # SKIP open\n")
        }
        Outcome::Broke { line, told } => {
            push_named(text, b"not ok ", number, name)?;
            push(text, b"\n# ")?;
            push_at(text, trace, *line, told.as_slice())
        }
    }
}

/// Appends a line for each expectation, numbered from 1, and a second one with its place for each that fails.
fn push_items(text: &mut Vec<u8>, trace: &[u8], items: &[Item]) -> Result<(), NoMemory>
    ensures { OnOk result (text.new.items ≡ text.old.items ++ ktap_lines trace.now 1 items.now) }
{
    for (place, item) in items.iter().enumerate() {
        push_item(text, trace, place + 1, item)?;
    }
    Ok(())
}

/// Appends what is told of expectations in a trace that is called so, as KTAP version 1. Fails where memory runs out.
pub fn push_ktap(text: &mut Vec<u8>, trace: &[u8], items: &[Item]) -> Result<(), NoMemory>
    ensures { OnOk result (text.new.items ≡ text.old.items ++ ktap_text trace.now items.now) }
{
    push(text, b"KTAP version 1\n1..")?;
    push_count(text, items.len())?;
    push(text, b"\n")?;
    push_items(text, trace, items)?;
    Ok(())
}
