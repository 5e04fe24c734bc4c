//! The text of findings.

ghost use Rattle.std.specs.Prelude.{◌≡◌, ◌++◌, OnOk};
ghost use Rattle.pm_find.specs.text.Texts.{count_text, counted_text, finding_text};
ghost use Rattle.pm_model.specs.Spelling.{newline};

mod bonds;
mod kinds;
mod pieces;
mod words;

use crate::findings::Finding;
use itoa::Buffer;
use kinds::push_kind;
pub use pieces::{push, push_actor, push_code, push_device, push_number};
use pm_base::NoMemory;
use pm_model::Plan;
use words::kind_word;
pub use words::weight_word;

// Appends what is told of a place, and a newline.
fn push_line_end(text: &mut Vec<u8>, place: &[u8]) -> Result<(), NoMemory>
    ensures { OnOk result (text.new.items ≡ text.old.items ++ (place.now ++ newline)) }
{
    push(text, place)?;
    push(text, b"\n")?;
    Ok(())
}

/// Appends the line of a finding in a trace that is called so, as
/// `cam.trace:12: error: leak: sensor never gives back the count of imx that get_sync took here (cam.toml:9:22)`, with
/// its newline; the place in the plan is given, or is no bytes. Fails where memory runs out.
pub fn push_finding(
    text: &mut Vec<u8>,
    plan: &Plan,
    file: &[u8],
    found: &Finding,
    place: &[u8],
) -> Result<(), NoMemory>
    ensures { OnOk result (text.new.items ≡ text.old.items ++ finding_text plan.now file.now found.now place.now) }
{
    push(text, file)?;
    push(text, b":")?;
    push_number(text, found.line)?;
    push(text, b": ")?;
    push(text, weight_word(found.kind.weight()))?;
    push(text, b": ")?;
    push(text, kind_word(&found.kind))?;
    push(text, b": ")?;
    push_kind(text, plan, &found.kind)?;
    push_line_end(text, place)?;
    Ok(())
}

// Appends so many of something.
fn push_counted(text: &mut Vec<u8>, count: usize, word: &[u8]) -> Result<(), NoMemory>
    ensures { OnOk result (text.new.items ≡ text.old.items ++ counted_text count word.now) }
{
    push(text, Buffer::new().format(count).as_bytes())?;
    push(text, b" ")?;
    push(text, word)?;
    push(text, if count == 1 { b"".as_slice() } else { b"s" })?;
    Ok(())
}

/// Appends the last line, as `3 findings in 130 lines`, with its newline. Fails where memory runs out.
pub fn push_count(text: &mut Vec<u8>, found: usize, lines: usize) -> Result<(), NoMemory>
    ensures { OnOk result (text.new.items ≡ text.old.items ++ count_text found lines) }
{
    push_counted(text, found, b"finding")?;
    push(text, b" in ")?;
    push_counted(text, lines, b"line")?;
    push(text, b"\n")?;
    Ok(())
}
