//! The text of a line, in both formats of a trace.
//!
//! A line of a plan has one text in each format. `LineSpeller` puts it with a newline into a `TimedText`, with no
//! memory and without failure, and so does `NamesAtHand`, without the plan and in two steps. `write_line` and
//! `write_line2` append it to a `Vec`, without a newline, and take no memory but for that. A `ShortText` is a
//! short text in an array, as the line of a verdict or of a reason. The functions `push` .. `push_command` append the
//! pieces of any other text, and `natural_in` reads a number.
#![tactic(auto)]

ghost use Rattle.std.specs.Prelude.{◌≡◌, ℕ, ◌+◌, ◌<◌, ◌≤◌, ◌++◌, true, length, IsOk, OnErr, OnOk, vec_capacity, vec_len};
ghost use Rattle.pm_base.specs.declared.limits.TheConstants.{LINE_BYTES, TEXT_BYTES};
ghost use Rattle.pm_model.specs.LineOf.{is_line_of};
ghost use Rattle.pm_model.specs.Spelling.{line_text, line_text2};
ghost use Rattle.pm_model.specs.Text.{names_of};
ghost use Rattle.pm_model.specs.declared.event.Line.{Line};
ghost use Rattle.pm_model.specs.declared.plan.Plan.{Plan};
ghost use Rattle.pm_linetext.specs.ShortLine.{is_short_line};

mod appended;
mod at_hand;
mod digits;
mod events;
mod fields;
mod names;
mod padded;
mod pieces;
mod short;
mod speller;
mod text;
mod timed;
mod words;

pub use crate::appended::{
    caller_name, device_name, domain_name, push, push_actor, push_call, push_caller, push_command,
    push_device, push_domain, push_helper, push_number, push_signed,
};
pub use crate::at_hand::NamesAtHand;
pub use crate::digits::natural_in;
pub use crate::speller::LineSpeller;
use crate::text::LineText;
pub use crate::timed::TimedText;
pub use crate::words::{
    cb_named, cb_of, cb_place, helper_named, helper_of, helper_place, operand_of, req_named,
    req_of, req_place, status_named, status_of, status_place, takes_device,
};
use pm_base::NoMemory;
use pm_model::{Line, Plan};
pub use short::{SHORT_BYTES, ShortText};
use std::alloc::Global;

/// Appends the text of a line in format 1, without a newline.
///
/// It fails only where `text` has no room for the line and memory runs out, and `text` is as before
/// then. A short line, as each line of a run is, has room in 162 bytes. `text` grows by the allocator
/// that it was made with.
pub fn write_line(
    _alloc: Global,
    plan: &Plan,
    line: &Line,
    text: &mut Vec<u8>,
) -> Result<(), NoMemory>
    requires { is_line_of plan.now line.now ≡ true }
    ensures ok { OnOk result (text.new.items ≡ text.old.items ++ line_text (names_of plan.now) line.now) }
    ensures err { OnErr result (text.new.items ≡ text.old.items) }

    // Where there is room it succeeds, and room is kept.
    ensures full { OnErr result
        (vec_capacity text.old < vec_len text.old + length (line_text (names_of plan.now) line.now)) }
    ensures short { is_short_line line.now ≡ true
        → vec_len text.old + LINE_BYTES ≤ vec_capacity text.old → IsOk result }
    ensures capacity { vec_capacity text.old ≤ vec_capacity text.new }
{
    text.extend_from_slice(spelled(plan, line).as_slice())?;
    Ok(())
}

/// Appends the text of a line in format 2 behind a line of time `base`, without a newline: the text
/// of format 1 with the time since `base` in place of the time. It fails as `write_line` does.
pub fn write_line2(
    alloc: Global,
    plan: &Plan,
    base: u64,
    line: &Line,
    text: &mut Vec<u8>,
) -> Result<(), NoMemory>
    requires line_of_plan { is_line_of plan.now line.now ≡ true }
    requires not_before { base ≤ line.now.time }
    ensures ok { OnOk result
        (text.new.items ≡ text.old.items ++ line_text2 (names_of plan.now) base line.now) }
    ensures err { OnErr result (text.new.items ≡ text.old.items) }

    // Where there is room it succeeds, and room is kept.
    ensures full { OnErr result
        (vec_capacity text.old < vec_len text.old + length (line_text2 (names_of plan.now) base line.now)) }
    ensures short { is_short_line line.now ≡ true
        → vec_len text.old + LINE_BYTES ≤ vec_capacity text.old → IsOk result }
    ensures capacity { vec_capacity text.old ≤ vec_capacity text.new }
{
    let time = line.time - base;
    write_line(alloc, plan, &Line { time, ..*line }, text)
}

/// The text of a line of a plan has at most 177 bytes, and at most 162 where the line is short, in
/// both formats.
pub fn texts_are_bounded()
    ensures text { (plan : Plan) (line : Line) → is_line_of plan line ≡ true
        → length (line_text (names_of plan) line) ≤ TEXT_BYTES }
    ensures short { (plan : Plan) (line : Line) → is_line_of plan line ≡ true
        → is_short_line line ≡ true → length (line_text (names_of plan) line) ≤ LINE_BYTES }

    // In format 2, behind a line of any time.
    ensures text2 { (plan : Plan) (base : ℕ) (line : Line) → is_line_of plan line ≡ true
        → length (line_text2 (names_of plan) base line) ≤ TEXT_BYTES }
    ensures short2 { (plan : Plan) (base : ℕ) (line : Line) → is_line_of plan line ≡ true
        → is_short_line line ≡ true → length (line_text2 (names_of plan) base line) ≤ LINE_BYTES }
{}

/// The text of a line in format 1.
fn spelled(plan: &Plan, line: &Line) -> LineText
    requires { is_line_of plan.now line.now ≡ true }
    ensures { result ≡ line_text (names_of plan.now) line.now }
{
    let mut text = LineText::new();
    text.push_line(plan, line);
    text.cut(text.len() - 1);
    text
}
