//! What is shown of a line.

ghost use Rattle.std.specs.Prelude.{◌≡◌, ◌++◌, ◌≤◌, IfOk, OnOk, length};
ghost use Rattle.pm_spans.specs.source.Excerpts.{blank, blanks, front_len, last_chars, shown_before, shown_behind};

use crate::source::places::{behind, char_count, front, is_start};
use pm_base::NoMemory;
use pm_linetext::push;
use std::alloc::Global;

/// Columns of a line that are shown, at most.
pub(crate) const COLUMNS: usize = 120;

/// Columns before the token from which on a long line is cut.
const MAX_BEFORE: usize = 40;

const DOTS: &[u8] = b"..";

/// How many bytes the first so many characters are.
#[tactic(auto, unfolding(crate::specs::source::Excerpts::front_len))]
fn front_len(count: usize, bytes: &[u8]) -> usize
    ensures value { result ≡ front_len count bytes.now }
    ensures within { result ≤ length bytes.now }
{
    let mut left = count;
    for (i, byte) in bytes.iter().enumerate() {
        if is_start(*byte) {
            if left == 0 {
                return i;
            }
            left -= 1;
        }
    }
    bytes.len()
}

/// The last so many characters, or all of fewer.
fn last_chars(count: usize, bytes: &[u8]) -> &[u8]
    ensures { result.now ≡ last_chars count bytes.now }
{
    let cut = char_count(bytes).saturating_sub(count);
    behind(bytes, front_len(cut, bytes))
}

/// What is shown of a line before the token. Fails where memory runs out.
#[tactic(auto, unfolding(crate::specs::source::Excerpts::shown_before))]
pub(crate) fn shown_before(alloc: Global, line: &[u8], before: &[u8]) -> Result<Vec<u8>, NoMemory>
    ensures { IfOk result (λ shown. shown.items ≡ shown_before line.now before.now) }
{
    let mut shown = Vec::new(alloc);
    if char_count(line) > COLUMNS && char_count(before) > MAX_BEFORE {
        push(&mut shown, DOTS)?;
        push(&mut shown, last_chars(MAX_BEFORE - 2, before))?;
    } else {
        push(&mut shown, before)?;
    }
    Ok(shown)
}

/// Appends what is shown in so many columns of a line from the token on. Fails where memory runs out.
#[tactic(auto, unfolding(crate::specs::source::Excerpts::shown_behind))]
pub(crate) fn push_behind(out: &mut Vec<u8>, width: usize, rest: &[u8]) -> Result<(), NoMemory>
    ensures { OnOk result (out.new.items ≡ out.old.items ++ shown_behind width rest.now) }
{
    if char_count(rest) <= width {
        return push(out, rest);
    }
    push(out, front(rest, front_len(width.saturating_sub(2), rest)))?;
    push(out, DOTS)
}

/// Appends what is blank and as wide as the byte. Fails where memory runs out.
#[tactic(auto, unfolding(crate::specs::source::Excerpts::blank))]
fn push_blank(out: &mut Vec<u8>, byte: u8) -> Result<(), NoMemory>
    ensures { OnOk result (out.new.items ≡ out.old.items ++ blank byte) }
{
    if !is_start(byte) {
        return Ok(());
    }
    if byte == b'\t' {
        push(out, b"\t")
    } else {
        push(out, b" ")
    }
}

/// Appends what is blank and as wide as the bytes. Fails where memory runs out.
pub(crate) fn push_blanks(out: &mut Vec<u8>, bytes: &[u8]) -> Result<(), NoMemory>
    ensures { OnOk result (out.new.items ≡ out.old.items ++ blanks bytes.now) }
{
    for byte in bytes {
        push_blank(out, *byte)?;
    }
    Ok(())
}
