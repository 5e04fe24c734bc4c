//! A line shown with a token of it underlined.

ghost use Rattle.std.specs.Prelude.{◌≡◌, ◌≤◌, ◌++◌, OnOk, length, max, min};
ghost use Rattle.pm_spans.specs.source.Excerpts.{carets, excerpt, excerpt_text, hint_text, margin, width_behind};
ghost use Rattle.pm_spans.specs.source.Places.{chars};

use crate::source::cut::{COLUMNS, push_behind, push_blanks, shown_before};
use crate::source::pieces::{push_number, push_times};
use crate::source::places::{behind, char_count, front, line_of, line_start, line_text};
use crate::source::visible::{push_visible, visible};
use itoa::Buffer;
use pm_base::NoMemory;
use pm_linetext::push;
use std::alloc::Global;

/// The bytes of a text from `start` up to `end`.
#[derive(Clone, Copy, PartialEq, Eq)]
pub struct Span {
    pub start: usize,
    pub end: usize,
    ghost ordered: { start ≤ end },
}

/// Appends the line of a token with carets below the token. Fails where memory runs out.
#[tactic(auto, unfolding(crate::specs::source::Excerpts::excerpt_text))]
pub fn push_excerpt(
    alloc: Global,
    out: &mut Vec<u8>,
    text: &[u8],
    span: Span,
) -> Result<(), NoMemory>
    requires { span.end ≤ length text.now }
    ensures { OnOk result (out.new.items ≡ out.old.items ++ excerpt_text text.now span.start span.end) }
{
    let at = span.start;
    let line = line_text(text, at);
    let column = at - line_start(text, at);
    let rest = behind(line, column);
    let token = Token {
        line: visible(alloc, line)?,
        before: visible(alloc, front(line, column))?,
        behind: visible(alloc, rest)?,
        len: visible(alloc, front(rest, span.end - at))?.len(),
    };
    push_lines(alloc, out, line_of(text, at), &token)
}

/// What is shown of a line with a token, uncut.
#[derive(Drop)]
struct Token {
    line: Vec<u8>,
    before: Vec<u8>,
    /// The line from the token on.
    behind: Vec<u8>,
    /// Bytes of it that the token takes.
    len: usize,
}

#[tactic(auto, unfolding(crate::specs::source::Excerpts::excerpt))]
fn push_lines(
    alloc: Global,
    out: &mut Vec<u8>,
    number: usize,
    token: &Token,
) -> Result<(), NoMemory>
    ensures { OnOk result (out.new.items ≡ out.old.items ++ excerpt number token.now.line.items token.now.before.items token.now.behind.items token.now.len) }
{
    let shown = shown_before(alloc, token.line.as_slice(), token.before.as_slice())?;
    let behind = token.behind.as_slice();
    let shown = shown.as_slice();
    let width = width_behind(shown);
    push_margin(out, number)?;
    push(out, b"|\n ")?;
    push_number(out, number)?;
    push(out, b" | ")?;
    push(out, shown)?;
    push_behind(out, width, behind)?;
    push(out, b"\n")?;
    push_margin(out, number)?;
    push(out, b"| ")?;
    push_blanks(out, shown)?;
    push_carets(out, width, front(behind, token.len))?;
    push(out, b"\n")
}

/// Appends a line that stands below an excerpt of the line of a place, behind `=`. Fails where memory runs
/// out.
#[tactic(auto, unfolding(crate::specs::source::Excerpts::hint_text))]
pub fn push_hint(out: &mut Vec<u8>, text: &[u8], at: usize, hint: &[u8]) -> Result<(), NoMemory>
    requires { at ≤ length text.now }
    ensures { OnOk result (out.new.items ≡ out.old.items ++ hint_text text.now at hint.now) }
{
    push_margin(out, line_of(text, at))?;
    push(out, b"= ")?;
    push_visible(out, hint)?;
    push(out, b"\n")
}

fn width_behind(shown: &[u8]) -> usize
    ensures { result ≡ width_behind shown.now }
{
    COLUMNS.saturating_sub(char_count(shown))
}

#[tactic(auto, unfolding(crate::specs::source::Excerpts::margin))]
fn push_margin(out: &mut Vec<u8>, number: usize) -> Result<(), NoMemory>
    ensures { OnOk result (out.new.items ≡ out.old.items ++ margin number) }
{
    let digits = Buffer::new().format(number).len();
    push_times(out, b' ', digits + 2)
}

fn push_carets(out: &mut Vec<u8>, width: usize, token: &[u8]) -> Result<(), NoMemory>
    ensures { OnOk result (out.new.items ≡ out.old.items ++ carets width token.now) }
{
    push_times(out, b'^', char_count(token).min(width).max(1))
}
