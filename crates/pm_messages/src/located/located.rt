//! Notes with their places in the text.

ghost use Rattle.std.specs.Prelude.{◌≡◌, ◌≤◌, IfOk, length};
ghost use Rattle.toml.specs.Errors.{IsWithin};

use crate::notes::{Note, Side, long_note, toml_note};
use pm_base::{NoMemory, PLAN_BYTES};
use pm_spans::keys::{Path, earlier, find};
use pm_spans::source::{Span, mark_len, spot_of};
use std::alloc::Global;

/// What is told of a refusal, and the token that is shown.
#[derive(Drop)]
pub struct Located {
    pub message: String,
    pub hints: Vec<String>,
    pub span: Span,
}

/// What is told of a text that is too long. Fails where memory runs out.
pub fn of_long_text(alloc: Global, bytes: &[u8]) -> Result<Located, NoMemory>
    ensures { IfOk result (λ located. located.span.end ≤ length bytes.now) }
{
    Ok(shown_at(long_note(alloc)?, limit_span(bytes)))
}

/// A note with its token.
fn shown_at(note: Note, span: Span) -> Located
    ensures { result.span ≡ span }
{
    let Note {
        message,
        hints,
        at: _,
        side: _,
        other: _,
    } = note;
    Located {
        message,
        hints,
        span,
    }
}

/// The first byte past the limit.
fn limit_span(bytes: &[u8]) -> Span
    ensures { result.end ≤ length bytes.now }
{
    let start = bytes.len().min(PLAN_BYTES);
    Span { start, end: start }
}

/// The place before all.
fn no_span(bytes: &[u8]) -> Span
    ensures { result.end ≤ length bytes.now }
{
    let start = mark_len(bytes).min(bytes.len());
    Span { start, end: start }
}

/// What is told of a text that is no TOML: where the kit's reader stops. Fails where memory runs out.
pub fn of_no_toml(alloc: Global, bytes: &[u8]) -> Result<Located, NoMemory>
    ensures { IfOk result (λ located. located.span.end ≤ length bytes.now) }
{
    match toml::table_from_slice(alloc, bytes) {
        Ok(_) => Ok(shown_at(toml_note(alloc, "", bytes)?, no_span(bytes))),
        Err(error) => of_toml_error(alloc, bytes, error),
    }
}

fn of_toml_error(alloc: Global, bytes: &[u8], error: toml::de::Error) -> Result<Located, NoMemory>
    requires { IsWithin bytes.now error }
    ensures { IfOk result (λ located. located.span.end ≤ length bytes.now) }
{
    let Some(range) = error.span() else {
        return Err(NoMemory);
    };
    let message = error.message();
    let mut note = toml_note(alloc, message, &bytes[range.start..])?;
    if is_of_two(message) {
        if let Some(line) = first_line(alloc, bytes, range.start)? {
            note = note.with_hint(format!(in alloc; "the first is at line {line}")?)?;
        }
    }
    let span = Span {
        start: range.start,
        end: range.end,
    };
    Ok(shown_at(note, span))
}

/// Whether the kit's message is of what stands twice.
fn is_of_two(message: &str) -> bool {
    message == "duplicate key" || message == "cannot extend a value with a dotted key"
}

/// The line of the first of two keys or headers, of which the second stands at a place.
fn first_line(alloc: Global, bytes: &[u8], at: usize) -> Result<Option<usize>, NoMemory> {
    let Ok(text) = str::from_utf8(bytes) else {
        return Ok(None);
    };
    match earlier(alloc, text, at)? {
        Some(span) => Ok(Some(spot_of(bytes, span.start).line)),
        None => Ok(None),
    }
}

/// A note with the token that it is on, and with the line of the other place that it names. Fails where
/// memory runs out.
pub fn of_note(alloc: Global, bytes: &[u8], note: Note) -> Result<Located, NoMemory>
    ensures { IfOk result (λ located. located.span.end ≤ length bytes.now) }
{
    let Note {
        message,
        mut hints,
        at,
        side,
        other,
    } = note;
    let span = match at {
        Some(path) => token(alloc, bytes, path, side)?,
        None => no_span(bytes),
    };
    if let Some(other) = other {
        let place = token(alloc, bytes, other.at, Side::Key)?;
        let line = spot_of(bytes, place.start).line;
        let words = other.words;
        hints.push(format!(in alloc; "{words}{line}")?)?;
    }
    Ok(Located {
        message,
        hints,
        span,
    })
}

/// The token of a key or of its value.
fn token(alloc: Global, bytes: &[u8], path: Path, side: Side) -> Result<Span, NoMemory>
    ensures { IfOk result (λ span. span.end ≤ length bytes.now) }
{
    let Ok(text) = str::from_utf8(bytes) else {
        return Ok(no_span(bytes));
    };
    match find(alloc, text, path)? {
        Some(found) => Ok(match side {
            Side::Key => found.key,
            Side::Value => found.value,
        }),
        None => Ok(no_span(bytes)),
    }
}
