//! Texts that are no TOML, or too long.

use crate::notes::note::Note;
use pm_base::{NoMemory, PLAN_BYTES};
use std::alloc::Global;

/// The note on a text that is too long. Fails where memory runs out.
pub fn long_note<'a>(alloc: Global) -> Result<Note<'a>, NoMemory> {
    let message = format!(in alloc; "a plan has at most {PLAN_BYTES} bytes")?;
    Ok(Note::on_text(alloc, message))
}

/// The note on a text that is no TOML, by the message of the kit's reader and by the bytes where it
/// stopped. Fails where memory runs out.
pub fn toml_note<'a>(alloc: Global, message: &str, rest: &[u8]) -> Result<Note<'a>, NoMemory> {
    if is_control(rest) {
        let words = format!(in alloc; "a control character mayn't stand in the text")?;
        return Ok(Note::on_text(alloc, words));
    }
    let words = words_of(message, rest);
    let note = Note::on_text(alloc, format!(in alloc; "{words}")?);
    match hint_of(message, rest) {
        Some(hint) => note.with_hint(format!(in alloc; "{hint}")?),
        None => Ok(note),
    }
}

/// Whether the reader stopped at a control character, which no TOML has but a tab and the ends of lines.
fn is_control(rest: &[u8]) -> bool {
    match rest {
        [] | [b'\t' | b'\n' | b'\r', ..] => false,
        [c, ..] => c.is_ascii_control(),
    }
}

/// The kit's message where a value doesn't begin as one.
const NO_VALUE: &str =
    "invalid value, expected a string, number, boolean, date-time, array or inline table";

/// The kit's message where a number has an underscore that it mayn't have.
const NO_UNDERSCORE: &str = "`_` may only go between digits";

/// What the message of the kit's reader says to a person. One that isn't known stands for itself.
fn words_of<'a>(message: &'a str, rest: &[u8]) -> &'a str {
    if message == NO_VALUE || message == NO_UNDERSCORE {
        return value_words(message, rest);
    }
    match message {
        "invalid UTF-8" => "the text is no UTF-8 from here on",
        "invalid key, expected letters, numbers, `-`, `_` or a quoted key" =>
            "a key is missing here",
        "key with no value, expected `=`" => "`=` is missing behind the key",
        "unclosed table, expected `]`" => "`]` is missing behind the header",
        "unclosed array table, expected `]]`" => "`]]` is missing behind the header",
        "unexpected key or value, expected newline, `#`" => "the line doesn't end behind the value",
        "missing comma between array elements, expected `,` or `]`" => "`,` or `]` is missing here",
        "missing comma between key-value pairs, expected `,` or `}`" =>
            "`,` or `}` is missing here",
        "invalid string" => "the string isn't closed on its line",
        "invalid escape sequence" => "no such escape",
        "number out of range" => "the number is too large",
        "duplicate key" => "the key or the table stands twice",
        "cannot extend a value with a dotted key" => "the key stands twice",
        "cannot recurse further; max recursion depth met" => "brackets stand too deep",
        _ => message,
    }
}

fn value_words(message: &str, rest: &[u8]) -> &'static str {
    match rest {
        [] | [b'\n' | b'\r' | b'#', ..] => "a value is missing here",
        [c, ..] if c.is_ascii_digit() && message == NO_UNDERSCORE => NO_UNDERSCORE,
        _ => "this is no value",
    }
}

/// What may help, by what stands where the reader stopped.
fn hint_of(message: &str, rest: &[u8]) -> Option<&'static str> {
    if message == NO_VALUE || message == NO_UNDERSCORE {
        return value_hint(rest);
    }
    match message {
        "unexpected key or value, expected newline, `#`" => Some(match rest {
            [b';', ..] => "each key has a line of its own, and no `;`",
            _ => "each key has a line of its own",
        }),
        "missing comma between array elements, expected `,` or `]`" => Some(
            "elements stand apart by `,`",
        ),
        "invalid string" => Some("a string ends with the quote that it begins with"),
        "invalid escape sequence" => Some("in quotes a backslash is written \\\\"),
        "duplicate key" => Some(match rest {
            [b'[', b'[', ..] => "it is a table already",
            [b'[', ..] => "the items of a section have two brackets, as [[device]]",
            _ => "keep one of them",
        }),
        _ => None,
    }
}

fn value_hint(rest: &[u8]) -> Option<&'static str> {
    match rest {
        [226, 128, 156 | 157, ..] => Some("write \" for the typographic quote"),
        [b'0', c, ..] if c.is_ascii_digit() => Some("a number has no zeros before it"),
        [c, ..] if c.is_ascii_alphabetic() => Some("a string stands in quotes"),
        _ => None,
    }
}
