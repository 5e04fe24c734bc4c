//! Headers of tables.

ghost use Rattle.std.specs.Prelude.{◌≡◌, ◌<◌, ◌≤◌, IfOk, IfSome, drop, false, if◌then◌else◌, length, option_map, Some, None, ◌==◌};
ghost use Rattle.toml_parser.specs.Lexical.{first as first_byte};
ghost use Rattle.toml_parser.specs.Reading.{key_view};
ghost use Rattle.pm_spans.specs.keys.Lines.{closed_end, heading_at};
ghost use Rattle.pm_spans.specs.keys.Values.{second_name};
ghost use Rattle.pm_spans.specs.keys.Within.{ComesHeading};

use crate::keys::cuts::Cut;
use crate::keys::pairs::{KeyRead, key_at};
use pm_base::NoMemory;
use std::alloc::Global;
use toml_parser::Key;
use toml_parser::text::{byte_at, first, skip, skip_ws};

/// A header, `[key]` or `[[key]]`, and what follows it.
#[derive(Drop)]
pub struct Header<'a> {
    pub key: Key,
    /// The key.
    pub cut: Cut,
    /// The header with its brackets.
    pub whole: Cut,
    /// Whether it begins an element of an array of tables.
    pub is_array: bool,
    pub rest: &'a str,
}

/// The header at the front; `None` where there is none. Fails where memory runs out.
#[tactic(auto, unfolding(crate::specs::keys::Lines::heading_at, crate::specs::keys::Lines::opened))]
pub fn header_at<'a>(alloc: Global, s: &'a str) -> Result<Option<Header<'a>>, NoMemory>
    ensures read { ComesHeading result (heading_at s.now) }
    ensures inside { IfOk result (λ read. IfSome read (λ h. (h.cut.from ≤ length s.now) × (h.whole.from ≤ length s.now) × (h.whole.to ≡ length h.rest.now) × (length h.rest.now < length s.now))) }
{
    let Some(body) = bracket_behind(s) else {
        return Ok(None);
    };
    let is_array = first(body) == b'[';
    let body = match bracket_behind(body) {
        Some(body) => body,
        None => body,
    };
    let Some(KeyRead { key, cut, rest }) = key_at(alloc, skip_ws(body))? else {
        return Ok(None);
    };
    let Some(rest) = closed(rest, is_array) else {
        return Ok(None);
    };
    Ok(Some(Header {
        key,
        cut,
        whole: Cut {
            from: s.len(),
            to: rest.len(),
        },
        is_array,
        rest,
    }))
}

/// What follows an opening bracket.
fn bracket_behind(s: &str) -> Option<&str>
    ensures rest { option_map (λ rest. rest.now) result ≡ (if first_byte s.now == 91 then Some (drop 1 s.now) else None) }
    ensures less { IfSome result (λ rest. length rest.now < length s.now) }
{
    if first(s) == b'[' {
        Some(skip(s, 1))
    } else {
        None
    }
}

/// What follows the closing brackets.
#[tactic(auto, unfolding(crate::specs::keys::Lines::closed_end))]
fn closed(s: &str, is_array: bool) -> Option<&str>
    ensures rest { option_map (λ rest. rest.now) result ≡ closed_end is_array s.now }
    ensures less { IfSome result (λ rest. length rest.now < length s.now) }
{
    if first(s) != b']' {
        None
    } else if !is_array {
        Some(skip(s, 1))
    } else if byte_at(s, 1) == b']' {
        Some(skip(s, 2))
    } else {
        None
    }
}

/// The second part of a key.
#[tactic(auto, unfolding(crate::specs::keys::Values::second_name))]
pub fn second_part(key: &Key) -> Option<&str>
    ensures { option_map (λ part. part.now) result ≡ second_name (key_view key.now) }
{
    match key.path.get(1) {
        Some(part) => Some(part.as_str()),
        None if key.path.len() == 1 => Some(key.last.as_str()),
        None => None,
    }
}
