//! Steps over values.

ghost use Rattle.std.specs.Prelude.{◌≡◌, ◌<◌, ◌^◌, IfSome, length, option_map};
ghost use Rattle.pm_spans.specs.keys.Values.{behind_values, brackets_end, byte_end, comma_end, depth_behind, element_of, piece_end, string_end, value_end, word_end};
ghost use Rattle.pm_spans.specs.keys.Within.{Comes, LeavesLess, StandsIn};

use pm_base::NoMemory;
use std::alloc::Global;
use toml_parser::text::{first, skip, skip_blank};
use toml_parser::{ParseError, quoted, starts_string, unquoted};

/// What follows the value at the front; `None` where there is none. Fails where memory runs out.
#[tactic(auto, unfolding(crate::specs::keys::Values::value_end))]
pub fn after_value<'a>(alloc: Global, s: &'a str) -> Result<Option<&'a str>, NoMemory>
    ensures place { Comes result (value_end s.now) }
    ensures less { LeavesLess s.now result }
{
    if first(s) == b'[' || first(s) == b'{' {
        after_brackets(alloc, s)
    } else if starts_string(s) {
        after_string(alloc, s)
    } else {
        after_word(alloc, s)
    }
}

/// What follows the string at the front.
#[tactic(auto, unfolding(crate::specs::keys::Values::string_end))]
fn after_string<'a>(alloc: Global, s: &'a str) -> Result<Option<&'a str>, NoMemory>
    ensures place { Comes result (string_end s.now) }
    ensures less { LeavesLess s.now result }
{
    if !starts_string(s) {
        return Ok(None);
    }
    match quoted(alloc, s) {
        Ok((_, rest)) => Ok(Some(rest)),
        Err(ParseError::OutOfMemory) => Err(NoMemory),
        Err(_) => Ok(None),
    }
}

/// What follows the number, the boolean or the date at the front.
#[tactic(auto, unfolding(crate::specs::keys::Values::word_end))]
fn after_word<'a>(alloc: Global, s: &'a str) -> Result<Option<&'a str>, NoMemory>
    ensures place { Comes result (word_end s.now) }
    ensures less { LeavesLess s.now result }
{
    match unquoted(alloc, s) {
        Ok((_, rest)) => Ok(Some(rest)),
        Err(ParseError::OutOfMemory) => Err(NoMemory),
        Err(_) => Ok(None),
    }
}

/// What follows the bracket that closes the one at the front. Brackets are counted, and strings and
/// comments are stepped over as a whole.
fn after_brackets<'a>(alloc: Global, s: &'a str) -> Result<Option<&'a str>, NoMemory>
    ensures place { Comes result (brackets_end (length s.now) 0 s.now) }
    ensures less { LeavesLess s.now result }
{
    let mut rest = s;
    let mut depth = 0usize;
    'pieces: while !rest.is_empty() {
        depth = depth_behind(depth, first(rest));
        let Some(after) = after_piece(alloc, rest)? else {
            return Ok(None);
        };
        if depth == 0 {
            return Ok(Some(after));
        }
        rest = skip_blank(after, true);
    }
    Ok(None)
}

/// How many brackets are open behind a byte.
#[tactic(auto, unfolding(crate::specs::keys::Values::depth_behind))]
fn depth_behind(depth: usize, byte: u8) -> usize
    requires { depth < 2 ^ 63 }
    ensures { result ≡ depth_behind depth byte }
{
    match byte {
        b'[' | b'{' => depth + 1,
        b']' | b'}' => depth.saturating_sub(1),
        _ => depth,
    }
}

/// What follows the string or else the byte at the front.
#[tactic(auto, unfolding(crate::specs::keys::Values::piece_end))]
fn after_piece<'a>(alloc: Global, s: &'a str) -> Result<Option<&'a str>, NoMemory>
    ensures place { Comes result (piece_end s.now) }
    ensures less { LeavesLess s.now result }
{
    if starts_string(s) {
        after_string(alloc, s)
    } else {
        Ok(after_byte(s))
    }
}

/// What follows a byte of ASCII.
#[tactic(auto, unfolding(crate::specs::keys::Values::byte_end))]
fn after_byte(s: &str) -> Option<&str>
    ensures place { option_map (λ rest. rest.now) result ≡ byte_end s.now }
    ensures less { IfSome result (λ rest. length rest.now < length s.now) }
{
    let byte = first(s);
    if 0 < byte && byte < 128 {
        Some(skip(s, 1))
    } else {
        None
    }
}

/// The element of an array at the front, counted from 0, with what follows it.
#[tactic(auto, unfolding(crate::specs::keys::Values::element_of))]
pub fn element_at<'a>(alloc: Global, s: &'a str, index: usize) -> Result<Option<&'a str>, NoMemory>
    ensures place { Comes result (element_of index s.now) }
    ensures inside { StandsIn s.now result }
{
    if first(s) != b'[' {
        return Ok(None);
    }
    let Some(at) = after_values(alloc, skip_blank(skip(s, 1), true), index)? else {
        return Ok(None);
    };
    if at.is_empty() || first(at) == b']' {
        Ok(None)
    } else {
        Ok(Some(at))
    }
}

/// What follows so many values, each with its comma.
fn after_values<'a>(alloc: Global, s: &'a str, count: usize) -> Result<Option<&'a str>, NoMemory>
    ensures place { Comes result (behind_values count s.now) }
    ensures inside { StandsIn s.now result }
{
    let mut rest = s;
    'values: for _value in 0..count {
        let Some(after) = after_value(alloc, rest)? else {
            return Ok(None);
        };
        let Some(next) = after_comma(after) else {
            return Ok(None);
        };
        rest = next;
    }
    Ok(Some(rest))
}

/// What follows the next comma and the blanks behind it.
#[tactic(auto, unfolding(crate::specs::keys::Values::comma_end))]
pub fn after_comma(s: &str) -> Option<&str>
    ensures place { option_map (λ rest. rest.now) result ≡ comma_end s.now }
    ensures less { IfSome result (λ rest. length rest.now < length s.now) }
{
    let comma = skip_blank(s, true);
    if first(comma) == b',' {
        Some(skip_blank(skip(comma, 1), true))
    } else {
        None
    }
}
