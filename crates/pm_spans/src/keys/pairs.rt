//! Keys with their values.

ghost use Rattle.std.specs.Prelude.{◌≡◌, ◌<◌, ◌≤◌, IfOk, IfSome, length, option_map};
ghost use Rattle.toml_parser.specs.Reading.{key_view};
ghost use Rattle.toml_parser.specs.Strings.{key};
ghost use Rattle.pm_spans.specs.keys.Values.{element_in, first_name, member_at, member_in, named_in, within_member};
ghost use Rattle.pm_spans.specs.keys.Within.{ComesKey, ComesMember, Finds, FindsIn, IsIn, read_member};

use crate::keys::cuts::{Cut, Tokens};
use crate::keys::values::{after_comma, after_value, element_at};
use pm_base::NoMemory;
use std::alloc::Global;
use toml_parser::bytes::is_ws;
use toml_parser::text::{first, skip, skip_blank, skip_ws};
use toml_parser::{Key, ParseError, dotted_key};

/// A key with dots, and what follows it.
#[derive(Drop)]
pub struct KeyRead<'a> {
    pub key: Key,
    pub cut: Cut,
    pub rest: &'a str,
}

/// A key with its value, and what follows them.
#[derive(Drop)]
pub struct Pair<'a> {
    pub key: Key,
    pub cut: Cut,
    pub value: &'a str,
    pub rest: &'a str,
}

/// The key at the front; `None` where there is none. Fails where memory runs out.
pub fn key_at<'a>(alloc: Global, s: &'a str) -> Result<Option<KeyRead<'a>>, NoMemory>
    ensures read { ComesKey result (key s.now) }
    ensures inside { IfOk result (λ read. IfSome read (λ k. (k.cut.from ≡ length s.now) × (length k.rest.now < length s.now))) }
{
    match dotted_key(alloc, s) {
        Ok((key, rest)) => Ok(Some(KeyRead {
            key,
            cut: key_cut(s, rest),
            rest,
        })),
        Err(ParseError::OutOfMemory) => Err(NoMemory),
        Err(_) => Ok(None),
    }
}

/// The token of a key, without the blanks before what follows it.
fn key_cut(s: &str, rest: &str) -> Cut
    requires { length rest.now ≤ length s.now }
    ensures { result.from ≡ length s.now }
{
    let (from, left) = (s.len(), rest.len());
    let blanks = s.as_bytes()[..from - left]
        .iter()
        .rev()
        .take_while(|c| is_ws(**c))
        .count();
    Cut {
        from,
        to: left + blanks,
    }
}

/// The first part of a key.
#[tactic(auto, unfolding(crate::specs::keys::Values::first_name))]
pub fn first_part(key: &Key) -> &str
    ensures { result.now ≡ first_name (key_view key.now) }
{
    match key.path.first() {
        Some(part) => part.as_str(),
        None => key.last.as_str(),
    }
}

/// The key and the value at the front; `None` where there are none. Fails where memory runs out.
#[tactic(auto, unfolding(crate::specs::keys::Values::member_at))]
pub fn pair_at<'a>(alloc: Global, s: &'a str) -> Result<Option<Pair<'a>>, NoMemory>
    ensures read { ComesMember result (member_at s.now) }
    ensures inside { IfOk result (λ read. IfSome read (λ p. (p.cut.from ≤ length s.now) × (length p.rest.now < length p.value.now) × (length p.value.now < length s.now))) }
{
    let Some(KeyRead { key, cut, rest }) = key_at(alloc, s)? else {
        return Ok(None);
    };
    if first(rest) != b'=' {
        return Ok(None);
    }
    let value = skip_ws(skip(rest, 1));
    match after_value(alloc, value)? {
        Some(rest) => Ok(Some(Pair {
            key,
            cut,
            value,
            rest,
        })),
        None => Ok(None),
    }
}

/// The tokens of a pair, or of an element of its value.
#[tactic(auto, unfolding(crate::specs::keys::Values::within_member))]
pub fn pair_tokens(
    alloc: Global,
    pair: &Pair,
    element: Option<usize>,
) -> Result<Option<Tokens>, NoMemory>
    requires { length pair.now.rest.now ≤ length pair.now.value.now }
    ensures standing { Finds result (within_member element (read_member pair.now)) }
    ensures inside { IfOk result (λ found. IfSome found (λ t. (t.key ≡ pair.now.cut) × (t.value.from ≤ length pair.now.value.now))) }
{
    let Some(index) = element else {
        return Ok(Some(Tokens {
            key: pair.cut,
            value: Cut {
                from: pair.value.len(),
                to: pair.rest.len(),
            },
        }));
    };
    let Some(value) = element_cut(alloc, pair.value, index)? else {
        return Ok(None);
    };
    Ok(Some(Tokens {
        key: pair.cut,
        value,
    }))
}

/// The token of an element of the array at the front.
#[tactic(auto, unfolding(crate::specs::keys::Values::element_in))]
pub fn element_cut(alloc: Global, s: &str, index: usize) -> Result<Option<Cut>, NoMemory>
    ensures standing { IfOk result (λ found. option_map (λ cut. (cut.from, cut.from, cut.to)) found ≡ element_in index s.now) }
    ensures inside { IfOk result (λ found. IfSome found (λ cut. cut.from ≤ length s.now)) }
{
    let Some(at) = element_at(alloc, s, index)? else {
        return Ok(None);
    };
    match after_value(alloc, at)? {
        Some(rest) => Ok(Some(Cut {
            from: at.len(),
            to: rest.len(),
        })),
        None => Ok(None),
    }
}

/// The tokens of a key of the inline table at the front, or of an element of its value.
#[tactic(auto, unfolding(crate::specs::keys::Values::member_in))]
pub fn member_tokens(
    alloc: Global,
    s: &str,
    name: &str,
    element: Option<usize>,
) -> Result<Option<Tokens>, NoMemory>
    ensures standing { Finds result (member_in name.now element s.now) }
    ensures inside { FindsIn s.now result }
{
    if first(s) != b'{' {
        return Ok(None);
    }
    named_tokens(alloc, skip_blank(skip(s, 1), true), name, element)
}

/// The tokens of the first pair with a name, of pairs that commas part, or of an element of its value.
fn named_tokens(
    alloc: Global,
    s: &str,
    name: &str,
    element: Option<usize>,
) -> Result<Option<Tokens>, NoMemory>
    ensures standing { Finds result (named_in name.now element s.now) }
    ensures inside { FindsIn s.now result }
{
    let mut rest = s;
    'pairs: while !rest.is_empty() {
        let Some(pair) = pair_at(alloc, rest)? else {
            return Ok(None);
        };
        if first_part(&pair.key) == name {
            return pair_tokens(alloc, &pair, element);
        }
        let Some(next) = after_comma(pair.rest) else {
            return Ok(None);
        };
        rest = next;
    }
    Ok(None)
}
