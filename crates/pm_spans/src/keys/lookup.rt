//! The walk through a text.

ghost use Rattle.std.specs.Prelude.{◌≡◌, ◌-◌, ◌+◌, ◌≤◌, ◌<◌, ◌^◌, if◌then◌else◌, IfOk, IfSome, MatchOption, None, Ok, length, option_map};
ghost use Rattle.toml_parser.specs.Lexical.{skip_blank};
ghost use Rattle.pm_spans.specs.keys.Lines.{begins_element, begun, found_places, from_the_end, in_heading, in_member, in_top, is_of_element, standing_in, unmarked, whose_behind};
ghost use Rattle.pm_spans.specs.keys.Values.{element_in, member_at};
ghost use Rattle.pm_spans.specs.keys.Looking.{LooksAt, LooksAtMember};
ghost use Rattle.pm_spans.specs.keys.Within.{Finds, FindsIn, IsOf, read_heading, read_member, standing, taken_for};

use crate::keys::cuts::{Cut, Tokens};
use crate::keys::headers::{Header, header_at, second_part};
use crate::keys::pairs::{Pair, element_cut, first_part, member_tokens, pair_at, pair_tokens};
use crate::keys::values::element_at;
use crate::source::Span;
use pm_base::NoMemory;
use std::alloc::Global;
use toml_parser::text::{first, skip_blank};

/// What is looked for in a plan's text.
#[derive(Clone, Copy)]
pub struct Path<'a> {
    /// The key at the top.
    pub top: &'a str,
    /// Of the array of tables under it the element, counted from 0.
    pub item: Option<usize>,
    /// Of that table the key.
    pub key: Option<&'a str>,
    /// Of the array under that key the element, counted from 0.
    pub element: Option<usize>,
}

/// Where a key and its value stand.
#[derive(Clone, Copy, PartialEq, Eq)]
pub struct Found {
    /// The key; of an array's element that has none, the element itself.
    pub key: Span,
    /// The value; of a table that a header begins, the header.
    pub value: Span,
}

/// Where what is looked for stands; `None` where it doesn't, or where the text is no TOML. Of a key
/// that headers repeat the first. Fails where memory runs out.
pub fn find(alloc: Global, text: &str, path: Path) -> Result<Option<Found>, NoMemory>
    ensures standing { IfOk result (λ found. option_map found_places found ≡ option_map (from_the_end text.now) (standing_in path.entry (skip_blank (unmarked text.now)))) }
    ensures inside { IfOk result (λ found. IfSome found (λ f. (f.key.end ≤ length text.now) × (f.value.end ≤ length text.now))) }
{
    match walk(alloc, skip_blank(skip_mark(text), true), path)? {
        Some(tokens) => Ok(Some(Found {
            key: span_of(text, tokens.key),
            value: span_of(text, tokens.value),
        })),
        None => Ok(None),
    }
}

pub(crate) fn span_of(text: &str, cut: Cut) -> Span
    requires { cut.from ≤ length text.now }
    ensures start { result.start ≡ length text.now - cut.from }
    ensures end { result.end ≡ length text.now - cut.to }
{
    let len = text.len();
    Span {
        start: len - cut.from,
        end: len - cut.to,
    }
}

/// Without a byte order mark.
#[tactic(auto, unfolding(crate::specs::keys::Lines::unmarked))]
fn skip_mark(text: &str) -> &str
    ensures rest { result.now ≡ unmarked text.now }
    ensures less { length result.now ≤ length text.now }
{
    match text.strip_prefix("\u{feff}") {
        Some(rest) => rest,
        None => text,
    }
}

/// Whose keys the lines say that follow.
#[derive(Clone, Copy, PartialEq, Eq)]
enum Inside {
    /// Those of the top.
    Top,
    /// Those of the table that is looked for.
    Wanted,
    /// Those of another table.
    Other,
}

/// What the lines before a place say: how many elements of the array that is looked for have begun, and whose keys come next.
#[derive(Clone, Copy)]
struct Before {
    seen: usize,
    inside: Inside,
}

/// A line that was looked at: what it has of what is looked for, what is said behind it, and what follows.
#[derive(Clone, Copy)]
struct Looked<'a> {
    found: Option<Tokens>,
    before: Before,
    rest: &'a str,
}

/// What is looked for, in a text that no blanks begin.
fn walk(alloc: Global, text: &str, path: Path) -> Result<Option<Tokens>, NoMemory>
    ensures standing { Finds result (standing_in path.entry text.now) }
    ensures inside { FindsIn text.now result }
{
    let mut rest = text;
    let mut before = Before {
        seen: 0,
        inside: Inside::Top,
    };
    'lines: while !rest.is_empty() {
        let Some(looked) = look_at(alloc, rest, path, before)? else {
            return Ok(None);
        };
        if looked.found.is_some() {
            return Ok(looked.found);
        }
        before = looked.before;
        rest = skip_blank(looked.rest, true);
    }
    Ok(None)
}

/// The line at the front; `None` where there is none.
fn look_at<'a>(
    alloc: Global,
    s: &'a str,
    path: Path,
    before: Before,
) -> Result<Option<Looked<'a>>, NoMemory>
    requires { before.seen < 2 ^ 63 }
    ensures line { LooksAt path.entry s.now before result }
    ensures inside { IfOk result (λ r. IfSome r (λ k. (FindsIn s.now (Ok k.found)) × (length k.rest.now < length s.now) × (k.before.seen ≤ before.seen + 1))) }
{
    if first(s) == b'[' {
        match header_at(alloc, s)? {
            Some(header) => Ok(Some(heading_line(&header, path, before))),
            None => Ok(None),
        }
    } else {
        member_line(alloc, s, path, before)
    }
}

/// A header, and what it says of the lines behind it.
fn heading_line<'a>(header: &Header<'a>, path: Path, before: Before) -> Looked<'a>
    requires room { before.seen < 2 ^ 63 }
    requires whole { header.now.whole.to ≡ length header.now.rest.now }
    ensures found { option_map standing result.found ≡ in_heading path.entry result.before.seen (read_heading header.now) }
    ensures seen { result.before.seen ≡ (if begins_element path.entry (read_heading header.now) then before.seen + 1 else before.seen) }
    ensures inside { taken_for result.before.inside ≡ whose_behind path.entry (read_heading header.now) result.before.seen }
    ensures rest { result.rest.now ≡ header.now.rest.now }
    ensures tokens { IfSome result.found (λ tokens. (tokens.key ≡ header.now.cut) × (tokens.value ≡ header.now.whole)) }
{
    let seen = if begins_item(header, path) {
        before.seen + 1
    } else {
        before.seen
    };
    Looked {
        found: header_tokens(header, path, seen),
        before: Before {
            seen,
            inside: inside_of(header, path, seen),
        },
        rest: header.rest,
    }
}

/// A key with its value, which changes nothing of what is said.
fn member_line<'a>(
    alloc: Global,
    s: &'a str,
    path: Path,
    before: Before,
) -> Result<Option<Looked<'a>>, NoMemory>
    ensures line { IfOk result (λ r. MatchOption r (member_at s.now ≡ None) (λ k. LooksAtMember path.entry s.now before k)) }
    ensures inside { IfOk result (λ r. IfSome r (λ k. FindsIn s.now (Ok k.found) × (length k.rest.now < length s.now))) }
{
    let Some(pair) = pair_at(alloc, s)? else {
        return Ok(None);
    };
    let found = wanted_in(alloc, &pair, path, before.inside)?;
    Ok(Some(Looked {
        found,
        before,
        rest: pair.rest,
    }))
}

/// Whether a header begins an element of the array of tables that is looked for.
fn begins_item(header: &Header, path: Path) -> bool
    ensures { result ≡ begins_element path.entry (read_heading header.now) }
{
    header.is_array && header.key.path.is_empty() && header.key.last.as_str() == path.top
}

/// Whether a header speaks of the table that is looked for, where so many of its array have begun.
#[tactic(auto, unfolding(crate::specs::keys::Lines::is_of_element))]
fn is_of_item(header: &Header, path: Path, seen: usize) -> bool
    ensures { result ≡ is_of_element path.entry (read_heading header.now) seen }
{
    match path.item {
        Some(item) => first_part(&header.key) == path.top && seen > 0 && seen - 1 == item,
        None => false,
    }
}

fn inside_of(header: &Header, path: Path, seen: usize) -> Inside
    ensures { taken_for result ≡ whose_behind path.entry (read_heading header.now) seen }
{
    if begins_item(header, path) && is_of_item(header, path, seen) {
        Inside::Wanted
    } else {
        Inside::Other
    }
}

/// The tokens of a header, where it is what is looked for.
#[tactic(auto, unfolding(crate::specs::keys::Lines::in_heading, crate::specs::keys::Lines::is_wanted_heading))]
fn header_tokens(header: &Header, path: Path, seen: usize) -> Option<Tokens>
    requires { header.now.whole.to ≡ length header.now.rest.now }
    ensures place { option_map standing result ≡ in_heading path.entry seen (read_heading header.now) }
    ensures inside { IfSome result (λ tokens. (tokens.key ≡ header.now.cut) × (tokens.value ≡ header.now.whole)) }
{
    let is_wanted = match path.key {
        Some(key) => is_of_item(header, path, seen) && second_part(&header.key) == Some(key),
        None if path.item.is_none() => first_part(&header.key) == path.top,
        None => begins_item(header, path) && is_of_item(header, path, seen),
    };
    if is_wanted {
        Some(Tokens {
            key: header.cut,
            value: header.whole,
        })
    } else {
        None
    }
}

/// The tokens of a pair, or of what its value has, where it is what is looked for.
#[tactic(auto, unfolding(crate::specs::keys::Lines::in_member))]
fn wanted_in(
    alloc: Global,
    pair: &Pair,
    path: Path,
    inside: Inside,
) -> Result<Option<Tokens>, NoMemory>
    requires { length pair.now.rest.now ≤ length pair.now.value.now }
    ensures standing { Finds result (in_member path.entry (taken_for inside) (read_member pair.now)) }
    ensures inside { IfOk result (λ found. IfSome found (IsOf pair.now.cut pair.now.value.now)) }
{
    match (inside, path.key) {
        (Inside::Top, _) if first_part(&pair.key) == path.top => top_tokens(alloc, pair, path),
        (Inside::Wanted, Some(key)) if first_part(&pair.key) == key => pair_tokens(
            alloc,
            pair,
            path.element,
        ),
        _ => Ok(None),
    }
}

/// The tokens of a key at the top, or of what stands in its array.
#[tactic(auto, unfolding(crate::specs::keys::Lines::in_top))]
fn top_tokens(alloc: Global, pair: &Pair, path: Path) -> Result<Option<Tokens>, NoMemory>
    requires { length pair.now.rest.now ≤ length pair.now.value.now }
    ensures standing { Finds result (in_top path.entry (read_member pair.now)) }
    ensures inside { IfOk result (λ found. IfSome found (IsOf pair.now.cut pair.now.value.now)) }
{
    let Some(item) = path.item else {
        return pair_tokens(alloc, pair, None);
    };
    let Some(key) = path.key else {
        return element_tokens(alloc, pair.value, item);
    };
    match element_at(alloc, pair.value, item)? {
        Some(at) => member_tokens(alloc, at, key, path.element),
        None => Ok(None),
    }
}

fn element_tokens(alloc: Global, s: &str, index: usize) -> Result<Option<Tokens>, NoMemory>
    ensures standing { Finds result (element_in index s.now) }
    ensures inside { FindsIn s.now result }
{
    match element_cut(alloc, s, index)? {
        Some(cut) => Ok(Some(Tokens {
            key: cut,
            value: cut,
        })),
        None => Ok(None),
    }
}
