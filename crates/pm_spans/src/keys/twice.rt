//! The earlier one of two keys that are the same.

ghost use Rattle.std.specs.Prelude.{◌<◌, ◌≤◌, IfOk, IfSome, length};

use crate::keys::cuts::Cut;
use crate::keys::headers::{Header, header_at};
use crate::keys::lookup::span_of;
use crate::keys::pairs::{Pair, first_part, pair_at};
use crate::source::Span;
use pm_base::NoMemory;
use std::alloc::Global;
use toml_parser::Key;
use toml_parser::text::{first, skip_blank};

/// A line with a key or a header.
#[derive(Drop)]
struct Line<'a> {
    key: Key,
    cut: Cut,
    is_header: bool,
    rest: &'a str,
}

/// The first key of the same table that is that of the line at a place, or the first header of the key
/// of the header there; `None` where there is none before it. Fails where memory runs out.
pub fn earlier(alloc: Global, text: &str, at: usize) -> Result<Option<Span>, NoMemory>
    ensures { IfOk result (λ found. IfSome found (λ span. span.end ≤ length text.now)) }
{
    let Some(last) = text.get(at..) else {
        return Ok(None);
    };
    let Some(line) = line_at(alloc, last)? else {
        return Ok(None);
    };
    match earlier_cut(alloc, text, &line, last.len())? {
        Some(cut) => Ok(Some(span_of(text, cut))),
        None => Ok(None),
    }
}

/// The line at the front; `None` where there is none.
fn line_at<'a>(alloc: Global, s: &'a str) -> Result<Option<Line<'a>>, NoMemory>
    ensures { IfOk result (λ read. IfSome read (λ line. (line.cut.from ≤ length s.now) × (length line.rest.now < length s.now))) }
{
    if first(s) == b'[' {
        return match header_at(alloc, s)? {
            Some(
                Header {
                    key,
                    cut,
                    whole: _,
                    is_array: _,
                    rest,
                },
            ) => Ok(Some(Line {
                key,
                cut,
                is_header: true,
                rest,
            })),
            None => Ok(None),
        };
    }
    match pair_at(alloc, s)? {
        Some(
            Pair {
                key,
                cut,
                value: _,
                rest,
            },
        ) => Ok(Some(Line {
            key,
            cut,
            is_header: false,
            rest,
        })),
        None => Ok(None),
    }
}

/// The first such key of the lines before the one of which so many bytes are left.
fn earlier_cut(
    alloc: Global,
    text: &str,
    wanted: &Line,
    left: usize,
) -> Result<Option<Cut>, NoMemory>
    ensures { IfOk result (λ found. IfSome found (λ cut. cut.from ≤ length text.now)) }
{
    let mut rest = skip_blank(text, true);
    let mut found = None;
    'lines: while rest.len() > left {
        let Some(line) = line_at(alloc, rest)? else {
            return Ok(None);
        };
        if line.is_header && !wanted.is_header {
            found = None;
        }
        if found.is_none() && is_same(&line, wanted) {
            found = Some(line.cut);
        }
        rest = skip_blank(line.rest, true);
    }
    Ok(found)
}

fn is_same(line: &Line, wanted: &Line) -> bool {
    line.is_header == wanted.is_header
        && line.key.path.len() == wanted.key.path.len()
        && first_part(&line.key) == first_part(&wanted.key)
}
