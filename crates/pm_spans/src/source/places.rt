//! The line and the column of a place.

ghost use Rattle.std.specs.Prelude.{◌≡◌, ◌-◌, ◌≤◌, ◌++◌, not, OnOk, drop, take, length};
ghost use Rattle.std.specs.List.{suffix_len, position_or_len};
ghost use Rattle.pm_spans.specs.source.Lines.{place_text};
ghost use Rattle.pm_spans.specs.source.Places.{IsInText, chars, column_of, is_newline, is_start, line_end, line_of, line_start, line_text, mark_len, text_before, without_return};

use crate::source::pieces::push_number;
use pm_base::NoMemory;
use pm_linetext::push;

/// A place in a text.
#[derive(Clone, Copy, PartialEq, Eq)]
pub struct Spot {
    /// The line, from 1.
    pub line: usize,
    /// The column on the line, from 1 and in characters.
    pub column: usize,
}

/// The line and the column of the byte at a place, or of the end of the text.
#[tactic(auto, using(crate::proofs::source::PlaceLemmas::lines_before, crate::proofs::source::PlaceLemmas::chars_before))]
pub fn spot_of(text: &[u8], at: usize) -> Spot
    requires { at ≤ length text.now }
    ensures line { result.line ≡ line_of text.now at }
    ensures column { result.column ≡ column_of text.now at }
    ensures in_text { IsInText text.now at result.line result.column }
{
    Spot {
        line: line_of(text, at),
        column: char_count(text_before(text, at)) + 1,
    }
}

/// Appends `FILE:LINE:COLUMN`. Fails where memory runs out.
#[tactic(auto, unfolding(crate::specs::source::Lines::place_text))]
pub fn push_place(out: &mut Vec<u8>, file: &[u8], text: &[u8], at: usize) -> Result<(), NoMemory>
    requires { at ≤ length text.now }
    ensures { OnOk result (out.new.items ≡ out.old.items ++ place_text file.now text.now at) }
{
    let spot = spot_of(text, at);
    push(out, file)?;
    push(out, b":")?;
    push_number(out, spot.line)?;
    push(out, b":")?;
    push_number(out, spot.column)
}

/// The line of a place: one more than the newlines before it.
pub(crate) fn line_of(text: &[u8], at: usize) -> usize
    requires { at ≤ length text.now }
    ensures { result ≡ line_of text.now at }
{
    text[..at].iter().filter(|c| **c == b'\n').count() + 1
}

/// Whether the byte doesn't go on with a character of UTF-8 that stands before it.
pub(crate) fn is_start(byte: u8) -> bool
    ensures { result ≡ is_start byte }
{
    byte < 128 || byte >= 192
}

/// How many characters the bytes have.
pub(crate) fn char_count(bytes: &[u8]) -> usize
    ensures value { result ≡ chars bytes.now }
    ensures within { result ≤ length bytes.now }
{
    bytes.iter().filter(|c| is_start(**c)).count()
}

/// How many bytes stand on the line before the place.
fn bytes_before(front: &[u8]) -> usize
    ensures value { result ≡ suffix_len (λ c. not (is_newline c)) front.now }
    ensures within { result ≤ length front.now }
{
    front.iter().rev().take_while(|c| **c != b'\n').count()
}

/// How many bytes stand on the line from the place on.
fn bytes_behind(rest: &[u8]) -> usize
    ensures value { result ≡ position_or_len is_newline rest.now }
    ensures within { result ≤ length rest.now }
{
    rest.iter().take_while(|c| **c != b'\n').count()
}

/// The byte order mark, with which a text may begin.
const MARK: &[u8] = &[239, 187, 191];

/// How many bytes the byte order mark takes, where the text begins with one.
#[tactic(auto, unfolding(crate::specs::source::Places::mark_len))]
pub fn mark_len(text: &[u8]) -> usize
    ensures { result ≡ mark_len text.now }
{
    if front(text, 3) == MARK { 3 } else { 0 }
}

/// Where the line of a place begins. A byte order mark is no part of a line.
pub(crate) fn line_start(text: &[u8], at: usize) -> usize
    requires { at ≤ length text.now }
    ensures value { result ≡ line_start text.now at }
    ensures within { result ≤ at }
{
    let behind_newline = at - bytes_before(&text[..at]);
    behind_newline.max(at.min(mark_len(text)))
}

fn line_end(text: &[u8], at: usize) -> usize
    requires { at ≤ length text.now }
    ensures value { result ≡ line_end text.now at }
    ensures behind { at ≤ result }
    ensures within { result ≤ length text.now }
{
    at + bytes_behind(&text[at..])
}

/// What stands on the line of a place.
#[tactic(auto, unfolding(crate::specs::source::Places::line_text))]
pub(crate) fn line_text(text: &[u8], at: usize) -> &[u8]
    requires { at ≤ length text.now }
    ensures { result.now ≡ line_text text.now at }
{
    without_return(&text[line_start(text, at)..line_end(text, at)])
}

/// A line without the carriage return at its end, if it has one.
#[tactic(auto, unfolding(crate::specs::source::Places::without_return))]
pub fn without_return(line: &[u8]) -> &[u8]
    ensures { result.now ≡ without_return line.now }
{
    match line {
        [front @ .., b'\r'] => front,
        _ => line,
    }
}

fn text_before(text: &[u8], at: usize) -> &[u8]
    requires { at ≤ length text.now }
    ensures { result.now ≡ text_before text.now at }
{
    front(line_text(text, at), at - line_start(text, at))
}

/// The first so many bytes, or all of fewer.
pub(crate) fn front(bytes: &[u8], count: usize) -> &[u8]
    ensures { result.now ≡ take count bytes.now }
{
    match bytes.get(..count) {
        Some(front) => front,
        None => bytes,
    }
}

/// What stands behind the first so many bytes.
pub(crate) fn behind(bytes: &[u8], count: usize) -> &[u8]
    ensures { result.now ≡ drop count bytes.now }
{
    match bytes.get(count..) {
        Some(rest) => rest,
        None => &[],
    }
}
