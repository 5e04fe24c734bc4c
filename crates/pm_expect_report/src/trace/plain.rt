//! Expectations that fail, each with the line of its table.

ghost use Rattle.std.specs.Prelude.{◌≡◌, ◌++◌, ◌∷◌, [], All, IfOk, OnOk, length};
ghost use Rattle.pm_expect_report.specs.trace.Plain.{IsLineOf, IsPlain, failed_lines};

use pm_base::NoMemory;
use pm_expect::text::{Item, is_broken, push_counts, push_failed};
use pm_expect::{Expectations, Section};
use pm_spans::keys::{Path, find};
use pm_spans::source::spot_of;
use std::alloc::Global;

/// The section of an expectation, and its item there: the answers come first, then the ends and the uses.
fn section_of(expected: &Expectations, number: usize) -> (Section, usize) {
    let answers = expected.answers.as_slice().len();
    let ends = expected.ends.as_slice().len();
    if number < answers {
        (Section::Answer, number)
    } else if number - answers < ends {
        (Section::End, number - answers)
    } else {
        (Section::Use, number - answers - ends)
    }
}

/// The line of a file at which the table of an expectation begins, which is looked for; else the first one. Expectations are
/// counted from 0: the answers, the ends and the uses. Fails where memory runs out.
pub fn line_of(
    alloc: Global,
    bytes: &[u8],
    expected: &Expectations,
    number: usize,
) -> Result<usize, NoMemory>
    ensures { IfOk result (IsLineOf bytes.now) }
{
    let Ok(text) = str::from_utf8(bytes) else {
        return Ok(spot_of(bytes, 0).line);
    };
    let (section, item) = section_of(expected, number);
    let path = Path {
        top: section.word(),
        item: Some(item),
        key: None,
        element: None,
    };
    match find(alloc, text, path)? {
        Some(found) => Ok(spot_of(bytes, found.key.start).line),
        None => Ok(spot_of(bytes, 0).line),
    }
}

/// A line of the file for an expectation: where it fails that of its table, which is looked for, and else the first one.
fn place_of(
    alloc: Global,
    bytes: &[u8],
    expected: &Expectations,
    number: usize,
    item: &Item,
) -> Result<usize, NoMemory>
    ensures { IfOk result (IsLineOf bytes.now) }
{
    if is_broken(&item.outcome) {
        line_of(alloc, bytes, expected, number)
    } else {
        Ok(spot_of(bytes, 0).line)
    }
}

fn push_place(places: &mut Vec<usize>, line: usize) -> Result<(), NoMemory>
    ensures { OnOk result (places.new.items ≡ places.old.items ++ line ∷ []) }
{
    places.push(line)?;
    Ok(())
}

/// A line for each expectation.
fn places(
    alloc: Global,
    bytes: &[u8],
    expected: &Expectations,
    items: &[Item],
) -> Result<Vec<usize>, NoMemory>
    ensures entries { IfOk result (λ places. length places.items ≡ length items.now) }
    ensures lines { IfOk result (λ places. All (IsLineOf bytes.now) places.items) }
{
    let mut places = Vec::new(alloc);
    for (number, item) in items.iter().enumerate() {
        let line = place_of(alloc, bytes, expected, number, item)?;
        push_place(&mut places, line)?;
    }
    Ok(places)
}

/// Appends a line for each expectation that fails.
fn push_lines(
    text: &mut Vec<u8>,
    file: &[u8],
    trace: &[u8],
    places: &[usize],
    items: &[Item],
) -> Result<(), NoMemory>
    requires { length places.now ≡ length items.now }
    ensures { OnOk result (text.new.items ≡ text.old.items ++ failed_lines file.now trace.now places.now items.now) }
{
    for (number, item) in items.iter().enumerate() {
        push_failed(text, file, trace, places[number], item)?;
    }
    Ok(())
}

/// The lines of the expectations that fail, and the counts. `file` is how their file is called, and these are its bytes.
/// Fails where memory runs out.
pub(crate) fn plain_text(
    alloc: Global,
    file: &[u8],
    bytes: &[u8],
    trace: &[u8],
    expected: &Expectations,
    items: &[Item],
) -> Result<Vec<u8>, NoMemory>
    ensures { IfOk result (λ text. IsPlain file.now bytes.now trace.now items.now text.items) }
{
    let places = places(alloc, bytes, expected, items)?;
    let mut text = Vec::new(alloc);
    push_lines(&mut text, file, trace, &places, items)?;
    push_counts(&mut text, items)?;
    Ok(text)
}
