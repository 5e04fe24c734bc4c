//! Expectations that fail, as lines of their file.

ghost use Rattle.std.specs.Prelude.{◌≡◌, ◌++◌, OnOk, count_by, decimal};
ghost use Rattle.pm_expect.specs.text.Items.{has_failed, is_broken};
ghost use Rattle.pm_expect.specs.text.Texts.{counts_text, failed_line, is_open};

use crate::text::items::{Item, Outcome};
use crate::text::ktap::{push_at, push_count};
use pm_base::NoMemory;
use pm_find::text::push;

/// Whether an expectation fails.
pub fn is_broken(outcome: &Outcome) -> bool
    ensures { result ≡ is_broken outcome.now }
{
    matches!(outcome, Outcome::Broke { .. })
}

/// Whether it is open.
fn is_open(outcome: &Outcome) -> bool
    ensures { result ≡ is_open outcome.now }
{
    matches!(outcome, Outcome::Skipped)
}

/// Whether one of them fails.
pub fn has_failed(items: &[Item]) -> bool
    ensures { result ≡ has_failed items.now }
{
    items.iter().any(|item| is_broken(&item.outcome))
}

/// Appends the line of an expectation, where it fails: it stands at this line of its file. Fails where memory runs out.
pub fn push_failed(
    text: &mut Vec<u8>,
    file: &[u8],
    trace: &[u8],
    at: usize,
    item: &Item,
) -> Result<(), NoMemory>
    ensures { OnOk result (text.new.items ≡ text.old.items ++ failed_line file.now trace.now at item.now.name item.now.outcome) }
{
    let Outcome::Broke { line, told } = &item.outcome else {
        return Ok(());
    };
    push(text, file)?;
    push(text, b":")?;
    push_count(text, at)?;
    push(text, b": failed: ")?;
    push(text, item.name.as_slice())?;
    push(text, b": ")?;
    push_at(text, trace, *line, told.as_slice())
}

/// Appends a word and a count.
fn push_word(text: &mut Vec<u8>, word: &[u8], count: usize) -> Result<(), NoMemory>
    ensures { OnOk result (text.new.items ≡ text.old.items ++ (word.now ++ decimal count)) }
{
    push(text, word)?;
    push_count(text, count)
}

/// How many of them fail.
fn failed(items: &[Item]) -> usize
    ensures { result ≡ count_by (λ item. is_broken item.outcome) items.now }
{
    items.iter().filter(|item| is_broken(&item.outcome)).count()
}

/// How many are open.
fn skipped(items: &[Item]) -> usize
    ensures { result ≡ count_by (λ item. is_open item.outcome) items.now }
{
    items.iter().filter(|item| is_open(&item.outcome)).count()
}

/// Appends how many expectations there are, and how many fail and are open. Fails where memory runs out.
pub fn push_counts(text: &mut Vec<u8>, items: &[Item]) -> Result<(), NoMemory>
    ensures { OnOk result (text.new.items ≡ text.old.items ++ counts_text items.now) }
{
    push_word(text, b"expectations ", items.len())?;
    push_word(text, b" failed ", failed(items))?;
    push_word(text, b" open ", skipped(items))?;
    push(text, b"\n")?;
    Ok(())
}
