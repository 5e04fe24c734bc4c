//! What is told of a refusal.

ghost use Rattle.std.specs.Prelude.{◌≡◌, ◌≤◌, IfErr, IfOk, Ok, [], length};
ghost use Rattle.std.specs.String.{string_bytes};
ghost use Rattle.pm_expect.specs.Expected.{expected_in, refused};
ghost use Rattle.pm_expect.specs.Over.{AreOver};
ghost use Rattle.pm_expect.specs.declared.refusal.Section.TheVariants.{Top};
ghost use Rattle.pm_expect.specs.declared.refusal.Why.TheVariants.{TooLong};
ghost use Rattle.pm_expect_report.specs.refused.Tells.{IsUnread, Tells};
ghost use Rattle.pm_expect_report.specs.refused.Words.{IsMessage};

use crate::refused::message::message;
use crate::refused::notes::note_of;
use pm_base::NoMemory;
use pm_expect::{EXPECT_BYTES, Expectations, Fault, Refusal, Section, Why, read};
use pm_messages::located::{Located, of_no_toml, of_note, push_located};
use pm_model::Plan;
use pm_planread::tree::document;
use pm_spans::source::Span;
use std::alloc::Global;

/// Why nothing is expected.
#[derive(Drop)]
pub enum Unread {
    /// The file is refused, and this tells of it.
    Refused { text: Vec<u8> },
    /// Memory ran out.
    NoMemory,
}

/// The first byte past the limit.
fn limit_span(bytes: &[u8]) -> Span
    ensures { result.end ≤ length bytes.now }
{
    let start = bytes.len().min(EXPECT_BYTES);
    Span { start, end: start }
}

/// What is told of a text that is too long.
fn of_long_text(alloc: Global, bytes: &[u8], refusal: Refusal) -> Result<Located, NoMemory>
    ensures within { IfOk result (λ located. located.span.end ≤ length bytes.now) }
    ensures message { IfOk result (λ located. IsMessage refusal.section refusal.item refusal.why (string_bytes located.message)) }
{
    let message = message(alloc, refusal.section, refusal.item, refusal.why)?;
    Ok(Located {
        message,
        hints: Vec::new(alloc),
        span: limit_span(bytes),
    })
}

/// What is told of a refusal of a text that is TOML.
fn of_tree(alloc: Global, plan: &Plan, bytes: &[u8], refusal: Refusal) -> Result<Located, NoMemory>
    ensures within { IfOk result (λ located. located.span.end ≤ length bytes.now) }
    ensures message { IfOk result (λ located. IsMessage refusal.section refusal.item refusal.why (string_bytes located.message)) }
{
    let Some(tree) = document(alloc, bytes)? else {
        return of_long_text(alloc, bytes, refusal);
    };
    let note = note_of(alloc, plan, &tree, refusal)?;
    let Located {
        message: _,
        hints,
        span,
    } = of_note(alloc, bytes, note)?;
    let message = message(alloc, refusal.section, refusal.item, refusal.why)?;
    Ok(Located {
        message,
        hints,
        span,
    })
}

/// What is told of a refusal, with its token.
fn locate(alloc: Global, plan: &Plan, bytes: &[u8], refusal: Refusal) -> Result<Located, NoMemory>
    ensures within { IfOk result (λ located. located.span.end ≤ length bytes.now) }
    ensures message { IfOk result (λ located. IsMessage refusal.section refusal.item refusal.why (string_bytes located.message)) }
{
    match refusal.why {
        Why::TooLong => of_long_text(alloc, bytes, refusal),
        Why::NotToml => of_no_toml(alloc, bytes),
        _ => of_tree(alloc, plan, bytes, refusal),
    }
}

/// The text of what is told.
fn text_of(
    alloc: Global,
    file: &[u8],
    bytes: &[u8],
    refusal: Refusal,
    located: &Located,
) -> Result<Vec<u8>, NoMemory>
    requires within { located.now.span.end ≤ length bytes.now }
    requires message { IsMessage refusal.section refusal.item refusal.why (string_bytes located.now.message) }
    ensures { IfOk result (λ text. Tells file.now bytes.now refusal text.items) }
{
    let _refusal = refusal;
    let mut text = Vec::new(alloc);
    push_located(alloc, &mut text, file, bytes, "error", located)?;
    Ok(text)
}

/// What is told of a refusal of these bytes.
fn refused_text(
    alloc: Global,
    plan: &Plan,
    file: &[u8],
    bytes: &[u8],
    refusal: Refusal,
) -> Result<Vec<u8>, NoMemory>
    ensures { IfOk result (λ text. Tells file.now bytes.now refusal text.items) }
{
    let located = locate(alloc, plan, bytes, refusal)?;
    text_of(alloc, file, bytes, refusal, &located)
}

/// What is told of a file with more bytes than a file of expectations may have, of which nothing is shown. `file` is how
/// the file is called. Fails where memory runs out.
pub fn too_long_text(alloc: Global, file: &[u8]) -> Result<Vec<u8>, NoMemory>
    ensures { IfOk result (λ text. Tells file.now [] (refused Top 0 TooLong) text.items) }
{
    let refusal = Refusal {
        section: Section::Top,
        item: 0,
        why: Why::TooLong,
    };
    let located = of_long_text(alloc, &[], refusal)?;
    text_of(alloc, file, &[], refusal, &located)
}

/// Reads what the bytes of a file expect of a plan's runs, or tells why they are refused. `file` is how the file is
/// called.
pub fn read_or_tell(
    alloc: Global,
    plan: &Plan,
    file: &[u8],
    bytes: &[u8],
) -> Result<Expectations, Unread>
    ensures read { IfOk result (λ all. expected_in plan.now bytes.now ≡ Ok all) }
    ensures over { IfOk result (AreOver plan.now) }
    ensures unread { IfErr result (IsUnread plan.now file.now bytes.now) }
{
    match read(alloc, plan, bytes) {
        Ok(all) => Ok(all),
        Err(Fault::Refused { refusal }) => match refused_text(alloc, plan, file, bytes, refusal) {
            Ok(text) => Err(Unread::Refused { text }),
            Err(NoMemory) => Err(Unread::NoMemory),
        },
        Err(Fault::NoMemory) => Err(Unread::NoMemory),
    }
}
