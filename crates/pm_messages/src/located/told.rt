//! The text of a refusal.

ghost use Rattle.std.specs.Prelude.{◌≡◌, ◌≤◌, ◌++◌, All, OnOk, flat_map, length, map};
ghost use Rattle.std.specs.String.{string_bytes};
ghost use Rattle.pm_messages.specs.located.Told.{told_of, token_of, token_told};
ghost use Rattle.pm_spans.specs.source.Excerpts.{hint_text};

use crate::located::located::Located;
use pm_base::NoMemory;
use pm_spans::source::{push, push_excerpt, push_hint, push_place, push_visible};
use std::alloc::Global;

/// Appends what is told of a token: its place and a word, as `FILE:LINE:COLUMN: error:`, the message, the
/// line with the token underlined, and the lines that help. `file` is how the file is called. Fails where
/// memory runs out.
#[tactic(auto, unfolding(crate::specs::located::Told::token_told))]
pub fn push_located(
    alloc: Global,
    out: &mut Vec<u8>,
    file: &[u8],
    bytes: &[u8],
    word: &str,
    located: &Located,
) -> Result<(), NoMemory>
    requires { located.now.span.end ≤ length bytes.now }
    ensures { OnOk result (out.new.items ≡ out.old.items ++ told_of file.now bytes.now word.now (token_of located.now)) }
{
    let span = located.span;
    push_place(out, file, bytes, span.start)?;
    push(out, b": ")?;
    push(out, word.as_bytes())?;
    push(out, b": ")?;
    push_visible(out, located.message.as_bytes())?;
    push(out, b"\n")?;
    push_excerpt(alloc, out, bytes, span)?;
    push_hints(out, bytes, span.start, located.hints.as_slice())
}

/// Appends what is told of each of some tokens. Fails where memory runs out.
pub fn push_each(
    alloc: Global,
    out: &mut Vec<u8>,
    file: &[u8],
    bytes: &[u8],
    word: &str,
    all: &[Located],
) -> Result<(), NoMemory>
    requires { All (λ located. located.span.end ≤ length bytes.now) all.now }
    ensures { OnOk result (out.new.items ≡ out.old.items ++ flat_map (λ located. told_of file.now bytes.now word.now (token_of located)) all.now) }
{
    for located in all {
        push_located(alloc, out, file, bytes, word, located)?;
    }
    Ok(())
}

fn push_hints(out: &mut Vec<u8>, bytes: &[u8], at: usize, hints: &[String]) -> Result<(), NoMemory>
    requires { at ≤ length bytes.now }
    ensures { OnOk result (out.new.items ≡ out.old.items ++ flat_map (hint_text bytes.now at) (map string_bytes hints.now)) }
{
    for hint in hints {
        push_hint(out, bytes, at, hint.as_bytes())?;
    }
    Ok(())
}
