//! The words of a command.

ghost use Rattle.std.specs.Prelude.{◌≡◌, ◌<◌, ◌∷◌, IfOk, IfSome, drop, filter, length, option_map, position, slice_get};
ghost use Rattle.std.specs.List.{slice_split};
ghost use Rattle.std.specs.Option.{option_copied};
ghost use Rattle.pm_script.specs.Words.{is_space, is_word, words_of, words_from};

use std::alloc::{AllocError, Global};
use std::marker::Model;

/// A word, which stays where the text has it. Contracts see its bytes.
#[derive(Drop)]
pub struct ScriptWord<'a> {
    bytes: &'a [u8],
}

impl<'a> Model for ScriptWord<'a> {
    ghost use Rattle.std.specs.Prelude.{ℕ, List};

    ghost Value = { List ℕ };

    ghost view = { λ word. word.bytes.now };
}

impl<'a> ScriptWord<'a> {
    /// The word of these bytes.
    pub fn new(bytes: &'a [u8]) -> ScriptWord<'a>
        ensures { result ≡ bytes.now }
    {
        ScriptWord { bytes }
    }

    /// Its bytes, in order.
    pub fn as_slice(&self) -> &'a [u8]
        ensures { result.now ≡ self.now }
    {
        self.bytes
    }
}

/// The words of the bytes, in order.
pub fn words_in<'a>(alloc: Global, bytes: &'a [u8]) -> Result<Vec<ScriptWord<'a>>, AllocError>
    ensures { IfOk result (λ v. v.items ≡ words_of bytes.now) }
{
    let mut words = Vec::new(alloc);
    let mut rest = bytes;
    while let Some((word, behind)) = next_word(rest) {
        words.push(ScriptWord::new(word))?;
        rest = behind;
    }
    Ok(words)
}

/// The place of the first space.
fn space_at(bytes: &[u8]) -> Option<usize>
    ensures { result ≡ position is_space bytes.now }
{
    for (at, byte) in bytes.iter().enumerate() {
        if *byte == b' ' {
            return Some(at);
        }
    }
    None
}

/// What stands before the first space and what stands behind it, or all the bytes and nothing where
/// there is no space.
#[tactic(auto, using(crate::proofs::WordLemmas::split_at_space, crate::proofs::WordLemmas::split_without_space))]
fn cut(bytes: &[u8]) -> (&[u8], &[u8])
    ensures words { words_of bytes.now ≡ filter is_word (result.0.now ∷ slice_split is_space result.1.now) }
    ensures shorter { 0 < length bytes.now → length result.1.now < length bytes.now }
{
    match space_at(bytes) {
        Some(at) => {
            let (part, rest) = bytes.split_at(at);
            (part, rest.split_at(1).1)
        }
        None => (bytes, &[]),
    }
}

/// The first word and what stands behind it, or `None` where there is no word.
fn next_word(bytes: &[u8]) -> Option<(&[u8], &[u8])>
    ensures words { words_of bytes.now ≡ words_from (option_map (λ x. (x.0.now, x.1.now)) result) }
    ensures shorter { IfSome result (λ x. length x.1.now < length bytes.now) }
{
    let mut rest = bytes;
    while !rest.is_empty() {
        let (part, behind) = cut(rest);
        if !part.is_empty() {
            return Some((part, behind));
        }
        rest = behind;
    }
    None
}

/// The first words of a command, as far as there are so many. No command has more than three.
#[derive(Clone, Copy)]
pub struct FirstWords<'a> {
    pub first: Option<&'a [u8]>,
    pub second: Option<&'a [u8]>,
    pub third: Option<&'a [u8]>,
    pub fourth: Option<&'a [u8]>,
}

/// The first words, for which the bytes are gone through once.
#[tactic(auto, using(crate::proofs::WordLemmas::second_word, crate::proofs::WordLemmas::third_word, crate::proofs::WordLemmas::fourth_word))]
pub fn first_words(bytes: &[u8]) -> FirstWords
    ensures first { option_copied result.first ≡ slice_get (words_of bytes.now) 0 }
    ensures second { option_copied result.second ≡ slice_get (words_of bytes.now) 1 }
    ensures third { option_copied result.third ≡ slice_get (words_of bytes.now) 2 }
    ensures fourth { option_copied result.fourth ≡ slice_get (words_of bytes.now) 3 }
{
    let (first, behind_first) = taken(bytes);
    let (second, behind_second) = taken(behind_first);
    let (third, behind_third) = taken(behind_second);
    let (fourth, _) = taken(behind_third);
    FirstWords {
        first,
        second,
        third,
        fourth,
    }
}

/// The first word, where there is one, and what stands behind it.
fn taken(bytes: &[u8]) -> (Option<&[u8]>, &[u8])
    ensures word { option_copied result.0 ≡ slice_get (words_of bytes.now) 0 }
    ensures behind { words_of result.1.now ≡ drop 1 (words_of bytes.now) }
{
    match next_word(bytes) {
        Some((word, behind)) => (Some(word), behind),
        None => (None, &[]),
    }
}
