//! How far a caller has come.

ghost use Rattle.std.specs.Prelude.{◌≡◌, ◌<◌, ◌≤◌, ◌∷◌, length, position, IfSome};
ghost use Rattle.std.specs.List.{slice_split};
ghost use Rattle.std.specs.Option.{option_copied};
ghost use Rattle.pm_driver_script.specs.Calls.{FewNames};
ghost use Rattle.pm_driver_script.specs.Marks.{is_comma, number_in, passed, parts_of, stopped_by, with_bit, without_bit};

use crate::names::{ScriptNames, place_in};
use pm_driver_text::StepWhat;
use pm_script::ScriptWord;

/// How far a caller has come, each a set of bits by the places of names.
#[derive(Clone, Copy)]
pub struct Past {
    /// The marks that it has set.
    pub marks: u64,
    /// The locks that it holds.
    pub locks: u64,
    /// The callers that it has stopped.
    pub stopped: u64,
}

/// The set with a bit.
fn with_bit(bits: u64, bit: u32) -> u64
    requires { bit < 64 }
    ensures { result ≡ with_bit bits bit }
{
    bits | 1 << bit
}

/// The set without a bit.
fn without_bit(bits: u64, bit: u32) -> u64
    requires { bit < 64 }
    ensures { result ≡ without_bit bits bit }
{
    bits & !(1 << bit)
}

/// The place of a name, and 0 where it has none.
fn number_in(names: &[ScriptWord], name: &[u8]) -> u32
    requires { length names.now ≤ 64 }
    ensures number { result ≡ number_in names.now name.now }
    ensures few { result < 64 }
{
    match place_in(names, name) {
        Some(place) => place as u32,
        None => 0,
    }
}

fn comma_at(bytes: &[u8]) -> Option<usize>
    ensures { result ≡ position is_comma bytes.now }
{
    for (at, byte) in bytes.iter().enumerate() {
        if *byte == b',' {
            return Some(at);
        }
    }
    None
}

/// What stands before the first comma, and what stands behind it, where there is one.
#[tactic(auto, using(crate::proofs::CommaLemmas::split_at_comma, crate::proofs::CommaLemmas::split_without_comma))]
pub(crate) fn cut(bytes: &[u8]) -> (&[u8], Option<&[u8]>)
    ensures parts { slice_split is_comma bytes.now ≡ result.0.now ∷ parts_of (option_copied result.1) }
    ensures shorter { IfSome result.1 (λ behind. length behind.now < length bytes.now) }
{
    match comma_at(bytes) {
        Some(at) => {
            let (part, rest) = bytes.split_at(at);
            (part, Some(rest.split_at(1).1))
        }
        None => (bytes, None),
    }
}

/// The set with each caller that stands in a list, which commas part.
fn stopped_by(callers: &[ScriptWord], list: &[u8], bits: u64) -> u64
    requires { length callers.now ≤ 64 }
    ensures { result ≡ stopped_by callers.now (slice_split is_comma list.now) bits }
{
    let (name, behind) = cut(list);
    let bits = with_bit(bits, number_in(callers, name));
    match behind {
        Some(behind) => stopped_by(callers, behind, bits),
        None => bits,
    }
}

/// How far a caller has come behind a part of a step.
pub(crate) fn passed(names: &ScriptNames, what: &StepWhat, part: u32, past: Past) -> Past
    requires { FewNames names.now }
    ensures { result ≡ passed names.now what.now part past }
{
    match what {
        StepWhat::Mark { name } => Past {
            marks: with_bit(
                past.marks,
                number_in(names.marks.as_slice(), name.as_slice()),
            ),
            ..past
        },
        StepWhat::Lock { name } => Past {
            locks: with_bit(
                past.locks,
                number_in(names.locks.as_slice(), name.as_slice()),
            ),
            ..past
        },
        StepWhat::Unlock { name } => Past {
            locks: without_bit(
                past.locks,
                number_in(names.locks.as_slice(), name.as_slice()),
            ),
            ..past
        },
        StepWhat::Stop { callers } if part == 0 => Past {
            stopped: stopped_by(names.callers.as_slice(), callers.as_slice(), past.stopped),
            ..past
        },
        _ => past,
    }
}
