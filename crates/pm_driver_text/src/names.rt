//! Names in steps.

ghost use Rattle.std.specs.Prelude.{◌≡◌, ◌&&◌, length, nat_le, slice_get};
ghost use Rattle.std.specs.List.{list_all};
ghost use Rattle.std.specs.Option.{option_copied};
ghost use Rattle.pm_base.specs.declared.limits.TheConstants.{MAX_NAME};
ghost use Rattle.pm_model.specs.IsPlan.{is_caller_name, is_plain_byte};
ghost use Rattle.pm_driver_text.specs.Names.{label_front, name_at, name_or};

use crate::fault::StepFault;
use pm_base::MAX_NAME;
use pm_script::ScriptWord;

/// Whether the bytes are 1 to 32 letters, digits, `_` and `-`.
pub fn is_plain_name(name: &[u8]) -> bool
    ensures { result ≡ is_caller_name name.now }
{
    has_name_length(name) && are_plain_bytes(name)
}

fn are_plain_bytes(bytes: &[u8]) -> bool
    ensures { result ≡ list_all is_plain_byte bytes.now }
{
    bytes.iter().all(|c| is_plain_byte(*c))
}

fn has_name_length(name: &[u8]) -> bool
    ensures { result ≡ (nat_le 1 (length name.now) && nat_le (length name.now) MAX_NAME) }
{
    !name.is_empty() && name.len() <= MAX_NAME
}

fn is_plain_byte(c: u8) -> bool
    ensures { result ≡ is_plain_byte c }
{
    c.is_ascii_alphanumeric() || c == b'_' || c == b'-'
}

/// The word at a place.
pub(crate) fn word_at<'a>(words: &[ScriptWord<'a>], at: usize) -> Option<&'a [u8]>
    ensures { option_copied result ≡ slice_get words.now at }
{
    match words.get(at) {
        Some(word) => Some(word.as_slice()),
        None => None,
    }
}

/// The name that a word is.
pub(crate) fn name_or<'a>(word: Option<&'a [u8]>) -> Result<ScriptWord<'a>, StepFault>
    ensures { result ≡ name_or (option_copied word.entry) }
{
    match word {
        Some(name) => {
            if is_plain_name(name) {
                Ok(ScriptWord::new(name))
            } else {
                Err(StepFault::NoName)
            }
        }
        None => Err(StepFault::NoName),
    }
}

/// The name at a place.
pub(crate) fn name_at<'a>(words: &[ScriptWord<'a>], at: usize) -> Result<ScriptWord<'a>, StepFault>
    ensures { result ≡ name_at words.now at }
{
    name_or(word_at(words, at))
}

/// What stands before a last colon.
pub(crate) fn label_front(word: &[u8]) -> Option<&[u8]>
    ensures { option_copied result ≡ label_front word.now }
{
    let (last, front) = word.split_last()?;
    if *last == b':' { Some(front) } else { None }
}
