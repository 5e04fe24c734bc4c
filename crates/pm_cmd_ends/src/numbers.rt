//! The numbers on the command line: 1 to 20 decimal digits, in a range.

ghost use Rattle.std.specs.Prelude.{◌≡◌, ◌<◌, ◌≤◌, ◌^◌, IfSome};
ghost use Rattle.pm_base.specs.declared.limits.TheConstants.{MAX_DEVICES};
ghost use Rattle.pm_cmd_ends.specs.Numbers.{devices_in, hands_in, number_in, within};

use crate::request::MAX_HANDS;
use pm_base::MAX_DEVICES;
use pm_linetext::natural_in;

const MAX_DIGITS: usize = 20;

/// The number that a word writes, where it is below 2^64.
#[tactic(auto, unfolding(crate::specs::Numbers::number_in))]
pub fn number_in(word: &[u8]) -> Option<u64>
    ensures number { result ≡ number_in word.now }
    ensures in_range { IfSome result (λ n. n < 2 ^ 64) }
{
    let value = natural_in(MAX_DIGITS, word)?;
    if value < 1 << 64 {
        Some(value as u64)
    } else {
        None
    }
}

/// The number that a word writes, where it is 1 to `most`.
fn number_within(most: u32, word: &[u8]) -> Option<u32>
    ensures number { result ≡ within most (number_in word.now) }
    ensures in_range { IfSome result (λ n. (1 ≤ n) × (n ≤ most)) }
{
    let number = number_in(word)?;
    if number >= 1 && number <= u64::from(most) {
        Some(number as u32)
    } else {
        None
    }
}

/// The number of hands that a word writes.
pub(crate) fn hands_in(word: &[u8]) -> Option<u32>
    ensures number { result ≡ hands_in word.now }
    ensures in_range { IfSome result (λ n. (1 ≤ n) × (n ≤ MAX_HANDS)) }
{
    number_within(MAX_HANDS, word)
}

/// The number of devices that a word writes.
pub(crate) fn devices_in(word: &[u8]) -> Option<u32>
    ensures number { result ≡ devices_in word.now }
    ensures in_range { IfSome result (λ n. (1 ≤ n) × (n ≤ MAX_DEVICES)) }
{
    number_within(MAX_DEVICES as u32, word)
}
