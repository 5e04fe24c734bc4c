//! Numbers, codes and statuses in words.

ghost use Rattle.std.specs.Prelude.{◌≡◌, ◌≤◌, IfSome, option_map};
ghost use Rattle.pm_lab_words.specs.Numbers.{code_in, number_between, number_or, status_in};

use pm_base::Status;
use pm_cmd_ends::number_in;

/// The greatest number that a code may be, without its sign.
const MOST: u32 = 0x7fff_ffff;

/// The number that a word writes, where it is in this range.
pub fn number_between(least: u32, most: u32, word: &[u8]) -> Option<u32>
    ensures number { result ≡ number_between least most word.now }
    ensures in_range { IfSome result (λ n. (least ≤ n) × (n ≤ most)) }
{
    let number = number_in(word)?;
    if number >= u64::from(least) && number <= u64::from(most) {
        Some(number as u32)
    } else {
        None
    }
}

/// The number that an option's value writes, where it is in this range; or another one where it wasn't given.
pub fn number_or(least: u32, most: u32, otherwise: u32, word: Option<&str>) -> Option<u32>
    ensures { result ≡ number_or least most otherwise (option_map (λ w. w.now) word.entry) }
{
    match word {
        Some(word) => number_between(least, most, word.as_bytes()),
        None => Some(otherwise),
    }
}

/// The code that a word writes: decimal digits, below 2^31, `-` before those of a negative one.
pub fn code_in(word: &[u8]) -> Option<i32>
    ensures { result ≡ code_in word.now }
{
    match word {
        [b'-', digits @ ..] => {
            let number = number_between(0, MOST, digits)?;
            Some(-(number as i32))
        }
        digits => Some(number_between(0, MOST, digits)? as i32),
    }
}

/// The status of a word.
pub fn status_in(word: &[u8]) -> Option<Status>
    ensures { result ≡ status_in word.now }
{
    if word == b"active".as_slice() {
        Some(Status::Active)
    } else if word == b"suspended".as_slice() {
        Some(Status::Suspended)
    } else if word == b"suspending".as_slice() {
        Some(Status::Suspending)
    } else if word == b"resuming".as_slice() {
        Some(Status::Resuming)
    } else {
        None
    }
}
