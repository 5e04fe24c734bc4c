//! The number that decimal digits write.

ghost use Rattle.std.specs.Prelude.{◌≡◌, ◌<◌, ◌≤◌, ◌^◌, ◌&&◌, true, length, nat_le, IfSome};
ghost use Rattle.std.specs.Char.{is_ascii_digit};
ghost use Rattle.std.specs.List.{list_all};
ghost use Rattle.std.specs.Str.Parse.{digits_value};
ghost use Rattle.pm_linetext.specs.Digits.{are_digits, natural_in};

/// Whether the text is 1 to `most` decimal digits.
fn are_digits(most: usize, text: &[u8]) -> bool
    ensures { result ≡ are_digits most text.now }
{
    has_digit_count(most, text) && has_digits_alone(text)
}

fn has_digit_count(most: usize, text: &[u8]) -> bool
    ensures { result ≡ (nat_le 1 (length text.now) && nat_le (length text.now) most) }
{
    !text.is_empty() && text.len() <= most
}

fn has_digits_alone(text: &[u8]) -> bool
    ensures { result ≡ list_all is_ascii_digit text.now }
{
    text.iter().all(|c| c.is_ascii_digit())
}

/// The number that at most 20 decimal digits write.
#[tactic(auto, using(crate::proofs::DigitLemmas::digit_there, crate::proofs::DigitLemmas::value_small, crate::proofs::DigitLemmas::value_more))]
fn digits_value(text: &[u8]) -> u128
    requires { are_digits 20 text.now ≡ true }
    ensures { result ≡ digits_value 10 text.now }
{
    let mut value = 0u128;
    for digit in text {
        value = value * 10 + u128::from(*digit - b'0');
    }
    value
}

/// The number that 1 to `most` decimal digits write, and `None` for another text. `most` is at most 20.
#[tactic(auto, using(crate::proofs::DigitLemmas::fewer, crate::proofs::DigitLemmas::value_short), unfolding(crate::specs::Digits::natural_in))]
pub fn natural_in(most: usize, text: &[u8]) -> Option<u128>
    requires { most ≤ 20 }
    ensures number { result ≡ natural_in most text.now }
    ensures small { IfSome result (λ n. n < 10 ^ most) }
{
    if are_digits(most, text) {
        Some(digits_value(text))
    } else {
        None
    }
}
