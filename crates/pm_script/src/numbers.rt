//! The numbers that a command takes.

ghost use Rattle.std.specs.Prelude.{◌≡◌, true, pos, option_map, IfSome};
ghost use Rattle.pm_linetext.specs.Digits.{natural_in};
ghost use Rattle.pm_model.specs.IsPlan.{least_ms};
ghost use Rattle.pm_script.specs.Numbers.{is_switch, is_taken, milliseconds_in, number_in, switch_in};

use pm_base::MAX_MS;
use pm_linetext::natural_in;
use pm_model::Helper;

const MAX_DIGITS: usize = 10;

/// The number that 1 to 10 decimal digits write.
fn unsigned_in(text: &[u8]) -> Option<i64>
    ensures { result ≡ option_map (λ n. pos n) (natural_in 10 text.now) }
{
    match natural_in(MAX_DIGITS, text) {
        Some(n) => Some(n as i64),
        None => None,
    }
}

/// The number that an optional minus sign and 1 to 10 decimal digits write.
#[tactic(auto, unfolding(crate::specs::Numbers::number_in))]
pub fn number_in(text: &[u8]) -> Option<i64>
    ensures { result ≡ number_in text.now }
{
    let [first, digits @ ..] = text else {
        return None;
    };
    if *first != b'-' {
        return unsigned_in(text);
    }
    match unsigned_in(digits) {
        Some(n) => Some(-n),
        None => None,
    }
}

/// The least number of milliseconds that a helper takes.
fn least_ms(helper: Helper) -> i64
    ensures { result ≡ least_ms helper }
{
    match helper {
        Helper::SetAutosuspendDelay => -i64::from(MAX_MS),
        _ => 0,
    }
}

/// Whether a helper takes this number of milliseconds.
fn is_taken(helper: Helper, number: i64) -> bool
    ensures { result ≡ is_taken helper number }
{
    least_ms(helper) <= number && number <= i64::from(MAX_MS)
}

/// The milliseconds that a word writes for a helper.
#[tactic(auto, unfolding(crate::specs::Numbers::milliseconds_in))]
pub fn milliseconds_in(helper: Helper, word: &[u8]) -> Option<i64>
    ensures number { result ≡ milliseconds_in helper word.now }
    ensures valid { IfSome result (λ n. is_taken helper n ≡ true) }
{
    let number = number_in(word)?;
    if is_taken(helper, number) {
        Some(number)
    } else {
        None
    }
}

/// What `on` and `off` are as a number.
#[tactic(auto, unfolding(crate::specs::Numbers::switch_in))]
pub fn switch_in(word: &[u8]) -> Option<i64>
    ensures number { result ≡ switch_in word.now }
    ensures valid { IfSome result (λ n. is_switch n ≡ true) }
{
    match word {
        b"on" => Some(1),
        b"off" => Some(0),
        _ => None,
    }
}
