//! The pieces of a line, read from left to right.
//!
//! A reader answers what the bytes spell, or how many of them are left behind the most that they have
//! in common, from the front, with a text that it reads. What is left counts from the end of the line,
//! so a reader hands on what the next one answers.

ghost use Rattle.std.specs.Prelude.{◌≡◌, ℕ, ◌+◌, ◌*◌, ◌-◌, ◌^◌, ◌<◌, ◌≤◌, Some, None, true, List, map, length, nat_eq, IfOk, IfSome, if◌then◌else◌};
ghost use Rattle.std.specs.List.{common_prefix_len, position_or_len};
ghost use Rattle.pm_model.specs.LineOf.{fits_i32, fits_signed};
ghost use Rattle.pm_model.specs.NamedList.{common_len};
ghost use Rattle.pm_names.specs.Table.{all_distinct, place_of};
ghost use Rattle.pm_model.specs.Text.{names_of};
ghost use Rattle.pm_lineread.specs.Gives.{Gives};
ghost use Rattle.pm_lineread.specs.Pieces.{closed, digit_value, either_of, ended, goes_on, itemed, literal_at, longer_at, number_at, place_at};
ghost use Rattle.pm_lineread.specs.Reading.{caller_at, count_at, device_at, negative_at, positive_at, signed_at, word_at};

use crate::finders::{Finders, caller_finder, device_finder};
use pm_base::DevId;
use pm_model::{Named, NamedList, Plan};
use pm_names::{Finder, NameTable, find, is_same};

/// How many bytes are left behind a fault.
pub(crate) type Left = usize;

/// The first answer that reads the bytes, and else the less that is left.
pub(crate) fn either<T: Drop>(first: Result<T, Left>, second: Result<T, Left>) -> Result<T, Left>
    ensures { result ≡ either_of first second }
{
    match (first, second) {
        (Ok(value), _) => Ok(value),
        (Err(_), Ok(value)) => Ok(value),
        (Err(m), Err(n)) => Err(m.min(n)),
    }
}

/// The value, where no bytes follow it.
#[tactic(auto, unfolding(crate::specs::Pieces::ended))]
pub(crate) fn end<T: Drop>(value: T, rest: &[u8]) -> Result<T, Left>
    ensures { result ≡ ended value rest.now }
{
    if rest.is_empty() {
        Ok(value)
    } else {
        Err(rest.len())
    }
}

/// How many bytes two texts have in common from the front.
fn common_prefix_len(a: &[u8], b: &[u8]) -> usize
    ensures len { result ≡ common_prefix_len nat_eq a.now b.now }
    ensures within { result ≤ length a.now }
{
    for (i, x) in a.iter().enumerate() {
        if b.get(i) != Some(x) {
            return i;
        }
    }
    a.len()
}

/// What follows a word.
#[tactic(auto, using(crate::proofs::LiteralLemmas::literal_found, crate::proofs::LiteralLemmas::literal_missed))]
pub(crate) fn literal<'a>(word: &[u8], bytes: &'a [u8]) -> Result<&'a [u8], Left>
    ensures { Gives (λ rest. rest.now) result (literal_at word.now bytes.now) }
{
    let common = common_prefix_len(bytes, word);
    let (_, rest) = bytes.split_at(common);
    if common == word.len() {
        Ok(rest)
    } else {
        Err(rest.len())
    }
}

/// This word and no more, for this value.
#[tactic(auto, unfolding(crate::specs::Reading::word_at))]
pub(crate) fn word<T: Drop>(word: &[u8], value: T, bytes: &[u8]) -> Result<T, Left>
    ensures { result ≡ word_at word.now value bytes.now }
{
    end(value, literal(word, bytes)?)
}

/// How many bytes stand before the first stop.
pub(crate) fn word_len(stop: u8, bytes: &[u8]) -> usize
    ensures len { result ≡ position_or_len (λ b. nat_eq b stop) bytes.now }
    ensures within { result ≤ length bytes.now }
{
    for (at, byte) in bytes.iter().enumerate() {
        if *byte == stop {
            return at;
        }
    }
    bytes.len()
}

/// The place of the name that stands before the first space, and what follows the name.
#[tactic(auto, using(crate::proofs::Places::common_len_fits), unfolding(crate::specs::Pieces::place_at))]
fn named<'a, T: Named>(
    finder: Option<&Finder>,
    list: &NamedList<T>,
    bytes: &'a [u8],
) -> Result<(usize, &'a [u8]), Left>
    requires { IfSome finder (λ _. all_distinct (map T.name_of list.now) ≡ true) }
    ensures place { Gives (λ found. (found.0, found.1.now)) result (place_at (map T.name_of list.now) 32 bytes.now) }
    ensures within { IfOk result (λ found. found.0 < length list.now) }
{
    let (name, rest) = bytes.split_at(word_len(b' ', bytes));
    match find(finder, list, name) {
        Some(place) => Ok((place, rest)),
        None => Err(bytes.len() - list.common_len(bytes)),
    }
}

/// A device, and what follows its name.
#[tactic(auto, using(crate::proofs::PlanNames::devices_apart), unfolding(crate::specs::Reading::device_at))]
pub(crate) fn device<'a>(
    plan: &Plan,
    by: Option<&Finders>,
    bytes: &'a [u8],
) -> Result<(DevId, &'a [u8]), Left>
    ensures { Gives (λ found. (found.0.0, found.1.now)) result (device_at (names_of plan.now) bytes.now) }
{
    let (place, rest) = named(device_finder(by), &plan.devices, bytes)?;
    Ok((DevId(place as u32), rest))
}

/// A caller, by its place, and what follows its name.
#[tactic(auto, using(crate::proofs::PlanNames::callers_apart), unfolding(crate::specs::Reading::caller_at))]
pub(crate) fn caller<'a>(
    plan: &Plan,
    by: Option<&Finders>,
    bytes: &'a [u8],
) -> Result<(u32, &'a [u8]), Left>
    ensures { Gives (λ found. (found.0, found.1.now)) result (caller_at (names_of plan.now) bytes.now) }
{
    let (place, rest) = named(caller_finder(by), &plan.callers, bytes)?;
    Ok((place as u32, rest))
}

/// The most that the bytes and a word of the table have in common from the front.
#[tactic(auto, using(crate::proofs::PieceLemmas::common_len_more))]
fn most_common<const N: usize>(table: &NameTable<N>, bytes: &[u8]) -> usize
    requires { length table.now ≡ N }
    ensures { result ≡ common_len bytes.now table.now }
{
    let mut most = 0;
    for place in 0..N {
        most = most.max(common_prefix_len(bytes, table.name_of(place)));
    }
    most
}

/// The place of a word in the table.
fn table_place<const N: usize>(table: &NameTable<N>, word: &[u8]) -> Option<usize>
    requires { length table.now ≡ N }
    ensures { result ≡ place_of table.now word.now }
{
    for place in 0..N {
        if is_same(table.name_of(place), word) {
            return Some(place);
        }
    }
    table.number_of(word)
}

/// The place of the word that stands before the first stop, and what follows the word.
#[tactic(auto, using(crate::proofs::Places::common_len_fits), unfolding(crate::specs::Pieces::place_at))]
pub(crate) fn placed<'a, const N: usize>(
    table: &NameTable<N>,
    stop: u8,
    bytes: &'a [u8],
) -> Result<(usize, &'a [u8]), Left>
    requires { length table.now ≡ N }
    ensures { Gives (λ found. (found.0, found.1.now)) result (place_at table.now stop bytes.now) }
{
    let (word, rest) = bytes.split_at(word_len(stop, bytes));
    match table_place(table, word) {
        Some(place) => Ok((place, rest)),
        None => Err(bytes.len() - most_common(table, bytes)),
    }
}

/// What the word at a place stands for, and what follows the word.
pub(crate) fn listed<T: Drop>(item: Option<T>, rest: &[u8]) -> Result<(T, &[u8]), Left>
    ensures { Gives (λ found. (found.0, found.1.now)) result (itemed item rest.now) }
{
    match item {
        Some(item) => Ok((item, rest)),
        None => Err(rest.len()),
    }
}

/// The value of a digit, and 16 for a byte that is no digit.
#[tactic(auto, unfolding(crate::specs::Pieces::digit_value))]
fn digit(byte: u8) -> u64
    ensures { result ≡ digit_value byte }
{
    match byte {
        b'0'..=b'9' => u64::from(byte - b'0'),
        b'a'..=b'f' => u64::from(byte - b'a' + 10),
        _ => 16,
    }
}

/// The number with one digit more, or `None` where no number goes on so.
fn next(base: u64, most: u64, number: u64, digit: u64) -> Option<u64>
    ensures { result ≡ (if goes_on base most number digit then Some (number * base + digit) else None) }
{
    if number == 0 || digit >= base {
        return None;
    }
    let next = number.checked_mul(base)?.checked_add(digit)?;
    if next <= most { Some(next) } else { None }
}

/// The number that begins with the digits of `first` and goes on with these, and what follows it.
fn longer(base: u64, most: u64, first: u64, bytes: &[u8]) -> (u64, &[u8])
    requires { first ≤ most }
    ensures number { (result.0, result.1.now) ≡ longer_at base most first bytes.now }
    ensures fits { result.0 ≤ most }
{
    let mut number = first;
    for (i, byte) in bytes.iter().enumerate() {
        match next(base, most, number, digit(*byte)) {
            Some(next) => number = next,
            None => return (number, &bytes[i..]),
        }
    }
    (number, &[])
}

/// The number, where a space or nothing follows it.
fn close(number: u64, rest: &[u8]) -> Result<(u64, &[u8]), Left>
    ensures { Gives (λ found. (found.0, found.1.now)) result (closed 32 number rest.now) }
{
    match rest.first() {
        None | Some(b' ') => Ok((number, rest)),
        Some(_) => Err(rest.len()),
    }
}

/// A number from `least`, which is 0 or 1, to `most`, and what follows it.
#[tactic(auto, unfolding(crate::specs::Pieces::number_at))]
pub(crate) fn number(base: u64, least: u64, most: u64, bytes: &[u8]) -> Result<(u64, &[u8]), Left>
    ensures number { Gives (λ found. (found.0, found.1.now)) result (number_at base least most 32 bytes.now) }
    ensures fits { IfOk result (λ found. found.0 ≤ most) }
{
    let [byte, tail @ ..] = bytes else {
        return Err(0);
    };
    let first = digit(*byte);
    if first >= base || first < least || first > most {
        return Err(bytes.len());
    }
    let (number, rest) = longer(base, most, first, tail);
    close(number, rest)
}

/// A number of 32 bits, and what follows it.
#[tactic(auto, unfolding(crate::specs::Reading::count_at))]
pub(crate) fn count(bytes: &[u8]) -> Result<(u32, &[u8]), Left>
    ensures { Gives (λ found. (found.0, found.1.now)) result (count_at bytes.now) }
{
    let (count, rest) = number(10, 0, u64::from(u32::MAX), bytes)?;
    Ok((count as u32, rest))
}

/// A number below 0 and not below `-half`, and no more.
#[tactic(auto, unfolding(crate::specs::Reading::negative_at))]
fn negative(half: u64, bytes: &[u8]) -> Result<i64, Left>
    requires { half ≤ 2 ^ 63 }
    ensures { result ≡ negative_at half bytes.now }
{
    let rest = literal(b"-", bytes)?;
    let (number, rest) = number(10, 1, half, rest)?;
    end(-1 - number.saturating_sub(1) as i64, rest)
}

/// A number from 0 and below `half`, and no more.
#[tactic(auto, unfolding(crate::specs::Reading::positive_at))]
fn positive(half: u64, bytes: &[u8]) -> Result<i64, Left>
    requires some { 0 < half }
    requires limit { half ≤ 2 ^ 63 }
    ensures { result ≡ positive_at half bytes.now }
{
    let (number, rest) = number(10, 0, half - 1, bytes)?;
    end(number as i64, rest)
}

/// A number from `-half` and below `half`, and no more.
#[tactic(auto, unfolding(crate::specs::Reading::signed_at))]
fn signed(half: u64, bytes: &[u8]) -> Result<i64, Left>
    requires some { 0 < half }
    requires limit { half ≤ 2 ^ 63 }
    ensures number { result ≡ signed_at half bytes.now }
    ensures fits { IfOk result (λ number. fits_signed half number ≡ true) }
{
    either(negative(half, bytes), positive(half, bytes))
}

/// A number of 64 bits with its sign, and no more.
pub(crate) fn long(bytes: &[u8]) -> Result<i64, Left>
    ensures { result ≡ signed_at (2 ^ 63) bytes.now }
{
    signed(1 << 63, bytes)
}

/// A code, a number of 32 bits with its sign, and no more.
pub(crate) fn code(bytes: &[u8]) -> Result<i32, Left>
    ensures { result ≡ signed_at (2 ^ 31) bytes.now }
{
    let code = signed(1 << 31, bytes)?;
    Ok(code as i32)
}
