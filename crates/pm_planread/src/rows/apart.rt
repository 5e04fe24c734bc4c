//! Whether names are distinct, told by a number of each.

ghost use Rattle.std.specs.Prelude.{◌≡◌, true, map, nat_eq, IfOk, IsTrue};
ghost use Rattle.std.specs.List.{IsDistinct};
ghost use Rattle.pm_names.specs.Table.{all_distinct};
ghost use Rattle.pm_planread.specs.rows.Apart.{is_rising, number_from, number_of, number_with};
ghost use Rattle.pm_planread.specs.rows.Names.{names_in, pair_name};

use crate::rows::index::Label;
use crate::tree::RawLink;
use pm_base::NoMemory;
use std::alloc::Global;

/// Whether no two names are the same, where their numbers tell: numbers cost less to sort than names. Where
/// two numbers are the same, the answer is no.
#[tactic(auto, using(crate::proofs::rows::ApartLemmas::names_apart))]
pub fn are_apart(alloc: Global, labels: &[Label]) -> Result<bool, NoMemory>
    ensures { IfOk result (λ apart. IsTrue apart → all_distinct (names_in labels.now) ≡ true) }
{
    Ok(are_distinct(numbers_of(alloc, labels)?))
}

/// The same of the pairs of names of links.
#[tactic(auto, using(crate::proofs::rows::ApartLemmas::names_apart))]
pub fn are_links_apart(alloc: Global, rows: &[RawLink]) -> Result<bool, NoMemory>
    ensures { IfOk result (λ apart. IsTrue apart → all_distinct (map (λ row. pair_name row.consumer row.supplier) rows.now) ≡ true) }
{
    Ok(are_distinct(pair_numbers(alloc, rows)?))
}

fn numbers_of(alloc: Global, labels: &[Label]) -> Result<Vec<u64>, NoMemory>
    ensures { IfOk result (λ v. v.items ≡ map number_of (names_in labels.now)) }
{
    let mut numbers = Vec::with_capacity(alloc, labels.len())?;
    for label in labels {
        numbers.push(number_from(0, label.name.as_slice()))?;
    }
    Ok(numbers)
}

fn pair_numbers(alloc: Global, rows: &[RawLink]) -> Result<Vec<u64>, NoMemory>
    ensures { IfOk result (λ v. v.items ≡ map number_of (map (λ row. pair_name row.consumer row.supplier) rows.now)) }
{
    let mut numbers = Vec::with_capacity(alloc, rows.len())?;
    for row in rows {
        numbers.push(pair_number(row.consumer.as_slice(), row.supplier.as_slice()))?;
    }
    Ok(numbers)
}

/// The number of two names as one, which isn't made for it.
fn pair_number(consumer: &[u8], supplier: &[u8]) -> u64
    ensures { result ≡ number_of (pair_name consumer.now supplier.now) }
{
    let mut number = 0;
    for byte in consumer {
        number = number_with(number_with(number, 1), *byte);
    }
    number_from(number_with(number, 0), supplier)
}

/// A number of a name behind others, by which nearly all names differ.
fn number_from(start: u64, name: &[u8]) -> u64
    ensures { result ≡ number_from start name.now }
{
    let mut number = start;
    for byte in name {
        number = number_with(number, *byte);
    }
    number
}

fn number_with(number: u64, byte: u8) -> u64
    ensures { result ≡ number_with number byte }
{
    number
        .wrapping_add(u64::from(byte) + 1)
        .wrapping_mul(11_400_714_819_323_198_485)
}

fn are_distinct(numbers: Vec<u64>) -> bool
    ensures { IsTrue result → IsDistinct nat_eq numbers.items }
{
    let mut sorted = numbers;
    sorted.sort_unstable();
    is_rising(sorted.as_slice())
}

/// Whether the numbers are greater than 0, and each is greater than the one before it.
fn is_rising(numbers: &[u64]) -> bool
    ensures { result ≡ is_rising 0 numbers.now }
{
    let mut last = 0;
    for number in numbers {
        if *number <= last {
            return false;
        }
        last = *number;
    }
    true
}
