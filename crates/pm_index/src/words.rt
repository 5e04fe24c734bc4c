//! Bits in words of 64.

ghost use Rattle.std.specs.Prelude.{◌≡◌, ◌+◌, ◌*◌, ◌/◌, ◌%◌, ◌^◌, ◌<◌, ◌≤◌, ◌==◌, ℕ, true, length, replicate, slice_index, IfNone, IfOk, IfSome};
ghost use Rattle.std.specs.Int.{bit_at};
ghost use Rattle.pm_index.specs.Words.{NoBit, bit_of, with_bit, without_bit};

use std::alloc::{AllocError, Global};

/// So many words with no bit set.
pub fn nothing(alloc: Global, words: usize) -> Result<Vec<u64>, AllocError>
    ensures { IfOk result (λ v. v.items ≡ replicate words 0) }
{
    vec![in alloc; 0; words]
}

/// Whether a bit is set.
pub fn is_set(words: &[u64], bit: usize) -> bool
    requires { bit < 64 * length words.now }
    ensures { result ≡ bit_of words.now bit }
{
    (words[bit / 64] >> (bit % 64)) & 1 == 1
}

/// Sets a bit.
pub fn set_bit(words: &mut [u64], bit: usize)
    requires { bit < 64 * length words.old }
    ensures { words.new ≡ with_bit words.old bit }
{
    words[bit / 64] |= 1 << (bit % 64);
}

/// Clears a bit, and says whether none is left in its word.
pub fn clear_bit(words: &mut [u64], bit: usize) -> bool
    requires { bit < 64 * length words.old }
    ensures cleared { words.new ≡ without_bit words.old bit }
    ensures empty { result ≡ (slice_index words.new (bit / 64) == 0) }
{
    let word = words[bit / 64] & !(1 << (bit % 64));
    words[bit / 64] = word;
    word == 0
}

// The first bit of a word at or after `from` that is set.
fn first_of_word(word: u64, from: usize) -> Option<usize>
    requires { from < 64 }
    ensures found { IfSome result (λ i. (from ≤ i) × (i < 64) × (bit_at word i ≡ 1)) }
    ensures first { IfSome result (λ i. (j : ℕ) → from ≤ j → j < i → bit_at word j ≡ 0) }
    ensures missing { IfNone result (word / 2 ^ from ≡ 0) }
{
    let rest = word >> from;
    if rest == 0 {
        return None;
    }
    Some(from + rest.trailing_zeros() as usize)
}

/// The first bit at or after `from` that is set, of those in the same word as `from`.
pub fn first_beside(words: &[u64], from: usize) -> Option<usize>
    requires { from < 64 * length words.now }
    ensures found { IfSome result (λ i. (from ≤ i) × (i < 64 * length words.now) × (bit_of words.now i ≡ true)) }
    ensures first { IfSome result (λ i. NoBit words.now from i) }
    ensures missing { IfNone result (NoBit words.now from (64 * (from / 64 + 1))) }
    ensures rest { IfNone result (slice_index words.now (from / 64) / 2 ^ (from % 64) ≡ 0) }
{
    let bit = first_of_word(words[from / 64], from % 64)?;
    Some(from / 64 * 64 + bit)
}

/// The first bit at or after `from` that is set. It looks at one word after another.
pub fn first_after(words: &[u64], from: usize) -> Option<usize>
    requires { 64 * length words.now < 2 ^ 63 }
    ensures found { IfSome result (λ i. (from ≤ i) × (i < 64 * length words.now) × (bit_of words.now i ≡ true)) }
    ensures first { IfSome result (λ i. NoBit words.now from i) }
    ensures missing { IfNone result (NoBit words.now from (64 * length words.now)) }
{
    let mut at = from;
    while at < 64 * words.len() {
        if let Some(bit) = first_beside(words, at) {
            return Some(bit);
        }
        at = 64 * (at / 64 + 1);
    }
    None
}
