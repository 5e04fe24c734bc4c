//! Words in the bytes of a trace, told by 16 bytes at a time as numbers.

const SPACES: u128 = 0x2020_2020_2020_2020_2020_2020_2020_2020;

const ONES: u128 = 0x0101_0101_0101_0101_0101_0101_0101_0101;

const HIGHS: u128 = 0x8080_8080_8080_8080_8080_8080_8080_8080;

// The first 16 bytes, the first of all lowest.
#[inline(always)]
fn first_bytes(bytes: &[u8]) -> Option<u128> {
    Some(u128::from_le_bytes(*bytes.first_chunk::<16>()?))
}

// Ones for those of 16 bytes that stand before the first space, and for all where none is one.
#[inline(always)]
fn before_space(bytes: u128) -> u128 {
    // A space is zero here, and the lowest byte that is zero is the first to borrow.
    let differs = bytes ^ SPACES;
    let zeros = differs.wrapping_sub(ONES) & !differs & HIGHS;
    let first = zeros & zeros.wrapping_neg();
    (first >> 7).wrapping_sub(1)
}

/// A word of at most 15 bytes and the space behind it.
#[derive(Clone, Copy)]
pub(crate) struct Word {
    bytes: u128,
    // Ones for the bytes that are the word's and its space's.
    mask: u128,
}

impl Word {
    /// No word: no bytes begin with it.
    pub(crate) const NONE: Word = Word { bytes: 1, mask: 0 };

    /// The word with which the bytes begin, where it is so short and they are 16 or more.
    pub(crate) fn first_of(bytes: &[u8]) -> Option<Word> {
        let first = first_bytes(bytes)?;
        let before = before_space(first);
        if before == u128::MAX {
            return None;
        }
        let mask = before << 8 | 0xff;
        Some(Word {
            bytes: first & mask,
            mask,
        })
    }

    /// Whether the bytes begin with it and its space.
    #[inline(always)]
    pub(crate) fn begins(&self, bytes: &[u8]) -> bool {
        match first_bytes(bytes) {
            Some(first) => first & self.mask == self.bytes,
            None => false,
        }
    }
}

// A number for these bytes behind those of another number. Two that differ are likely to have two, whose upper halves
// differ too.
#[inline(always)]
fn mixed(number: u64, bytes: u128) -> u64 {
    let low = number ^ (bytes & 0xffff_ffff_ffff_ffff) as u64;
    let high = (bytes >> 64) as u64;
    (low ^ high.wrapping_mul(0xBF58_476D_1CE4_E5B9)).wrapping_mul(0x9E37_79B9_7F4A_7C15)
}

// The number of a word of 16 bytes or more, and nothing for one of more than 63.
#[inline(never)]
fn number_of_long(bytes: &[u8]) -> Option<u64> {
    let mut number = 0;
    for piece in bytes.chunks_exact(16).take(4) {
        let bytes = first_bytes(piece)?;
        let before = before_space(bytes);
        number = mixed(number, bytes & before);
        if before != u128::MAX {
            return Some(number);
        }
    }
    None
}

/// The number of the word with which the bytes begin, up to a space. No clause says that two words have two.
#[inline(always)]
pub(crate) fn number_of(bytes: &[u8]) -> Option<u64> {
    let first = first_bytes(bytes)?;
    let before = before_space(first);
    if before == u128::MAX {
        return number_of_long(bytes);
    }
    Some(mixed(0, first & before))
}
