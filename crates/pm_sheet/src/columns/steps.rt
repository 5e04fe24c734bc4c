//! How far a line stands right of the one before it.

/// The width of a column, in pixels.
const PITCH: u32 = 12;

/// How much passed milliseconds widen a step, in pixels: it grows with the number of their binary digits.
fn widened(passed: u64) -> u32 {
    if passed == 0 {
        return 0;
    }
    let digits = 64_u32.saturating_sub(passed.leading_zeros());
    digits.saturating_mul(11)
}

/// How far a line stands right of the one before it, in pixels, by whether the picture changes at it and how many
/// milliseconds passed before it. It is 0 where neither is so: such a line has no column.
pub(crate) fn step(marked: bool, passed: u64) -> u32 {
    if marked || passed > 0 {
        widened(passed).saturating_add(PITCH)
    } else {
        0
    }
}
