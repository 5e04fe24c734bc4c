//! Text that is shown as UTF-8, with nothing in it that acts on a terminal.

ghost use Rattle.std.specs.Prelude.{◌≡◌, ◌<◌, ◌++◌, IfOk, OnOk};
ghost use Rattle.pm_spans.specs.source.Visible.{byte_at, char_len, hex_digit, is_control, is_hidden, is_second, is_tail, is_within, plain_left, plain_len, shown_byte, visible};

use crate::source::places::behind;
use pm_base::NoMemory;
use pm_linetext::push;
use std::alloc::Global;

/// Whether the byte is a control character, and no tab.
fn is_control(byte: u8) -> bool
    ensures { result ≡ is_control byte }
{
    (byte < 32 && byte != b'\t') || byte == 127
}

fn is_within(least: u8, greatest: u8, byte: u8) -> bool
    ensures { result ≡ is_within least greatest byte }
{
    least <= byte && byte <= greatest
}

/// Whether the byte goes on with a character of UTF-8.
fn is_tail(byte: u8) -> bool
    ensures { result ≡ is_tail byte }
{
    is_within(128, 191, byte)
}

/// The byte at a place, and 0 behind the end.
fn byte_at(bytes: &[u8], place: usize) -> u8
    ensures { result ≡ byte_at bytes.now place }
{
    bytes.get(place).copied().unwrap_or(0)
}

/// Whether the byte is the second of a character that has more than two and begins with the first (RFC 3629, section 4).
#[tactic(auto, unfolding(crate::specs::source::Visible::is_second))]
fn is_second(first: u8, second: u8) -> bool
    ensures { result ≡ is_second first second }
{
    match first {
        224 => is_within(160, 191, second),
        237 => is_within(128, 159, second),
        240 => is_within(144, 191, second),
        244 => is_within(128, 143, second),
        _ => is_tail(second),
    }
}

/// How many bytes the character of UTF-8 has that begins with these bytes, and 0 where they are of none (RFC 3629, section
/// 4).
#[tactic(auto, unfolding(crate::specs::source::Visible::char_len))]
fn char_len(a: u8, b: u8, c: u8, d: u8) -> usize
    ensures { result ≡ char_len a b c d }
{
    if a < 128 {
        1
    } else if is_within(194, 223, a) && is_tail(b) {
        2
    } else if is_within(224, 239, a) && is_second(a, b) && is_tail(c) {
        3
    } else if is_within(240, 244, a) && is_second(a, b) && is_tail(c) && is_tail(d) {
        4
    } else {
        0
    }
}

/// Whether a character controls a terminal, or turns the direction of what stands behind it.
#[tactic(auto, unfolding(crate::specs::source::Visible::is_hidden))]
fn is_hidden(a: u8, b: u8, c: u8) -> bool
    ensures { result ≡ is_hidden a b c }
{
    (a == 194 && b < 160)
        || (a == 216 && b == 156)
        || (a == 226 && b == 128 && (is_within(142, 143, c) || is_within(170, 174, c)))
        || (a == 226 && b == 129 && is_within(166, 169, c))
}

/// How many bytes at the front are shown as they are: those of one character, or none.
#[tactic(auto, unfolding(crate::specs::source::Visible::plain_len))]
fn plain_len(bytes: &[u8]) -> usize
    ensures { result ≡ plain_len bytes.now }
{
    let a = byte_at(bytes, 0);
    let b = byte_at(bytes, 1);
    let c = byte_at(bytes, 2);
    if is_control(a) || is_hidden(a, b, c) {
        0
    } else {
        char_len(a, b, c, byte_at(bytes, 3))
    }
}

/// The digit of a number below 16.
fn hex_digit(number: u8) -> u8
    requires { number < 16 }
    ensures { result ≡ hex_digit number }
{
    if number < 10 {
        b'0' + number
    } else {
        b'a' + (number - 10)
    }
}

/// How many bytes from here on are of one character that is shown, where so many go on with one.
fn plain_left(left: usize, rest: &[u8]) -> usize
    ensures { result ≡ plain_left left rest.now }
{
    if left == 0 { plain_len(rest) } else { left }
}

/// Appends a byte, and as \x and two digits where none from it on is shown as it is. Fails where memory runs out.
#[tactic(auto, unfolding(crate::specs::source::Visible::shown_byte))]
fn push_byte(out: &mut Vec<u8>, left: usize, byte: u8) -> Result<(), NoMemory>
    ensures { OnOk result (out.new.items ≡ out.old.items ++ shown_byte left byte) }
{
    if left == 0 {
        push(
            out,
            &[b'\\', b'x', hex_digit(byte / 16), hex_digit(byte % 16)],
        )
    } else {
        push(out, &[byte])
    }
}

/// Appends bytes as they are shown. Fails where memory runs out.
#[tactic(auto, unfolding(crate::specs::source::Visible::visible_from))]
pub fn push_visible(out: &mut Vec<u8>, bytes: &[u8]) -> Result<(), NoMemory>
    ensures { OnOk result (out.new.items ≡ out.old.items ++ visible bytes.now) }
{
    // How many of the bytes to come go on with a character that is shown.
    let mut left = 0;
    for (i, byte) in bytes.iter().enumerate() {
        left = plain_left(left, behind(bytes, i));
        push_byte(out, left, *byte)?;
        left = left.saturating_sub(1);
    }
    Ok(())
}

/// Bytes as they are shown. Fails where memory runs out.
pub(crate) fn visible(alloc: Global, bytes: &[u8]) -> Result<Vec<u8>, NoMemory>
    ensures { IfOk result (λ shown. shown.items ≡ visible bytes.now) }
{
    let mut shown = Vec::new(alloc);
    push_visible(&mut shown, bytes)?;
    Ok(shown)
}
