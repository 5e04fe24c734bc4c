//! The fields of a line with a payload.

ghost use Rattle.std.specs.Prelude.{◌≡◌, ◌++◌, ◌<◌, ◌∷◌, [], false, decimal, take, true};
ghost use Rattle.std.specs.Fmt.{digit_glyph, digits};
ghost use Rattle.pm_model.specs.Spelling.{bit, padded};
ghost use Rattle.pm_linetext.specs.Payload.{counts_text, fields_text, are_digits, states_text};
ghost use Rattle.pm_linetext.specs.Room.{HasRoom};

use crate::pieces::{digit, put, put_number};
use crate::text::LineBytes;
use pm_model::Fields;

/// The hexadecimal digit of a number below 16.
fn hex_digit(number: u8) -> u8
    requires { number < 16 }
    ensures { result ≡ digit_glyph false number }
{
    if number < 10 {
        b'0' + number
    } else {
        b'a' - 10 + number
    }
}

/// 1 or 0.
#[inline(always)]
fn bit(set: bool) -> u8
    ensures { result ∷ [] ≡ bit set }
{
    if set { b'1' } else { b'0' }
}

/// Puts the fields.
#[inline(never)]
pub(crate) fn put_fields(bytes: &mut LineBytes, at: usize, fields: &Fields) -> usize
    requires { HasRoom (take at bytes.old) (fields_text fields.now) }
    ensures { take result bytes.new ≡ take at bytes.old ++ fields_text fields.now }
{
    // Mostly each has one digit.
    if have_one_digit(fields) {
        put_form(bytes, at, fields)
    } else {
        let at = put_counts(bytes, at, fields);
        put_states(bytes, at, fields)
    }
}

/// Whether flags, usage, depth and children have one digit each.
#[inline(always)]
fn have_one_digit(fields: &Fields) -> bool
    ensures { result ≡ are_digits fields.now }
{
    fields.flags < 16 && fields.cnt < 10 && fields.dep < 10 && fields.child < 10
}

/// Puts fields of one digit each: a form, in which the digits are set.
#[inline(always)]
fn put_form(bytes: &mut LineBytes, at: usize, fields: &Fields) -> usize
    requires room { HasRoom (take at bytes.old) (fields_text fields.now) }
    requires one_digit { are_digits fields.now ≡ true }
    ensures { take result bytes.new ≡ take at bytes.old ++ fields_text fields.now }
{
    let end = put(
        bytes,
        at,
        b" flags-0 cnt-0  dep-0  auto-0 p-0 irq-0 child-0",
    );
    bytes[at + 7] = hex_digit(fields.flags);
    bytes[at + 13] = digit(fields.cnt as u8);
    bytes[at + 20] = digit(fields.dep as u8);
    bytes[at + 28] = bit(fields.auto_on);
    bytes[at + 32] = bit(fields.pending);
    bytes[at + 46] = digit(fields.child as u8);
    end
}

/// Puts flags in hexadecimal.
#[tactic(auto, using(crate::proofs::PieceLemmas::hex_digits))]
fn put_flags(bytes: &mut LineBytes, at: usize, flags: u8) -> usize
    requires { HasRoom (take at bytes.old) (digits 16 false flags) }
    ensures { take result bytes.new ≡ take at bytes.old ++ digits 16 false flags }
{
    if flags < 16 {
        put(bytes, at, &[hex_digit(flags)])
    } else {
        put(bytes, at, &[hex_digit(flags / 16), hex_digit(flags % 16)])
    }
}

/// Puts a count, padded on the right to two places.
#[tactic(auto, using(crate::proofs::PieceLemmas::padded_digit, crate::proofs::PieceLemmas::padded_digits))]
fn put_padded(bytes: &mut LineBytes, at: usize, count: u32) -> usize
    requires { HasRoom (take at bytes.old) (padded (decimal count)) }
    ensures { take result bytes.new ≡ take at bytes.old ++ padded (decimal count) }
{
    let at = put_number(bytes, at, count as u64);
    if count < 10 { put(bytes, at, b" ") } else { at }
}

/// Puts flags, usage and depth.
#[inline(never)]
fn put_counts(bytes: &mut LineBytes, at: usize, fields: &Fields) -> usize
    requires { HasRoom (take at bytes.old) (counts_text fields.now) }
    ensures { take result bytes.new ≡ take at bytes.old ++ counts_text fields.now }
{
    let at = put(bytes, at, b" flags-");
    let at = put_flags(bytes, at, fields.flags);
    let at = put(bytes, at, b" cnt-");
    let at = put_padded(bytes, at, fields.cnt);
    let at = put(bytes, at, b" dep-");
    put_padded(bytes, at, fields.dep)
}

/// Puts auto, pending, irq and child.
#[inline(never)]
fn put_states(bytes: &mut LineBytes, at: usize, fields: &Fields) -> usize
    requires { HasRoom (take at bytes.old) (states_text fields.now) }
    ensures { take result bytes.new ≡ take at bytes.old ++ states_text fields.now }
{
    let at = put(bytes, at, b" auto-");
    let at = put(bytes, at, &[bit(fields.auto_on)]);
    let at = put(bytes, at, b" p-");
    let at = put(bytes, at, &[bit(fields.pending)]);
    let at = put(bytes, at, b" irq-0 child-");
    put_number(bytes, at, fields.child as u64)
}
