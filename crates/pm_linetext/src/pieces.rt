//! The pieces of a line. Each is put at a place of the line's bytes, and the place behind it is the answer.

ghost use Rattle.std.specs.Prelude.{◌≡◌, ◌++◌, ◌<◌, ◌≤◌, ◌∷◌, [], decimal, take};
ghost use Rattle.std.specs.Fmt.{signed_decimal};
ghost use Rattle.pm_model.specs.Spelling.{actor_text, device_name, why_text};
ghost use Rattle.pm_linetext.specs.Room.{HasRoom};

use crate::names::NameSource;
use crate::padded::Padded;
use crate::text::LineBytes;
use itoa::Buffer;
use pm_base::{ActorId, DevId, Why};

/// Puts a piece.
#[inline(always)]
pub(crate) fn put_bytes(bytes: &mut LineBytes, at: usize, piece: &[u8]) -> usize
    requires { HasRoom (take at bytes.old) piece.now }
    ensures { take result bytes.new ≡ take at bytes.old ++ piece.now }
{
    let end = at + piece.len();
    bytes[at..end].copy_from_slice(piece);
    end
}

/// Puts a piece whose length the compiler knows, so that it is copied without a call.
#[inline(always)]
pub(crate) fn put<const N: usize>(bytes: &mut LineBytes, at: usize, piece: &[u8; N]) -> usize
    requires { HasRoom (take at bytes.old) piece.now }
    ensures { take result bytes.new ≡ take at bytes.old ++ piece.now }
{
    put_bytes(bytes, at, piece)
}

/// Puts a text. It is copied with what pads it, which the next piece covers.
#[inline(always)]
pub(crate) fn put_whole<const N: usize>(bytes: &mut LineBytes, at: usize, text: &Padded<N>) -> usize
    requires padding { N ≤ 64 }
    requires room { HasRoom (take at bytes.old) text.now }
    ensures put { take result bytes.new ≡ take at bytes.old ++ text.now }
    ensures inside { result ≤ 256 }
{
    bytes[at..at + N].copy_from_slice(text.padded());
    at + text.len()
}

/// The digit of a number below 10.
#[inline(always)]
pub(crate) fn digit(number: u8) -> u8
    requires { number < 10 }
    ensures { result ∷ [] ≡ decimal number }
{
    b'0' + number
}

/// Puts a number in decimal.
#[inline(always)]
pub(crate) fn put_number(bytes: &mut LineBytes, at: usize, number: u64) -> usize
    requires { HasRoom (take at bytes.old) (decimal number) }
    ensures { take result bytes.new ≡ take at bytes.old ++ decimal number }
{
    // Most numbers have one digit.
    if number < 10 {
        put(bytes, at, &[digit(number as u8)])
    } else {
        put_digits(bytes, at, number)
    }
}

/// Puts a number in decimal, of any length.
#[inline(never)]
fn put_digits(bytes: &mut LineBytes, at: usize, number: u64) -> usize
    requires { HasRoom (take at bytes.old) (decimal number) }
    ensures { take result bytes.new ≡ take at bytes.old ++ decimal number }
{
    put_bytes(bytes, at, Buffer::new().format(number).as_bytes())
}

/// Puts a number in decimal, with a minus where it is below 0.
#[inline(always)]
pub(crate) fn put_signed(bytes: &mut LineBytes, at: usize, number: i64) -> usize
    requires { HasRoom (take at bytes.old) (signed_decimal number) }
    ensures { take result bytes.new ≡ take at bytes.old ++ signed_decimal number }
{
    if number < 0 {
        put_negative(bytes, at, number)
    } else {
        put_number(bytes, at, number as u64)
    }
}

/// Puts a number below 0 in decimal, with its minus.
#[inline(never)]
fn put_negative(bytes: &mut LineBytes, at: usize, number: i64) -> usize
    requires { HasRoom (take at bytes.old) (signed_decimal number) }
    ensures { take result bytes.new ≡ take at bytes.old ++ signed_decimal number }
{
    put_bytes(bytes, at, Buffer::new().format(number).as_bytes())
}

/// Puts what leads to the name of a device, by its place, and the name.
#[inline(always)]
pub(crate) fn put_name<S: NameSource, const N: usize>(
    bytes: &mut LineBytes,
    at: usize,
    names: &S,
    lead: &[u8; N],
    place: usize,
) -> usize
    requires { HasRoom (take at bytes.old) (lead.now ++ device_name (S.names names.now) place) }
    ensures { take result bytes.new ≡ take at bytes.old ++ (lead.now ++ device_name (S.names names.now) place) }
{
    let at = put(bytes, at, lead);
    names.put_device_name(bytes, at, place)
}

/// Puts what leads to the name of a device, and the name.
#[inline(always)]
pub(crate) fn put_device<S: NameSource, const N: usize>(
    bytes: &mut LineBytes,
    at: usize,
    names: &S,
    lead: &[u8; N],
    dev: DevId,
) -> usize
    requires { HasRoom (take at bytes.old) (lead.now ++ device_name (S.names names.now) dev.0) }
    ensures { take result bytes.new ≡ take at bytes.old ++ (lead.now ++ device_name (S.names names.now) dev.0) }
{
    put_name(bytes, at, names, lead, dev.0 as usize)
}

/// Puts who writes the line.
#[inline(always)]
pub(crate) fn put_actor<S: NameSource>(
    bytes: &mut LineBytes,
    at: usize,
    names: &S,
    actor: ActorId,
) -> usize
    requires { HasRoom (take at bytes.old) (actor_text (S.names names.now) actor) }
    ensures { take result bytes.new ≡ take at bytes.old ++ actor_text (S.names names.now) actor }
{
    match actor {
        ActorId::Caller(place) => names.put_caller_name(bytes, at, place as usize),
        ActorId::Work(place) => put_name(bytes, at, names, b"work.", place as usize),
        ActorId::Timer(place) => put_name(bytes, at, names, b"timer.", place as usize),
    }
}

/// Puts why a usage count is held.
#[inline(always)]
pub(crate) fn put_why<S: NameSource>(bytes: &mut LineBytes, at: usize, names: &S, why: Why) -> usize
    requires { HasRoom (take at bytes.old) (why_text (S.names names.now) why) }
    ensures { take result bytes.new ≡ take at bytes.old ++ why_text (S.names names.now) why }
{
    match why {
        Why::Caller => put(bytes, at, b"caller"),
        Why::Control => put(bytes, at, b"control"),
        Why::Forbid => put(bytes, at, b"forbid"),
        Why::Delay => put(bytes, at, b"delay"),
        Why::Child(dev) => put_device(bytes, at, names, b"child ", dev),
        Why::Link(dev) => put_device(bytes, at, names, b"link ", dev),
    }
}
