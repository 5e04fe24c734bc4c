//! The pieces of a line's text, found in bytes.

ghost use Rattle.std.specs.Prelude.{◌≡◌, ◌++◌, IfSome};

/// What is behind a piece, where the bytes begin with it. The test is one call that gives a flag, also where the
/// compiler doesn't take it apart, and so costs less than `strip_prefix`.
#[inline(always)]
pub(crate) fn behind<'a>(piece: &[u8], bytes: &'a [u8]) -> Option<&'a [u8]>
    ensures { IfSome result (λ rest. bytes.now ≡ piece.now ++ rest.now) }
{
    if !bytes.starts_with(piece) {
        return None;
    }
    Some(&bytes[piece.len()..])
}
