//! Which codes of a call are errors.

ghost use Rattle.std.specs.Prelude.{◌≡◌};
ghost use Rattle.pm_find.specs.findings.Codes.{asks_again, is_error};

use pm_base::{EAGAIN, EBUSY, EINPROGRESS};

/// Whether a code asks to try again.
pub fn asks_again(code: i32) -> bool
    ensures { result ≡ asks_again code }
{
    code == EAGAIN || code == EBUSY || code == EINPROGRESS
}

/// Whether a code is negative and doesn't ask to try again.
pub fn is_error(code: i32) -> bool
    ensures { result ≡ is_error code }
{
    code < 0 && !asks_again(code)
}
