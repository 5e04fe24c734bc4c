//! Return codes and flags.
//!
//! The kernel names an error by a positive number and answers it negated. Here a name stands for
//! the answer itself: `EAGAIN` is -11.

ghost use Rattle.std.specs.Prelude.{◌≡◌};
ghost use Rattle.pm_base.specs.Numbers.{errno_eacces, errno_eagain, errno_ebusy, errno_einprogress, errno_einval, errno_eio, errno_eperm, errno_etimedout, negated, rpm_async, rpm_auto, rpm_get_put, rpm_nowait};
ghost use Rattle.pm_base.specs.declared.codes.TheConstants.{ASYNC, AUTO, EACCES, EAGAIN, EBUSY, EINPROGRESS, EINVAL, EIO, EPERM, ETIMEDOUT, GET_PUT, NOWAIT};

/// Not permitted. No helper answers it; a callback may.
pub const EPERM: i32 = -1;

/// Input or output failed. No helper answers it of itself; a callback may.
pub const EIO: i32 = -5;

/// The device's state forbids it now.
pub const EAGAIN: i32 = -11;

/// Runtime power management of the device is disabled.
pub const EACCES: i32 = -13;

/// Children or the parent stand in the way.
pub const EBUSY: i32 = -16;

/// The device has a stored error, or the call has nothing to act on.
pub const EINVAL: i32 = -22;

/// The callback gave up waiting. No helper answers it of itself.
pub const ETIMEDOUT: i32 = -110;

/// The same transition is under way already.
pub const EINPROGRESS: i32 = -115;

/// Queue the work and return (`RPM_ASYNC`).
pub const ASYNC: u8 = 1;

/// Don't wait for a transition that is under way (`RPM_NOWAIT`).
pub const NOWAIT: u8 = 2;

/// The helper moved the usage count (`RPM_GET_PUT`).
pub const GET_PUT: u8 = 4;

/// Go by the autosuspend delay (`RPM_AUTO`).
pub const AUTO: u8 = 8;

/// The codes and flags that definitions and code go by are the kernel's numbers.
pub fn codes_are_numbers()
    ensures eperm { EPERM ≡ negated errno_eperm }
    ensures eio { EIO ≡ negated errno_eio }
    ensures eagain { EAGAIN ≡ negated errno_eagain }
    ensures eacces { EACCES ≡ negated errno_eacces }
    ensures ebusy { EBUSY ≡ negated errno_ebusy }
    ensures einval { EINVAL ≡ negated errno_einval }
    ensures etimedout { ETIMEDOUT ≡ negated errno_etimedout }
    ensures einprogress { EINPROGRESS ≡ negated errno_einprogress }
    ensures async_flag { ASYNC ≡ rpm_async }
    ensures nowait_flag { NOWAIT ≡ rpm_nowait }
    ensures get_put_flag { GET_PUT ≡ rpm_get_put }
    ensures auto_flag { AUTO ≡ rpm_auto }
{}
