//! Which callers are awaited.

use std::sync::atomic::{AtomicBool, AtomicU32, Ordering};

/// How many callers are awaited: they are known to call, and are between two calls or before the first. While
/// one is, no moment at which a line is due later counts as now, since it may call before.
///
/// No result rests on it. Where a call is stopped, or a caller that is awaited doesn't call for long, nobody is
/// awaited any longer.
#[derive(Drop)]
pub struct Roll {
    between: AtomicU32,
    is_off: AtomicBool,
}

impl Roll {
    /// So many callers are awaited, each before its first call.
    pub fn of(callers: u32) -> Roll {
        Roll {
            between: AtomicU32::new(callers),
            is_off: AtomicBool::new(false),
        }
    }

    /// A caller that was awaited has called.
    pub(crate) fn called(&self) {
        self.between.fetch_sub(1, Ordering::SeqCst);
    }

    /// A caller's call has returned, and it is awaited again.
    pub(crate) fn returned(&self) {
        self.between.fetch_add(1, Ordering::SeqCst);
    }

    /// A caller that was awaited calls no more.
    pub fn leaves(&self) {
        self.between.fetch_sub(1, Ordering::SeqCst);
    }

    /// Nobody is awaited any longer.
    pub fn close(&self) {
        self.is_off.store(true, Ordering::SeqCst);
    }

    /// Whether a caller is awaited.
    pub(crate) fn awaits(&self) -> bool {
        !self.is_off.load(Ordering::SeqCst) && self.between.load(Ordering::SeqCst) > 0
    }
}
