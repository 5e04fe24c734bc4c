//! Whether a device is live.

ghost use Rattle.std.specs.Prelude.{◌≡◌, ◌<◌, ◌&&◌, ◌||◌, length, reverse};
ghost use Rattle.pm_base.specs.declared.Cb.TheVariants as cb;
ghost use Rattle.pm_model.specs.Counted.{is_cb, is_same, runs, says_runs};
ghost use Rattle.pm_model.specs.Derived.{is_active};

use pm_base::{Cb, DevId};
use pm_device::Parts;
use pm_model::{Event, Line};

// Whether two callbacks are of one kind.
fn is_cb(cb: Cb, other: Cb) -> bool
    ensures { result ≡ is_cb cb other }
{
    match cb {
        Cb::Idle => matches!(other, Cb::Idle),
        Cb::Suspend => matches!(other, Cb::Suspend),
        Cb::Resume => matches!(other, Cb::Resume),
    }
}

// Whether a callback of a device is this one.
fn is_of(cb: Cb, dev: DevId, other: Cb, device: DevId) -> bool
    ensures { result ≡ (is_cb cb other && is_same dev device) }
{
    is_cb(cb, other) && device.0 == dev.0
}

// Whether a callback of a device runs, where an event says so.
fn says_runs(cb: Cb, dev: DevId, event: Event) -> Option<bool>
    ensures { result ≡ says_runs cb dev event }
{
    let (other, device, begun) = match event {
        Event::Begin { dev, cb } => (cb, dev, true),
        Event::End { dev, cb, .. } => (cb, dev, false),
        _ => return None,
    };
    if is_of(cb, dev, other, device) {
        Some(begun)
    } else {
        None
    }
}

// Whether a callback of a device has begun and not ended, by these lines in order. It looks from the last
// line back to the one that says it.
fn runs(cb: Cb, dev: DevId, lines: &[Line]) -> bool
    ensures { result ≡ runs cb dev (reverse lines.now) }
{
    let mut rest = lines;
    while let Some((line, before)) = rest.split_last() {
        if let Some(said) = says_runs(cb, dev, line.event) {
            return said;
        }
        rest = before;
    }
    false
}

/// Whether a device is Active, or its suspend or resume callback runs, by the counters and the lines in order.
/// Where it isn't Active, the lines are looked at from the last one back.
pub fn is_live(parts: &Parts, lines: &[Line], dev: DevId) -> bool
    requires { dev.0 < length parts.now.shape.parents }
    ensures { result ≡ (is_active parts.now.views dev || runs cb.Suspend dev (reverse lines.now) || runs cb.Resume dev (reverse lines.now)) }
{
    parts.is_active(dev) || runs(Cb::Suspend, dev, lines) || runs(Cb::Resume, dev, lines)
}
