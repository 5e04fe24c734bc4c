//! Whether two plans are equal.

ghost use Rattle.std.specs.Prelude.{◌≡◌, ◌↔◌, IsTrue};

use crate::event::Command;
use crate::plan::Plan;
use crate::rows::{CallerRow, DeviceRow, DomainRow, LinkRow};
use crate::{Items, Named, NamedList};

/// A test of equality that is exact.
trait Same {
    /// Whether the two are equal. It takes no memory.
    fn same(&self, other: &Self) -> bool
        ensures { IsTrue result ↔ (self.now ≡ other.now) };
}

impl Same for u8 {
    fn same(&self, other: &u8) -> bool {
        self == other
    }
}

impl Same for i32 {
    fn same(&self, other: &i32) -> bool {
        self == other
    }
}

impl Same for Command {
    fn same(&self, other: &Command) -> bool {
        self == other
    }
}

impl Same for LinkRow {
    fn same(&self, other: &LinkRow) -> bool {
        self == other
    }
}

impl<T: Same> Same for Items<T> {
    fn same(&self, other: &Items<T>) -> bool {
        same_slices(self.as_slice(), other.as_slice())
    }
}

impl<T: Same> Same for Option<T> {
    fn same(&self, other: &Option<T>) -> bool {
        match (self, other) {
            (Some(one), Some(another)) => one.same(another),
            (None, None) => true,
            (Some(_), None) => false,
            (None, Some(_)) => false,
        }
    }
}

impl Same for DomainRow {
    fn same(&self, other: &DomainRow) -> bool {
        self.name.same(&other.name)
            && self.parent == other.parent
            && self.always_on == other.always_on
    }
}

impl Same for DeviceRow {
    fn same(&self, other: &DeviceRow) -> bool {
        same_places(self, other) && same_marks(self, other) && same_callbacks(self, other)
    }
}

impl Same for CallerRow {
    fn same(&self, other: &CallerRow) -> bool {
        self.name.same(&other.name) && self.script.same(&other.script)
    }
}

impl<T: Named + Same> Same for NamedList<T> {
    fn same(&self, other: &NamedList<T>) -> bool {
        same_slices(self.as_slice(), other.as_slice())
    }
}

/// Whether the two have equal items in the same order.
fn same_slices<T: Same>(one: &[T], other: &[T]) -> bool
    ensures { IsTrue result ↔ (one.now ≡ other.now) }
{
    let [x, xs @ ..] = one else {
        return other.is_empty();
    };
    let [y, ys @ ..] = other else {
        return false;
    };
    x.same(y) && same_slices(xs, ys)
}

fn same_places(one: &DeviceRow, other: &DeviceRow) -> bool
    ensures { IsTrue result ↔ ((one.now.name ≡ other.now.name) × (one.now.parent ≡ other.now.parent) × (one.now.domain ≡ other.now.domain)) }
{
    one.name.same(&other.name) && one.parent == other.parent && one.domain == other.domain
}

fn same_marks(one: &DeviceRow, other: &DeviceRow) -> bool
    ensures { IsTrue result ↔ ((one.now.ignore_children ≡ other.now.ignore_children) × (one.now.no_callbacks ≡ other.now.no_callbacks) × (one.now.busy ≡ other.now.busy)) }
{
    one.ignore_children == other.ignore_children
        && one.no_callbacks == other.no_callbacks
        && one.busy == other.busy
}

fn same_callbacks(one: &DeviceRow, other: &DeviceRow) -> bool
    ensures { IsTrue result ↔ ((one.now.idle ≡ other.now.idle) × (one.now.suspend ≡ other.now.suspend) × (one.now.resume ≡ other.now.resume) × (one.now.idle_ms ≡ other.now.idle_ms) × (one.now.suspend_ms ≡ other.now.suspend_ms) × (one.now.resume_ms ≡ other.now.resume_ms)) }
{
    one.idle.same(&other.idle)
        && one.suspend.same(&other.suspend)
        && one.resume.same(&other.resume)
        && one.idle_ms == other.idle_ms
        && one.suspend_ms == other.suspend_ms
        && one.resume_ms == other.resume_ms
}

impl Plan {
    /// Whether the two plans are equal. It takes no memory.
    pub fn same(&self, other: &Plan) -> bool
        ensures { IsTrue result ↔ (self.now ≡ other.now) }
    {
        self.lines == other.lines
            && self.trace == other.trace
            && self.domains.same(&other.domains)
            && self.devices.same(&other.devices)
            && self.links.same(&other.links)
            && self.callers.same(&other.callers)
    }
}
