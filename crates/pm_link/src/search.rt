//! The search for a link among those of a consumer.

ghost use Rattle.std.specs.Prelude.{◌≡◌, ◌+◌, ◌<◌, ◌≤◌, ◌&&◌, ◌^◌, ℕ, Bool, List, length, nat_eq, nat_le, slice_index};
ghost use Rattle.pm_index.specs.Marks.{is_marked};
ghost use Rattle.pm_model.specs.Derived.{is_above};
ghost use Rattle.pm_link.specs.LinkOrder.{AreStarts, IsCountBelow, IsFirst, IsFirstIn, IsLinkOrder, IsRisingBy, supplier_at};
ghost use Rattle.pm_link.specs.Marked.{AreMarks, IsSized};
ghost use Rattle.pm_link.specs.Wanted.{is_wanted_at, bound_of};

use crate::marks::Marks;
use crate::order::{own, start, supplier_at, suppliers_below};
use pm_base::DevId;
use pm_index::Bits;
use pm_model::LinkRow;

/// Which link of a consumer is looked for.
#[derive(Clone, Copy)]
pub enum Want {
    /// A present one with `DL_FLAG_PM_RUNTIME` that is held.
    Held,
    /// Such a one that isn't.
    Free,
    /// Such a one, held or not, whose supplier stands behind this device.
    Above(Option<DevId>),
    /// One to this supplier, whatever it is.
    To(DevId),
    /// A held one, whatever it is.
    Taken,
}

// How many of a consumer's links stand up to this supplier.
fn count_up_to(rows: &[LinkRow], own: &[u32], last: Option<DevId>) -> usize
    requires { IsRisingBy (supplier_at rows.now) own.now }
    ensures { IsCountBelow (supplier_at rows.now) own.now (bound_of last) result }
{
    match last {
        Some(device) => suppliers_below(rows, own, u64::from(device.0) + 1),
        None => 0,
    }
}

// The first of a consumer's links that has a mark, of those behind so many. Its own begin at `from`
// in the order.
fn first_marked(bits: &Bits, own: &[u32], from: usize, behind: usize) -> Option<usize>
    requires within { from + length own.now ≤ length bits.now }
    requires among { behind ≤ length own.now }
    requires few { length bits.now < 2 ^ 32 }
    ensures { IsFirstIn (λ k. nat_le behind k && is_marked bits.now (from + k)) own.now result }
{
    let place = bits.first(from + behind)? - from;
    if place < own.len() {
        Some(own[place] as usize)
    } else {
        None
    }
}

// That to this supplier.
fn first_to(rows: &[LinkRow], own: &[u32], supplier: DevId) -> Option<usize>
    requires { IsRisingBy (supplier_at rows.now) own.now }
    ensures { IsFirstIn (λ k. nat_eq (supplier_at rows.now (slice_index own.now k)) supplier.0) own.now result }
{
    let place = suppliers_below(rows, own, u64::from(supplier.0));
    if place < own.len() && supplier_at(rows, own[place]) == supplier.0 {
        Some(own[place] as usize)
    } else {
        None
    }
}

/// The first link of a consumer that is looked for. It looks at few of them.
pub fn first_wanted(
    want: Want,
    dev: DevId,
    rows: &[LinkRow],
    order: &[u32],
    starts: &[usize],
    marks: &Marks,
) -> Option<usize>
    requires ordered { IsLinkOrder rows.now order.now }
    requires started { AreStarts rows.now order.now starts.now }
    requires sized { IsSized (length order.now) marks.now }
    ensures { (held present : List Bool) → AreMarks rows.now order.now held present marks.now → IsFirst (is_wanted_at want dev rows.now held present) rows.now result }
{
    let from = start(starts, order, dev.0 as usize);
    let own = own(rows, starts, order, dev);
    match want {
        Want::Held => first_marked(&marks.live_held, own, from, 0),
        Want::Free => first_marked(&marks.live_free, own, from, 0),
        Want::Above(last) => first_marked(&marks.live, own, from, count_up_to(rows, own, last)),
        Want::To(supplier) => first_to(rows, own, supplier),
        Want::Taken => first_marked(&marks.held, own, from, 0),
    }
}
