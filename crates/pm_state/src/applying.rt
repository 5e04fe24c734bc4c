//! What a row of the call table makes of the counters.

ghost use Rattle.std.specs.Prelude.{◌≡◌, ◌<◌, ◌^◌, true};
ghost use Rattle.pm_model.specs.CanTake.{can_take};
ghost use Rattle.pm_model.specs.ChangeViews.{change_views};
ghost use Rattle.pm_model.specs.Events.{by_event};
ghost use Rattle.pm_device.specs.Parts.{IsFor};

pub use crate::changes::change;
pub use crate::events::happen;
use pm_device::Parts;
use pm_model::{Change, Event, Plan};

/// What the row of a line at this moment, in milliseconds of the run, makes of the counters: first the
/// change that the row names, and then what the line's event changes of itself. It takes no memory.
///
/// Whether the counters can take both is asked of them as they stand before the line: a change that
/// a row names leaves each device's usage, share and begun callbacks, and the held links, as they are.
#[inline(always)]
pub fn apply(parts: &mut Parts, plan: &Plan, time: u64, named: &Change, event: &Event)
    requires made_for { IsFor plan.now parts.old.shape }
    requires fits { can_take plan.now parts.old.views named.now event.now ≡ true }
    requires in_time { time < 2 ^ 63 }
    ensures { parts.new ≡ record parts.old { views = by_event plan.now time event.now (change_views plan.now time named.now parts.old.views) } }
{
    change(parts, plan, time, named);
    happen(parts, plan, time, event);
}
