//! How devices stand in runs that are cut short. What each run writes was worked out from the rules by another
//! program, and the answers by hand from its lines.

use crate::common::fresh_book;
use pm_base::{DevId, NoMemory};
use pm_book::Book;
use pm_model::Plan;
use pm_planread::{PlanFault, read_plan};
use pm_safety::{Bond, Inspect, inspect};
use pm_serial::{drain, fresh_books_have_time};
use std::alloc::Global;

/// A run of so many lines, and how its devices stand then.
pub struct Cut {
    pub shows: &'static str,
    /// The line of the plan that says how many lines there may be.
    limit: &'static [u8],
    plan: &'static [u8],
    /// One answer for each device.
    stand: &'static [Inspect],
}

/// A device that isn't live.
const RESTING: Inspect = Inspect {
    live: false,
    domains: Bond::Nothing,
    parent: Bond::Nothing,
    suppliers: Bond::Nothing,
};

/// A live device that depends on nothing.
const ALONE: Inspect = Inspect {
    live: true,
    ..RESTING
};

/// A live device that has all that it depends on.
const KEPT: Inspect = Inspect {
    live: true,
    domains: Bond::Kept,
    parent: Bond::Kept,
    suppliers: Bond::Kept,
};

/// A live device that depends on its parent alone, and has it.
const CHILD: Inspect = Inspect {
    parent: Bond::Kept,
    ..ALONE
};

/// A live device that is excused from its parent.
const FREE_CHILD: Inspect = Inspect {
    parent: Bond::Excused,
    ..ALONE
};

/// A live device that is excused from a supplier.
const FREE_CONSUMER: Inspect = Inspect {
    suppliers: Bond::Excused,
    ..ALONE
};

/// Device k in a domain under another one, with a parent and a supplier.
const BOUND: &[u8] = b"domain = [{name = 'top'}, {name = 'pd', parent = 'top'}]
device = [{name = 'p'}, {name = 's'}, {name = 'k', domain = 'pd', parent = 'p'}]
link = [{consumer = 'k', supplier = 's'}]
caller = [{name = 'c', script = ['enable p', 'enable s', 'enable k', 'get_sync k', 'put_sync_suspend k']}]
";

/// A parent that ignores its children once they are Active.
const IGNORED: &[u8] = b"device = [{name = 'p'}, {name = 'k', parent = 'p'}]
caller = [{name = 'c', script = ['enable p', 'enable k', 'get_sync k', 'ignore_children p on', 'suspend p']}]
";

pub static CUTS: [Cut; 16] = [
    Cut {
        shows: "a Resuming device isn't live before its callback begins",
        limit: b"lines = 29\n",
        plan: BOUND,
        stand: &[ALONE, ALONE, RESTING],
    },
    Cut {
        shows: "it is live while its resume callback runs",
        limit: b"lines = 30\n",
        plan: BOUND,
        stand: &[ALONE, ALONE, KEPT],
    },
    Cut {
        shows: "it isn't live between the callback's end and its status",
        limit: b"lines = 31\n",
        plan: BOUND,
        stand: &[ALONE, ALONE, RESTING],
    },
    Cut {
        shows: "an Active device is live, with its domains, its parent and its supplier",
        limit: b"lines = 32\n",
        plan: BOUND,
        stand: &[ALONE, ALONE, KEPT],
    },
    Cut {
        shows: "a device is live while its suspend callback runs",
        limit: b"lines = 43\n",
        plan: BOUND,
        stand: &[ALONE, ALONE, KEPT],
    },
    Cut {
        shows: "it isn't live once the callback has ended",
        limit: b"lines = 44\n",
        plan: BOUND,
        stand: &[ALONE, ALONE, RESTING],
    },
    Cut {
        shows: "a disabled parent excuses",
        limit: b"",
        plan: b"device = [{name = 'p'}, {name = 'k', parent = 'p'}]
caller = [{name = 'c', script = ['enable k', 'get_sync k']}]
",
        stand: &[RESTING, FREE_CHILD],
    },
    Cut {
        shows: "a parent that ignores its children excuses",
        limit: b"",
        plan: b"device = [{name = 'p', ignore_children = true}, {name = 'k', parent = 'p'}]
caller = [{name = 'c', script = ['enable p', 'enable k', 'get_sync k']}]
",
        stand: &[RESTING, FREE_CHILD],
    },
    Cut {
        shows: "and one that was used and is suspended beside its child",
        limit: b"",
        plan: b"device = [{name = 'p', ignore_children = true}, {name = 'k', parent = 'p'}]
caller = [{name = 'c', script = ['enable p', 'enable k', 'get_sync k', 'get_sync p', 'put_sync_suspend p']}]
",
        stand: &[RESTING, FREE_CHILD],
    },
    Cut {
        shows: "a parent is kept while it is Active, also where it ignores its children",
        limit: b"lines = 29\n",
        plan: IGNORED,
        stand: &[ALONE, CHILD],
    },
    Cut {
        shows: "and excuses once it is suspended",
        limit: b"",
        plan: IGNORED,
        stand: &[RESTING, FREE_CHILD],
    },
    Cut {
        shows: "a parent whose status was forced excuses",
        limit: b"",
        plan: b"device = [{name = 'p'}, {name = 'k', parent = 'p'}]
caller = [{name = 'c', script = ['enable p', 'enable k', 'get_sync k', 'disable p', 'set_suspended p']}]
",
        stand: &[RESTING, FREE_CHILD],
    },
    Cut {
        shows: "a supplier whose resume answered -13 excuses",
        limit: b"",
        plan: b"device = [{name = 's'}, {name = 'k'}]
link = [{consumer = 'k', supplier = 's'}]
caller = [{name = 'c', script = ['enable k', 'get_sync k']}]
",
        stand: &[RESTING, FREE_CONSUMER],
    },
    Cut {
        shows: "one of two suppliers that isn't Active is enough for that",
        limit: b"",
        plan: b"device = [{name = 's'}, {name = 't'}, {name = 'k'}]
link = [{consumer = 'k', supplier = 't'}, {consumer = 'k', supplier = 's'}]
caller = [{name = 'c', script = ['enable t', 'enable k', 'get_sync k']}]
",
        stand: &[RESTING, ALONE, FREE_CONSUMER],
    },
    Cut {
        shows: "a link that is absent or has no pm_runtime is no bond",
        limit: b"",
        plan: b"device = [{name = 's'}, {name = 't'}, {name = 'k'}]
link = [{consumer = 'k', supplier = 's', later = true}, {consumer = 'k', supplier = 't', pm_runtime = false}]
caller = [{name = 'c', script = ['enable k', 'get_sync k']}]
",
        stand: &[RESTING, RESTING, ALONE],
    },
    Cut {
        shows: "a device that was forced to Active is excused from its domain",
        limit: b"",
        plan: b"domain = [{name = 'pd'}]
device = [{name = 'k', domain = 'pd'}]
caller = [{name = 'c', script = ['set_active k']}]
",
        stand: &[Inspect {
            domains: Bond::Excused,
            ..ALONE
        }],
    },
];

/// The plan of a run.
fn plan_of(alloc: Global, cut: &Cut) -> Result<Plan, PlanFault> {
    let mut text = Vec::from_slice(alloc, cut.limit)?;
    text.extend_from_slice(cut.plan)?;
    read_plan(alloc, &text)
}

/// Whether the devices of the plan are so many, and stand so.
fn stand_so(book: &Book, wanted: &[Inspect]) -> bool {
    let devices = book.plan().devices.len();
    let mut are_so = devices == wanted.len();
    for (place, stand) in wanted.iter().enumerate() {
        are_so &= place < devices && inspect(book, DevId(place as u32)) == *stand;
    }
    are_so
}

/// Whether the devices of the plan stand so after its run. It alone owns a book, so that its proof stays small.
fn stand_after(alloc: Global, plan: Plan, wanted: &[Inspect]) -> Result<bool, NoMemory> {
    let mut book = fresh_book(alloc, plan)?;
    fresh_books_have_time();
    drain(&mut book)?;
    Ok(stand_so(&book, wanted))
}

/// The devices of the plan stand as is told after its run.
pub fn stands(alloc: Global, cut: &Cut) -> Result<bool, PlanFault> {
    let plan = plan_of(alloc, cut)?;
    Ok(stand_after(alloc, plan, cut.stand)?)
}
