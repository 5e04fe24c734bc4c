//! What a picture of a run shows, and in which lane.

ghost use Rattle.std.specs.Prelude.{◌≡◌};
ghost use Rattle.pm_lanes.specs.Lanes.{lane_of};

use pm_base::{ActorId, Cb, DevId, DomId, Status};
use pm_model::Command;

/// A lane of the picture: whom it is about, and what of it.
#[derive(Clone, Copy, PartialEq, Eq, Hash)]
pub enum Lane {
    /// The calls of a caller, by its place in the plan.
    Calls(u32),
    /// What an actor waits for.
    Waits(ActorId),
    /// Whether a work item or a timer runs.
    Runs(ActorId),
    /// The status of a device.
    Status(DevId),
    /// The usage count of a device.
    Usage(DevId),
    /// Whether a device is disabled.
    Disabled(DevId),
    /// Whether the work item of a device is queued.
    Queued(DevId),
    /// Until when the timer of a device is armed.
    Timer(DevId),
    /// A callback of a device.
    Callback(DevId, Cb),
    /// Whether a domain is on.
    Domain(DomId),
    /// Whether a consumer holds a supplier by a link.
    Link { consumer: DevId, supplier: DevId },
}

/// What a lane shows from a line on.
#[derive(Clone, Copy, PartialEq, Eq)]
pub enum Shown {
    /// A caller called a helper.
    Called {
        caller: u32,
        command: Command,
    },
    /// Its call returned this code.
    Returned {
        caller: u32,
        code: i32,
    },
    /// An actor waits for a device. Nothing tells until when.
    Waits {
        actor: ActorId,
        dev: DevId,
    },
    /// A work item or a timer runs from this line on, or this line is its last.
    Runs {
        actor: ActorId,
        runs: bool,
    },
    /// A device has this status.
    Stands {
        dev: DevId,
        status: Status,
    },
    /// So many counts are held on a device.
    Used {
        dev: DevId,
        usage: u32,
    },
    /// A device is disabled or enabled.
    Disabled {
        dev: DevId,
        disabled: bool,
    },
    /// The work item of a device is queued, or no more.
    Queued {
        dev: DevId,
        queued: bool,
    },
    /// The timer of a device is armed for a moment, in milliseconds of the run, or no more.
    Armed {
        dev: DevId,
        deadline: Option<u64>,
    },
    /// A callback of a device begins.
    Begun {
        dev: DevId,
        cb: Cb,
    },
    /// It ends with this code.
    Ended {
        dev: DevId,
        cb: Cb,
        code: i32,
    },
    /// A domain goes on or off.
    Switched {
        domain: DomId,
        on: bool,
    },
    /// A consumer holds a supplier, or no more.
    Held {
        consumer: DevId,
        supplier: DevId,
        held: bool,
    },
}

/// What a lane shows from a line on, and that line, counted from 1.
#[derive(Clone, Copy, PartialEq, Eq)]
pub struct Piece {
    pub line: u32,
    pub shown: Shown,
}

impl Shown {
    /// The lane in which it is shown.
    pub fn lane(&self) -> Lane
        ensures { result ≡ lane_of self.now }
    {
        match *self {
            Shown::Called { caller, .. } | Shown::Returned { caller, .. } => Lane::Calls(caller),
            Shown::Waits { actor, .. } => Lane::Waits(actor),
            Shown::Runs { actor, .. } => Lane::Runs(actor),
            Shown::Stands { dev, .. } => Lane::Status(dev),
            Shown::Used { dev, .. } => Lane::Usage(dev),
            Shown::Disabled { dev, .. } => Lane::Disabled(dev),
            Shown::Queued { dev, .. } => Lane::Queued(dev),
            Shown::Armed { dev, .. } => Lane::Timer(dev),
            Shown::Begun { dev, cb } | Shown::Ended { dev, cb, .. } => Lane::Callback(dev, cb),
            Shown::Switched { domain, .. } => Lane::Domain(domain),
            Shown::Held {
                consumer,
                supplier,
                ..
            } => Lane::Link { consumer, supplier },
        }
    }
}
