//! Which lane is which thread. Each lane has one of its own, so that its bars are apart; only waits stand on the thread of whoever
//! waits.

use crate::events::Thread;
use pm_base::{ActorId, Cb, DevId};
use pm_lanes::Lane;

/// The process of all callers, and that of all domains.
pub(crate) const CALLERS: u32 = 1;

pub(crate) const DOMAINS: u32 = 2;

/// The process of a device.
pub(crate) fn process_of(dev: DevId) -> u32 {
    dev.0.saturating_add(10)
}

// The thread of a device's lane, by the lane's place among the device's own, below 10.
fn own(dev: DevId, place: u32) -> Thread {
    Thread {
        process: process_of(dev),
        thread: dev.0.saturating_mul(10).saturating_add(1_000 + place % 10),
    }
}

// The thread of a caller.
fn caller(caller: u32) -> Thread {
    Thread {
        process: CALLERS,
        thread: caller.saturating_add(1),
    }
}

// The thread of an actor.
fn actor_thread(actor: ActorId) -> Thread {
    match actor {
        ActorId::Caller(place) => caller(place),
        ActorId::Work(dev) => own(DevId(dev), 6),
        ActorId::Timer(dev) => own(DevId(dev), 8),
    }
}

// The thread of a link.
fn link(consumer: DevId, supplier: DevId) -> Thread {
    let place = consumer.0.saturating_mul(1_024).saturating_add(supplier.0);
    Thread {
        process: process_of(consumer),
        thread: place.saturating_add(1_000_000),
    }
}

/// The thread of a lane.
pub(crate) fn thread_of(lane: Lane) -> Thread {
    match lane {
        Lane::Calls(place) => caller(place),
        Lane::Waits(actor) | Lane::Runs(actor) => actor_thread(actor),
        Lane::Status(dev) | Lane::Usage(dev) => own(dev, 0),
        Lane::Disabled(dev) => own(dev, 1),
        Lane::Callback(dev, Cb::Idle) => own(dev, 2),
        Lane::Callback(dev, Cb::Suspend) => own(dev, 3),
        Lane::Callback(dev, Cb::Resume) => own(dev, 4),
        Lane::Queued(dev) => own(dev, 5),
        Lane::Timer(dev) => own(dev, 7),
        Lane::Domain(domain) => Thread {
            process: DOMAINS,
            thread: domain.0.saturating_add(100),
        },
        Lane::Link { consumer, supplier } => link(consumer, supplier),
    }
}

/// How the thread of a lane is called, but for a caller's, a domain's and a link's.
pub(crate) fn thread_word(lane: Lane) -> &'static [u8] {
    match lane {
        Lane::Status(_) | Lane::Usage(_) => b"status",
        Lane::Disabled(_) => b"disabled",
        Lane::Callback(_, Cb::Idle) => b"idle callback",
        Lane::Callback(_, Cb::Suspend) => b"suspend callback",
        Lane::Callback(_, Cb::Resume) => b"resume callback",
        Lane::Queued(_) => b"work queued",
        Lane::Timer(_) => b"timer armed",
        Lane::Waits(ActorId::Work(_)) | Lane::Runs(ActorId::Work(_)) => b"work",
        Lane::Waits(ActorId::Timer(_)) | Lane::Runs(ActorId::Timer(_)) => b"timer",
        Lane::Link { .. } => b"holds ",
        Lane::Calls(_) | Lane::Waits(_) | Lane::Runs(_) | Lane::Domain(_) => b"",
    }
}
