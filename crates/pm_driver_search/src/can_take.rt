//! Whether the counters can take a line.

ghost use Rattle.std.specs.Prelude.{◌≡◌, ◌+◌, ◌<◌, ◌≤◌, ◌^◌, ◌&&◌, true, count_by, length, nat_eq, nat_le};
ghost use Rattle.std.specs.List.{enumerate_from, list_all, zip};
ghost use Rattle.pm_device.specs.Parts.{IsFor};
ghost use Rattle.pm_model.specs.CanTake.{can_change, can_free, can_get, can_happen, can_put, can_say, has_room};
ghost use Rattle.pm_model.specs.Views.{Views as AViews, device};
ghost use Rattle.pm_model.specs.WellFormed.{is_in};
ghost use Rattle.pm_state.specs.Standing.{IsOf, Takes, can_count};

use pm_base::{ActorId, DevId, Why};
use pm_device::Parts;
use pm_model::{Change, Device, Event, LinkRow, Plan, Word};
use pm_state::State;

fn is_in(plan: &Plan, dev: DevId) -> bool
    ensures { result ≡ is_in (length plan.now.devices) dev }
{
    (dev.0 as usize) < plan.devices.len()
}

fn has_room(count: u32) -> bool
    ensures { result ≡ has_room count }
{
    count < u32::MAX
}

// Whether one more disabling can be counted.
fn can_disable(plan: &Plan, parts: &Parts, dev: DevId) -> bool
    requires { IsFor plan.now parts.now.shape }
    ensures { result ≡ (is_in (length plan.now.devices) dev && has_room (device parts.now.views dev).depth) }
{
    is_in(plan, dev) && has_room(parts.device(dev).depth)
}

fn can_change(plan: &Plan, parts: &Parts, change: &Change) -> bool
    requires { IsFor plan.now parts.now.shape }
    ensures { result ≡ can_change (length plan.now.devices) parts.now.views change.now }
{
    match *change {
        Change::Same | Change::Link { .. } => true,
        Change::Disable { dev } | Change::DisableBusy { dev } | Change::DisableAtOnce { dev } => {
            can_disable(plan, parts, dev)
        }
        Change::Set { dev, delay, .. } => {
            is_in(plan, dev) && -1_000_000 <= delay && delay <= 1_000_000
        }
        Change::CancelRequest { dev }
        | Change::Disarm { dev }
        | Change::Cancel { dev }
        | Change::CancelAll { dev }
        | Change::ResumeCancel { dev }
        | Change::CallbackMarks { dev }
        | Change::SuspendEnded { dev, .. }
        | Change::MarkBusy { dev }
        | Change::Enable { dev }
        | Change::KeepStatus { dev }
        | Change::Ignore { dev, .. } => is_in(plan, dev),
    }
}

// Whether one more count can be taken.
fn can_get(plan: &Plan, parts: &Parts, dev: DevId, why: Why) -> bool
    requires { IsFor plan.now parts.now.shape }
    ensures { result ≡ (is_in (length plan.now.devices) dev && can_get parts.now.views dev why) }
{
    if !is_in(plan, dev) {
        return false;
    }
    let device = parts.device(dev);
    match why {
        Why::Caller => has_room(device.usage) && has_room(device.share),
        _ => has_room(device.usage),
    }
}

// Whether a count can be given back.
fn can_put(plan: &Plan, parts: &Parts, dev: DevId, why: Why) -> bool
    requires { IsFor plan.now parts.now.shape }
    ensures { result ≡ (is_in (length plan.now.devices) dev && can_put parts.now.views dev why) }
{
    if !is_in(plan, dev) {
        return false;
    }
    let device = parts.device(dev);
    match why {
        Why::Caller => 0 < device.usage && 0 < device.share,
        _ => 0 < device.usage,
    }
}

// How many of these links, which are held or aren't, are held by a consumer and its supplier.
fn held_from(links: &[LinkRow], held: &[bool], consumer: u32, supplier: u32) -> usize
    ensures count { result ≡ count_by (λ p. nat_eq p.0.consumer.0 consumer && nat_eq p.0.supplier.0 supplier && p.1) (zip links.now held.now) }
    ensures few { result ≤ length links.now }
{
    let [link, links @ ..] = links else {
        return 0;
    };
    let [is_held, held @ ..] = held else {
        return 0;
    };
    let more = held_from(links, held, consumer, supplier);
    if link.consumer.0 == consumer && link.supplier.0 == supplier && *is_held {
        more + 1
    } else {
        more
    }
}

// Whether each of these suppliers, counted on from a number, has the counts that a consumer's held links took.
fn have_counts(
    links: &[LinkRow],
    held: &[bool],
    consumer: u32,
    number: u32,
    devices: &[Device],
) -> bool
    requires { number + length devices.now < 2 ^ 32 }
    ensures { result ≡ list_all (λ p. nat_le (count_by (λ q. nat_eq q.0.consumer.0 consumer && nat_eq q.0.supplier.0 p.0 && q.1) (zip links.now held.now)) p.1.usage) (enumerate_from number devices.now) }
{
    let [device, rest @ ..] = devices else {
        return true;
    };
    held_from(links, held, consumer, number) <= device.usage as usize
        && have_counts(links, held, consumer, number + 1, rest)
}

fn can_free(plan: &Plan, devices: &[Device], held: &[bool], dev: DevId) -> bool
    ensures { result ≡ true → (v : AViews) → v.devices ≡ devices.now → v.held ≡ held.now → can_free plan.now v dev ≡ true }
{
    devices.len() < 1 << 32 && have_counts(plan.links.as_slice(), held, dev.0, 0, devices)
}

fn can_say(plan: &Plan, devices: &[Device], held: &[bool], dev: DevId, word: Word) -> bool
    ensures { result ≡ true → (v : AViews) → v.devices ≡ devices.now → v.held ≡ held.now → can_say plan.now v dev word ≡ true }
{
    match word {
        Word::ForcedSuspended => can_free(plan, devices, held, dev),
        _ => true,
    }
}

fn can_happen(plan: &Plan, parts: &Parts, devices: &[Device], held: &[bool], event: &Event) -> bool
    requires made_for { IsFor plan.now parts.now.shape }
    requires devices { parts.now.views.devices ≡ devices.now }
    requires held { parts.now.views.held ≡ held.now }
    ensures { result ≡ true → can_happen plan.now parts.now.views event.now ≡ true }
{
    match *event {
        Event::Get { dev, why } => can_get(plan, parts, dev, why),
        Event::Put { dev, why } => can_put(plan, parts, dev, why),
        Event::State { dev, word } => is_in(plan, dev) && can_say(plan, devices, held, dev, word),
        Event::Begin { dev, cb } => is_in(plan, dev) && has_room(parts.begun(dev, cb)),
        Event::End { dev, .. }
        | Event::Domain { dev, .. }
        | Event::Work { dev, .. }
        | Event::Timer { dev, .. } => is_in(plan, dev),
        _ => true,
    }
}

// Whether one more call of a caller can be counted.
fn can_count(state: &State, actor: ActorId, event: &Event) -> bool
    ensures { result ≡ can_count state.now.world actor event.now }
{
    let ActorId::Caller(caller) = actor else {
        return true;
    };
    let Event::Call { .. } = *event else {
        return true;
    };
    match state.called().get(caller as usize) {
        Some(count) => has_room(*count),
        None => true,
    }
}

/// Whether a state can take a line of this actor with this event, whose row names this change.
pub fn takes(
    plan: &Plan,
    state: &State,
    devices: &[Device],
    held: &[bool],
    actor: ActorId,
    change: &Change,
    event: &Event,
) -> bool
    requires is_of { IsOf plan.now state.now }
    requires devices { state.now.world.views.devices ≡ devices.now }
    requires held { state.now.world.views.held ≡ held.now }
    ensures { result ≡ true → Takes plan.now state.now.world actor change.now event.now }
{
    can_change(plan, state.parts(), change)
        && can_happen(plan, state.parts(), devices, held, event)
        && can_count(state, actor, event)
}
