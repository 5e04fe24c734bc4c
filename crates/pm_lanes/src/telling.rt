//! What a line tells of itself, of domains, of links and of its actor.

ghost use Rattle.std.specs.Prelude.{◌≡◌, ◌++◌, ◌<◌, IfOk, OnOk, length, map, not, take};
ghost use Rattle.std.specs.List.{filter};
ghost use Rattle.pm_device.specs.Parts.{IsFor};
ghost use Rattle.pm_lanes.specs.Pieces.{at_line, device_of, freed, freed_link, going_off_now, going_on, runs, switched, told};
ghost use Rattle.pm_model.specs.PlanRows.{chain, domain, domain_parent, domains_of};
ghost use Rattle.pm_model.specs.Views.{is_on};

use crate::seen::is_bit;
use crate::shown::{Piece, Shown};
use pm_base::{ActorId, DevId, DomId, NoMemory, Why};
use pm_device::Parts;
use pm_model::{Event, Line, LinkRow, Plan, Word};
use std::alloc::Global;

/// The device that a line is about.
pub fn device_of(event: &Event) -> DevId
    ensures { result ≡ device_of event.now }
{
    match *event {
        Event::Call { command } => command.dev,
        Event::Ret { dev, .. }
        | Event::Get { dev, .. }
        | Event::Put { dev, .. }
        | Event::Usage { dev, .. }
        | Event::Idle { dev, .. }
        | Event::Suspend { dev, .. }
        | Event::Resume { dev, .. }
        | Event::Return { dev, .. }
        | Event::Wait { dev }
        | Event::State { dev, .. }
        | Event::Begin { dev, .. }
        | Event::End { dev, .. }
        | Event::Domain { dev, .. }
        | Event::Work { dev, .. }
        | Event::Timer { dev, .. } => dev,
    }
}

/// What a line tells of itself.
pub fn told(line: &Line) -> Option<Shown>
    ensures { result ≡ told line.now.actor line.now.event }
{
    match (line.actor, line.event) {
        (ActorId::Caller(caller), Event::Call { command }) => {
            Some(Shown::Called { caller, command })
        }
        (ActorId::Caller(caller), Event::Ret { code, .. }) => {
            Some(Shown::Returned { caller, code })
        }
        (actor, Event::Wait { dev }) => Some(Shown::Waits { actor, dev }),
        (_, Event::Begin { dev, cb }) => Some(Shown::Begun { dev, cb }),
        (_, Event::End { dev, cb, code }) => Some(Shown::Ended { dev, cb, code }),
        (
            _,
            Event::Get {
                dev,
                why: Why::Link(consumer),
            },
        ) => Some(Shown::Held {
            consumer,
            supplier: dev,
            held: true,
        }),
        (
            _,
            Event::Put {
                dev,
                why: Why::Link(consumer),
            },
        ) => Some(Shown::Held {
            consumer,
            supplier: dev,
            held: false,
        }),
        _ => None,
    }
}

// The first of these, as many as are asked for.
fn first(all: &[u32], count: usize) -> &[u32]
    ensures { result.now ≡ take count all.now }
{
    if count >= all.len() {
        all
    } else {
        all.split_at(count).0
    }
}

// A domain and its ancestors, nearest first, so many at most.
fn chain(
    alloc: Global,
    plan: &Plan,
    first: Option<DomId>,
    most: usize,
) -> Result<Vec<u32>, NoMemory>
    ensures { IfOk result (λ all. all.items ≡ chain plan.now.domains most first) }
{
    let mut all = Vec::new(alloc);
    let mut next = first;
    'chain: for _ in 0..most {
        let Some(dom) = next else {
            return Ok(all);
        };
        all.push(dom.0)?;
        next = parent_of(plan, dom);
    }
    Ok(all)
}

// The domain of a device.
fn home(plan: &Plan, dev: DevId) -> Option<DomId>
    ensures { result ≡ domain plan.now dev }
{
    match plan.devices.get(dev.0 as usize) {
        Some(row) => row.domain,
        None => None,
    }
}

// The domains of a device, nearest first.
#[tactic(auto, unfolding(pm_model::specs::PlanRows::domains_of))]
fn domains_of(alloc: Global, plan: &Plan, dev: DevId) -> Result<Vec<u32>, NoMemory>
    ensures { IfOk result (λ all. all.items ≡ domains_of plan.now dev) }
{
    chain(alloc, plan, home(plan, dev), plan.domains.len())
}

// The domain above a domain.
fn parent_of(plan: &Plan, dom: DomId) -> Option<DomId>
    ensures { result ≡ domain_parent plan.now.domains dom }
{
    match plan.domains.get(dom.0 as usize) {
        Some(row) => row.parent,
        None => None,
    }
}

// Appends that these domains go on, but for those that are on.
fn push_up(
    pieces: &mut Vec<Piece>,
    number: u32,
    parts: &Parts,
    domains: &[u32],
) -> Result<(), NoMemory>
    ensures { OnOk result (pieces.new.items ≡ pieces.old.items ++ at_line number (map going_on (filter (λ o. not (is_on parts.now.views o)) domains.now))) }
{
    for place in domains {
        if !parts.is_on(*place) {
            pieces.push(Piece {
                line: number,
                shown: Shown::Switched {
                    domain: DomId(*place),
                    on: true,
                },
            })?;
        }
    }
    Ok(())
}

// Appends that these domains go off.
fn push_down(pieces: &mut Vec<Piece>, number: u32, domains: &[u32]) -> Result<(), NoMemory>
    ensures { OnOk result (pieces.new.items ≡ pieces.old.items ++ at_line number (map going_off_now domains.now)) }
{
    for place in domains {
        pieces.push(Piece {
            line: number,
            shown: Shown::Switched {
                domain: DomId(*place),
                on: false,
            },
        })?;
    }
    Ok(())
}

/// Appends the domains that a line switches, by the counters before it.
#[tactic(auto, unfolding(pm_model::specs::Derived::up))]
pub fn push_switched(
    alloc: Global,
    pieces: &mut Vec<Piece>,
    number: u32,
    plan: &Plan,
    parts: &Parts,
    event: &Event,
) -> Result<(), NoMemory>
    requires { IsFor plan.now parts.now.shape }
    ensures { OnOk result (pieces.new.items ≡ pieces.old.items ++ at_line number (switched plan.now parts.now.views event.now)) }
{
    let Event::Domain { dev, up, .. } = *event else {
        return Ok(());
    };
    let domains = domains_of(alloc, plan, dev)?;
    if up {
        push_up(pieces, number, parts, &domains)
    } else {
        let count = parts.down_count(plan, dev) as usize;
        push_down(pieces, number, first(&domains, count))
    }
}

// Appends what a forced suspend of a consumer gives back of one link.
fn push_freed_link(
    pieces: &mut Vec<Piece>,
    number: u32,
    parts: &Parts,
    consumer: DevId,
    row: LinkRow,
) -> Result<(), NoMemory>
    requires { row.supplier.0 < length parts.now.shape.parents }
    ensures { OnOk result (pieces.new.items ≡ pieces.old.items ++ at_line number (freed_link parts.now.views consumer row)) }
{
    if row.consumer != consumer {
        return Ok(());
    }
    pieces.push(Piece {
        line: number,
        shown: Shown::Held {
            consumer,
            supplier: row.supplier,
            held: false,
        },
    })?;
    pieces.push(Piece {
        line: number,
        shown: Shown::Used {
            dev: row.supplier,
            usage: parts.device(row.supplier).usage,
        },
    })?;
    Ok(())
}

/// Appends what a forced suspend gives back, by the counters behind it. It looks at each link of the plan.
pub fn push_freed(
    pieces: &mut Vec<Piece>,
    number: u32,
    plan: &Plan,
    parts: &Parts,
    event: &Event,
) -> Result<(), NoMemory>
    requires { IsFor plan.now parts.now.shape }
    ensures { OnOk result (pieces.new.items ≡ pieces.old.items ++ at_line number (freed plan.now parts.now.views event.now)) }
{
    let Event::State {
        dev,
        word: Word::ForcedSuspended,
    } = *event
    else {
        return Ok(());
    };
    for row in plan.links.as_slice() {
        push_freed_link(pieces, number, parts, dev, *row)?;
    }
    Ok(())
}

/// That a work item or a timer begins to run, or has ended.
pub fn runs(actor: ActorId, before: bool, after: bool) -> Option<Shown>
    ensures { result ≡ runs actor before after }
{
    match actor {
        ActorId::Caller(_) => None,
        ActorId::Work(_) | ActorId::Timer(_) => {
            if is_bit(before, after) {
                None
            } else {
                Some(Shown::Runs { actor, runs: after })
            }
        }
    }
}
