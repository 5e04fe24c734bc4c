//! The bonds of a run, line by line.

ghost use Rattle.std.specs.Prelude.{◌≡◌, ◌<◌, ◌∷◌, [], ◌+◌, IfOk, OnOk, Some, length, map, slice_index_or, slice_set, true};
ghost use Rattle.pm_safety.specs.dependencies.Broken.{broken_at};
ghost use Rattle.pm_safety.specs.dependencies.Kept.{IsKept};
ghost use Rattle.pm_safety.specs.dependencies.Past.{no_past, past_after, past_at};
ghost use Rattle.pm_safety.specs.dependencies.Turning.{turned_by};
ghost use Rattle.pm_device.specs.Children.{place_of};
ghost use Rattle.pm_model.specs.Derived.{is_suspended};
ghost use Rattle.pm_model.specs.History.{History};
ghost use Rattle.pm_model.specs.Lawful.{IsLawful};
ghost use Rattle.pm_model.specs.LineOf.{is_line_of};
ghost use Rattle.pm_state.specs.Standing.{counters};

use crate::dependencies::Bond;
use crate::dependencies::groups::grouped;
use crate::dependencies::past::{Before, NO_PAST, Past, after_line, before_line, past_at};
use crate::dependencies::told::broken_near;
use pm_base::{DevId, NoMemory};
use pm_book::Replay;
use pm_device::Parts;
use pm_laws::counts::sizes;
use pm_model::{DeviceRow, Event, Helper, Items, Line, LinkRow, Plan};
use std::alloc::Global;
use std::marker::Model;

/// Goes again through the lines of a run, and tells of each which bonds it breaks.
#[derive(Drop)]
pub struct Bonds {
    replay: Replay,
    pasts: Vec<Past>,
    // Of each device, by their places in the plan.
    children: Vec<Items<usize>>,
    from: Vec<Items<usize>>,
    to: Vec<Items<usize>>,
}

impl Model for Bonds {
    ghost use Rattle.pm_safety.specs.dependencies.Kept.{Kept};

    ghost Value = { Kept };

    ghost view = { λ b. record { replay = b.replay; pasts = b.pasts.items; children = b.children.items; from = b.from.items; to = b.to.items } };
}

// The place of a device in the plan's order.
fn place_of(dev: Option<DevId>) -> Option<u32>
    ensures { result ≡ place_of dev }
{
    match dev {
        Some(dev) => Some(dev.0),
        None => None,
    }
}

// The parent of each device.
fn parents(alloc: Global, rows: &[DeviceRow]) -> Result<Vec<Option<u32>>, NoMemory>
    ensures { IfOk result (λ v. v.items ≡ map (λ row. place_of row.parent) rows.now) }
{
    Ok(rows.iter().map(|row| place_of(row.parent)).collect(alloc)?)
}

// The consumer of each link.
fn consumers(alloc: Global, rows: &[LinkRow]) -> Result<Vec<Option<u32>>, NoMemory>
    ensures { IfOk result (λ v. v.items ≡ map (λ row. Some row.consumer.0) rows.now) }
{
    Ok(rows.iter().map(|row| Some(row.consumer.0)).collect(alloc)?)
}

// The supplier of each link.
fn suppliers(alloc: Global, rows: &[LinkRow]) -> Result<Vec<Option<u32>>, NoMemory>
    ensures { IfOk result (λ v. v.items ≡ map (λ row. Some row.supplier.0) rows.now) }
{
    Ok(rows.iter().map(|row| Some(row.supplier.0)).collect(alloc)?)
}

// The device that a line of this event may turn.
fn turned_by(event: &Event) -> Option<DevId>
    ensures { result ≡ turned_by event.now }
{
    match *event {
        Event::State { dev, .. }
        | Event::Begin { dev, .. }
        | Event::End { dev, .. }
        | Event::Ret {
            helper: Helper::IgnoreChildren,
            dev,
            ..
        } => Some(dev),
        _ => None,
    }
}

// Takes note of a line of this number in the past of the device that it turned, by the counters after it.
fn note(
    pasts: &mut Vec<Past>,
    parts: &Parts,
    dev: DevId,
    number: u32,
    event: &Event,
    before: Before,
)
    requires in_range { dev.0 < length parts.now.shape.parents }
    requires past { dev.0 < length pasts.old.items }
    ensures { pasts.new.items ≡ slice_set pasts.old.items dev.0 (past_after dev number event.now before (is_suspended parts.now.views dev) (past_at pasts.old.items dev)) }
{
    let past = past_at(pasts, dev);
    pasts[dev.0 as usize] = after_line(past, dev, number, event, before, parts.is_suspended(dev));
}

// The places that belong to a device.
fn group(groups: &[Items<usize>], dev: DevId) -> &[usize]
    requires { dev.0 < length groups.now }
    ensures { result.now ≡ slice_index_or groups.now dev.0 [] }
{
    groups[dev.0 as usize].as_slice()
}

impl Bonds {
    /// Of a plan before any line. Fails where memory runs out.
    pub fn start(alloc: Global, plan: &Plan) -> Result<Bonds, NoMemory>
        ensures { IfOk result (λ bonds. IsKept plan.now bonds []) }
    {
        let devices = plan.devices.len();
        let parents = parents(alloc, plan.devices.as_slice())?;
        let consumers = consumers(alloc, plan.links.as_slice())?;
        let suppliers = suppliers(alloc, plan.links.as_slice())?;
        let pasts = vec![in alloc; NO_PAST; devices]?;
        let children = grouped(alloc, &parents, devices)?;
        let from = grouped(alloc, &consumers, devices)?;
        let to = grouped(alloc, &suppliers, devices)?;
        let replay = Replay::start(alloc, plan)?;
        Ok(Bonds {
            replay,
            pasts,
            children,
            from,
            to,
        })
    }

    /// The counters after the lines so far.
    pub fn parts(&self) -> &Parts
        ensures { result.now ≡ counters self.now.replay.standing }
    {
        self.replay.parts()
    }

    /// Goes on by a line of this number that may come next, and tells which bonds it breaks. It looks at the
    /// device that the line may turn, at its children and its links. Fails where memory runs out.
    pub fn follow(
        &mut self,
        alloc: Global,
        plan: &Plan,
        number: u32,
        line: &Line,
    ) -> Result<Vec<Bond>, NoMemory>
        requires of_plan { is_line_of plan.now line.now ≡ true }
        requires some { (h : History) × IsLawful plan.now (line.now ∷ h) × IsKept plan.now self.old h × (number ≡ length h + 1) }
        ensures kept { OnOk result ((h : History) → IsLawful plan.now (line.now ∷ h) → IsKept plan.now self.old h → number ≡ length h + 1 → IsKept plan.now self.new (line.now ∷ h)) }
        ensures broken { IfOk result (λ bonds. (h : History) → IsLawful plan.now (line.now ∷ h) → IsKept plan.now self.old h → number ≡ length h + 1 → bonds.items ≡ broken_at plan.now h line.now) }
    {
        sizes();
        let Some(dev) = turned_by(&line.event) else {
            self.replay.go(plan, line);
            return Ok(Vec::new(alloc));
        };
        let before = before_line(self.replay.parts(), plan, dev, &line.event);
        self.replay.go(plan, line);
        note(
            &mut self.pasts,
            self.replay.parts(),
            dev,
            number,
            &line.event,
            before,
        );
        let bonds = broken_near(
            alloc,
            self.replay.parts(),
            plan,
            &self.pasts,
            dev,
            group(&self.children, dev),
            group(&self.from, dev),
            group(&self.to, dev),
            before,
        )?;
        Ok(bonds)
    }
}
