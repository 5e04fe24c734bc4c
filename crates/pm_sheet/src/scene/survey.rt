//! What is to be seen of a run, looked at once before it is drawn.

use crate::rows::Holding;
use crate::scene::run::Run;
use indexmap::IndexMap;
use pm_base::{ActorId, DevId, NoMemory, Status, Why};
use pm_lanes::{Piece, Shown};
use pm_model::Event;
use std::alloc::Global;

/// What is seen of a device.
#[derive(Clone, Copy)]
pub struct Glance {
    /// Whether anything is shown of it.
    pub changes: bool,
    /// Whether its work item has something to show.
    pub works: bool,
    /// Whether its timer has.
    pub timers: bool,
    /// Whether these wait for another device.
    pub waits: bool,
    /// Whether a callback of it fails.
    pub fails: bool,
    /// From which line on it is enabled for the first time, and from which its status isn't the first one.
    pub enabled: u32,
    pub moved: u32,
    /// How it ends.
    pub status: Status,
    pub usage: u32,
    pub disabled: bool,
    /// Whether `forbid` or a negative delay holds it at the end.
    pub forbids: bool,
    pub delays: bool,
    /// A consumer that holds it at the end.
    pub consumer: Option<DevId>,
    /// Whether a child of it ends Active.
    pub has_active_child: bool,
}

/// What is to be seen of a run.
pub struct Survey {
    /// For each line whether the picture changes at it.
    pub marks: Vec<bool>,
    pub devices: Vec<Glance>,
    /// For each domain whether it is on before the first line.
    pub on: Vec<bool>,
    /// Which consumers hold which suppliers at some line.
    pub holdings: Vec<Holding>,
    // Whether each of these is held, after what was taken in.
    held: IndexMap<Holding, bool>,
}

// Taken apart in one place: it is dropped at many.
impl Drop for Survey {
    fn drop(self) {
        let Survey {
            marks,
            devices,
            on,
            holdings,
            held,
        } = self;
        drop(marks);
        drop(devices);
        drop(on);
        drop(holdings);
        drop(held);
    }
}

// The domains that are on before the first line: those that never go off, and those that supply them.
fn first_on(alloc: Global, run: &Run<'_>) -> Result<Vec<bool>, NoMemory> {
    let domains = run.plan.domains.as_slice();
    let mut on = vec![in alloc; false; domains.len()]?;
    for (place, row) in domains.iter().enumerate().rev() {
        let is_on = row.always_on || on.get(place).copied().unwrap_or(false);
        if let Some(slot) = on.get_mut(place) {
            *slot = is_on;
        }
        if is_on
            && let Some(parent) = row.parent
            && let Some(slot) = on.get_mut(parent.0 as usize)
        {
            *slot = true;
        }
    }
    Ok(on)
}

impl Survey {
    // Before any piece: each device is suspended and disabled.
    fn start(alloc: Global, run: &Run<'_>) -> Result<Survey, NoMemory> {
        let glance = Glance {
            changes: false,
            works: false,
            timers: false,
            waits: false,
            fails: false,
            enabled: run.end(),
            moved: run.end(),
            status: Status::Suspended,
            usage: 0,
            disabled: true,
            forbids: false,
            delays: false,
            consumer: None,
            has_active_child: false,
        };
        Ok(Survey {
            marks: vec![in alloc; false; run.lines.len()]?,
            devices: vec![in alloc; glance; run.plan.devices.len()]?,
            on: first_on(alloc, run)?,
            holdings: Vec::new(alloc),
            held: IndexMap::new(alloc),
        })
    }

    // Marks a line.
    fn mark(&mut self, line: u32) {
        if let Some(place) = line.checked_sub(1)
            && let Some(mark) = self.marks.get_mut(place as usize)
        {
            *mark = true;
        }
    }

    // Takes in what a device's work item does.
    fn take_work(&mut self, dev: u32) {
        if let Some(glance) = self.devices.get_mut(dev as usize) {
            glance.changes = true;
            glance.works = true;
        }
    }

    // Takes in what a device's timer does.
    fn take_timer(&mut self, dev: u32) {
        if let Some(glance) = self.devices.get_mut(dev as usize) {
            glance.changes = true;
            glance.timers = true;
        }
    }

    // Takes in that an actor does something.
    fn take_actor(&mut self, actor: ActorId) {
        match actor {
            ActorId::Caller(_) => {}
            ActorId::Work(dev) => self.take_work(dev),
            ActorId::Timer(dev) => self.take_timer(dev),
        }
    }

    // Takes in that an actor waits.
    fn take_wait(&mut self, actor: ActorId) {
        self.take_actor(actor);
        if let ActorId::Work(dev) | ActorId::Timer(dev) = actor
            && let Some(glance) = self.devices.get_mut(dev as usize)
        {
            glance.waits = true;
        }
    }

    // Takes in that a consumer holds a supplier, or no more.
    fn take_holding(&mut self, holding: Holding, held: bool) -> Result<(), NoMemory> {
        if self.held.insert(holding, held)?.is_none() {
            self.holdings.push(holding)?;
        }
        Ok(())
    }

    // Takes in a status.
    fn take_status(&mut self, line: u32, dev: DevId, status: Status) {
        if let Some(glance) = self.devices.get_mut(dev.0 as usize) {
            glance.changes = true;
            glance.moved = glance.moved.min(line);
            glance.status = status;
        }
    }

    // Takes in a usage count.
    fn take_usage(&mut self, dev: DevId, usage: u32) {
        if let Some(glance) = self.devices.get_mut(dev.0 as usize) {
            glance.changes = true;
            glance.usage = usage;
        }
    }

    // Takes in that a device is enabled or disabled.
    fn take_disabled(&mut self, line: u32, dev: DevId, disabled: bool) {
        if let Some(glance) = self.devices.get_mut(dev.0 as usize) {
            glance.disabled = disabled;
            glance.enabled = glance.enabled.min(line);
        }
    }

    // Takes in a callback, and whether it failed.
    fn take_callback(&mut self, dev: DevId, fails: bool) {
        if let Some(glance) = self.devices.get_mut(dev.0 as usize) {
            glance.changes = true;
            glance.fails = glance.fails || fails;
        }
    }

    // Takes in a piece.
    fn take(&mut self, piece: &Piece) -> Result<(), NoMemory> {
        self.mark(piece.line);
        match piece.shown {
            Shown::Called { .. } | Shown::Returned { .. } | Shown::Switched { .. } => {}
            Shown::Waits { actor, .. } => self.take_wait(actor),
            Shown::Runs { actor, .. } => self.take_actor(actor),
            Shown::Queued { dev, .. } => self.take_work(dev.0),
            Shown::Armed { dev, .. } => self.take_timer(dev.0),
            Shown::Stands { dev, status } => self.take_status(piece.line, dev, status),
            Shown::Used { dev, usage } => self.take_usage(dev, usage),
            Shown::Disabled { dev, disabled } => self.take_disabled(piece.line, dev, disabled),
            Shown::Begun { dev, .. } => self.take_callback(dev, false),
            Shown::Ended { dev, code, .. } => self.take_callback(dev, code != 0),
            Shown::Held {
                consumer,
                supplier,
                held,
            } => self.take_holding(Holding { consumer, supplier }, held)?,
        }
        Ok(())
    }

    // Takes in a count that is taken, or given back.
    fn take_count(&mut self, dev: DevId, why: Why, held: bool) {
        let Some(glance) = self.devices.get_mut(dev.0 as usize) else {
            return;
        };
        match why {
            Why::Forbid => glance.forbids = held,
            Why::Delay => glance.delays = held,
            _ => {}
        }
    }

    // Takes in a line that takes a count or gives one back.
    fn take_line(&mut self, event: &Event) {
        match *event {
            Event::Get { dev, why } => self.take_count(dev, why, true),
            Event::Put { dev, why } => self.take_count(dev, why, false),
            _ => {}
        }
    }

    // Tells each supplier of a consumer that holds it at the end.
    fn tell_suppliers(&mut self) {
        for holding in &self.holdings {
            if self.held.get(holding).copied().unwrap_or(false)
                && let Some(glance) = self.devices.get_mut(holding.supplier.0 as usize)
            {
                glance.consumer = Some(holding.consumer);
            }
        }
    }

    // Tells a parent that a child of it ends Active.
    fn tell_parent(&mut self, parent: Option<DevId>, status: Status) {
        if let Some(parent) = parent
            && matches!(status, Status::Active)
            && let Some(glance) = self.devices.get_mut(parent.0 as usize)
        {
            glance.has_active_child = true;
        }
    }

    // Tells all parents which children end Active.
    fn tell_parents(&mut self, run: &Run<'_>) {
        for (place, row) in run.plan.devices.as_slice().iter().enumerate() {
            let Some(glance) = self.devices.get(place).copied() else {
                return;
            };
            self.tell_parent(row.parent, glance.status);
        }
    }

    /// What is to be seen of a run. Fails where memory runs out.
    pub fn of(alloc: Global, run: &Run<'_>) -> Result<Survey, NoMemory> {
        let mut survey = Survey::start(alloc, run)?;
        for piece in run.pieces {
            survey.take(piece)?;
        }
        for line in run.lines {
            survey.take_line(&line.event);
        }
        survey.tell_parents(run);
        survey.tell_suppliers();
        Ok(survey)
    }
}
