//! The rows of a picture, from the top to the bottom.

use crate::rows::families::{Chains, Member, in_families};
use indexmap::IndexMap;
use pm_base::{DevId, DomId, NoMemory};
use pm_model::Plan;
use std::alloc::Global;

/// What a row shows.
#[derive(Clone, Copy, PartialEq, Eq, Hash)]
pub enum Subject {
    /// The calls of a caller, by its place in the plan.
    Caller(u32),
    /// Whether a domain is on.
    Domain(DomId),
    /// The status of a device, and what happens to it.
    Device(DevId),
    /// Whether a consumer holds a supplier by a link.
    Link(Holding),
}

/// A consumer and a supplier that it holds at some line.
#[derive(Clone, Copy, PartialEq, Eq, Hash)]
pub struct Holding {
    pub consumer: DevId,
    pub supplier: DevId,
}

/// A row, in pixels from the top of the first.
#[derive(Clone, Copy, PartialEq, Eq)]
pub struct Row {
    pub subject: Subject,
    /// So many ancestors stand above it.
    pub depth: u32,
    pub y: u32,
    pub height: u32,
}

/// How high each row is, in pixels; 0 where it is left out.
#[derive(Clone, Copy)]
pub struct Heights<'a> {
    /// For each caller of the plan.
    pub callers: &'a [u32],
    pub domain: u32,
    /// For each device of the plan.
    pub devices: &'a [u32],
    pub link: u32,
}

/// The rows of a picture.
pub struct Rows {
    rows: Vec<Row>,
    // At which place among them a row of this stands.
    places: IndexMap<Subject, usize>,
    // Where the last of them ends.
    end: u32,
}

// Taken apart in one place: it is dropped at many.
impl Drop for Rows {
    fn drop(self) {
        let Rows {
            rows,
            places,
            end: _,
        } = self;
        drop(rows);
        drop(places);
    }
}

// The parents of domains.
fn domain_parents(alloc: Global, plan: &Plan) -> Result<Vec<Option<u32>>, NoMemory> {
    let mut parents = Vec::new(alloc);
    for row in plan.domains.as_slice() {
        parents.push(row.parent.map(|domain| domain.0))?;
    }
    Ok(parents)
}

// The parents of devices.
fn device_parents(alloc: Global, plan: &Plan) -> Result<Vec<Option<u32>>, NoMemory> {
    let mut parents = Vec::new(alloc);
    for row in plan.devices.as_slice() {
        parents.push(row.parent.map(|dev| dev.0))?;
    }
    Ok(parents)
}

// The consumers that hold something.
fn consumers(alloc: Global, holdings: &[Holding]) -> Result<Vec<Option<u32>>, NoMemory> {
    let mut consumers = Vec::new(alloc);
    for holding in holdings {
        consumers.push(Some(holding.consumer.0))?;
    }
    Ok(consumers)
}

impl Rows {
    // Appends a row, unless it is left out.
    fn push(&mut self, subject: Subject, depth: u32, height: u32) -> Result<(), NoMemory> {
        if height == 0 {
            return Ok(());
        }
        self.places.insert(subject, self.rows.len())?;
        self.rows.push(Row {
            subject,
            depth,
            y: self.end,
            height,
        })?;
        self.end = self.end.saturating_add(height);
        Ok(())
    }

    // Appends the rows of callers.
    fn push_callers(&mut self, heights: &[u32]) -> Result<(), NoMemory> {
        for (place, height) in heights.iter().enumerate() {
            if let Ok(place) = u32::try_from(place) {
                self.push(Subject::Caller(place), 0, *height)?;
            }
        }
        Ok(())
    }

    // Appends the rows of domains.
    fn push_domains(&mut self, domains: &[Member], height: u32) -> Result<(), NoMemory> {
        for domain in domains {
            self.push(Subject::Domain(DomId(domain.place)), domain.depth, height)?;
        }
        Ok(())
    }

    // Appends the rows of what a device holds.
    fn push_held(
        &mut self,
        chains: &Chains,
        holdings: &[Holding],
        device: Member,
        height: u32,
    ) -> Result<(), NoMemory> {
        let mut next = chains.first(device.place);
        'held: for _ in 0..holdings.len() {
            let Some(place) = next else {
                return Ok(());
            };
            if let Some(holding) = holdings.get(place as usize) {
                self.push(Subject::Link(*holding), device.depth, height)?;
            }
            next = chains.next(place);
        }
        Ok(())
    }

    // Appends the row of a device and those of what it holds.
    fn push_device(
        &mut self,
        chains: &Chains,
        holdings: &[Holding],
        device: Member,
        heights: &Heights<'_>,
    ) -> Result<(), NoMemory> {
        let height = heights.devices.get(device.place as usize).copied();
        self.push(
            Subject::Device(DevId(device.place)),
            device.depth,
            height.unwrap_or(0),
        )?;
        self.push_held(chains, holdings, device, heights.link)
    }

    // Appends the rows of devices.
    fn push_devices(
        &mut self,
        alloc: Global,
        plan: &Plan,
        holdings: &[Holding],
        heights: &Heights<'_>,
    ) -> Result<(), NoMemory> {
        let consumers = consumers(alloc, holdings)?;
        let chains = Chains::of(alloc, plan.devices.len(), &consumers)?;
        let devices = in_families(alloc, &device_parents(alloc, plan)?)?;
        for device in &devices {
            self.push_device(&chains, holdings, *device, heights)?;
        }
        Ok(())
    }

    /// The rows of a plan's lanes, with a row for each of these holdings. It looks at each row once. Fails where
    /// memory runs out.
    pub fn new(
        alloc: Global,
        plan: &Plan,
        holdings: &[Holding],
        heights: &Heights<'_>,
    ) -> Result<Rows, NoMemory> {
        let mut rows = Rows {
            rows: Vec::new(alloc),
            places: IndexMap::new(alloc),
            end: 0,
        };
        rows.push_callers(heights.callers)?;
        let domains = in_families(alloc, &domain_parents(alloc, plan)?)?;
        rows.push_domains(&domains, heights.domain)?;
        rows.push_devices(alloc, plan, holdings, heights)?;
        Ok(rows)
    }

    /// The rows, from the top.
    pub fn all(&self) -> &[Row] {
        &self.rows
    }

    /// The row of this, if it has one.
    pub fn row(&self, subject: Subject) -> Option<Row> {
        let place = *self.places.get(&subject)?;
        self.rows.get(place).copied()
    }

    /// How high all rows are together, in pixels.
    pub fn height(&self) -> u32 {
        self.end
    }
}
