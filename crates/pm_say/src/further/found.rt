//! Refusals that were found.

use pm_base::NoMemory;
use pm_planread::PlanWhy;
use pm_planread::tree::{Place, Section};
use std::alloc::Global;

/// Refusals of a section that are kept, at most.
const MOST: usize = 20;

/// A refusal of a plan, with its place.
#[derive(Clone, Copy, PartialEq, Eq)]
pub struct Refusal {
    pub why: PlanWhy,
    pub section: Section,
    pub item: u32,
    pub part: u32,
}

/// The refusals of a section but the one that is told already.
#[derive(Drop)]
pub struct Found {
    refusals: Vec<Refusal>,
    section: Section,
    told: Refusal,
}

impl Found {
    /// None of the section.
    pub fn new(alloc: Global, section: Section, told: Refusal) -> Found {
        Found {
            refusals: Vec::new(alloc),
            section,
            told,
        }
    }

    /// Whether no more are kept.
    pub fn is_full(&self) -> bool {
        self.refusals.len() >= MOST
    }

    /// Keeps a refusal, where it isn't told already and there is room. Fails where memory runs out.
    pub fn keep(&mut self, why: PlanWhy, item: usize, part: usize) -> Result<(), NoMemory> {
        let Place {
            section,
            item,
            part,
        } = Place::new(self.section, item, part);
        let refusal = Refusal {
            why,
            section,
            item,
            part,
        };
        if refusal != self.told && !self.is_full() {
            self.refusals.push(refusal)?;
        }
        Ok(())
    }

    /// The refusals, in the order in which they were kept.
    pub fn into_refusals(self) -> Vec<Refusal> {
        let Found {
            refusals,
            section: _,
            told: _,
        } = self;
        refusals
    }
}
