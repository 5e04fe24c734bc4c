//! What stands out in a run, told beside the call at which it does.

use crate::scene::run::Run;
use indexmap::IndexMap;
use pm_base::{ActorId, NoMemory};
use pm_find::findings::{Finding, Kind, Weight};
use std::alloc::Global;

/// For the line of a call, counted from 1, the first error or warning that stands out in it.
pub type Notes = IndexMap<u32, Kind>;

// Whether a finding is told beside the call in which it stands out: what is left at the end stands at the right of a lane.
fn is_of_call(kind: &Kind) -> bool {
    !matches!(kind, Kind::LeftOn { .. } | Kind::DomainOn(_))
        && !matches!(kind.weight(), Weight::Note)
}

// The caller that writes a line.
fn writer(run: &Run<'_>, number: u32) -> Option<u32> {
    match run.line(number)?.actor {
        ActorId::Caller(caller) => Some(caller),
        _ => None,
    }
}

// The calls of callers up to a line.
#[derive(Drop)]
struct Reading {
    // For each caller the line of its latest call.
    latest: Vec<Option<u32>>,
    // The place of the next call.
    place: usize,
}

impl Reading {
    // Reads the next call, if it is one up to this line.
    fn step(&mut self, run: &Run<'_>, line: u32) -> bool {
        let Some(call) = run.calls.get(self.place) else {
            return false;
        };
        if call.line > line {
            return false;
        }
        if let Some(latest) = self.latest.get_mut(call.caller as usize) {
            *latest = Some(call.line);
        }
        self.place = self.place.saturating_add(1);
        true
    }

    // The line of the latest call of whoever writes a line, once the calls up to it are read.
    fn call(&mut self, run: &Run<'_>, line: u32) -> Option<u32> {
        let caller = writer(run, line)?;
        self.latest.get(caller as usize).copied().flatten()
    }
}

// Reads the calls up to a line.
fn read_to(reading: &mut Reading, run: &Run<'_>, line: u32) {
    for _ in reading.place..run.calls.len() {
        if !reading.step(run, line) {
            return;
        }
    }
}

/// What stands out in a run, by the calls. It reads the calls once. Fails where memory runs out.
pub fn notes_of(alloc: Global, run: &Run<'_>, findings: &[Finding]) -> Result<Notes, NoMemory> {
    let mut notes = IndexMap::new(alloc);
    let mut reading = Reading {
        latest: vec![in alloc; None; run.plan.callers.len()]?,
        place: 0,
    };
    for found in findings {
        read_to(&mut reading, run, found.line);
        if is_of_call(&found.kind)
            && let Some(call) = reading.call(run, found.line)
            && !notes.contains_key(&call)
        {
            notes.insert(call, found.kind)?;
        }
    }
    Ok(notes)
}
