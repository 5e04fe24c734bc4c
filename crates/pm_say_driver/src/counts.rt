//! How much a driver has.

use pm_base::NoMemory;
use pm_driver_read::{Driver, DriverCaller};
use pm_driver_script::{Guard, ProgramPlace};
use pm_spans::source::{push, push_number};
use std::alloc::Global;

/// How much the scripts of a driver have.
#[derive(Clone, Copy)]
struct Amount {
    steps: usize,
    places: usize,
    ways: usize,
    guards: usize,
}

/// The steps of the file. What is written of one stands together.
fn own_steps(lines: &[Option<u32>]) -> usize {
    let mut count = 0usize;
    let mut last = None;
    for line in lines {
        if line.is_some() && *line != last {
            count = count.saturating_add(1);
        }
        last = *line;
    }
    count
}

/// Whether a call has to wait for something.
fn is_guarded(place: &ProgramPlace) -> bool {
    match place.guard {
        Guard::Open => false,
        Guard::Free { .. } | Guard::Stopped | Guard::Flag { .. } => true,
    }
}

/// With what a caller has.
fn with_caller(amount: Amount, caller: &DriverCaller) -> Amount {
    let places = caller.program.places.as_slice();
    let mut ways = amount.ways;
    let mut guards = amount.guards.saturating_add(caller.after.as_slice().len());
    for place in places {
        let count = place
            .exits
            .as_slice()
            .len()
            .saturating_add(place.otherwise.as_slice().len());
        ways = ways.saturating_add(count);
        if is_guarded(place) {
            guards = guards.saturating_add(1);
        }
    }
    Amount {
        steps: amount
            .steps
            .saturating_add(own_steps(caller.lines.as_slice())),
        places: amount.places.saturating_add(places.len()),
        ways,
        guards,
    }
}

/// How much a driver has, behind the name of its file.
pub fn driver_counts(alloc: Global, driver: &Driver) -> Result<Vec<u8>, NoMemory> {
    let mut amount = Amount {
        steps: 0,
        places: 0,
        ways: 0,
        guards: 0,
    };
    for caller in driver.callers.as_slice() {
        amount = with_caller(amount, caller);
    }
    let devices = driver.plan.devices.len().saturating_sub(driver.flags);
    let mut out = Vec::new(alloc);
    push_count(&mut out, b": devices ", devices)?;
    push_count(&mut out, b" flags ", driver.flags)?;
    push_count(&mut out, b" callers ", driver.callers.as_slice().len())?;
    push_count(&mut out, b" steps ", amount.steps)?;
    push_count(&mut out, b" places ", amount.places)?;
    push_count(&mut out, b" ways ", amount.ways)?;
    push_count(&mut out, b" guards ", amount.guards)?;
    push(&mut out, b"\n")?;
    Ok(out)
}

fn push_count(out: &mut Vec<u8>, word: &[u8], count: usize) -> Result<(), NoMemory> {
    push(out, word)?;
    push_number(out, count)
}
