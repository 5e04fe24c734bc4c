//! What the callbacks of a run answered.

ghost use Rattle.std.specs.Prelude.{◌≡◌, IfOk, reverse};
ghost use Rattle.std.specs.List.{filter_map};
ghost use Rattle.pm_driver_runs.specs.Collected.{codes_in, ended_in, to_last_failure};

use pm_base::{Cb, DevId};
use pm_model::{Event, Line};
use std::alloc::{AllocError, Global};

// The code that a callback of a device answers by a line.
fn ended_in(cb: Cb, dev: DevId, event: &Event) -> Option<i32>
    ensures { result ≡ ended_in cb dev event.now }
{
    match *event {
        Event::End {
            dev: at,
            cb: ended,
            code,
        } if ended == cb && at == dev => Some(code),
        _ => None,
    }
}

// What a callback answered, in order.
fn answers_in(alloc: Global, cb: Cb, dev: DevId, lines: &[Line]) -> Result<Vec<i32>, AllocError>
    ensures { IfOk result (λ codes. codes.items ≡ filter_map (λ line. ended_in cb dev line.event) lines.now) }
{
    lines
        .iter()
        .filter_map(|line| ended_in(cb, dev, &line.event))
        .collect(alloc)
}

// Drops what stands behind the last failure.
fn keep_to_last_failure(codes: &mut Vec<i32>)
    ensures { codes.new.items ≡ reverse (to_last_failure (reverse codes.old.items)) }
{
    while let Some(0) = codes.last() {
        codes.pop();
    }
}

/// What a callback answered, in order, up to its last failure. Fails where memory runs out.
#[tactic(auto, using(crate::proofs::OneRun::filter_map_back))]
pub fn codes_of(alloc: Global, cb: Cb, dev: DevId, lines: &[Line]) -> Result<Vec<i32>, AllocError>
    ensures { IfOk result (λ codes. codes.items ≡ codes_in (reverse lines.now) dev.0 cb) }
{
    let mut codes = answers_in(alloc, cb, dev, lines)?;
    keep_to_last_failure(&mut codes);
    Ok(codes)
}
