//! Gates and clocks.

use pm_base::{Cb, DevId};
use pm_gate::{Clock, Gate, Meet, Quiet, Stopwatch, Ticker};
use pm_planread::PlanFault;
use std::alloc::Global;
use std::sync::Wait;
use std::thread;
use std::thread::Threads;
use std::time::Clock as SystemClock;

const A: DevId = DevId(0);

const B: DevId = DevId(1);

/// Callbacks at once meet.
pub fn at_once_meet<R: Threads + Wait + Sync>(rt: &R) -> bool {
    let meet = Meet::new(A, B);
    thread::join(
        rt,
        || meet.callback(A, Cb::Resume, 1),
        || meet.callback(B, Cb::Resume, 1),
    );
    meet.met()
}

/// Callbacks in turn do not meet.
pub fn in_turn_do_not_meet() -> bool {
    let meet = Meet::new(A, B);
    // Neither is held: they are no first resume callbacks.
    meet.callback(A, Cb::Suspend, 1);
    meet.callback(A, Cb::Resume, 2);
    let met_before = meet.met();
    meet.callback(A, Cb::Resume, 1);
    meet.callback(B, Cb::Resume, 1);
    !met_before && !meet.met()
}

/// Readings come in turn.
pub fn readings_come_in_turn(alloc: Global) -> Result<bool, PlanFault> {
    let ticker = Ticker::new(Vec::from_slice(alloc, &[5, 3])?);
    Quiet.callback(A, Cb::Idle, 1);
    let readings = [ticker.now(), ticker.now(), ticker.now(), ticker.now()];
    let late = Ticker::new(Vec::from_slice(alloc, &[(1 << 61) - 1])?);
    let _first = late.now();
    Ok(readings == [Some(5), Some(3), Some(1_003), Some(2_003)] && late.now() == Some(1 << 61))
}

/// A stopwatch does not go back.
pub fn stopwatch_does_not_go_back<R: SystemClock + Copy>(system: R) -> bool {
    let watch = Stopwatch::new(system);
    let first = watch.now();
    first <= watch.now()
}
