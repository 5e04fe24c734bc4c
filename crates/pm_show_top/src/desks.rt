//! Cases of calls by a desk. They are examples too of how a program calls from its own threads.

mod cases;
mod desks;
mod plans;

use crate::common::{Tried, tell};
use cases::{
    calls_answer_their_codes, full_list_stops, full_script_stops, lost_pass_is_told,
    pass_is_given_once, passes_in_any_order, two_callers_at_once,
};
use std::alloc::Global;
use std::io;
use std::io::Print;
use std::sync::Wait;
use std::thread::Threads;

/// Tells of each case.
pub fn show<R: Print + Threads + Wait + Sync>(rt: &R, alloc: Global) -> io::Result<()> {
    for (what, case) in shown(rt, alloc) {
        tell(rt, what, case)?;
    }
    Ok(())
}

/// What is shown, and what each case came to.
fn shown<R: Threads + Wait + Sync>(rt: &R, alloc: Global) -> [Tried; 7] {
    [
        (
            "two callers call at once, and each call answers 0",
            two_callers_at_once(rt, alloc),
        ),
        (
            "a call answers the code that the helper returns",
            calls_answer_their_codes(rt, alloc),
        ),
        (
            "a full list stops a call and each behind it",
            full_list_stops(rt, alloc),
        ),
        ("a full script stops a call", full_script_stops(rt, alloc)),
        ("a pass is given once", pass_is_given_once(alloc)),
        (
            "passes come back in any order, and an unused one not at all",
            passes_in_any_order(rt, alloc),
        ),
        (
            "a used pass that doesn't come back is told",
            lost_pass_is_told(rt, alloc),
        ),
    ]
}
