//! Cases of runs by threads.

mod cases;
mod choosing;
mod counting;
mod plans;
mod resting;
mod written;

use crate::common::{Tried, tell, word};
use cases::{
    counts_callbacks, cut_merge_is_none, empty_plan_is_finished, hands_meet,
    held_lock_stops_no_other, hints_decide_nothing, strange_book_is_replaced,
};
use choosing::{Shown, desk_waits_for_callers, hands_rest, in_some, silent_clock_ends};
use plans::{HUB, TIED, TIMED};
use std::alloc::Global;
use std::io;
use std::io::Print;
use std::sync::Wait;
use std::thread::Threads;
use std::time::Clock;
use written::{
    Way, cut_is_of_one_thread, meets, passes_audit, run_counts_callbacks, run_goes_by_its_clock,
    tells_what_overlaps,
};

/// Tells of each case.
pub fn show<R: Print + Threads + Wait + Clock + Sync>(rt: &R, alloc: Global) -> io::Result<()> {
    let met = hands_meet(rt, alloc);
    tell(rt, "callbacks of two hands in one island run at once", met)?;
    let one = word(counts_callbacks(rt, alloc, 1));
    let two = word(counts_callbacks(rt, alloc, 2));
    let four = word(counts_callbacks(rt, alloc, 4));
    println!(rt;
        "the gate is called once for each begin line, by 1 hand: {one}, by 2: {two}, by 4: {four}"
    )?;
    for (shown, case) in island_cases(rt, alloc) {
        tell(rt, shown, case)?;
    }
    for (shown, case) in written_cases(rt, alloc) {
        tell(rt, shown, case)?;
    }
    for (shown, case) in chosen_cases(rt, alloc) {
        tell(rt, shown, case)?;
    }
    Ok(())
}

/// What is shown of islands, their locks and their hints.
fn island_cases<R: Threads + Wait + Sync>(rt: &R, alloc: Global) -> [Tried; 5] {
    [
        (
            "a held lock of one island stops no other",
            held_lock_stops_no_other(rt, alloc),
        ),
        (
            "16 hands finish a plan with no island",
            empty_plan_is_finished(rt, alloc),
        ),
        (
            "lost and invented hints stop no island",
            hints_decide_nothing(rt, alloc),
        ),
        (
            "a merge with more lines than the plan allows is none",
            cut_merge_is_none(rt, alloc),
        ),
        (
            "a book of another plan is replaced",
            strange_book_is_replaced(alloc),
        ),
    ]
}

/// What is shown of what `run` writes, and of scripts that passes call.
fn written_cases<R: Threads + Wait + Sync>(rt: &R, alloc: Global) -> [Tried; 13] {
    [
        (
            "what run writes by 2 hands has side by side what serial has one behind the other",
            tells_what_overlaps(rt, alloc, Way::Hands(2)),
        ),
        (
            "callbacks of a plan that run reads run at once by 2 hands",
            meets(rt, alloc, Way::Hands(2)),
        ),
        (
            "run by 1 hand calls the gate once for each begin line that it writes",
            run_counts_callbacks(rt, alloc, 1),
        ),
        ("by 2 hands", run_counts_callbacks(rt, alloc, 2)),
        ("by 4 hands", run_counts_callbacks(rt, alloc, 4)),
        (
            "what run writes by 2 hands of one island passes its audit",
            passes_audit(rt, alloc, Way::Hands(2), TIED),
        ),
        (
            "what run writes by 1 hand has the times of its clock",
            run_goes_by_its_clock(rt, alloc),
        ),
        (
            "what run writes by 4 hands passes its audit",
            passes_audit(rt, alloc, Way::Hands(4), TIMED),
        ),
        (
            "where the merge is none, run writes what serial does",
            cut_is_of_one_thread(rt, alloc, Way::Hands(4)),
        ),
        (
            "callbacks of two passes run at once",
            meets(rt, alloc, Way::Desk),
        ),
        (
            "what desk writes has side by side what serial has one behind the other",
            tells_what_overlaps(rt, alloc, Way::Desk),
        ),
        (
            "what desk writes passes its audit",
            passes_audit(rt, alloc, Way::Desk, HUB),
        ),
        (
            "where the list of a desk is full, desk writes what serial does",
            cut_is_of_one_thread(rt, alloc, Way::Desk),
        ),
    ]
}

/// What is shown of the orders that hands choose, of how they rest and of whom a desk awaits.
fn chosen_cases<R: Threads + Wait + Clock + Sync>(rt: &R, alloc: Global) -> [Tried; 9] {
    [
        (
            "of two callers that do the same, each returns first in some of 50 runs by 2 hands",
            in_some(rt, alloc, Shown::IsFirst, 2),
        ),
        ("by 4 hands", in_some(rt, alloc, Shown::IsFirst, 4)),
        ("by 16 hands", in_some(rt, alloc, Shown::IsFirst, 16)),
        (
            "who asks beside a caller that enables is refused in some of 50 runs by 2 hands, and in some not",
            in_some(rt, alloc, Shown::IsRefused, 2),
        ),
        ("by 4 hands", in_some(rt, alloc, Shown::IsRefused, 4)),
        ("by 16 hands", in_some(rt, alloc, Shown::IsRefused, 16)),
        (
            "a hand rests once for each callback that takes time",
            hands_rest(rt, alloc),
        ),
        (
            "by a clock that can't be read, hands come to the end",
            silent_clock_ends(rt, alloc),
        ),
        (
            "a desk's time doesn't jump over a caller that is awaited",
            desk_waits_for_callers(rt, alloc),
        ),
    ]
}
