//! Cases of the low crates.

/// A table of cases: what each shows, what it begins with, and its steps in turn.
macro_rules! cases {
    ($($shown:literal => { $($step:expr;)* })*) => { [$(($shown, &[$($step),*])),*] };
    ($($shown:literal, $start:expr => { $($step:expr;)* })*) => {
        [$(($shown, $start, &[$($step),*])),*]
    };
}

/// An array.
macro_rules! list {
    ($($item:expr;)*) => { [$($item),*] };
}

/// What each case shows, and what it came to.
macro_rules! told {
    ($($shown:literal: $case:expr;)*) => { [$(($shown, $case)),*] };
}

mod bits;
mod counters;
mod domains;
mod gates;
mod generator;
mod hints;
mod links;
mod moments;
mod named;
mod requests;
mod summaries;
mod tally;
mod timers;
mod words;

use crate::common::{Tried, tell};
use std::alloc::Global;
use std::io;
use std::io::Print;
use std::sync::Wait;
use std::thread::Threads;
use std::time::Clock;

/// Tells of each case.
pub fn show<R: Print + Threads + Wait + Clock + Sync>(rt: &R, alloc: Global) -> io::Result<()> {
    for (shown, bound, steps) in &bits::CASES {
        tell(rt, *shown, bits::shows(alloc, *bound, *steps))?;
    }
    for (shown, places, steps) in &moments::CASES {
        tell(rt, *shown, moments::shows(alloc, *places, *steps))?;
    }
    for (shown, steps) in &tally::CASES {
        tell(rt, *shown, tally::shows(alloc, *steps))?;
    }
    for (shown, names, asks) in &named::CASES {
        tell(rt, *shown, named::shows(alloc, *names, *asks))?;
    }
    for (shown, rows) in &requests::CASES {
        tell(rt, *shown, requests::shows(alloc, *rows))?;
    }
    for (shown, devices, steps) in &timers::CASES {
        tell(rt, *shown, timers::shows(alloc, *devices, *steps))?;
    }
    for (shown, steps) in &links::CASES {
        tell(rt, *shown, links::shows(alloc, *steps))?;
    }
    for (shown, plan, rows) in &domains::CASES {
        tell(rt, *shown, domains::shows(alloc, *plan, *rows))?;
    }
    for (shown, rows) in &counters::CASES {
        tell(rt, *shown, counters::shows(alloc, *rows))?;
    }
    for (shown, case) in other_cases(rt, alloc) {
        tell(rt, shown, case)?;
    }
    Ok(())
}

/// What the cases show that are in no table, and what each came to.
fn other_cases<R: Threads + Wait + Clock + Sync>(rt: &R, alloc: Global) -> [Tried; 16] {
    let [devices, links, scripts] = generator::shows(alloc);
    told! {
        "list, rows come back as they were": named::come_back(alloc);
        "list, each of a thousand names is found": named::thousand_are_found(alloc);
        "words, words have their numbers": Ok(words::have_numbers());
        "words, numbers have their words": Ok(words::have_words());
        "words, other words have no number": Ok(words::are_helpers(&words::OTHERS));
        "generated plan, devices and domains": devices;
        "generated plan, links": links;
        "generated plan, scripts": scripts;
        "generated plan, two devices": generator::two_devices(alloc);
        "summary, begins are counted": summaries::begins_are_counted(alloc);
        "summary, the text is one line": summaries::text_is_one_line(alloc);
        "gate, callbacks at once meet": Ok(gates::at_once_meet(rt));
        "gate, callbacks in turn do not meet": Ok(gates::in_turn_do_not_meet());
        "clock, readings come in turn": gates::readings_come_in_turn(alloc);
        "clock, a stopwatch does not go back": Ok(gates::stopwatch_does_not_go_back(rt));
        "hints, they come in order, and a full queue loses one": hints::come_in_order(rt, alloc);
    }
}
