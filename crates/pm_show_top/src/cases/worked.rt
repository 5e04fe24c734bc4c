//! What is told of the run of a stored plan, by functions over its book.

use crate::cases::comparing::stored;
use crate::common::{fresh_book, word};
use anyhow::Result;
use pm_account::{Times, account};
use pm_base::{DevId, NoMemory, Status, Why};
use pm_book::Book;
use pm_io::Files;
use pm_model::Plan;
use pm_planread::{PlanFault, read_plan};
use pm_report::{summary, summary_text};
use pm_serial::{drain, fresh_books_have_time};
use pm_why::{Reason, book_reasons};
use std::alloc::Global;
use std::io::Print;

/// What is asked of a run, and what has to be told.
enum Asked {
    /// How long each device was in which status.
    Times(&'static [Times]),
    /// What keeps the device at this place from suspending.
    Reasons(u32, &'static [Reason]),
    Summary(&'static [u8]),
}

/// A case: what it shows, the file of the plan, and what is asked.
struct Worked {
    shows: &'static str,
    plan: &'static str,
    asked: Asked,
}

static CASES: [Worked; 7] = [
    Worked {
        shows: "times of a device whose timer suspends it",
        plan: "timer.toml",
        asked: Asked::Times(&[Times {
            active: 19,
            suspended: 0,
            moving: 0,
        }]),
    },
    Worked {
        shows: "times of a device that is only suspending for a while",
        plan: "deferred_resume.toml",
        asked: Asked::Times(&[Times {
            active: 0,
            suspended: 0,
            moving: 10,
        }]),
    },
    Worked {
        shows: "reasons, none of a device that is free",
        plan: "resumed.toml",
        asked: Asked::Reasons(0, &[]),
    },
    Worked {
        shows: "reasons of a device that is disabled",
        plan: "disabled_get.toml",
        asked: Asked::Reasons(
            0,
            &[
                Reason::Depth(1),
                Reason::Count {
                    why: Why::Caller,
                    line: 2,
                },
                Reason::State(Status::Suspended),
            ],
        ),
    },
    Worked {
        shows: "reasons of a parent",
        plan: "parents.toml",
        asked: Asked::Reasons(1, &[Reason::Child(DevId(2))]),
    },
    Worked {
        shows: "reasons of its child",
        plan: "parents.toml",
        asked: Asked::Reasons(
            2,
            &[Reason::Count {
                why: Why::Caller,
                line: 8,
            }],
        ),
    },
    Worked {
        shows: "the summary of a run with a suspend that fails",
        plan: "failed_suspend.toml",
        asked: Asked::Summary(b"devices 1 lines 37 resumes 1 suspends 1 idles 0 finished\n"),
    },
];

/// Whether the run of a book has this summary.
fn is_summed(alloc: Global, book: &Book, text: &[u8]) -> Result<bool, NoMemory> {
    let lines = book.lines();
    if lines.len() >= 1 << 32 {
        return Ok(false);
    }
    let sum = summary(book.plan(), lines, book.finished());
    Ok(summary_text(alloc, &sum)?.as_slice() == text)
}

/// Whether this keeps a device from suspending.
fn is_kept_by(
    alloc: Global,
    book: &Book,
    place: u32,
    reasons: &[Reason],
) -> Result<bool, NoMemory> {
    if place as usize >= book.plan().devices.len() {
        return Ok(false);
    }
    Ok(book_reasons(alloc, book, DevId(place))?.as_slice() == reasons)
}

/// Whether the run of a book tells so.
fn tells(alloc: Global, book: &Book, asked: &Asked) -> Result<bool, NoMemory> {
    match asked {
        Asked::Times(times) => {
            Ok(account(alloc, book.plan(), book.lines())?.as_slice() == *times)
        }
        Asked::Reasons(place, reasons) => is_kept_by(alloc, book, *place, *reasons),
        Asked::Summary(text) => is_summed(alloc, book, *text),
    }
}

/// Whether the run of the plan tells so. It alone owns a book, so that its proof stays small.
fn run_tells(alloc: Global, plan: Plan, asked: &Asked) -> Result<bool, NoMemory> {
    let mut book = fresh_book(alloc, plan)?;
    fresh_books_have_time();
    drain(&mut book)?;
    tells(alloc, &book, asked)
}

/// Whether the run of the text's plan tells so.
fn text_tells(alloc: Global, text: &[u8], asked: &Asked) -> Result<bool, PlanFault> {
    Ok(run_tells(alloc, read_plan(alloc, text)?, asked)?)
}

/// Room for two lines is taken, and then for more than the run has; the run of the plan is the same as without.
fn has_room(alloc: Global, plan: Plan, same: &Book) -> Result<bool, NoMemory> {
    let mut book = fresh_book(alloc, plan)?;
    fresh_books_have_time();
    book.reserve(2)?;
    book.reserve(100)?;
    drain(&mut book)?;
    Ok(book.lines() == same.lines())
}

/// Room for the lines of a plan's run is taken before they come, and more of it.
fn room_grows(alloc: Global, text: &[u8]) -> Result<bool, PlanFault> {
    let mut book = fresh_book(alloc, read_plan(alloc, text)?)?;
    fresh_books_have_time();
    drain(&mut book)?;
    Ok(book.lines().len() == 16 && has_room(alloc, read_plan(alloc, text)?, &book)?)
}

/// Tells of each case.
pub fn show<P: Print, F: Files>(rt: &P, alloc: Global, files: &mut F) -> Result<()> {
    for case in &CASES {
        let text = stored(alloc, files, case.plan)?;
        let told = word(text_tells(alloc, &text, &case.asked));
        let (shows, plan) = (case.shows, case.plan);
        println!(rt; "{plan}, {shows}: {told}")?;
    }
    let text = stored(alloc, files, "resumed.toml")?;
    let grows = word(room_grows(alloc, &text));
    println!(rt; "resumed.toml, room for lines is taken before they come, and grows: {grows}")?;
    Ok(())
}
