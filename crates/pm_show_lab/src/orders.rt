//! Shows the schedules of the plans of the folder `data`, searched through.
//!
//! `searches.list` names the searches: a plan, whose file is `orders_NAME.toml`, a pace, how many preemptions there may be, how many snapshots, and what is
//! told. Of each it is told how the search ended, how many snapshots there are by at most 0, 1, .. preemptions, and the text
//! of what they show, of all or of what differs, or how many observations there are by at most 0, 1, .. preemptions. How many
//! snapshots there are at an eager pace, of the camera, the failing parent and the panel, was counted by another program too.
//! Behind them a small graph of numbers is searched (`numbers`), and its rounds can be counted by hand.

mod numbers;

use anyhow::Result;
use pm_base::PLAN_BYTES;
use pm_explore::schedule::Pace;
use pm_explore::search::{Ended, Stop};
use pm_io::{Files, read_all};
use pm_model::Plan;
use pm_outcomes::find::{Outcomes, all_outcomes};
use pm_outcomes::text::orders_text;
use pm_planread::read_plan;
use std::alloc::Global;
use std::io::{Print, Write};
use std::{io, str};

/// Tells of each search.
pub fn show<R: Print, F: Files>(rt: &R, alloc: Global, files: &mut F) -> Result<()> {
    let searches = read_all(alloc, files, "searches.list", PLAN_BYTES)?;
    for search in str::from_utf8(&searches)?.lines() {
        println!(rt; "# {search}")?;
        let mut words = search.split_whitespace();
        let name = words.next().unwrap_or("");
        let file = format!(in alloc; "orders_{name}.toml")?;
        let text = read_all(alloc, files, &file, PLAN_BYTES)?;
        let pace = pace_of(words.next().unwrap_or(""));
        let most = words.next().unwrap_or("").parse::<usize>().unwrap_or(0);
        let limit = words.next().unwrap_or("").parse::<usize>().unwrap_or(0);
        let told = words.next().unwrap_or("");
        tell(rt, alloc, text.as_slice(), pace, most, limit, told)?;
    }
    numbers::show(rt, alloc)
}

fn pace_of(word: &str) -> Pace {
    if word == "late" {
        Pace::Late
    } else {
        Pace::Eager
    }
}

/// Writes what a search comes to.
fn tell<R: Print>(
    rt: &R,
    alloc: Global,
    text: &[u8],
    pace: Pace,
    most: usize,
    limit: usize,
    told: &str,
) -> Result<()> {
    let Ok(plan) = read_plan(alloc, text) else {
        println!(rt; "no plan")?;
        return Ok(());
    };
    let all = all_outcomes(alloc, &plan, pace, most, limit)?;
    show_rounds(
        rt,
        all.found.ended,
        all.found.rounds.as_slice(),
        "snapshots",
    )?;
    match told {
        "counts" => show_counts(rt, &all),
        _ => show_text(rt, alloc, &plan, &all, told == "differ"),
    }
}

/// Writes how many observations there are by at most 0, 1, .. preemptions.
fn show_counts<R: Print>(rt: &R, all: &Outcomes) -> Result<()> {
    for most in 0..all.found.rounds.len() {
        let count = marks_within(all, most);
        print!(rt; "{count} ")?;
    }
    println!(rt; "observations")?;
    Ok(())
}

/// How many observations there are by at most so many preemptions.
fn marks_within(all: &Outcomes, most: usize) -> usize {
    let mut count = 0usize;
    for observation in all.observations.as_slice() {
        if observation.round <= most {
            count = count.saturating_add(1);
        }
    }
    count
}

/// Writes what the schedules show.
fn show_text<R: Print>(
    rt: &R,
    alloc: Global,
    plan: &Plan,
    all: &Outcomes,
    differ: bool,
) -> Result<()> {
    let text = orders_text(alloc, plan, all, differ)?;
    let mut out = io::writer(rt);
    out.write_all(text.as_slice())?;
    Ok(())
}

/// Writes how a search ended, and how many there are by at most 0, 1, .. steps that spend.
fn show_rounds<R: Print>(rt: &R, ended: Ended, rounds: &[usize], found: &str) -> Result<()> {
    let (start, what, rest) = match ended {
        Ended::Whole => ("all:", "", ""),
        Ended::Rounds => ("these rounds:", "", ""),
        Ended::Stopped(Stop::Full) => ("too many ", found, ", rounds:"),
        Ended::Stopped(Stop::TooFar) => ("too many lines, rounds:", "", ""),
        Ended::Stopped(Stop::NoMemory) => ("no memory, rounds:", "", ""),
    };
    print!(rt; "{start}{what}{rest}")?;
    for count in rounds {
        print!(rt; " {count}")?;
    }
    println!(rt; " {found}")?;
    Ok(())
}
