//! Cases of judges, books, auditors, inspections and commands.

mod audits;
mod calls;
mod edits;
mod judges;
mod standing;
mod texts;

use crate::common::{tell, word};
use anyhow::Result;
use audits::{SAID, STORED, is_said, is_said_of_stored};
use calls::{by_few_bytes, ends_whole, failed_reads, failed_writes};
use edits::{Usb, judged_as_told, stored_usb};
use judges::{book_takes, judge_offers, judge_takes, steps_then_drain};
use pm_io::Files;
use standing::{CUTS, stands};
use std::alloc::Global;
use std::io;
use std::io::Print;
use std::sync::Wait;
use std::thread::Threads;
use texts::{LONG, RUNS};

/// Tells of each case.
pub fn show<R: Print + Threads + Wait + Sync, F: Files>(
    rt: &R,
    alloc: Global,
    files: &mut F,
) -> Result<()> {
    tell_audits(rt, alloc)?;
    tell_stored_audits(rt, alloc, files)?;
    tell_judges(rt, alloc)?;
    tell_stands(rt, alloc)?;
    tell_runs(rt, alloc)?;
    let usb = stored_usb(alloc, files)?;
    tell_edits(rt, alloc, &usb)?;
    tell_long_texts(rt, alloc)?;
    Ok(())
}

/// Tells what is said of traces.
fn tell_audits<P: Print>(rt: &P, alloc: Global) -> io::Result<()> {
    for said in &SAID {
        tell(rt, said.shows, is_said(alloc, said))?;
    }
    Ok(())
}

/// Tells whether the same is said of stored traces, however they are cut into pieces.
fn tell_stored_audits<P: Print, F: Files>(rt: &P, alloc: Global, files: &mut F) -> io::Result<()> {
    for said in &STORED {
        let trace = said.trace;
        let told = match is_said_of_stored(alloc, files, said) {
            Ok(is_so) => word(Ok(is_so)),
            Err(_) => "not tried",
        };
        println!(rt; "{trace} in one piece, in pieces of 7 bytes and of one: {told}")?;
    }
    Ok(())
}

/// Tells what judges and books take.
fn tell_judges<P: Print>(rt: &P, alloc: Global) -> io::Result<()> {
    let cases = [
        (
            "a judge takes a delay's lines, and no other",
            judge_takes(alloc),
        ),
        ("what a judge offers is taken", judge_offers(alloc)),
        (
            "a book takes a delay's lines, and no other",
            book_takes(alloc),
        ),
        (
            "seven steps and then one thread come to what one thread does",
            steps_then_drain(alloc),
        ),
    ];
    for (shows, case) in cases {
        tell(rt, shows, case)?;
    }
    Ok(())
}

/// Tells how devices stand.
fn tell_stands<P: Print>(rt: &P, alloc: Global) -> io::Result<()> {
    for cut in &CUTS {
        tell(rt, cut.shows, stands(alloc, cut))?;
    }
    Ok(())
}

/// Tells how commands end whose calls fail or take few bytes.
fn tell_runs<R: Print + Threads + Wait + Sync>(rt: &R, alloc: Global) -> io::Result<()> {
    for (count, run) in &RUNS {
        let shows = run.shows;
        let reads = word(failed_reads(rt, alloc, run, *count));
        let writes = word(failed_writes(rt, alloc, run));
        let bytes = word(by_few_bytes(rt, alloc, run));
        println!(rt;
            "{shows}: each read fails: {reads}, each write fails: {writes}, few bytes at a time: {bytes}"
        )?;
    }
    Ok(())
}

/// Tells what the audit says of changed traces.
fn tell_edits<R: Print + Threads + Wait + Sync>(
    rt: &R,
    alloc: Global,
    usb: &Usb,
) -> io::Result<()> {
    for (kind, shows) in [
        ("left_out", "lines left out"),
        ("repeated", "lines repeated"),
        ("one_more", "codes one more"),
        ("one_less", "codes one less"),
    ] {
        let (count, case) = match judged_as_told(rt, alloc, usb, kind) {
            Ok((count, is_so)) => (count, word(Ok(is_so))),
            Err(fault) => (0, word(Err(fault))),
        };
        println!(rt; "the USB run with {shows}, {count} of them: {case}")?;
    }
    Ok(())
}

/// Tells how commands over long texts end.
fn tell_long_texts<R: Print + Threads + Wait + Sync>(rt: &R, alloc: Global) -> io::Result<()> {
    for run in &LONG {
        tell(rt, run.shows, ends_whole(rt, alloc, run))?;
    }
    Ok(())
}
