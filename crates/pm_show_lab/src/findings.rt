//! Says of each plan of the folder `data` what stands out in its run on one thread.
//!
//! `findings.list` names the plans in order, and behind a name the file that it stands for, where that is another. What is told is stored, and was worked out by another program from the
//! table of the kinds alone.

use anyhow::Result;
use pm_base::{NoMemory, PLAN_BYTES};
use pm_book::Book;
use pm_find::findings::findings;
use pm_find::text::{push_count, push_finding};
use pm_io::{Files, read_all};
use pm_laws::bounds::lines_are_bounded;
use pm_planread::read_plan;
use pm_serial::{drain, fresh_books_have_time};
use std::alloc::Global;
use std::io::{Print, Write};
use std::{io, str};

/// Tells of each plan.
pub fn show<R: Print, F: Files>(rt: &R, alloc: Global, files: &mut F) -> Result<()> {
    let cases = read_all(alloc, files, "findings.list", PLAN_BYTES)?;
    for line in str::from_utf8(&cases)?.lines() {
        let (case, file) = line.split_once(' ').unwrap_or((line, line));
        let name = format!(in alloc; "{file}.toml")?;
        let plan = read_all(alloc, files, &name, PLAN_BYTES)?;
        tell(rt, alloc, case, plan.as_slice())?;
    }
    Ok(())
}

/// Writes what stands out in the run of a plan.
fn tell<R: Print>(rt: &R, alloc: Global, case: &str, plan: &[u8]) -> Result<()> {
    println!(rt; "# {case}")?;
    let Some(book) = run_of(alloc, plan)? else {
        println!(rt; "no plan")?;
        return Ok(());
    };
    let file = format!(in alloc; "{case}.trace")?;
    let text = told(alloc, file.as_bytes(), &book)?;
    let mut out = io::writer(rt);
    out.write_all(text.as_slice())?;
    Ok(())
}

/// The run of a plan on one thread, where it is a plan.
fn run_of(alloc: Global, text: &[u8]) -> Result<Option<Book>, NoMemory> {
    let Ok(plan) = read_plan(alloc, text) else {
        return Ok(None);
    };
    fresh_books_have_time();
    match Book::start(alloc, plan) {
        Ok(mut book) => {
            let _end = drain(&mut book)?;
            Ok(Some(book))
        }
        Err(_) => Err(NoMemory),
    }
}

/// What is told of a book.
fn told(alloc: Global, file: &[u8], book: &Book) -> Result<Vec<u8>, NoMemory> {
    lines_are_bounded();
    let lines = book.lines();
    let all = findings(alloc, book.plan(), lines, book.finished())?;
    let mut text = Vec::new(alloc);
    for found in all.as_slice() {
        push_finding(&mut text, book.plan(), file, found, b"")?;
    }
    push_count(&mut text, all.len(), lines.len())?;
    Ok(text)
}
