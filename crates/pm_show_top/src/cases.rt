//! Runs the commands that the folder `data` has, and tells of each whether it wrote what is stored for it.
//!
//! `commands.list` names commands with the text that they write, and `counters.list` plans with the counters
//! that their runs end with. The texts were worked out from the rules by hand or by another program, and none
//! is this project's own.

mod comparing;
mod counters;
mod worked;

use crate::common::{ticker, words_of};
use anyhow::Result;
use comparing::{stored, verdict};
use counters::counters_text;
use pm_base::PIECE_BYTES;
use pm_cmd_top::top;
use pm_gate::Quiet;
use pm_io::{Files, MemSink};
use std::alloc::Global;
use std::io::Print;
use std::sync::Wait;
use std::thread::Threads;

/// Tells of each command, of the counters after each run, and of what else is told of runs.
pub fn show<R: Print + Threads + Wait + Sync, F: Files>(
    rt: &R,
    alloc: Global,
    files: &mut F,
) -> Result<()> {
    let commands = stored(alloc, files, "commands.list")?;
    for case in str::from_utf8(&commands)?.lines() {
        if let Some((kept, words)) = case_in(case) {
            let told = run_command(rt, alloc, files, kept, words)?;
            println!(rt; "{words}: {told}")?;
        }
    }
    let counters = stored(alloc, files, "counters.list")?;
    for case in str::from_utf8(&counters)?.lines() {
        if let Some((kept, plan)) = case_in(case) {
            let text = counters_text(alloc, plan, files)?;
            let told = verdict(alloc, files, text.as_bytes(), kept)?;
            println!(rt; "counters {plan}: {told}")?;
        }
    }
    worked::show(rt, alloc, files)
}

/// The file with what is stored, and the words behind its name. A line that begins with `#` is no case.
fn case_in(line: &str) -> Option<(&str, &str)> {
    if line.as_bytes().starts_with(b"#") {
        return None;
    }
    line.split_once(' ')
}

/// Runs the command that the words name, and tells its status, its message and how its output compares
/// with what is stored.
fn run_command<R: Threads + Wait + Sync, F: Files>(
    rt: &R,
    alloc: Global,
    files: &mut F,
    kept: &str,
    words: &str,
) -> Result<String> {
    let mut out = MemSink::new(alloc, PIECE_BYTES, Vec::new(alloc));
    let mut err = MemSink::new(alloc, PIECE_BYTES, Vec::new(alloc));
    let words = words_of(alloc, words)?;
    let clock = ticker(alloc)?;
    let status = top(rt, alloc, &words, files, &mut out, &mut err, &clock, &Quiet);
    let message = str::from_utf8(err.taken())?;
    let told = verdict(alloc, files, out.taken(), kept)?;
    Ok(format!(in alloc; "status {status}, err {message:?}, out {told}")?)
}
