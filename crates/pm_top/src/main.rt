//! Runs a plan of `pm_runtime_*` calls and writes one trace line per atomic step.
#![tactic(auto)]

use pm_cmd_ends::{Fault, refuse_words};
use pm_cmd_top::top;
use pm_gate::{Quiet, Stopwatch};
use pm_io::{DiskFiles, StdErr, StdOut};
use std::process::ExitCode;
use std::rt::Env;
use std::{env, io};

fn main(rt: HostRuntime) -> ExitCode {
    let mut files = DiskFiles::new(&rt);
    let mut out = StdOut::new(&rt, rt.stdout());
    let mut err = StdErr::new(rt.stderr());
    let clock = Stopwatch::new(&rt);
    let status = match arguments(&rt) {
        Ok(words) => top(
            &rt,
            rt.alloc(),
            &words,
            &mut files,
            &mut out,
            &mut err,
            &clock,
            &Quiet,
        ),
        Err(error) if error.kind() == io::ErrorKind::OutOfMemory => {
            Fault::NoMemory.report(&mut err)
        }
        Err(_) => refuse_words(&mut err),
    };
    ExitCode::from(status)
}

/// The words after the program's name. It fails where one isn't text.
fn arguments<R: Env + AllocGlobal>(rt: &R) -> io::Result<Vec<String>> {
    let mut words = Vec::new(rt.alloc());
    for word in env::args(rt)?.skip(1) {
        words.push(word)?;
    }
    Ok(words)
}
