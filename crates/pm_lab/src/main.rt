//! What people look at in a plan and in its runs, over the real files and streams: `say`, `find`, `picture`, `orders`, `order`,
//! `kernel` and `help`.
#![tactic(auto)]

use pm_cmd_lab::ends::{Fault, finish, refuse_words};
use pm_cmd_lab::others::top;
use pm_io::{DiskFiles, StdErr, StdOut};
use std::process::ExitCode;
use std::rt::Env;
use std::{env, io};

fn main(rt: HostRuntime) -> ExitCode {
    let mut files = DiskFiles::new(&rt);
    let mut out = StdOut::new(&rt, rt.stdout());
    let mut err = StdErr::new(rt.stderr());
    let status = match arguments(&rt) {
        Ok(words) => top(rt.alloc(), &words, &mut files, &mut out, &mut err),
        Err(error) if error.kind() == io::ErrorKind::OutOfMemory => {
            finish(Err(Fault::NoMemory), "", &mut err)
        }
        Err(_) => refuse_words(&mut err),
    };
    ExitCode::from(status)
}

/// The words after the program's name. It fails where one isn't text.
fn arguments<R: Env + AllocGlobal>(rt: &R) -> io::Result<Vec<String>> {
    let mut words = Vec::new(rt.alloc());
    for word in env::args(rt)?.skip(1) {
        words.push(word)?;
    }
    Ok(words)
}
