//! Shows of `pm_top` and of the libraries below it what no clause says: each case is named by what it shows, and
//! tells whether it did (this project's own).
//!
//! What is expected was worked out from the rules by hand or by another program, and none of it is this project's
//! own.
#![tactic(auto)]

mod calls;
mod cases;
mod common;
mod desks;
mod parts;
mod texts;
mod threads;

use anyhow::Result;
use pm_io::{DiskFiles, StdErr, StdOut};

fn main(rt: HostRuntime) -> Result<()> {
    let alloc = rt.alloc();
    let mut files = DiskFiles::new(&rt);
    let (out, err) = (StdOut::new(&rt, rt.stdout()), StdErr::new(rt.stderr()));
    parts::show(&rt, alloc)?;
    texts::show(&rt, alloc, &mut files, out, err)?;
    calls::show(&rt, alloc, &mut files)?;
    cases::show(&rt, alloc, &mut files)?;
    threads::show(&rt, alloc)?;
    desks::show(&rt, alloc)?;
    Ok(())
}
