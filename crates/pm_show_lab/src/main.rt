//! Shows of `pm_lab` and of the libraries below it what no clause says, over the files of the folder `data`.
#![tactic(auto)]

mod commands;
mod findings;
mod orders;
mod say;

use anyhow::Result;
use pm_io::DiskFiles;

fn main(rt: HostRuntime) -> Result<()> {
    let alloc = rt.alloc();
    let mut files = DiskFiles::new(&rt);
    commands::show(&rt, alloc, &mut files)?;
    say::show(&rt, alloc, &mut files)?;
    orders::show(&rt, alloc, &mut files)?;
    findings::show(&rt, alloc, &mut files)
}
