//! Cases of texts, files, plans and islands. Expected values were written by hand.

mod accounts;
mod filing;
mod lines;
mod parting;
mod planning;
mod plans;
mod reading;
mod rows;
mod scripts;
mod spelling;
mod told;
mod words;

use pm_io::{Files, StdErr, StdOut};
use pm_planread::PlanFault;
use std::alloc::Global;
use std::io;
use std::io::Print;
use std::rt::Files as FileSystem;
use std::time::Clock;
use told::Case;

/// Tells of each case, over the files of the folder `data` and over standard output and standard error.
pub fn show<R: Print + FileSystem, F: Files, C: Clock + Drop>(
    rt: &R,
    alloc: Global,
    files: &mut F,
    out: StdOut<C>,
    err: StdErr,
) -> io::Result<()> {
    tell(rt, spelling::cases(alloc))?;
    tell(rt, reading::cases(alloc, files))?;
    tell(rt, scripts::cases(alloc))?;
    tell(rt, planning::cases(alloc, files))?;
    tell(rt, words::cases(alloc, files))?;
    tell(rt, accounts::cases(alloc))?;
    tell(rt, parting::cases(alloc))?;
    tell(rt, filing::memory_cases(alloc))?;
    tell(rt, filing::disk_cases(rt, alloc))?;
    tell(rt, filing::stream_cases(alloc, out, err))
}

/// A line for each case.
fn tell<R: Print>(rt: &R, tried: Result<Vec<Case>, PlanFault>) -> io::Result<()> {
    match tried {
        Ok(cases) => {
            for (shows, told) in &cases {
                println!(rt; "{shows}: {told}")?;
            }
            Ok(())
        }
        Err(_) => println!(rt; "cases weren't tried, for want of memory, a plan or a file"),
    }
}
