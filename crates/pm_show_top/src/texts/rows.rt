//! Files in the folder `data`.

use pm_base::PLAN_BYTES;
use pm_io::{Files, read_all};
use pm_planread::PlanFault;
use std::alloc::Global;

/// The text of a file of the folder. Where there is none, the cases over it aren't tried, as where memory runs out.
pub fn stored<F: Files>(alloc: Global, files: &mut F, name: &str) -> Result<String, PlanFault> {
    let Ok(bytes) = read_all(alloc, files, name, PLAN_BYTES) else {
        return Err(PlanFault::NoMemory);
    };
    match str::from_utf8(&bytes) {
        Ok(text) => Ok(String::from_str(alloc, text)?),
        Err(_) => Err(PlanFault::NoMemory),
    }
}

/// The first two words of a row, and what is behind them.
pub fn two_words(row: &str) -> Option<(&str, &str, &str)> {
    let (first, rest) = row.split_once(' ')?;
    let (second, rest) = rest.split_once(' ')?;
    Some((first, second, rest))
}
