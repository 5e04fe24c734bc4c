//! How what was written compares with what is stored.

use anyhow::Result;
use pm_base::PLAN_BYTES;
use pm_io::{FileFault, Files, read_all};
use std::alloc::Global;

/// The bytes of a file of the folder.
pub fn stored<F: Files>(alloc: Global, files: &mut F, name: &str) -> Result<Vec<u8>, FileFault> {
    read_all(alloc, files, name, PLAN_BYTES)
}

/// How the bytes compare with those of the file `kept`, or with none where that is `-`.
pub fn verdict<F: Files>(alloc: Global, files: &mut F, found: &[u8], kept: &str) -> Result<String> {
    if kept == "-" {
        let amount = if found.is_empty() {
            "nothing"
        } else {
            "something"
        };
        return Ok(String::from_str(alloc, amount)?);
    }
    match first_difference(found, &stored(alloc, files, kept)?) {
        None => Ok(format!(in alloc; "as in {kept}")?),
        Some(line) => Ok(format!(in alloc; "other than {kept} from line {line} on")?),
    }
}

/// The number of the first line, from 1, in which the texts differ.
fn first_difference(left: &[u8], right: &[u8]) -> Option<usize> {
    if left == right {
        return None;
    }
    let mut line = 1usize;
    for (x, y) in left.iter().zip(right.iter()) {
        if *x != *y {
            return Some(line);
        }
        if *x == b'\n' {
            line = line.saturating_add(1);
        }
    }
    Some(line)
}
