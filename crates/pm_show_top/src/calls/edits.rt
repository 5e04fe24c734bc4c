//! Changed traces of a run of a USB hub.
//!
//! `usb.trace` is the trace of the plan `usb.toml`. Each line of `usb.edits` names a kind of change, the number
//! of the line that is changed, and what the audit then says.

use crate::calls::calls::{End, audit_ends};
use crate::calls::texts::first_lines;
use pm_base::PLAN_BYTES;
use pm_io::{FileFault, Files, read_all};
use pm_planread::PlanFault;
use std::alloc::{AllocError, Global};
use std::sync::Wait;
use std::thread::Threads;

/// The stored files.
#[derive(Drop)]
pub struct Usb {
    plan: Vec<u8>,
    trace: Vec<u8>,
    edits: Vec<u8>,
}

/// The files of the folder.
pub fn stored_usb<F: Files>(alloc: Global, files: &mut F) -> Result<Usb, FileFault> {
    let plan = read_all(alloc, files, "usb.toml", PLAN_BYTES)?;
    let trace = read_all(alloc, files, "usb.trace", PLAN_BYTES)?;
    let edits = read_all(alloc, files, "usb.edits", PLAN_BYTES)?;
    Ok(Usb { plan, trace, edits })
}

/// How many changed traces of this kind there are, and whether the audit says of each what is stored.
pub fn judged_as_told<R: Threads + Wait + Sync>(
    rt: &R,
    alloc: Global,
    usb: &Usb,
    kind: &str,
) -> Result<(u64, bool), PlanFault> {
    let Ok(edits) = str::from_utf8(&usb.edits) else {
        return Ok((0, false));
    };
    let mut count = 0u64;
    for edit in edits.split_inclusive('\n') {
        let Some((number, verdict)) = edit_in(edit, kind) else {
            continue;
        };
        count = count.saturating_add(1);
        if !is_judged(rt, alloc, usb, kind, number, verdict)? {
            return Ok((count, false));
        }
    }
    Ok((count, true))
}

/// The number of the changed line, and what the audit says, where the edit is of this kind.
fn edit_in<'a>(edit: &'a str, kind: &str) -> Option<(usize, &'a str)> {
    let (found, rest) = edit.split_once(' ')?;
    let (number, verdict) = rest.split_once(' ')?;
    if found != kind {
        return None;
    }
    Some((number.parse::<usize>().ok()?, verdict))
}

/// Whether the audit says this of the trace with this change of that line.
fn is_judged<R: Threads + Wait + Sync>(
    rt: &R,
    alloc: Global,
    usb: &Usb,
    kind: &str,
    number: usize,
    verdict: &str,
) -> Result<bool, AllocError> {
    let before = first_lines(&usb.trace, number.saturating_sub(1));
    let through = first_lines(&usb.trace, number);
    let line = through.get(before.len()..).unwrap_or(b"");
    let Some(changed) = changed_line(alloc, line, kind)? else {
        return Ok(false);
    };
    let mut trace = Vec::from_slice(alloc, before)?;
    trace.extend_from_slice(&changed)?;
    trace.extend_from_slice(usb.trace.get(through.len()..).unwrap_or(b""))?;
    let end = End {
        status: if verdict.starts_with("yes") { 0 } else { 1 },
        out: verdict.as_bytes(),
        err: b"",
    };
    audit_ends(rt, alloc, &usb.plan, trace, end)
}

/// What a line becomes; none where it has no such change.
fn changed_line(alloc: Global, line: &[u8], kind: &str) -> Result<Option<Vec<u8>>, AllocError> {
    match kind {
        "left_out" => Ok(Some(Vec::new(alloc))),
        "repeated" => {
            let mut twice = Vec::from_slice(alloc, line)?;
            twice.extend_from_slice(line)?;
            Ok(Some(twice))
        }
        "one_more" => with_code(alloc, line, 1),
        "one_less" => with_code(alloc, line, -1),
        _ => Ok(None),
    }
}

/// The line with a code that is other by this much. The code is what a line has behind its last blank or equals
/// sign.
fn with_code(alloc: Global, line: &[u8], by: i64) -> Result<Option<Vec<u8>>, AllocError> {
    let Ok(line) = str::from_utf8(line) else {
        return Ok(None);
    };
    let Some((front, code)) = code_in(line.trim_end()) else {
        return Ok(None);
    };
    let code = code.saturating_add(by);
    let mut changed = Vec::from_slice(alloc, front.as_bytes())?;
    changed.extend_from_slice(format!(in alloc; "{code}\n")?.as_bytes())?;
    Ok(Some(changed))
}

/// What is before a line's code, and the code.
fn code_in(line: &str) -> Option<(&str, i64)> {
    let at = line.rfind([' ', '='])?;
    let (front, code) = line.split_at_checked(at.saturating_add(1))?;
    Some((front, code.parse::<i64>().ok()?))
}
