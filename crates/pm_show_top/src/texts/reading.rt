//! Cases of `pm_lineread`: texts of lines, and bytes that are none. The texts were written by hand.

use crate::texts::lines::{LARGEST, SMALLEST};
use crate::texts::plans::{ALIKE, EMPTY, FEW, NO_CALLER, NO_DEVICE};
use crate::texts::rows::{stored, two_words};
use crate::texts::spelling::{come_back, comes_back};
use crate::texts::told::{Case, Told};
use pm_base::ActorId;
use pm_io::Files;
use pm_lineread::{Finders, line_start, read_line2, time_start};
use pm_model::Plan;
use pm_planread::{PlanFault, read_plan};
use std::alloc::Global;

/// Over devices and callers of a short name and of the longest, over names that begin as others do, and over plans
/// that lack something.
pub fn cases<F: Files>(alloc: Global, files: &mut F) -> Result<Vec<Case>, PlanFault> {
    let smallest = come_back(alloc, FEW, &SMALLEST)?;
    let largest = come_back(alloc, FEW, &LARGEST)?;
    let near = faults_over(alloc, FEW, files, "few.faults")?;
    let starts = have_starts(alloc, FEW, &STARTS)?;
    let last_bytes = lose_and_double(alloc, files)?;
    let whole = faults_over(alloc, ALIKE, files, "alike.faults")?;
    let actors = have_starts(alloc, ALIKE, &WHOLE_STARTS)?;
    let no_device = faults_over(alloc, NO_DEVICE, files, "no_device.faults")?;
    let no_caller = faults_over(alloc, NO_CALLER, files, "no_caller.faults")?;
    let no_actor = faults_over(alloc, EMPTY, files, "empty.faults")?;
    let cases = [
        ("the smallest texts come back", smallest),
        ("the largest texts come back", largest),
        ("bytes near a text have their faults", near),
        ("so have bytes that aren't seen", unseen(alloc)?),
        ("fronts of texts say time and actor", starts),
        ("texts lose and double their last byte", last_bytes),
        ("fronts of texts say their time", have_times()),
        ("names are read whole", whole),
        ("the names of actors are read whole", actors),
        ("bytes have their faults over no device", no_device),
        ("bytes have their faults over no caller", no_caller),
        ("bytes have their faults over no actor", no_actor),
    ];
    Ok(Vec::from_slice(alloc, &cases)?)
}

/// Behind a line of that time the bytes have their fault there, or are a text.
fn has_fault(plan: &Plan, base: u64, bytes: &[u8], at: Option<usize>) -> bool {
    if base >= 1 << 63 {
        return false;
    }
    match read_line2(plan, base, bytes) {
        Ok(_) => at == None,
        Err(fault) => at == Some(fault.at),
    }
}

/// The same of a row: a time, where the fault is or `-`, and the bytes.
fn is_fault_row(plan: &Plan, row: &str) -> bool {
    let Some((base, at, bytes)) = two_words(row) else {
        return false;
    };
    match (base.parse(), at.parse()) {
        (Ok(base), Ok(at)) => has_fault(plan, base, bytes.as_bytes(), Some(at)),
        (Ok(base), Err(_)) if at == "-" => has_fault(plan, base, bytes.as_bytes(), None),
        _ => false,
    }
}

/// The rows of this file have their faults over the plan of this text.
fn faults_over<F: Files>(
    alloc: Global,
    plan: &[u8],
    files: &mut F,
    name: &str,
) -> Result<Told, PlanFault> {
    let rows = stored(alloc, files, name)?;
    let plan = read_plan(alloc, plan)?;
    let mut told = Told::All(0);
    for row in rows.lines() {
        if !row.starts_with('#') {
            told.note(is_fault_row(&plan, row));
        }
    }
    Ok(told)
}

/// Bytes near a text, and where their fault is.
static UNSEEN: [(&[u8], usize); 5] = [
    (b"0 c pm_call: enable a\r", 21),
    (b"0 c pm_call: enable a\0", 21),
    (b"0 c\0 pm_call: enable a", 3),
    (b"0 work.a\0 pm_wait: a", 8),
    (b"0 c pm_wait: a\0", 14),
];

fn unseen(alloc: Global) -> Result<Told, PlanFault> {
    let plan = read_plan(alloc, FEW)?;
    let mut told = Told::All(0);
    for (bytes, at) in &UNSEEN {
        told.note(has_fault(&plan, 0, *bytes, Some(*at)));
    }
    Ok(told)
}

/// The text comes back, and is or isn't a text without its last byte and with that byte twice. A row says `yes` or
/// `no` of both, and then the text.
fn loses_and_doubles(alloc: Global, plan: &Plan, row: &str) -> Result<bool, PlanFault> {
    let Some((cut, doubled, text)) = two_words(row) else {
        return Ok(false);
    };
    let Some((last, front)) = text.as_bytes().split_last() else {
        return Ok(false);
    };
    let mut twice = Vec::from_slice(alloc, text.as_bytes())?;
    twice.push(*last)?;
    let comes_back = comes_back(alloc, plan, text.as_bytes())?;
    let cut = has_fault(plan, 0, front, fault_unless(cut, front.len()));
    let doubled = has_fault(plan, 0, &twice, fault_unless(doubled, text.len()));
    Ok(comes_back && cut && doubled)
}

fn fault_unless(is_text: &str, at: usize) -> Option<usize> {
    if is_text == "yes" { None } else { Some(at) }
}

fn lose_and_double<F: Files>(alloc: Global, files: &mut F) -> Result<Told, PlanFault> {
    let rows = stored(alloc, files, "last_bytes.list")?;
    let plan = read_plan(alloc, FEW)?;
    let mut told = Told::All(0);
    for row in rows.lines() {
        if !row.starts_with('#') {
            told.note(loses_and_doubles(alloc, &plan, row)?);
        }
    }
    Ok(told)
}

/// A time, bytes behind a line of that time, and the time and the actor that their front says, or nothing.
type Start = (u64, &'static [u8], Option<(u64, ActorId)>);

macro_rules! start {
    ($base:literal, $bytes:literal) => {
        ($base, $bytes, None)
    };
    ($base:literal, $bytes:literal, $time:literal $actor:ident $place:literal) => {
        ($base, $bytes, Some(($time, ActorId::$actor($place))))
    };
}

fn have_starts(alloc: Global, plan: &[u8], table: &[Start]) -> Result<Told, PlanFault> {
    let plan = read_plan(alloc, plan)?;
    let finders = Finders::new(alloc, &plan)?;
    let mut told = Told::All(0);
    for (base, bytes, start) in table {
        told.note(*base < 1 << 63 && line_start(&plan, &finders, *base, *bytes) == *start);
    }
    Ok(told)
}

/// Each kind of actor in format 1 and behind a line, and bytes that begin otherwise.
static STARTS: [Start; 19] = [
    start!(0, b"0 c pm_call: enable a", 0 Caller 0),
    start!(0, b"17 abcdefghijklmnopqrstuvwxyz-_ABCD pm_call: delay 5", 17 Caller 2),
    start!(0, b"17 work.a pm_work: a run none", 17 Work 0),
    start!(0, b"9223372036854775807 timer.0000:00:14.0_abcdefghijklmnopqrs pm_timer: a fire plain", 9223372036854775807 Timer 1),
    start!(5, b"0 e pm_wait: a", 5 Caller 1),
    start!(5, b"12 work.0000:00:14.0_abcdefghijklmnopqrs pm_wait: a", 17 Work 1),
    start!(5, b"9223372036854775802 timer.a pm_timer: a fire auto", 9223372036854775807 Timer 0),
    start!(0, b"3 c", 3 Caller 0),
    start!(5, b"9223372036854775803 c pm_wait: a"),
    start!(0, b""),
    start!(0, b"0"),
    start!(0, b" c pm_wait: a"),
    start!(0, b"00 c pm_wait: a"),
    start!(0, b"0  c pm_wait: a"),
    start!(0, b"0 a pm_wait: a"),
    start!(0, b"0 work.c pm_wait: a"),
    start!(0, b"0 timer. pm_wait: a"),
    start!(0, b"0 work pm_wait: a"),
    start!(0, b"0 c\0 pm_wait: a"),
];

/// Actors whose names begin as other actors do.
static WHOLE_STARTS: [Start; 6] = [
    start!(0, b"0 work pm_wait: 1-1", 0 Caller 0),
    start!(0, b"0 w pm_wait: 1-1", 0 Caller 1),
    start!(0, b"0 timer-1 pm_wait: 1-1", 0 Caller 2),
    start!(0, b"0 work.1-1.1 pm_wait: 1-1", 0 Work 1),
    start!(0, b"0 timer.1-1 pm_wait: 1-1", 0 Timer 0),
    start!(0, b"0 timer-1.1 pm_wait: 1-1"),
];

/// A time, bytes behind a line of that time, and the time that their front says and what is behind it.
static TIMES: [(u64, &[u8], Option<(u64, &[u8])>); 8] = [
    (0, b"0 c pm_wait: a", Some((0, b"c pm_wait: a"))),
    (5, b"12 work.a", Some((17, b"work.a"))),
    (0, b"7 ", Some((7, b""))),
    (
        5,
        b"9223372036854775802  c",
        Some((9223372036854775807, b" c")),
    ),
    (5, b"9223372036854775803 c", None),
    (0, b"7", None),
    (0, b"07 c", None),
    (0, b" c", None),
];

fn have_times() -> Told {
    let mut told = Told::All(0);
    for (base, bytes, start) in &TIMES {
        told.note(*base < 1 << 63 && time_start(*base, *bytes) == *start);
    }
    told
}
