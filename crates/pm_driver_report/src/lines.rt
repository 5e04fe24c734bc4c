//! What is reported of a driver: what its schedules show, by the steps of its file.

ghost use Rattle.std.specs.Prelude.{◌≡◌, ◌≤◌, ◌++◌, [], IfOk, OnOk, filter, length, option_map};
ghost use Rattle.std.specs.List.{filter_map, list_any};
ghost use Rattle.pm_driver_find.specs.Suspects.{sets_status};
ghost use Rattle.pm_driver_report.specs.Lines.{answer_kind, failures_at, file_step, all_lines, is_note, is_same, is_same_at, is_told, kind_number, kind_weight, line_of, lines_of, listed, listed_passes, place_at, program_place, reads_answer, rounds_before, setting_kind, sight_at, sight_kind, sight_weight, step_at, with_new};

use crate::passes::DriverPass;
use pm_base::{DevId, NoMemory};
use pm_driver_find::{DriverFinding, DriverSight, ProbeSetting};
use pm_driver_read::{Driver, DriverCaller};
use pm_driver_rules::DriverNode;
use pm_driver_script::{Goal, ProgramPlace};
use pm_explore::schedule::Pace;
use pm_explore::search::Tree;
use pm_find::findings::Weight;
use pm_model::Helper;
use std::alloc::{AllocError, Global};

/// What is wrong.
#[derive(Clone, Copy)]
pub enum DriverKind {
    /// A get or a resume answers -13 (EACCES), for which its step has no exit.
    Disabled,
    /// A change of status is refused with -11 (EAGAIN) or -16 (EBUSY), and nobody reads that.
    RefusedStatus,
    /// A get or a resume fails, nobody reads that, and the device is used behind it.
    Unread,
    /// A put finds no count to give back.
    RefusedPut,
    /// A device is used while it isn't active, or while its domain is off.
    TouchedOff,
    /// A caller waits for ever.
    Hangs,
    /// At the end a device is active and enabled, and nobody holds it.
    LeftOn,
    /// At the end a count of a device isn't given back.
    Leak,
    /// Behind the driver a device is still enabled.
    LeftEnabled,
    /// Behind the driver a device is still forbidden.
    LeftForbidden,
    /// Behind the driver a device still uses autosuspend.
    LeftAutosuspend,
}

/// Where something is told, by the places in the file.
#[derive(Clone, Copy)]
pub enum LineAt {
    /// At a step of a caller's script.
    Step { caller: u32, step: u32 },
    /// At a device.
    Device { dev: DevId },
}

/// What is reported: what is wrong and where, and with how many preemptions and failing callbacks it shows first.
#[derive(Clone, Copy)]
pub struct DriverLine {
    pub kind: DriverKind,
    pub weight: Weight,
    pub at: LineAt,
    pub sight: DriverSight,
    pub pace: Pace,
    /// Callbacks that might fail in the search that shows it: 0 to 3.
    pub allowed: u32,
    /// Lines that preempt, at most, on the way to the first snapshot that shows it.
    pub preemptions: usize,
    /// Callbacks that have failed there.
    pub failures: u32,
    /// The place of that snapshot in that search.
    pub place: usize,
}

/// A place of a caller's program.
pub fn program_place(driver: &Driver, caller: u32, place: usize) -> Option<&ProgramPlace>
    ensures { option_map (λ p. p.now) result ≡ program_place driver.now caller place }
{
    let caller = driver.callers.as_slice().get(caller as usize)?;
    caller.program.places.as_slice().get(place)
}

// The step of the file that a goal is of; the driver core's own calls are of none.
fn file_step(caller: &DriverCaller, goal: Goal) -> Option<u32>
    ensures { result ≡ file_step caller.now goal }
{
    match goal {
        Goal::At { step, .. } => *caller.lines.as_slice().get(step as usize)?,
        Goal::Returned | Goal::Failed => None,
    }
}

/// The step of the file that a place of a caller's program is of.
pub fn step_at(driver: &Driver, caller: u32, place: usize) -> Option<u32>
    ensures { result ≡ step_at driver.now caller place }
{
    let caller = driver.callers.as_slice().get(caller as usize)?;
    let place = caller.program.places.as_slice().get(place)?;
    file_step(caller, place.standing.goal)
}

fn sets_status(helper: Helper) -> bool
    ensures { result ≡ sets_status helper }
{
    matches!(helper, Helper::SetActive | Helper::SetSuspended)
}

// What an answer of the call of a place is.
fn answer_kind(driver: &Driver, caller: u32, place: usize) -> DriverKind
    ensures { result ≡ answer_kind driver.now caller place }
{
    match program_place(driver, caller, place) {
        Some(place) if sets_status(place.command.helper) => DriverKind::RefusedStatus,
        Some(_) | None => DriverKind::Disabled,
    }
}

fn setting_kind(setting: ProbeSetting) -> DriverKind
    ensures { result ≡ setting_kind setting }
{
    match setting {
        ProbeSetting::Enabled => DriverKind::LeftEnabled,
        ProbeSetting::Forbidden => DriverKind::LeftForbidden,
        ProbeSetting::Autosuspend => DriverKind::LeftAutosuspend,
    }
}

fn sight_kind(driver: &Driver, sight: DriverSight) -> DriverKind
    ensures { result ≡ sight_kind driver.now sight }
{
    match sight {
        DriverSight::Answers { caller, place, .. } => answer_kind(driver, caller, place),
        DriverSight::FailsUnread { .. } => DriverKind::Unread,
        DriverSight::PutsNone { .. } => DriverKind::RefusedPut,
        DriverSight::MeetsOff { .. } => DriverKind::TouchedOff,
        DriverSight::Hangs { .. } => DriverKind::Hangs,
        DriverSight::LeftOn { .. } => DriverKind::LeftOn,
        DriverSight::Leaks { .. } => DriverKind::Leak,
        DriverSight::LeftSet { setting, .. } => setting_kind(setting),
    }
}

// Whether the step of a place has exits of its own.
fn reads_answer(driver: &Driver, caller: u32, place: usize) -> bool
    ensures { result ≡ reads_answer driver.now caller place }
{
    match program_place(driver, caller, place) {
        Some(place) => place.reads,
        None => false,
    }
}

fn kind_weight(kind: DriverKind) -> Weight
    ensures { result ≡ kind_weight kind }
{
    match kind {
        DriverKind::Disabled
        | DriverKind::Unread
        | DriverKind::RefusedPut
        | DriverKind::TouchedOff
        | DriverKind::Hangs
        | DriverKind::Leak => Weight::Error,
        DriverKind::RefusedStatus
        | DriverKind::LeftOn
        | DriverKind::LeftEnabled
        | DriverKind::LeftForbidden => Weight::Warning,
        DriverKind::LeftAutosuspend => Weight::Note,
    }
}

/// How much it weighs: an answer that its step reads by another exit may be right.
pub fn sight_weight(driver: &Driver, sight: DriverSight) -> Weight
    ensures { result ≡ sight_weight driver.now sight }
{
    if let DriverSight::Answers { caller, place, .. } = sight
        && reads_answer(driver, caller, place)
    {
        return Weight::Warning;
    }
    kind_weight(sight_kind(driver, sight))
}

// The step at which a place of a caller's program is told.
fn place_at(driver: &Driver, caller: u32, place: usize) -> Option<LineAt>
    ensures { result ≡ place_at driver.now caller place }
{
    let step = step_at(driver, caller, place)?;
    Some(LineAt::Step { caller, step })
}

// Where it is told, if anywhere.
fn sight_at(driver: &Driver, sight: DriverSight) -> Option<LineAt>
    ensures { result ≡ sight_at driver.now sight }
{
    match sight {
        DriverSight::Answers { caller, place, .. } => place_at(driver, caller, place),
        DriverSight::FailsUnread { caller, place } => place_at(driver, caller, place),
        DriverSight::PutsNone { caller, place, .. } => place_at(driver, caller, place),
        DriverSight::MeetsOff { caller, place, .. } => place_at(driver, caller, place),
        DriverSight::Hangs { caller, place } => place_at(driver, caller, place),
        DriverSight::LeftOn { dev } => Some(LineAt::Device { dev }),
        DriverSight::Leaks { dev, .. } => Some(LineAt::Device { dev }),
        DriverSight::LeftSet { dev, .. } => Some(LineAt::Device { dev }),
    }
}

/// Whether it happens in a run of a driver that is right.
pub fn is_note(line: &DriverLine) -> bool
    ensures { result ≡ is_note line.now }
{
    matches!(line.weight, Weight::Note)
}

// How many rounds end before a place or at it.
fn rounds_before(rounds: &[usize], place: usize) -> usize
    ensures count { result ≡ rounds_before rounds.now place }
    ensures few { result ≤ length rounds.now }
{
    let [bound, rounds @ ..] = rounds else {
        return 0;
    };
    if *bound <= place {
        rounds_before(rounds, place) + 1
    } else {
        0
    }
}

// How many callbacks have failed at a place.
fn failures_at(tree: &Tree<DriverNode>, place: usize) -> u32
    ensures { result ≡ failures_at tree.now.nodes.keys place }
{
    match tree.nodes.get_index(place) {
        Some(node) => node.failures,
        None => 0,
    }
}

fn line_of(driver: &Driver, pass: &DriverPass, finding: DriverFinding) -> Option<DriverLine>
    ensures { result ≡ line_of driver.now pass.now finding }
{
    let at = sight_at(driver, finding.sight)?;
    Some(DriverLine {
        kind: sight_kind(driver, finding.sight),
        weight: sight_weight(driver, finding.sight),
        at,
        sight: finding.sight,
        pace: pass.pace,
        allowed: pass.failures,
        preemptions: rounds_before(pass.all.found.rounds.as_slice(), finding.place),
        failures: failures_at(&pass.all.found.tree, finding.place),
        place: finding.place,
    })
}

fn kind_number(kind: DriverKind) -> u8
    ensures { result ≡ kind_number kind }
{
    match kind {
        DriverKind::Disabled => 0,
        DriverKind::RefusedStatus => 1,
        DriverKind::Unread => 2,
        DriverKind::RefusedPut => 3,
        DriverKind::TouchedOff => 4,
        DriverKind::Hangs => 5,
        DriverKind::LeftOn => 6,
        DriverKind::Leak => 7,
        DriverKind::LeftEnabled => 8,
        DriverKind::LeftForbidden => 9,
        DriverKind::LeftAutosuspend => 10,
    }
}

fn is_same_at(one: LineAt, other: LineAt) -> bool
    ensures { result ≡ is_same_at one other }
{
    match (one, other) {
        (
            LineAt::Step { caller, step },
            LineAt::Step {
                caller: other_caller,
                step: other_step,
            },
        ) => caller == other_caller && step == other_step,
        (LineAt::Device { dev }, LineAt::Device { dev: other_dev }) => dev.0 == other_dev.0,
        _ => false,
    }
}

// Whether both tell that the same is wrong at the same place.
fn is_same(one: &DriverLine, other: &DriverLine) -> bool
    ensures { result ≡ is_same one.now other.now }
{
    kind_number(one.kind) == kind_number(other.kind) && is_same_at(one.at, other.at)
}

fn is_listed(lines: &[DriverLine], line: &DriverLine) -> bool
    ensures { result ≡ list_any (is_same line.now) lines.now }
{
    lines.iter().any(|other| is_same(line, other))
}

// Lists one more, unless the same is listed at the same place.
fn list_new(lines: &mut Vec<DriverLine>, line: DriverLine) -> Result<(), AllocError>
    ensures { OnOk result (lines.new.items ≡ with_new lines.old.items line) }
{
    if !is_listed(lines.as_slice(), &line) {
        lines.push(line)?;
    }
    Ok(())
}

// Lists these findings of a pass.
fn list_told(
    lines: &mut Vec<DriverLine>,
    driver: &Driver,
    pass: &DriverPass,
    told: &[DriverFinding],
) -> Result<(), AllocError>
    ensures { OnOk result (lines.new.items ≡ listed lines.old.items (filter_map (line_of driver.now pass.now) told.now)) }
{
    let [finding, told @ ..] = told else {
        return Ok(());
    };
    if let Some(line) = line_of(driver, pass, *finding) {
        list_new(lines, line)?;
    }
    list_told(lines, driver, pass, told)
}

// Lists what is told of a pass.
fn list_pass(
    lines: &mut Vec<DriverLine>,
    driver: &Driver,
    pass: &DriverPass,
) -> Result<(), AllocError>
    ensures { OnOk result (lines.new.items ≡ listed lines.old.items (lines_of driver.now pass.now)) }
{
    list_told(lines, driver, pass, pass.all.told.as_slice())
}

// Lists what is told of passes.
fn list_passes(
    lines: &mut Vec<DriverLine>,
    driver: &Driver,
    passes: &[DriverPass],
) -> Result<(), AllocError>
    ensures { OnOk result (lines.new.items ≡ listed_passes driver.now lines.old.items passes.now) }
{
    let [pass, passes @ ..] = passes else {
        return Ok(());
    };
    list_pass(lines, driver, pass)?;
    list_passes(lines, driver, passes)
}

/// All that was gone through shows, each but once.
pub fn all_lines(
    alloc: Global,
    driver: &Driver,
    passes: &[DriverPass],
) -> Result<Vec<DriverLine>, NoMemory>
    ensures { IfOk result (λ lines. lines.items ≡ all_lines driver.now passes.now) }
{
    let mut lines = Vec::new(alloc);
    list_passes(&mut lines, driver, passes)?;
    Ok(lines)
}

/// Those of these lines that are told: notes where they are asked for.
pub fn told_lines(
    alloc: Global,
    notes: bool,
    lines: &[DriverLine],
) -> Result<Vec<DriverLine>, NoMemory>
    ensures { IfOk result (λ told. told.items ≡ filter (is_told notes) lines.now) }
{
    let mut told = Vec::new(alloc);
    for line in lines {
        if notes || !is_note(line) {
            told.push(*line)?;
        }
    }
    Ok(told)
}
