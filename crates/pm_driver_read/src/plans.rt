//! The plan of a driver.

ghost use Rattle.std.specs.Prelude.{◌≡◌, IfErr, IfOk, None, Ok, length, map, nat_eq, nat_le, nat_lt, if◌then◌else◌};
ghost use Rattle.toml.specs.View.{view};
ghost use Rattle.std.specs.List.{list_all};
ghost use Rattle.pm_model.specs.IsPlan.{is_command, is_operand, least_ms};
ghost use Rattle.pm_model.specs.Spelling.{operand_of, takes_device};
ghost use Rattle.pm_driver_read.specs.Plans.{bare_callers, bare_plan, callers_with, commands_at, commands_of, fault_of, flagged_plan, is_place_over, is_program, of_plan, scripted, scripts_fault};
ghost use Rattle.pm_driver_read.specs.Refusals.{IsFaultOf};
ghost use Rattle.pm_planread.specs.PlanOf.{contents_of, named_plan};

use crate::fails::{push_flags, with_all_fails};
use crate::reading::LocatedProgram;
use crate::refusal::{DriverFault, DriverRefusal, ProgramWhy, refused};
use pm_base::{MAX_COMMANDS, MAX_MS, NoMemory};
use pm_driver_script::{ProgramPlace, ScriptNames};
use pm_linetext::{operand_of, takes_device};
use pm_model::{CallerRow, Command, Helper, Items, NamedList, Operand, Plan};
use pm_planread::tree::{RawCaller, RawPlan, Text};
use pm_planread::{PlanFault, named_plan};
use std::alloc::Global;
use toml::Value;

/// Callers without their scripts.
fn bare_callers<'a>(
    alloc: Global,
    callers: Vec<RawCaller<'a>>,
) -> Result<Vec<RawCaller<'a>>, NoMemory>
    ensures { IfOk result (λ made. made.items ≡ bare_callers callers.entry.items) }
{
    let mut made = Vec::with_capacity(alloc, callers.len())?;
    for caller in callers {
        made.push(RawCaller {
            name: caller.name,
            script: Items::new(Vec::new(alloc)),
        })?;
    }
    Ok(made)
}

/// A plan's rows without scripts.
fn bare_plan<'a>(alloc: Global, raw: RawPlan<'a>) -> Result<RawPlan<'a>, NoMemory>
    ensures { IfOk result (λ made. made ≡ bare_plan raw.entry) }
{
    Ok(RawPlan {
        lines: raw.lines,
        lines_at: raw.lines_at,
        trace: raw.trace,
        trace_at: raw.trace_at,
        domains: raw.domains,
        devices: raw.devices,
        links: raw.links,
        callers: Items::new(bare_callers(alloc, raw.callers.into_vec())?),
    })
}

/// A plan's rows without scripts, whose callbacks answer what they may fail with, and flags as devices.
fn flagged_plan<'a>(
    alloc: Global,
    raw: RawPlan<'a>,
    said: &[Option<Items<Text>>],
    values: &'a [Value],
    names: &ScriptNames,
) -> Result<RawPlan<'a>, NoMemory>
    ensures { IfOk result (λ made. made ≡ flagged_plan said.now (map view values.now) names.now raw.entry) }
{
    let mut devices = with_all_fails(alloc, said, raw.devices.into_vec())?;
    push_flags(
        alloc,
        &mut devices,
        values,
        names.forced.as_slice(),
        names.flags.as_slice(),
    )?;
    Ok(RawPlan {
        lines: raw.lines,
        lines_at: raw.lines_at,
        trace: raw.trace,
        trace_at: raw.trace_at,
        domains: raw.domains,
        devices: Items::new(devices),
        links: raw.links,
        callers: Items::new(bare_callers(alloc, raw.callers.into_vec())?),
    })
}

/// A plan's refusal as a driver's.
fn of_fault(fault: PlanFault) -> DriverFault
    ensures { result ≡ fault_of fault }
{
    match fault {
        PlanFault::Refused {
            why,
            section,
            item,
            part,
        } => DriverFault::Refused {
            refusal: DriverRefusal::Plan {
                why,
                section,
                item,
                part,
            },
        },
        PlanFault::NoMemory => DriverFault::NoMemory,
    }
}

/// The plan of rows without scripts.
pub(crate) fn based<'a>(alloc: Global, raw: RawPlan<'a>) -> Result<Plan, DriverFault>
    ensures ok { IfOk result (λ plan. of_plan (named_plan (bare_plan raw.entry)) ≡ Ok (contents_of plan)) }
    ensures fault { IfErr result (IsFaultOf (of_plan (named_plan (bare_plan raw.entry)))) }
{
    match named_plan(alloc, &bare_plan(alloc, raw)?) {
        Ok(plan) => Ok(plan),
        Err(fault) => Err(of_fault(fault)),
    }
}

/// The plan of rows with flags.
pub(crate) fn flagged<'a>(
    alloc: Global,
    raw: RawPlan<'a>,
    said: &[Option<Items<Text>>],
    values: &'a [Value],
    names: &ScriptNames,
) -> Result<Plan, DriverFault>
    ensures ok { IfOk result (λ plan. of_plan (named_plan (flagged_plan said.now (map view values.now) names.now raw.entry)) ≡ Ok (contents_of plan)) }
    ensures fault { IfErr result (IsFaultOf (of_plan (named_plan (flagged_plan said.now (map view values.now) names.now raw.entry)))) }
{
    match named_plan(alloc, &flagged_plan(alloc, raw, said, values, names)?) {
        Ok(plan) => Ok(plan),
        Err(fault) => Err(of_fault(fault)),
    }
}

/// The commands of places.
fn commands_of(alloc: Global, places: &[ProgramPlace]) -> Result<Vec<Command>, NoMemory>
    ensures { IfOk result (λ commands. commands.items ≡ commands_of places.now) }
{
    let mut commands = Vec::with_capacity(alloc, places.len())?;
    for place in places {
        commands.push(place.command)?;
    }
    Ok(commands)
}

/// The least number of milliseconds that a helper takes.
fn least_of(helper: Helper) -> i64
    ensures { result ≡ least_ms helper }
{
    match helper {
        Helper::SetAutosuspendDelay => -i64::from(MAX_MS),
        _ => 0,
    }
}

/// Whether a helper takes this beside its device, over so many devices.
fn is_operand(devices: usize, helper: Helper, operand: Operand, number: i64) -> bool
    ensures { result ≡ is_operand devices helper operand number }
{
    match operand {
        Operand::Nothing => number == 0,
        Operand::Milliseconds => least_of(helper) <= number && number <= i64::from(MAX_MS),
        Operand::Switch => number == 0 || number == 1,
        Operand::Supplier => number >= 0 && (number as u64) < devices as u64,
    }
}

/// Whether a command is one over so many devices.
fn is_over(devices: usize, command: &Command) -> bool
    ensures { result ≡ is_command devices command.now }
{
    is_dev(devices, command)
        && is_operand(
            devices,
            command.helper,
            operand_of(command.helper),
            command.number,
        )
}

/// Whether the device of a command is one of so many.
fn is_dev(devices: usize, command: &Command) -> bool
    ensures { result ≡ (if takes_device command.now.helper then nat_lt command.now.dev.0 devices else nat_eq command.now.dev.0 0) }
{
    if takes_device(command.helper) {
        (command.dev.0 as usize) < devices
    } else {
        command.dev.0 == 0
    }
}

/// The first caller whose program's commands are no script of a plan.
pub(crate) fn scripts_fault(devices: usize, programs: &[LocatedProgram]) -> Option<DriverRefusal>
    ensures { result ≡ scripts_fault devices 0 programs.now }
{
    for (caller, program) in programs.iter().enumerate() {
        if !is_program(devices, program) {
            return Some(refused(caller, 0, ProgramWhy::ManyPlaces));
        }
    }
    None
}

/// Whether the commands of a program are a script.
fn is_program(devices: usize, program: &LocatedProgram) -> bool
    ensures { result ≡ is_program devices program.now }
{
    is_short(program) && are_over(devices, program.program.places.as_slice())
}

fn is_short(program: &LocatedProgram) -> bool
    ensures { result ≡ nat_le (length program.now.program.places) 1000 }
{
    program.program.places.as_slice().len() <= MAX_COMMANDS
}

fn are_over(devices: usize, places: &[ProgramPlace]) -> bool
    ensures { result ≡ list_all (is_place_over devices) places.now }
{
    places.iter().all(|place| is_place_over(devices, place))
}

fn is_place_over(devices: usize, place: &ProgramPlace) -> bool
    ensures { result ≡ is_place_over devices place.now }
{
    is_over(devices, &place.command)
}

/// The commands of a caller's program.
fn commands_at(
    alloc: Global,
    programs: &[LocatedProgram],
    caller: usize,
) -> Result<Vec<Command>, NoMemory>
    ensures { IfOk result (λ commands. commands.items ≡ commands_at programs.now caller) }
{
    match programs.get(caller) {
        Some(program) => commands_of(alloc, program.program.places.as_slice()),
        None => Ok(Vec::new(alloc)),
    }
}

/// Callers whose scripts are the commands of their programs.
fn callers_with(
    alloc: Global,
    programs: &[LocatedProgram],
    rows: &[CallerRow],
) -> Result<Vec<CallerRow>, NoMemory>
    ensures { IfOk result (λ made. made.items ≡ callers_with programs.now 0 rows.now) }
{
    let mut made = Vec::with_capacity(alloc, rows.len())?;
    for (caller, row) in rows.iter().enumerate() {
        made.push(CallerRow {
            name: Items::new(Vec::from_slice(alloc, row.name.as_slice())?),
            script: Items::new(commands_at(alloc, programs, caller)?),
        })?;
    }
    Ok(made)
}

/// The plan whose scripts are the commands of programs.
#[tactic(auto, using(crate::proofs::ScriptLaw::few_with, crate::proofs::ScriptLaw::scripted_law))]
pub(crate) fn scripted(
    alloc: Global,
    plan: Plan,
    programs: &[LocatedProgram],
) -> Result<Plan, NoMemory>
    requires { scripts_fault (length plan.devices) 0 programs.now ≡ None }
    ensures { IfOk result (λ made. contents_of made ≡ scripted programs.now (contents_of plan)) }
{
    let mut plan = plan;
    let callers = callers_with(alloc, programs, plan.callers.as_slice())?;
    plan.callers = NamedList::new(alloc, callers)?;
    Ok(plan)
}
