//! Reads a driver.

ghost use Rattle.std.specs.Prelude.{◌≡◌, ◌≤◌, All, None, Ok, IfErr, IfOk, OnOk, length, map, nat_le, option_map, true};
ghost use Rattle.std.specs.List.{list_all};
ghost use Rattle.toml.specs.View.{table_view};
ghost use Rattle.pm_driver_read.specs.Drivers.{adopted, based_driver, caller_of, callers_of, contents_in, driver_of, file_driver, made_driver, managed_driver, named_driver, plain_caller, plain_driver, plain_of, tree_driver};
ghost use Rattle.pm_driver_read.specs.Programs.{AreFewSteps};
ghost use Rattle.pm_driver_read.specs.Refusals.{IsFaultOf, plan_refused, stopped};
ghost use Rattle.pm_driver_read.specs.declared.refusal.DriverRefusal.TheVariants.{Device, Key};
ghost use Rattle.pm_planread.specs.PlanOf.{contents_of, plan_of};

use crate::after::{all_needs, circle_fault, marks_fault, needs_of};
use crate::collecting::{all_forced, few_forced, few_names, names_of};
use crate::driver::{Driver, DriverCaller};
use crate::fails::{codes_fault, fails_fault};
use crate::keys::{bound_to, caller_named, keys_fault, role_in};
use crate::managed::{ManagedStep, all_managed, devm_fault, few_managed};
use crate::plans::{based, flagged, scripted, scripts_fault};
use crate::reading::{LocatedProgram, first_fault, programs_of};
use crate::refusal::{
    DeviceRefusal, DriverFault, DriverRefusal, KeyRefusal, plan_refused, refused,
};
use crate::scripts::{CallerSteps, scripts_in};
use crate::straight::straight;
use crate::words::{CallerWords, devices_in_tree, fails_in_tree, words_in_tree};
use pm_base::{NoMemory, PLAN_BYTES};
use pm_driver_script::ScriptNames;
use pm_model::{CallerRow, Items, Plan};
use pm_planread::rows::too_many_fault;
use pm_planread::tree::{Format, Place, Section, Text, document, key_fault, kind_fault, raw_plan};
use pm_planread::{PlanFault, PlanWhy, read_plan};
use pm_script::ScriptWord;
use std::alloc::Global;
use toml::Table;

/// Goes on where nothing of a plan is refused.
fn go_on(why: PlanWhy, place: Option<Place>) -> Result<(), DriverFault>
    ensures value { result ≡ stopped (option_map (plan_refused why) place) }
    ensures none { OnOk result (place ≡ None) }
{
    match place {
        Some(place) => Err(DriverFault::Refused {
            refusal: plan_refused(why, place),
        }),
        None => Ok(()),
    }
}

/// Goes on where no caller's words are refused.
fn go_on_keys(refusal: Option<KeyRefusal>) -> Result<(), DriverFault>
    ensures value { result ≡ stopped (option_map Key refusal) }
    ensures none { OnOk result (refusal ≡ None) }
{
    match refusal {
        Some(refusal) => Err(DriverFault::Refused {
            refusal: DriverRefusal::Key { refusal },
        }),
        None => Ok(()),
    }
}

/// Goes on where no device is refused.
fn go_on_devices(refusal: Option<DeviceRefusal>) -> Result<(), DriverFault>
    ensures value { result ≡ stopped (option_map Device refusal) }
    ensures none { OnOk result (refusal ≡ None) }
{
    match refusal {
        Some(refusal) => Err(DriverFault::Refused {
            refusal: DriverRefusal::Device { refusal },
        }),
        None => Ok(()),
    }
}

/// Goes on where no script is refused.
fn go_on_scripts(refusal: Option<DriverRefusal>) -> Result<(), DriverFault>
    ensures value { result ≡ stopped refusal }
    ensures none { OnOk result (refusal ≡ None) }
{
    match refusal {
        Some(refusal) => Err(DriverFault::Refused { refusal }),
        None => Ok(()),
    }
}

/// The callers that a caller adopts.
fn adopted(alloc: Global, callers: &[CallerWords], names: &[Text]) -> Result<Vec<usize>, NoMemory>
    ensures { IfOk result (λ v. v.items ≡ adopted (map (λ c. c.name) callers.now) names.now) }
{
    let mut places = Vec::with_capacity(alloc, names.len())?;
    for name in names {
        places.push(caller_named(callers, name.as_slice()).unwrap_or(0))?;
    }
    Ok(places)
}

/// A caller of whom no more is said than its script.
fn plain_caller(alloc: Global, made: LocatedProgram) -> DriverCaller
    ensures { result ≡ plain_caller made }
{
    DriverCaller {
        program: made.program,
        lines: made.lines,
        after: Items::new(Vec::new(alloc)),
        irq: false,
        adopts: Items::new(Vec::new(alloc)),
        role: None,
        binds: None,
    }
}

/// A caller with its program.
fn caller_of(
    alloc: Global,
    plan: &Plan,
    callers: &[CallerWords],
    marks: &[ScriptWord],
    number: usize,
    made: LocatedProgram,
) -> Result<DriverCaller, NoMemory>
    ensures { IfOk result (λ caller. caller ≡ caller_of plan.now.devices marks.now callers.now number made) }
{
    let Some(words) = callers.get(number) else {
        return Ok(plain_caller(alloc, made));
    };
    Ok(DriverCaller {
        program: made.program,
        lines: made.lines,
        after: Items::new(needs_of(alloc, callers, marks, words.after.as_slice())?),
        irq: words.irq,
        adopts: Items::new(adopted(alloc, callers, words.adopts.as_slice())?),
        role: role_in(words),
        binds: bound_to(plan, &words.binds),
    })
}

/// The callers with their programs.
fn callers_of(
    alloc: Global,
    plan: &Plan,
    callers: &[CallerWords],
    marks: &[ScriptWord],
    programs: Vec<LocatedProgram>,
) -> Result<Vec<DriverCaller>, NoMemory>
    ensures { IfOk result (λ v. v.items ≡ callers_of plan.now.devices marks.now callers.now 0 programs.items) }
{
    let mut made = Vec::with_capacity(alloc, programs.len())?;
    for program in programs {
        let number = made.len();
        made.push(caller_of(alloc, plan, callers, marks, number, program)?)?;
    }
    Ok(made)
}

/// The driver whose programs are made.
#[tactic(auto, unfolding(crate::specs::Drivers::made_driver))]
fn made_driver(
    alloc: Global,
    tree: &Table,
    callers: &[CallerWords],
    names: &ScriptNames,
    programs: Vec<LocatedProgram>,
) -> Result<Driver, DriverFault>
    ensures ok { IfOk result (λ driver. made_driver (table_view tree.now) callers.now names.now programs.items ≡ Ok (contents_in driver)) }
    ensures fault { IfErr result (IsFaultOf (made_driver (table_view tree.now) callers.now names.now programs.items)) }
{
    let said = fails_in_tree(alloc, tree)?;
    go_on_devices(fails_fault(alloc, said.as_slice())?)?;
    let raw = raw_plan(alloc, tree)?;
    go_on_devices(codes_fault(raw.devices.as_slice()))?;
    let plan = flagged(alloc, raw, said.as_slice(), devices_in_tree(tree), names)?;
    go_on_scripts(scripts_fault(plan.devices.len(), programs.as_slice()))?;
    let plan = scripted(alloc, plan, programs.as_slice())?;
    let made = callers_of(alloc, &plan, callers, names.marks.as_slice(), programs)?;
    Ok(Driver {
        plan,
        flags: names.flags.as_slice().len(),
        callers: Items::new(made),
        is_plan: false,
    })
}

/// The driver of scripts whose names are collected.
#[tactic(auto, unfolding(crate::specs::Drivers::named_driver), using(crate::proofs::NameLemmas::few_of))]
fn named_driver(
    alloc: Global,
    tree: &Table,
    callers: &[CallerWords],
    names: &ScriptNames,
    managed: &[ManagedStep],
    scripts: Vec<CallerSteps>,
) -> Result<Driver, DriverFault>
    requires managed { length managed.now ≤ 64 }
    requires devices { names.now.devices ≤ 1024 }
    requires forced { length names.now.forced ≤ 64 }
    requires callers { length names.now.callers ≤ 16 }
    requires few { All AreFewSteps scripts.items }
    ensures ok { IfOk result (λ driver. named_driver (table_view tree.now) callers.now names.now managed.now scripts.entry.items ≡ Ok (contents_in driver)) }
    ensures fault { IfErr result (IsFaultOf (named_driver (table_view tree.now) callers.now names.now managed.now scripts.entry.items)) }
{
    if let Some(why) = few_names(names) {
        return Err(DriverFault::Refused {
            refusal: refused(0, 0, why),
        });
    }
    go_on_scripts(first_fault(names, scripts.as_slice()))?;
    go_on_keys(marks_fault(callers, scripts.as_slice()))?;
    let needs = all_needs(alloc, callers, names.marks.as_slice())?;
    go_on_keys(circle_fault(alloc, needs.as_slice())?)?;
    let programs = programs_of(alloc, names, managed, scripts)?;
    made_driver(alloc, tree, callers, names, programs)
}

/// The driver of scripts, some of whose steps are undone.
#[tactic(auto, unfolding(crate::specs::Drivers::managed_driver), using(crate::proofs::CallerLemmas::names_few, crate::proofs::NameLemmas::managed_few, crate::proofs::NameLemmas::forced_few))]
fn managed_driver(
    alloc: Global,
    tree: &Table,
    devices: u32,
    callers: &[CallerWords],
    scripts: Vec<CallerSteps>,
) -> Result<Driver, DriverFault>
    requires devices { devices ≤ 1024 }
    requires callers { length scripts.items ≤ 16 }
    requires few { All AreFewSteps scripts.items }
    ensures ok { IfOk result (λ driver. managed_driver (table_view tree.now) devices callers.now scripts.entry.items ≡ Ok (contents_in driver)) }
    ensures fault { IfErr result (IsFaultOf (managed_driver (table_view tree.now) devices callers.now scripts.entry.items)) }
{
    go_on_scripts(devm_fault(scripts.as_slice()))?;
    let managed = all_managed(alloc, scripts.as_slice())?;
    if let Some(why) = few_managed(managed.as_slice()) {
        return Err(DriverFault::Refused {
            refusal: refused(0, 0, why),
        });
    }
    let forced = all_forced(alloc, scripts.as_slice())?;
    if let Some(why) = few_forced(forced.as_slice()) {
        return Err(DriverFault::Refused {
            refusal: refused(0, 0, why),
        });
    }
    let names = names_of(alloc, devices, scripts.as_slice(), forced, managed.len())?;
    named_driver(alloc, tree, callers, &names, managed.as_slice(), scripts)
}

/// The driver of a plan's rows and the words of its callers.
#[tactic(auto, unfolding(crate::specs::Drivers::based_driver), using(crate::proofs::ScriptLaw::few_devices, crate::proofs::ScriptLaw::few_links, crate::proofs::CallerLemmas::names_few))]
fn based_driver(
    alloc: Global,
    tree: &Table,
    base: &Plan,
    callers: &[CallerWords],
) -> Result<Driver, DriverFault>
    requires few { length callers.now ≤ 16 }
    requires texts { All (λ c. length c.script ≤ 1000) callers.now }
    ensures ok { IfOk result (λ driver. based_driver (table_view tree.now) base.now.devices base.now.links callers.now ≡ Ok (contents_in driver)) }
    ensures fault { IfErr result (IsFaultOf (based_driver (table_view tree.now) base.now.devices base.now.links callers.now)) }
{
    go_on_keys(keys_fault(&base.devices, callers))?;
    let scripts = scripts_in(alloc, base, callers)?;
    managed_driver(alloc, tree, base.devices.len() as u32, callers, scripts)
}

/// The driver of a tree.
#[tactic(auto, unfolding(crate::specs::Drivers::tree_driver), using(crate::proofs::WordLemmas::few_words, crate::proofs::WordLemmas::short_words))]
fn tree_driver(alloc: Global, tree: &Table) -> Result<Driver, DriverFault>
    ensures ok { IfOk result (λ driver. tree_driver (table_view tree.now) ≡ Ok (contents_in driver)) }
    ensures fault { IfErr result (IsFaultOf (tree_driver (table_view tree.now))) }
{
    go_on(PlanWhy::Key, key_fault(Format::Driver, tree))?;
    go_on(PlanWhy::Kind, kind_fault(Format::Driver, tree))?;
    let raw = raw_plan(alloc, tree)?;
    go_on(PlanWhy::TooMany, too_many_fault(&raw))?;
    let base = based(alloc, raw)?;
    let callers = words_in_tree(alloc, tree)?;
    based_driver(alloc, tree, &base, callers.as_slice())
}

/// The driver of a file that is no plan.
#[tactic(auto, unfolding(crate::specs::Drivers::file_driver))]
fn file_driver(alloc: Global, bytes: &[u8]) -> Result<Driver, DriverFault>
    ensures ok { IfOk result (λ driver. file_driver bytes.now ≡ Ok (contents_in driver)) }
    ensures fault { IfErr result (IsFaultOf (file_driver bytes.now)) }
{
    let top = Place::new(Section::Top, 0, 0);
    if bytes.len() > PLAN_BYTES {
        return Err(DriverFault::Refused {
            refusal: plan_refused(PlanWhy::TooLong, top),
        });
    }
    match document(alloc, bytes)? {
        Some(tree) => tree_driver(alloc, &tree),
        None => Err(DriverFault::Refused {
            refusal: plan_refused(PlanWhy::NotToml, top),
        }),
    }
}

/// The callers of a plan, whose programs run straight on.
fn plain_callers(alloc: Global, rows: &[CallerRow]) -> Result<Vec<DriverCaller>, NoMemory>
    requires { list_all (λ row. nat_le (length row.script) 1000) rows.now ≡ true }
    ensures { IfOk result (λ made. made.items ≡ map plain_of rows.now) }
{
    let mut made = Vec::with_capacity(alloc, rows.len())?;
    for row in rows {
        made.push(plain_caller(alloc, straight(alloc, row.script.as_slice())?))?;
    }
    Ok(made)
}

/// A plan as the driver that it is.
#[tactic(auto, using(crate::proofs::ScriptLaw::short_scripts))]
fn plain_driver(alloc: Global, plan: Plan) -> Result<Driver, NoMemory>
    ensures { IfOk result (λ driver. contents_in driver ≡ plain_driver (contents_of plan)) }
{
    let callers = plain_callers(alloc, plan.callers.as_slice())?;
    Ok(Driver {
        plan,
        flags: 0,
        callers: Items::new(callers),
        is_plan: true,
    })
}

/// Reads a driver from the bytes of its file (this project's own).
///
/// `Ok` is the driver that the bytes are, `Refused` the first refusal in the order of `driver_of`; `NoMemory` comes only
/// where memory ran out. The bytes of a plan are read as the plan that they are.
#[tactic(auto, unfolding(crate::specs::Drivers::driver_of))]
pub fn read_driver(alloc: Global, bytes: &[u8]) -> Result<Driver, DriverFault>
    ensures ok { IfOk result (λ driver. driver_of bytes.now ≡ Ok (contents_in driver)) }
    ensures fault { IfErr result (IsFaultOf (driver_of bytes.now)) }
{
    match read_plan(alloc, bytes) {
        Ok(plan) => Ok(plain_driver(alloc, plan)?),
        Err(PlanFault::Refused { .. }) => file_driver(alloc, bytes),
        Err(PlanFault::NoMemory) => Err(DriverFault::NoMemory),
    }
}
