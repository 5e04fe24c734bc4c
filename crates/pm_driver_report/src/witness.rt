//! The run that shows what is told of a driver.

ghost use Rattle.std.specs.Prelude.{◌≡◌, ◌-◌, ◌<◌, ◌^◌, IfOk, IfSome, Some, length, option_map, slice_get};
ghost use Rattle.pm_driver_report.specs.Passes.{ArePassesOf};
ghost use Rattle.pm_driver_report.specs.Rules.{IsExamined};
ghost use Rattle.pm_driver_report.specs.Report.{IsSearched};
ghost use Rattle.pm_driver_report.specs.Witnessed.{IsCollectedTo, IsOfSearch, IsWitnessOf, WitnessesDriver};

use crate::follows::pass_of;
use crate::lines::DriverLine;
use crate::passes::DriverPass;
use crate::rules::{all_begin_needs, all_caller_rules, all_origins};
use crate::searched::{DriverSearch, may_be_searched, search_driver};
use pm_base::NoMemory;
use pm_driver_find::{ExaminedDriver, is_seen};
use pm_driver_read::Driver;
use pm_driver_rules::DriverRules;
use pm_driver_runs::{CollectedRun, RunCollection, collected_run, collected_schedules_are_lawful};
use pm_driver_search::witness_to;
use pm_lab_words::DriverBounds;
use pm_model::{Line, Plan};
use std::alloc::Global;

/// A lawful list of lines of an ordinary plan, at whose end a driver's schedule shows what is told.
#[derive(Drop)]
pub struct WitnessedRun {
    /// The lines, the oldest first.
    pub lines: Vec<Line>,
    /// The plan of what is called and answered by them.
    pub run: CollectedRun,
}

/// What the run of a finding comes to.
#[derive(Drop)]
pub enum DriverWitness {
    Shown(WitnessedRun),
    /// Only so many findings are told.
    Fewer(usize),
    /// The way there has more lines, calls or codes than a plan may have.
    TooLong,
    /// It is a plan whose callbacks answer lists of codes, which isn't gone through.
    Refused,
}

// The lines on the way to what is told of a pass, where it is seen behind them.
#[tactic(auto, using(crate::proofs::WitnessedLemmas::is_witness_of, crate::proofs::WitnessedLemmas::tree_of))]
fn lines_shown(
    alloc: Global,
    examined: &ExaminedDriver,
    _bounds: DriverBounds,
    passes: &[DriverPass],
    line: &DriverLine,
) -> Result<Option<Vec<Line>>, NoMemory>
    requires callers { length examined.now.rules.now.callers.now < 2 ^ 32 }
    requires passes { ArePassesOf examined.now _bounds passes.now }
    ensures { IfOk result (λ found. IfSome found (λ lines. IsWitnessOf examined.now passes.now line.now lines.items)) }
{
    let Some(pass) = pass_of(passes, line.pace, line.allowed) else {
        return Ok(None);
    };
    let tree = &pass.all.found.tree;
    let Some(node) = tree.nodes.get_index(line.place) else {
        return Ok(None);
    };
    if !is_seen(examined, node, line.sight) {
        return Ok(None);
    }
    let rules = examined.rules;
    witness_to(alloc, rules, pass.pace, pass.failures, tree, line.place)
}

// The plan of these lines, where they are no more than a plan may have.
fn plan_collected(
    alloc: Global,
    plan: &Plan,
    lines: Vec<Line>,
) -> Result<Option<WitnessedRun>, NoMemory>
    ensures { IfOk result (λ found. IfSome found (IsCollectedTo plan.now lines.items)) }
{
    if lines.len() > plan.lines as usize {
        return Ok(None);
    }
    match collected_run(alloc, plan, lines.as_slice())? {
        RunCollection::Made(run) => Ok(Some(WitnessedRun { lines, run })),
        RunCollection::NoPlan | RunCollection::NotRead => Ok(None),
    }
}

// The finding of a number, from 1.
fn finding_numbered(told: &[DriverLine], number: u32) -> Option<&DriverLine>
    ensures { option_map (λ line. line.now) result ≡ slice_get told.now (number - 1) }
{
    told.get((number as usize).saturating_sub(1))
}

// The run that shows a line that is told of a search.
#[tactic(auto, using(crate::proofs::WitnessedLemmas::shows_line, crate::proofs::WitnessedLemmas::is_too_long))]
fn witness_line(
    alloc: Global,
    driver: &Driver,
    examined: &ExaminedDriver,
    bounds: DriverBounds,
    notes: bool,
    search: &DriverSearch,
    number: u32,
    line: &DriverLine,
) -> Result<DriverWitness, NoMemory>
    requires of_driver { IsExamined driver.now examined.now }
    requires callers { length examined.now.rules.now.callers.now < 2 ^ 32 }
    requires searched { IsSearched driver.now examined.now bounds notes search.now }
    requires told { slice_get search.now.told.items (number - 1) ≡ Some line.now }
    ensures { IfOk result (IsOfSearch driver.now bounds notes number) }
{
    collected_schedules_are_lawful();
    let passes = search.passes.as_slice();
    let Some(lines) = lines_shown(alloc, examined, bounds, passes, line)? else {
        return Ok(DriverWitness::TooLong);
    };
    match plan_collected(alloc, examined.rules.plan, lines)? {
        Some(run) => Ok(DriverWitness::Shown(run)),
        None => Ok(DriverWitness::TooLong),
    }
}

// The run that shows a finding of a driver that is searched through.
#[tactic(auto, using(crate::proofs::WitnessedLemmas::are_fewer))]
fn witness_examined(
    alloc: Global,
    driver: &Driver,
    examined: &ExaminedDriver,
    bounds: DriverBounds,
    notes: bool,
    number: u32,
) -> Result<DriverWitness, NoMemory>
    requires of_driver { IsExamined driver.now examined.now }
    requires callers { length examined.now.rules.now.callers.now < 2 ^ 32 }
    ensures { IfOk result (IsOfSearch driver.now bounds notes number) }
{
    let search = search_driver(alloc, driver, examined, bounds, notes)?;
    let told = search.told.as_slice();
    match finding_numbered(told, number) {
        Some(line) => witness_line(
            alloc, driver, examined, bounds, notes, &search, number, line,
        ),
        None => Ok(DriverWitness::Fewer(told.len())),
    }
}

/// The run that shows the finding of a number, from 1, of those that `report_driver` tells with the same bounds: a lawful list of lines of an
/// ordinary plan, at whose end the driver's schedule shows it. Fails where memory runs out.
#[tactic(auto, using(crate::proofs::WitnessedLemmas::witnesses_none, crate::proofs::WitnessedLemmas::witnesses_searched, crate::proofs::RuleLemmas::few_rules))]
pub fn witness_driver(
    alloc: Global,
    driver: &Driver,
    bounds: DriverBounds,
    notes: bool,
    number: u32,
) -> Result<DriverWitness, NoMemory>
    ensures { IfOk result (WitnessesDriver driver.now bounds notes number) }
{
    if !may_be_searched(driver) {
        return Ok(DriverWitness::Refused);
    }
    let callers = driver.callers.as_slice();
    let needs = all_begin_needs(alloc, callers)?;
    let rows = all_caller_rules(alloc, callers, needs.as_slice())?;
    let origins = all_origins(alloc, callers)?;
    let rules = DriverRules {
        plan: &driver.plan,
        callers: rows.as_slice(),
    };
    let examined = ExaminedDriver {
        rules: &rules,
        origins: origins.as_slice(),
    };
    witness_examined(alloc, driver, &examined, bounds, notes, number)
}
