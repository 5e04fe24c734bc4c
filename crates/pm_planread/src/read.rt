//! Reads a plan.

ghost use Rattle.std.specs.Prelude.{◌≡◌, None, Ok, IfErr, IfOk};
ghost use Rattle.toml.specs.View.{table_view};
ghost use Rattle.pm_planread.specs.rows.Few.{AreFew};
ghost use Rattle.pm_planread.specs.Named.{AreNamed, AreOrdered};
ghost use Rattle.pm_planread.specs.rows.Names.{AreNamesOf, name_fault, repeat_fault};
ghost use Rattle.pm_planread.specs.rows.TooMany.{too_many_fault};
ghost use Rattle.pm_planread.specs.rows.Rows.{device_rows, domain_rows, link_rows, natural_within};
ghost use Rattle.pm_planread.specs.PlanOf.{IsFaultOf, contents_of, counted_plan, known_plan, named_plan, ordered_plan, plan_of, tree_plan};

use crate::refusal::{PlanFault, PlanWhy, refuse, refused};
use crate::rows::names::{Names, names_of};
use crate::rows::{
    code_fault, device_rows, domain_fault, domain_rows, later_fault, link_fault, link_rows,
    name_fault, natural_within, number_fault, repeat_fault, too_many_fault, unknown_fault,
};
use crate::scripts::caller_rows;
use crate::tree::{
    Format, Place, RawPlan, Section, document, is_sound, key_fault, kind_fault, raw_plan,
};
use pm_base::{MAX_LINES, PLAN_BYTES};
use pm_model::{DeviceList, DomainList, LinkList, Plan};
use pm_names::Finder;
use std::alloc::Global;
use toml::Table;

/// Reads a plan from the bytes of its file (this project's own).
///
/// `Ok` is the plan that the bytes are, `Refused` the first refusal in the order of `PlanWhy` with
/// its place; `NoMemory` comes only where memory ran out.
#[tactic(auto, unfolding(crate::specs::PlanOf::plan_of))]
pub fn read_plan(alloc: Global, bytes: &[u8]) -> Result<Plan, PlanFault>
    ensures ok { IfOk result (λ plan. plan_of bytes.now ≡ Ok (contents_of plan)) }
    ensures fault { IfErr result (IsFaultOf (plan_of bytes.now)) }
{
    let top = Place::new(Section::Top, 0, 0);
    if bytes.len() > PLAN_BYTES {
        return Err(refused(PlanWhy::TooLong, top));
    }
    match document(alloc, bytes)? {
        Some(tree) => tree_plan(alloc, &tree),
        None => Err(refused(PlanWhy::NotToml, top)),
    }
}

/// The plan of a tree.
#[tactic(auto, unfolding(crate::specs::PlanOf::tree_plan))]
fn tree_plan(alloc: Global, tree: &Table) -> Result<Plan, PlanFault>
    ensures ok { IfOk result (λ plan. tree_plan (table_view tree.now) ≡ Ok (contents_of plan)) }
    ensures fault { IfErr result (IsFaultOf (tree_plan (table_view tree.now))) }
{
    if !is_sound(Format::Plan, tree) {
        refuse(PlanWhy::Key, key_fault(Format::Plan, tree))?;
        refuse(PlanWhy::Kind, kind_fault(Format::Plan, tree))?;
    }
    let raw = raw_plan(alloc, tree)?;
    named_plan(alloc, &raw)
}

/// The plan of rows with names, or the first refusal that isn't of keys and kinds.
#[tactic(auto, unfolding(crate::specs::PlanOf::named_plan), using(crate::proofs::FewLemmas::few_of))]
pub fn named_plan(alloc: Global, raw: &RawPlan) -> Result<Plan, PlanFault>
    ensures ok { IfOk result (λ plan. named_plan raw.now ≡ Ok (contents_of plan)) }
    ensures fault { IfErr result (IsFaultOf (named_plan raw.now)) }
{
    refuse(PlanWhy::TooMany, too_many_fault(raw))?;
    let names = names_of(alloc, raw)?;
    refuse(PlanWhy::Name, name_fault(raw, &names))?;
    refuse(PlanWhy::Repeat, repeat_fault(raw, &names))?;
    known_plan(alloc, raw, &names)
}

/// The plan of rows of which no two of a section have one name.
fn known_plan(alloc: Global, raw: &RawPlan, names: &Names) -> Result<Plan, PlanFault>
    requires few { too_many_fault raw.now ≡ None }
    requires are_names { name_fault raw.now ≡ None }
    requires distinct { repeat_fault raw.now ≡ None }
    requires names { AreNamesOf raw.now names.now }
    ensures ok { IfOk result (λ plan. known_plan raw.now ≡ Ok (contents_of plan)) }
    ensures fault { IfErr result (IsFaultOf (known_plan raw.now)) }
{
    refuse(PlanWhy::Unknown, unknown_fault(raw, names))?;
    ordered_plan(alloc, raw, names)
}

/// The plan of rows whose names are known and no two of a section the same.
#[tactic(auto, unfolding(crate::specs::PlanOf::ordered_plan))]
fn ordered_plan(alloc: Global, raw: &RawPlan, names: &Names) -> Result<Plan, PlanFault>
    requires few { AreFew raw.now }
    requires named { AreNamed raw.now }
    requires names { AreNamesOf raw.now names.now }
    ensures ok { IfOk result (λ plan. ordered_plan raw.now ≡ Ok (contents_of plan)) }
    ensures fault { IfErr result (IsFaultOf (ordered_plan raw.now)) }
{
    let domains = domain_rows(alloc, raw, names)?;
    let devices = device_rows(alloc, raw, names)?;
    let links = link_rows(alloc, raw, names)?;
    let (domain_slice, device_slice, link_slice) = (
        domains.as_slice(),
        devices.as_slice(),
        links.as_slice(),
    );
    refuse(
        PlanWhy::Later,
        later_fault(domain_slice, device_slice, link_slice),
    )?;
    refuse(PlanWhy::NoCallbacksWithDomain, domain_fault(device_slice))?;
    refuse(
        PlanWhy::NoCallbacksWithLink,
        link_fault(device_slice, link_slice),
    )?;
    let finder = names.devices.finder();
    counted_plan(alloc, raw, finder, domains, devices, links)
}

/// The plan of rows that stand in order.
#[tactic(auto, unfolding(crate::specs::PlanOf::counted_plan, crate::specs::PlanOf::contents_in), using(crate::proofs::RowLemmas::names_of_rows))]
fn counted_plan(
    alloc: Global,
    raw: &RawPlan,
    finder: &Finder,
    domains: DomainList,
    devices: DeviceList,
    links: LinkList,
) -> Result<Plan, PlanFault>
    requires few { AreFew raw.now }
    requires named { AreNamed raw.now }
    requires ordered { AreOrdered raw.now }
    requires domains { domains ≡ domain_rows raw.now }
    requires devices { devices ≡ device_rows raw.now }
    requires links { links ≡ link_rows raw.now }
    ensures ok { IfOk result (λ plan. counted_plan raw.now ≡ Ok (contents_of plan)) }
    ensures fault { IfErr result (IsFaultOf (counted_plan raw.now)) }
{
    refuse(PlanWhy::Number, number_fault(raw))?;
    refuse(PlanWhy::Code, code_fault(raw))?;
    let callers = caller_rows(alloc, &devices, finder, raw.callers.as_slice())?;
    Ok(Plan {
        lines: lines_of(raw),
        trace: trace_of(raw),
        domains,
        devices,
        links,
        callers,
    })
}

fn lines_of(raw: &RawPlan) -> u32
    ensures { result ≡ natural_within 1 MAX_LINES raw.now.lines }
{
    natural_within(1, MAX_LINES, raw.lines)
}

fn trace_of(raw: &RawPlan) -> u32
    ensures { result ≡ natural_within 1 2 raw.now.trace }
{
    natural_within(1, 2, raw.trace)
}
