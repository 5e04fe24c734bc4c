//! Links of a small plan.

ghost use Rattle.std.specs.Prelude.{◌≡◌, IfSome};
ghost use Rattle.pm_link.specs.Links.{IsPlace};

use pm_base::DevId;
use pm_link::Links;
use pm_model::Plan;
use pm_planread::{PlanFault, read_plan};
use std::alloc::Global;

/// `e` has links to `c`, to `a` that is added later, to `d` without effect, and to `b`; `d` has one to
/// `b`.
static PLAN: &[u8] =
    b"device = [{name = 'a'}, {name = 'b'}, {name = 'c'}, {name = 'd'}, {name = 'e'}]
link = [{consumer = 'e', supplier = 'c'}, {consumer = 'e', supplier = 'a', later = true},
{consumer = 'd', supplier = 'b'}, {consumer = 'e', supplier = 'd', pm_runtime = false},
{consumer = 'e', supplier = 'b'}]";

const A: DevId = DevId(0);

const B: DevId = DevId(1);

const C: DevId = DevId(2);

const D: DevId = DevId(3);

const E: DevId = DevId(4);

/// What becomes of a link.
#[derive(Clone, Copy)]
pub enum Change {
    Take,
    Give,
    Add,
    Remove,
}

/// What is done with the links, or asked of them with what they must answer. A link goes by its place in
/// the plan.
#[derive(Clone, Copy)]
pub enum Step {
    To(Change, usize),
    // Whether a link is held and present.
    Is(usize, bool, bool),
    FreeAll(DevId),
    FirstFree(DevId, Option<usize>),
    FirstHeld(DevId, Option<usize>),
    FirstTaken(DevId, Option<usize>),
    Next(Option<DevId>, Option<usize>),
    Find(DevId, DevId, Option<usize>),
}

use Change::*;
use Step::*;

/// What is shown, and the steps in turn.
pub static CASES: [(&str, &[Step]); 3] = cases! {
    "links, the least supplier comes first" => {
        FirstFree(E, Some(4)); FirstHeld(E, None); Is(4, false, true); To(Take, 4);
        FirstFree(E, Some(0)); FirstHeld(E, Some(4)); Is(4, true, true); To(Give, 4);
        FirstFree(E, Some(4));
    }
    "links, a link is added and removed" => {
        Is(1, false, false); To(Add, 1); FirstFree(E, Some(1)); Is(1, false, true);
        To(Remove, 1); Next(None, Some(4)); Next(Some(B), Some(0)); Next(Some(C), None);
    }
    "links, pairs are found and a consumer is freed" => {
        Find(E, D, Some(3)); Find(E, A, Some(1)); Find(D, E, None); FirstTaken(E, None);
        To(Take, 3); FirstTaken(E, Some(3)); FirstHeld(E, None); To(Take, 0);
        FirstTaken(E, Some(0)); To(Take, 2); FreeAll(E); FirstTaken(E, None);
        FirstHeld(E, None); FirstHeld(D, Some(2));
    }
};

/// The place of a link, if there is one, as it is found by its pair.
fn place(links: &Links, plan: &Plan, link: usize) -> Option<usize>
    requires { links.now.rows ≡ plan.now.links }
    ensures { IfSome result (IsPlace links.now) }
{
    let row = plan.links.as_slice().get(link)?;
    links.find(plan, row.consumer, row.supplier)
}

/// Changes a link, and says whether it could be changed so.
fn changes(links: &mut Links, plan: &Plan, change: Change, link: usize) -> bool
    requires { links.old.rows ≡ plan.now.links }
    ensures { links.new.rows ≡ plan.now.links }
{
    let Some(link) = place(links, plan, link) else {
        return false;
    };
    let (held, present) = (links.held(link), links.present(link));
    match change {
        Take if !held => links.take(link),
        Give if held => links.give(link),
        Add if !present => links.add(link),
        Remove if present && !held => links.remove(link),
        _ => return false,
    }
    true
}

/// Whether a link is held and present as it must.
fn is(links: &Links, plan: &Plan, link: usize, held: bool, present: bool) -> bool
    requires { links.now.rows ≡ plan.now.links }
{
    match place(links, plan, link) {
        Some(link) => links.held(link) == held && links.present(link) == present,
        None => false,
    }
}

/// Takes a step, and says whether it could be taken and answered as it must.
fn takes(links: &mut Links, plan: &Plan, step: Step) -> bool
    requires { links.old.rows ≡ plan.now.links }
    ensures { links.new.rows ≡ plan.now.links }
{
    match step {
        To(change, link) => changes(links, plan, change, link),
        Is(link, held, present) => is(links, plan, link, held, present),
        FreeAll(dev) => {
            links.free_all(plan, dev);
            true
        }
        FirstFree(dev, link) => links.first_free(plan, dev) == link,
        FirstHeld(dev, link) => links.first_held(plan, dev) == link,
        FirstTaken(dev, link) => links.first_taken(plan, dev) == link,
        Next(last, link) => links.next_supplier(plan, E, last) == link,
        Find(consumer, supplier, link) => links.find(plan, consumer, supplier) == link,
    }
}

/// Whether the links of a plan take the steps.
fn take(alloc: Global, plan: &Plan, steps: &[Step]) -> Result<bool, PlanFault> {
    let mut links = Links::fresh(alloc, plan)?;
    let mut is_shown = true;
    for step in steps {
        is_shown &= takes(&mut links, plan, *step);
    }
    Ok(is_shown)
}

/// Whether the links take the steps.
pub fn shows(alloc: Global, steps: &[Step]) -> Result<bool, PlanFault> {
    let plan = read_plan(alloc, PLAN)?;
    take(alloc, &plan, steps)
}
