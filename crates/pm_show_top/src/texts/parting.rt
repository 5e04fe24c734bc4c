//! Cases of `pm_islands`: the islands of small plans, their parts, and the merge of lists.

use crate::common::fresh_book;
use crate::texts::plans::{EMPTY, ISLANDS, LINKED, UNLINKED};
use crate::texts::told::{Case, Told};
use pm_base::{ActorId, DevId, DomId, NoMemory};
use pm_book::Book;
use pm_islands::{islands, merge, number, part};
use pm_model::{Event, Line, Plan};
use pm_planread::{PlanFault, read_plan};
use pm_serial::{drain, fresh_books_have_time};
use std::alloc::Global;

pub fn cases(alloc: Global) -> Result<Vec<Case>, PlanFault> {
    let plan = read_plan(alloc, ISLANDS)?;
    cases_over(alloc, &plan)
}

fn cases_over(alloc: Global, plan: &Plan) -> Result<Vec<Case>, PlanFault> {
    let cases = [
        (
            "islands go by their least device",
            callers_are_in(alloc, plan)?,
        ),
        ("islands are counted", are_counted(alloc, plan)?),
        (
            "a domain connects, a plain link doesn't",
            are_in(alloc, plan)?,
        ),
        (
            "a part has the scripts of its island",
            have_scripts(alloc, plan)?,
        ),
        ("an empty plan has no island", is_empty(alloc)?),
        ("lines of one time go by their list", go_by_list(alloc)?),
        ("links of runtime connect", are_linked(alloc)?),
        (
            "finished lists are merged, as far as there is room",
            are_merged(alloc)?,
        ),
    ];
    Ok(Vec::from_slice(alloc, &cases)?)
}

/// Where each of three callers is.
fn callers_are_in(alloc: Global, plan: &Plan) -> Result<Told, PlanFault> {
    if plan.callers.len() != 3 {
        return Ok(Told::One(false));
    }
    let numbers = number(alloc, plan)?;
    let callers = [
        numbers.island_of_caller(0),
        numbers.island_of_caller(1),
        numbers.island_of_caller(2),
    ];
    Ok(Told::One(callers == [2, 1, 0]))
}

/// How many islands there are, and where a caller that isn't there, the domain, and a domain that isn't there.
fn are_counted(alloc: Global, plan: &Plan) -> Result<Told, PlanFault> {
    let numbers = number(alloc, plan)?;
    let others = [
        numbers.island_of(ActorId::Caller(3)),
        numbers.island_of_domain(DomId(0)),
        numbers.island_of_domain(DomId(1)),
    ];
    let counts = (islands(plan), numbers.count());
    Ok(Told::One(counts == (3, 3) && others == [None, Some(0), None]))
}

/// Where each device is.
static DEVICES: [(u32, Option<u32>); 5] = [
    (0, None),
    (1, Some(0)),
    (2, Some(0)),
    (3, Some(0)),
    (4, Some(1)),
];

/// Each device and its timer are in this island.
fn are_in(alloc: Global, plan: &Plan) -> Result<Told, PlanFault> {
    let numbers = number(alloc, plan)?;
    let mut told = Told::All(0);
    for (device, island) in &DEVICES {
        let is_in = numbers.island_of_device(DevId(*device)) == *island;
        told.note(is_in && numbers.island_of(ActorId::Timer(*device)) == *island);
    }
    Ok(told)
}

/// How many commands each caller has in the part of each island.
static SCRIPTS: [(u32, [usize; 3]); 3] = [(0, [0, 0, 2]), (1, [0, 1, 0]), (2, [1, 0, 0])];

fn have_scripts(alloc: Global, plan: &Plan) -> Result<Told, PlanFault> {
    let mut told = Told::All(0);
    for (island, wanted) in &SCRIPTS {
        told.note(scripts_of(alloc, plan, *island)? == Some(*wanted));
    }
    Ok(told)
}

/// How many commands each of three callers has in the part of an island, if there is one. It alone owns a part.
fn scripts_of(alloc: Global, plan: &Plan, island: u32) -> Result<Option<[usize; 3]>, PlanFault> {
    if island >= number(alloc, plan)?.count() {
        return Ok(None);
    }
    let part = part(alloc, plan, island)?;
    let [first, second, third] = part.callers.as_slice() else {
        return Ok(None);
    };
    let scripts = [
        first.script.as_slice().len(),
        second.script.as_slice().len(),
        third.script.as_slice().len(),
    ];
    Ok(Some(scripts))
}

/// An empty plan has no island, and neither a device nor a caller in one.
fn is_empty(alloc: Global) -> Result<Told, PlanFault> {
    let plan = read_plan(alloc, EMPTY)?;
    let numbers = number(alloc, &plan)?;
    let found = [
        numbers.island_of_device(DevId(0)),
        numbers.island_of(ActorId::Caller(0)),
    ];
    let counts = (islands(&plan), numbers.count());
    Ok(Told::One(counts == (0, 0) && found == [None, None]))
}

fn line_of(time: u64, caller: u32) -> Line {
    Line {
        time,
        actor: ActorId::Caller(caller),
        event: Event::Wait { dev: DevId(0) },
    }
}

#[tactic(auto, using(pm_islands::proofs::NextLemmas::three_in_time))]
fn go_by_list(alloc: Global) -> Result<Told, PlanFault> {
    let (first, second, third) = (line_of(1, 0), line_of(0, 1), line_of(1, 2));
    let lists: [&[Line]; 3] = [&[first], &[second], &[third]];
    let lines = merge(alloc, &lists, 2)?;
    Ok(Told::One(lines.as_slice() == [second, first].as_slice()))
}

/// A consumer and its two suppliers are one island.
fn are_linked(alloc: Global) -> Result<Told, PlanFault> {
    let plan = read_plan(alloc, LINKED)?;
    Ok(Told::One(islands(&plan) == 1))
}

/// The book of an island's run on one thread, if there is such an island.
fn book_of(alloc: Global, plan: &Plan, island: u32) -> Result<Option<Book>, PlanFault> {
    if island >= number(alloc, plan)?.count() {
        return Ok(None);
    }
    let mut book = fresh_book(alloc, part(alloc, plan, island)?)?;
    fresh_books_have_time();
    drain(&mut book)?;
    Ok(Some(book))
}

/// As many lines of two runs as this.
fn merged(alloc: Global, first: &Book, second: &Book, limit: usize) -> Result<Vec<Line>, NoMemory> {
    let lists: [&[Line]; 2] = [first.lines(), second.lines()];
    merge(alloc, &lists, limit)
}

/// The finished runs of two islands come to all their lines where so many are allowed, and where one is, to the first
/// of the first island.
fn are_merged(alloc: Global) -> Result<Told, PlanFault> {
    let plan = read_plan(alloc, UNLINKED)?;
    let (Some(first), Some(second)) = (book_of(alloc, &plan, 0)?, book_of(alloc, &plan, 1)?) else {
        return Ok(Told::One(false));
    };
    let all = merged(alloc, &first, &second, 200_000)?;
    let one = merged(alloc, &first, &second, 1)?;
    let is_first = one.as_slice() == first.lines().get(..1).unwrap_or(&[]);
    Ok(Told::One(all.len() == 26 && all.get(..1) == Some(one.as_slice()) && is_first))
}
