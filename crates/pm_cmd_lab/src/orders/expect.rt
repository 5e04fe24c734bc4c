//! `orders PLAN --expect FILE`: what the schedules of a plan make of what its author expects.

ghost use Rattle.std.specs.Prelude.{◌≡◌, ◌++◌, IfOk, length};
ghost use Rattle.pm_cmd_ends.specs.Ending.{taking};
ghost use Rattle.pm_expect_report.specs.orders.Texts.{judged_lines};
ghost use Rattle.pm_io.specs.Asks.{AskedOnly};
ghost use Rattle.pm_io.specs.Faults.{Rose};
ghost use Rattle.pm_cmd_lab.specs.ends.Coming.{Came};
ghost use Rattle.pm_cmd_lab.specs.ends.Ending.{Answered, OfThis};
ghost use Rattle.pm_cmd_lab.specs.ends.Reading.{OfPlan};
ghost use Rattle.pm_cmd_lab.specs.find.Check.{OfExpectations};
ghost use Rattle.pm_cmd_lab.specs.orders.Expect.{ExpectEnds, ExpectUnread};
ghost use Rattle.pm_outcomes.specs.text.Reached.{reach_of};
ghost use Rattle.pm_outcomes.specs.text.Texts.{told};

use crate::ends::{Fault, Outcome, finish, load, write_text};
use crate::find::{Read, expectations, tell_unread};
use crate::orders::orders::{outcome_of_schedules, outcomes_of};
use pm_base::NoMemory;
use pm_expect_report::broken::firsts_decide;
use pm_expect_report::orders::{Judged, has_broken, judge, push_judged};
use pm_io::{Files, Sink};
use pm_lab_words::Bounds;
use pm_model::Plan;
use pm_outcomes::find::Outcomes;
use pm_outcomes::text::{orders_text, push, reach_of};
use std::alloc::Global;

/// Runs `orders PLAN --expect FILE`: reads the plan and the file of expectations, and writes to `out` for each expectation
/// whether a schedule breaks it, and then what the plan's schedules show. A file of expectations that is refused is told so on
/// `out`. A message goes to `err`, and the answer is the status that the program ends with.
pub fn expect_top<F: Files, O: Sink, E: Sink>(
    alloc: Global,
    plan: &str,
    expect: &str,
    bounds: Bounds,
    differ: bool,
    files: &mut F,
    out: &mut O,
    err: &mut E,
) -> u8
    ensures { Answered (OfPlan F.tells_all (F.told files.old plan.now) plan.now
        (OfExpectations F.tells_all (F.told files.old expect.now) expect.now (ExpectEnds bounds differ expect.now))) result
        (ExpectUnread F.tells_all (F.told files.old plan.now) plan.now expect.now
        (AskedOnly plan.now (F.asked files.old) (F.asked files.new))
        (Rose (F.faults files.old) (F.faults files.new)))
        (taking O.taken O.faults out.old out.new) (taking E.taken E.faults err.old err.new) }
{
    match load(alloc, plan, files) {
        Ok(read) => finish(
            run_expect(alloc, &read, expect, bounds, differ, files, out),
            expect,
            err,
        ),
        Err(fault) => finish(Err(fault), plan, err),
    }
}

/// Reads the file of expectations, and writes what the schedules make of it.
fn run_expect<F: Files, O: Sink>(
    alloc: Global,
    plan: &Plan,
    expect: &str,
    bounds: Bounds,
    differ: bool,
    files: &mut F,
    out: &mut O,
) -> Result<Outcome, Fault>
    ensures { Came (OfExpectations F.tells_all (F.told files.old expect.now) expect.now (ExpectEnds bounds differ expect.now) plan.now) result
        (Rose (F.faults files.old) (F.faults files.new))
        (taking O.taken O.faults out.old out.new) }
{
    match expectations(alloc, plan, expect, files) {
        Ok(read) => write_judged(alloc, plan, expect, &read, bounds, differ, out),
        Err(fault) => tell_unread(fault, out),
    }
}

/// What the schedules make of expectations, a line for each, and behind that what they show.
fn expect_text(
    alloc: Global,
    plan: &Plan,
    expect: &[u8],
    all: &Outcomes,
    judged: &[Judged],
    differ: bool,
) -> Result<Vec<u8>, NoMemory>
    ensures { IfOk result (λ text. text.items ≡ judged_lines plan.now expect.now (reach_of all.now.found.ended (length all.now.found.rounds.items)) (length all.now.found.rounds.items) judged.now
        ++ told plan.now differ (reach_of all.now.found.ended (length all.now.found.rounds.items)) (length all.now.found.tree.nodes.keys) all.now.observations.items) }
{
    let rounds = all.found.rounds.len();
    let reach = reach_of(all.found.ended, rounds);
    let mut text = Vec::new(alloc);
    push_judged(&mut text, alloc, plan, expect, reach, rounds, judged)?;
    let shown = orders_text(alloc, plan, all, differ)?;
    push(&mut text, shown.as_slice())?;
    Ok(text)
}

/// Writes what the schedules make of expectations, and what they show. Everything that takes memory comes before the first
/// write.
fn write_judged<O: Sink>(
    alloc: Global,
    plan: &Plan,
    expect: &str,
    read: &Read,
    bounds: Bounds,
    differ: bool,
    out: &mut O,
) -> Result<Outcome, Fault>
    ensures { Came (ExpectEnds bounds differ expect.now plan.now read.now.text.items read.now.expected) result ⊥ (taking O.taken O.faults out.old out.new) }
{
    firsts_decide();
    let all = outcomes_of(alloc, plan, bounds)?;
    let judged = judge(
        alloc,
        plan,
        &all.found,
        read.text.as_slice(),
        &read.expected,
    )?;
    let text = expect_text(
        alloc,
        plan,
        expect.as_bytes(),
        &all,
        judged.as_slice(),
        differ,
    )?;
    let reach = reach_of(all.found.ended, all.found.rounds.len());
    let told = outcome_of_schedules(reach, has_broken(judged.as_slice()));
    write_text(text.as_slice(), told, out)
}
