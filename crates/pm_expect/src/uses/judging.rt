//! Whether uses hold.

ghost use Rattle.std.specs.Prelude.{◌≡◌, ◌<◌, ◌^◌, All, IfOk, length, map, reverse, true};
ghost use Rattle.std.specs.List.{list_all};
ghost use Rattle.pm_expect.specs.verdicts.Calls.{returns};
ghost use Rattle.pm_expect.specs.verdicts.Verdicts.{judged};
ghost use Rattle.pm_model.specs.Lawful.{IsLawful};
ghost use Rattle.pm_model.specs.LineOf.{is_line_of};
ghost use Rattle.pm_expect.specs.uses.Uses.{use_by, use_verdict, used};
ghost use Rattle.pm_expect.specs.uses.Watching.{watch_of};

use crate::uses::missing::{Missed, excused_bonds_lack_nothing};
use crate::uses::watching::{Watch, follow, fresh};
use crate::verdicts::{Judged, Lack, Return, Verdict, once, returns_of};
use crate::{Use, times_by};
use pm_base::NoMemory;
use pm_book::Replay;
use pm_model::{Line, Plan};
use std::alloc::Global;

/// What is known of each use after these lines.
fn watched(
    alloc: Global,
    plan: &Plan,
    lines: &[Line],
    expected: &[Use],
) -> Result<Vec<Watch>, NoMemory>
    requires lawful { IsLawful plan.now (reverse lines.now) }
    requires of_plan { list_all (is_line_of plan.now) (reverse lines.now) ≡ true }
    requires few { length lines.now < 2 ^ 32 }
    requires over { All (λ u. u.dev.0 < length plan.now.devices) expected.now }
    ensures { IfOk result (λ watches. watches.items ≡ map (watch_of plan.now (reverse lines.now)) expected.now) }
{
    excused_bonds_lack_nothing();
    let mut watches = fresh(alloc, plan, expected)?;
    let mut replay = Replay::start(alloc, plan)?;
    let mut number = 0;
    for line in lines {
        number += 1;
        replay.go(plan, line);
        follow(&mut watches, plan, replay.parts(), number, line);
    }
    Ok(watches)
}

/// What becomes of a use, by what is missed first, where all its calls have returned or not.
fn used(done: bool, missed: Option<Missed>) -> Verdict<Lack>
    ensures { result ≡ used done missed }
{
    match missed {
        Some(missed) => Verdict::Fails {
            line: missed.line,
            told: missed.lack,
        },
        None => once(done),
    }
}

/// A use with what becomes of it, by the calls that have returned.
fn judged_use(
    alloc: Global,
    plan: &Plan,
    all: &[Return],
    watch: &Watch,
) -> Result<Judged<Use, Lack>, NoMemory>
    ensures { IfOk result (λ j. j ≡ judged (use_by plan.now all.now watch.now.missed) watch.now.expected) }
{
    let expected = watch.expected;
    let mine = returns_of(alloc, expected.caller, &expected.command, all)?;
    let times = times_by(plan, expected.caller, &expected.command);
    Ok(Judged {
        expected,
        verdict: used(times <= mine.len(), watch.missed),
    })
}

/// What becomes of each use in a lawful run of a plan, whose calls that have returned these are. It goes once through the
/// lines, and takes memory by the plan and the expectations, and for the returns of one command at a time. Fails where
/// memory runs out.
pub fn uses(
    alloc: Global,
    plan: &Plan,
    lines: &[Line],
    all: &[Return],
    expected: &[Use],
) -> Result<Vec<Judged<Use, Lack>>, NoMemory>
    requires lawful { IsLawful plan.now (reverse lines.now) }
    requires of_plan { list_all (is_line_of plan.now) (reverse lines.now) ≡ true }
    requires few { length lines.now < 2 ^ 32 }
    requires returned { all.now ≡ returns (reverse lines.now) }
    requires over { All (λ u. u.dev.0 < length plan.now.devices) expected.now }
    ensures { IfOk result (λ v. v.items ≡ map (judged (use_verdict plan.now (reverse lines.now))) expected.now) }
{
    let watches = watched(alloc, plan, lines, expected)?;
    let mut verdicts = Vec::with_capacity(alloc, watches.len())?;
    for watch in &watches {
        verdicts.push(judged_use(alloc, plan, all, watch)?)?;
    }
    Ok(verdicts)
}
