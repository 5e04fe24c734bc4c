//! The rules of a driver's schedules, from the driver that was read.

ghost use Rattle.std.specs.Prelude.{◌≡◌, ◌++◌, IfOk, OnOk, map, take};
ghost use Rattle.pm_driver_report.specs.Rules.{begin_need, is_probe_role, is_remove_role, origin_of, origin_read, part_of, part_read, parts_by, short};

use pm_base::MAX_CALLERS;
use pm_driver_find::CallerOrigin;
use pm_driver_read::{CallerNeed, DriverCaller, Role};
use pm_driver_rules::{BeginNeed, CallerRules};
use std::alloc::{AllocError, Global};

/// A place as the rules have it: past 2^32 - 1 there is none, nor at it.
fn short(place: usize) -> u32
    ensures { result ≡ short place }
{
    place.min(u32::MAX as usize) as u32
}

fn begin_need(need: &CallerNeed) -> BeginNeed
    ensures { result ≡ begin_need need.now }
{
    BeginNeed {
        caller: short(need.caller),
        mark: match need.mark {
            Some(mark) => Some(short(mark)),
            None => None,
        },
    }
}

fn begin_needs(alloc: Global, needs: &[CallerNeed]) -> Result<Vec<BeginNeed>, AllocError>
    ensures { IfOk result (λ out. out.items ≡ map begin_need needs.now) }
{
    let mut out = Vec::with_capacity(alloc, needs.len())?;
    for need in needs {
        out.push(begin_need(need))?;
    }
    Ok(out)
}

/// What each caller needs before it begins.
pub fn all_begin_needs(
    alloc: Global,
    callers: &[DriverCaller],
) -> Result<Vec<Vec<BeginNeed>>, AllocError>
    ensures { IfOk result (λ out. map (λ v. v.items) out.items ≡ map (λ c. map begin_need c.after) callers.now) }
{
    let mut out = Vec::with_capacity(alloc, callers.len())?;
    for caller in callers {
        out.push(begin_needs(alloc, caller.after.as_slice())?)?;
    }
    Ok(out)
}

// Appends the rules of callers, with what each needs.
fn push_rules<'a>(
    out: &mut Vec<CallerRules<'a>>,
    callers: &'a [DriverCaller],
    needs: &'a [Vec<BeginNeed>],
) -> Result<(), AllocError>
    ensures { OnOk result (map part_of out.new.items ≡ map part_of out.old.items ++ parts_by callers.now (map (λ v. v.items) needs.now)) }
{
    let [caller, callers @ ..] = callers else {
        return Ok(());
    };
    let [after, needs @ ..] = needs else {
        return Ok(());
    };
    out.push(CallerRules {
        program: &caller.program,
        after: after.as_slice(),
    })?;
    push_rules(out, callers, needs)
}

/// The rules of a plan's callers, which are at most 16.
#[tactic(auto, using(crate::proofs::RuleLemmas::first_parts))]
pub fn all_caller_rules<'a>(
    alloc: Global,
    callers: &'a [DriverCaller],
    needs: &'a [Vec<BeginNeed>],
) -> Result<Vec<CallerRules<'a>>, AllocError>
    requires { map (λ v. v.items) needs.now ≡ map (λ c. map begin_need c.after) callers.now }
    ensures { IfOk result (λ out. map part_of out.items ≡ take 16 (map part_read callers.now)) }
{
    let mut out = Vec::new(alloc);
    push_rules(&mut out, callers, needs)?;
    out.truncate(MAX_CALLERS);
    Ok(out)
}

fn is_probe_role(role: Option<Role>) -> bool
    ensures { result ≡ is_probe_role role }
{
    matches!(role, Some(Role::Probe))
}

fn is_remove_role(role: Option<Role>) -> bool
    ensures { result ≡ is_remove_role role }
{
    matches!(role, Some(Role::Remove))
}

/// What else a driver's file says of each caller.
pub fn all_origins(
    alloc: Global,
    callers: &[DriverCaller],
) -> Result<Vec<CallerOrigin<'_>>, AllocError>
    ensures { IfOk result (λ out. map origin_of out.items ≡ map origin_read callers.now) }
{
    let mut out = Vec::with_capacity(alloc, callers.len())?;
    for caller in callers {
        out.push(CallerOrigin {
            lines: caller.lines.as_slice(),
            is_probe: is_probe_role(caller.role),
            is_remove: is_remove_role(caller.role),
        })?;
    }
    Ok(out)
}
