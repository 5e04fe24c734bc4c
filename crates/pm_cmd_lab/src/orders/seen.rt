//! `orders PLAN --seen LOG`: what the schedules of a plan show, and where the outcome of a kernel's run stands among it.

ghost use Rattle.std.specs.Prelude.{ℕ, ◌≡◌, Bool, IfErr, IfNone, IfOk, IfSome, List, Option, Some, is_some, option_map, reverse, ◌||◌};
ghost use Rattle.pm_cmd_ends.specs.Ending.{taking};
ghost use Rattle.pm_cmd_ends.specs.Reading.{Holds};
ghost use Rattle.pm_io.specs.Asks.{AskedOnly};
ghost use Rattle.pm_io.specs.Faults.{Rose};
ghost use Rattle.pm_cmd_lab.specs.orders.Seen.{IsLogUnheld, IsPlaced, OfSeen, SeenEnds, SeenUnread};
ghost use Rattle.pm_cmd_lab.specs.ends.Coming.{Came};
ghost use Rattle.pm_cmd_lab.specs.ends.Ending.{Answered};
ghost use Rattle.pm_cmd_lab.specs.ends.Reading.{OfPlan};
ghost use Rattle.pm_outcomes.specs.text.Texts.{differs};
ghost use Rattle.pm_outcomes.specs.kernel_log.Placing.{IsWhole};
ghost use Rattle.pm_outcomes.specs.kernel_log.Runs.{outcome_of};
ghost use Rattle.pm_outcomes.specs.declared.kernel_log.tells.Tell.{Tell as ATell};

use crate::ends::{Fault, Outcome, finish, load, write_text};
use crate::orders::apart::apart_of;
use crate::orders::orders::outcome_of_schedules;
use pm_base::{NoMemory, TRACE_BYTES};
use pm_io::{FileFault, Files, Sink, read_all};
use pm_lab_words::Bounds;
use pm_model::Plan;
use pm_outcomes::kernel_log::{Tell, first_unlisted, is_whole, outcome_of};
use pm_outcomes::list::Outcome as AnOutcome;
use pm_outcomes::text::{differs, push_seen, told_text};
use std::alloc::Global;

/// Runs `orders PLAN --seen LOG`: reads the plan and the log of a kernel's run of it, and writes to `out` what the
/// plan's schedules show, and of what the log tells the first that none of them shows, if there is one. A message goes to
/// `err`, and the answer is the status that the program ends with.
pub fn seen_top<F: Files, O: Sink, E: Sink>(
    alloc: Global,
    plan: &str,
    log: &str,
    bounds: Bounds,
    differ: bool,
    files: &mut F,
    out: &mut O,
    err: &mut E,
) -> u8
    ensures { Answered (OfPlan F.tells_all (F.told files.old plan.now) plan.now
        (OfSeen F.tells_all (F.told files.old log.now) bounds differ)) result
        (SeenUnread F.tells_all (F.told files.old plan.now) plan.now log.now
        (AskedOnly plan.now (F.asked files.old) (F.asked files.new))
        (Rose (F.faults files.old) (F.faults files.new)))
        (taking O.taken O.faults out.old out.new) (taking E.taken E.faults err.old err.new) }
{
    match load(alloc, plan, files) {
        Ok(read) => finish(
            run_seen(alloc, &read, log, bounds, differ, files, out),
            log,
            err,
        ),
        Err(fault) => finish(Err(fault), plan, err),
    }
}

/// Reads the log, and writes what the schedules show and where its outcome stands.
fn run_seen<F: Files, O: Sink>(
    alloc: Global,
    plan: &Plan,
    log: &str,
    bounds: Bounds,
    differ: bool,
    files: &mut F,
    out: &mut O,
) -> Result<Outcome, Fault>
    ensures { Came (OfSeen F.tells_all (F.told files.old log.now) bounds differ plan.now) result
        (Rose (F.faults files.old) (F.faults files.new))
        (taking O.taken O.faults out.old out.new) }
{
    match log_bytes(alloc, log, files) {
        Ok(bytes) => write_placed(alloc, plan, bytes.as_slice(), bounds, differ, out),
        Err(fault) => Err(fault),
    }
}

/// The bytes of a log, which are no more than a trace may have.
fn log_bytes<F: Files>(alloc: Global, log: &str, files: &mut F) -> Result<Vec<u8>, Fault>
    ensures held { IfOk result (λ bytes. Holds F.tells_all (F.told files.old log.now) 67108864 bytes.items) }
    ensures unheld { IfErr result (IsLogUnheld F.tells_all (F.told files.old log.now) (Rose (F.faults files.old) (F.faults files.new))) }
{
    match read_all(alloc, files, log, TRACE_BYTES) {
        Ok(bytes) => Ok(bytes),
        Err(FileFault::TooLong) => {
            let text = message(alloc, b"log: too_long\n")?;
            Err(Fault::Refused { text })
        }
        Err(FileFault::Failed) => Err(Fault::ReadFailed),
        Err(FileFault::NoMemory) => Err(Fault::NoMemory),
    }
}

/// A message.
fn message(alloc: Global, text: &[u8]) -> Result<Vec<u8>, NoMemory>
    ensures { IfOk result (λ message. message.items ≡ text.now) }
{
    let message = Vec::from_slice(alloc, text)?;
    Ok(message)
}

/// What a log tells of the last run, in order, where its outcome is whole.
fn whole_outcome(alloc: Global, plan: &Plan, log: &[u8]) -> Result<Option<Vec<Tell>>, NoMemory>
    ensures some { IfOk result (λ found. IfSome found (λ tells. (outcome_of plan.now log.now ≡ Some (reverse tells.items)) × IsWhole plan.now tells.items)) }
    ensures none { IfOk result (λ found. IfNone found ((tells : List ATell) → outcome_of plan.now log.now ≡ Some (reverse tells) → ¬ IsWhole plan.now tells)) }
{
    let Some(tells) = outcome_of(alloc, plan, log)? else {
        return Ok(None);
    };
    if is_whole(alloc, plan, tells.as_slice())? {
        Ok(Some(tells))
    } else {
        Ok(None)
    }
}

/// Writes what the schedules show and where the outcome of a log stands.
fn write_placed<O: Sink>(
    alloc: Global,
    plan: &Plan,
    log: &[u8],
    bounds: Bounds,
    differ: bool,
    out: &mut O,
) -> Result<Outcome, Fault>
    ensures { (all : Bool) (known : Option (List ℕ)) → Holds all known 67108864 log.now → Came (OfSeen all known bounds differ plan.now) result ⊥ (taking O.taken O.faults out.old out.new) }
{
    let found = whole_outcome(alloc, plan, log)?;
    match found {
        Some(tells) => write_seen(alloc, plan, bounds, differ, tells.as_slice(), out),
        None => {
            let text = message(alloc, b"log: no_outcome\n")?;
            Err(Fault::Refused { text })
        }
    }
}

/// Of what was told the first that no observation shows, if there is one.
fn placed<'a>(observations: &[AnOutcome], tells: &'a [Tell]) -> Option<&'a Tell>
    ensures { IsPlaced observations.now tells.now (option_map (λ t. t.now) result) }
{
    match first_unlisted(observations, tells) {
        Some(place) => Some(&tells[place]),
        None => None,
    }
}

/// Whether a command or a device has more than one observation, or something was told that no observation shows.
fn stands_out(observations: &[AnOutcome], unlisted: Option<&Tell>) -> bool
    ensures { result ≡ (differs observations.now || is_some (option_map (λ t. t.now) unlisted.entry)) }
{
    differs(observations) || unlisted.is_some()
}

/// Writes what the schedules show, and of what was told the first that none of them shows. Everything that takes memory comes
/// before the first write.
fn write_seen<O: Sink>(
    alloc: Global,
    plan: &Plan,
    bounds: Bounds,
    differ: bool,
    tells: &[Tell],
    out: &mut O,
) -> Result<Outcome, Fault>
    ensures { Came (SeenEnds bounds differ tells.now plan.now) result ⊥ (taking O.taken O.faults out.old out.new) }
{
    let all = apart_of(alloc, plan, bounds)?;
    let observations = all.observations.as_slice();
    let mut text = told_text(alloc, plan, observations, all.reach, all.snapshots, differ)?;
    let unlisted = placed(observations, tells);
    push_seen(&mut text, plan, all.reach, unlisted)?;
    let told = outcome_of_schedules(all.reach, stands_out(observations, unlisted));
    write_text(text.as_slice(), told, out)
}
