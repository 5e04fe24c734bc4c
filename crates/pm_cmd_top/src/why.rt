//! `why PLAN TRACE DEVICE`: what keeps a device from suspending.

ghost use Rattle.std.specs.Prelude.{◌≡◌, ◌≢◌, ◌≤◌, ◌<◌, ◌⊎◌, Contains, IsErrOf, OnErr, OnOk, length, map};
ghost use Rattle.std.specs.Io.KnownBytes.{append_known};
ghost use Rattle.std.specs.List.{flat_map};
ghost use Rattle.pm_audit.specs.Following.{FollowerStandsFor};
ghost use Rattle.pm_io.specs.Asks.{AskedOnly};
ghost use Rattle.pm_io.specs.Faults.{Rose};
ghost use Rattle.pm_io.specs.Sink.{TookPrefix};
ghost use Rattle.pm_model.specs.History.{History};
ghost use Rattle.pm_model.specs.Text.{names_of};
ghost use Rattle.pm_cmd_ends.specs.Coming.{Came};
ghost use Rattle.pm_cmd_ends.specs.Ending.{Answered, taking};
ghost use Rattle.pm_cmd_ends.specs.Reading.{OfPlan};
ghost use Rattle.pm_cmd_ends.specs.Told.{IsNoPlan, LacksDevice};
ghost use Rattle.pm_cmd_top.specs.TraceCommands.{OfDevice, OfWhy, WhyEnds};
ghost use Rattle.pm_why.specs.Kept.{TellsOf};
ghost use Rattle.pm_why.specs.Texts.{reason_line, reasons_text};

use crate::following::follow_trace;
use pm_audit::Follower;
use pm_base::{DevId, Failed};
use pm_cmd_ends::{Fault, finish, load};
use pm_io::{Files, Sink, write_whole};
use pm_model::Plan;
use pm_why::{Gets, Reason, free_text, reason_text, reasons};
use std::alloc::Global;

/// Runs `why PLAN TRACE DEVICE`: reads the plan, finds the device by its name, reads the trace, and writes to
/// `out` everything that keeps the device from suspending after its last line, a reason per line. A message
/// goes to `err`, and the answer is the status that the program ends with. Of the lines only the device's open gets
/// are kept.
pub fn why_top<F: Files, O: Sink, E: Sink>(
    alloc: Global,
    plan: &str,
    trace: &str,
    device: &str,
    files: &mut F,
    out: &mut O,
    err: &mut E,
) -> u8
    ensures answer { Answered (OfPlan F.tells_all (F.told files.old plan.now)
        (OfWhy F.tells_all (F.told files.old trace.now) device.now)) result
        (Rose (F.faults files.old) (F.faults files.new))
        (taking O.taken O.faults out.old out.new) (taking E.taken E.faults err.old err.new) }
    ensures calm { result ≢ 4 → F.faults files.new ≡ F.faults files.old }
    ensures alone { IsNoPlan (F.told files.old plan.now) ⊎ LacksDevice (F.told files.old plan.now) device.now → AskedOnly plan.now (F.asked files.old) (F.asked files.new) }
{
    finish(run_why(alloc, plan, trace, device, files, out), err)
}

/// Reads the plan, finds the device and reads the trace, and writes what keeps the device from suspending.
fn run_why<F: Files, O: Sink>(
    alloc: Global,
    plan: &str,
    trace: &str,
    device: &str,
    files: &mut F,
    out: &mut O,
) -> Result<(), Fault>
    ensures came { Came (OfPlan F.tells_all (F.told files.old plan.now)
        (OfWhy F.tells_all (F.told files.old trace.now) device.now)) result
        (Rose (F.faults files.old) (F.faults files.new))
        (taking O.taken O.faults out.old out.new) }
    ensures calm { ¬ IsErrOf result Fault.ReadFailed → F.faults files.new ≡ F.faults files.old }
    ensures alone { IsNoPlan (F.told files.old plan.now) ⊎ LacksDevice (F.told files.old plan.now) device.now → AskedOnly plan.now (F.asked files.old) (F.asked files.new) }
{
    let plan = load(alloc, plan, files)?;
    why_by(alloc, plan, trace, device, files, out)
}

/// Finds the device, reads the trace, and writes what keeps the device from suspending.
fn why_by<F: Files, O: Sink>(
    alloc: Global,
    plan: Plan,
    trace: &str,
    device: &str,
    files: &mut F,
    out: &mut O,
) -> Result<(), Fault>
    ensures came { Came (OfWhy F.tells_all (F.told files.old trace.now) device.now plan) result
        (Rose (F.faults files.old) (F.faults files.new))
        (taking O.taken O.faults out.old out.new) }
    ensures calm { ¬ IsErrOf result Fault.ReadFailed → F.faults files.new ≡ F.faults files.old }
    ensures alone { ¬ Contains (map (λ row. row.name) plan.devices) device.now → F.asked files.new ≡ F.asked files.old }
{
    match plan.devices.find(device.as_bytes()) {
        Some(place) => why_of(alloc, plan, trace, DevId(place as u32), files, out),
        None => Err(Fault::NoDevice),
    }
}

/// Reads the trace, and writes what keeps this device from suspending.
fn why_of<F: Files, O: Sink>(
    alloc: Global,
    plan: Plan,
    trace: &str,
    dev: DevId,
    files: &mut F,
    out: &mut O,
) -> Result<(), Fault>
    requires { dev.0 < length plan.devices }
    ensures came { Came (OfDevice F.tells_all (F.told files.old trace.now) plan dev) result
        (Rose (F.faults files.old) (F.faults files.new))
        (taking O.taken O.faults out.old out.new) }
    ensures calm { ¬ IsErrOf result Fault.ReadFailed → F.faults files.new ≡ F.faults files.old }
{
    let gets = Gets::start(alloc, dev);
    let followed = follow_trace(alloc, plan, trace, files, gets)?;
    write_why(alloc, followed, out)
}

/// Writes what keeps the device from suspending after the lines of which its gets are kept.
fn write_why<O: Sink>(alloc: Global, followed: Follower<Gets>, out: &mut O) -> Result<(), Fault>
    requires { followed.keeper.dev.0 < length followed.judge.plan.devices }
    ensures { (h : History) → FollowerStandsFor TellsOf followed h
        → Came (WhyEnds followed.judge.plan followed.keeper.dev h) result ⊥ (taking O.taken O.faults out.old out.new) }
{
    let (judge, gets) = followed.into_parts();
    let (plan, state) = judge.into_parts();
    let reasons = reasons(alloc, &plan, state.parts(), &gets)?;
    write_reasons(out, &plan, &reasons)?;
    Ok(())
}

/// Writes a reason per line, or that there is none, each line as one piece. It takes no memory.
fn write_reasons<O: Sink>(out: &mut O, plan: &Plan, reasons: &[Reason]) -> Result<(), Failed>
    ensures text { OnOk result
        (O.taken out.new ≡ append_known (O.taken out.old) (reasons_text (names_of plan.now) reasons.now)) }
    ensures prefix { OnErr result
        (TookPrefix (O.taken out.old) (O.taken out.new) (reasons_text (names_of plan.now) reasons.now)) }
    ensures failed { OnErr result (Rose (O.faults out.old) (O.faults out.new)) }
{
    if reasons.is_empty() {
        return write_whole(out, free_text().as_slice());
    }
    write_each(out, plan, reasons)
}

/// Writes a reason per line.
fn write_each<O: Sink>(out: &mut O, plan: &Plan, reasons: &[Reason]) -> Result<(), Failed>
    ensures text { OnOk result
        (O.taken out.new ≡ append_known (O.taken out.old) (flat_map (reason_line (names_of plan.now)) reasons.now)) }
    ensures prefix { OnErr result
        (TookPrefix (O.taken out.old) (O.taken out.new) (flat_map (reason_line (names_of plan.now)) reasons.now)) }
    ensures failed { OnErr result (Rose (O.faults out.old) (O.faults out.new)) }
{
    for reason in reasons {
        write_whole(out, reason_text(plan, reason).as_slice())?;
    }
    Ok(())
}
