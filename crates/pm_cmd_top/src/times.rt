//! `times PLAN TRACE`: how long each device was active.

ghost use Rattle.std.specs.Prelude.{◌≡◌, ◌≢◌, ◌≤◌, ◌<◌, IsErrOf, OnErr, OnOk, length};
ghost use Rattle.std.specs.Io.KnownBytes.{append_known};
ghost use Rattle.pm_account.specs.AllKept.{AreTimes, account_of};
ghost use Rattle.pm_account.specs.Texts.{account_text};
ghost use Rattle.pm_io.specs.Asks.{AskedOnly};
ghost use Rattle.pm_io.specs.Faults.{Rose};
ghost use Rattle.pm_io.specs.Sink.{TookPrefix};
ghost use Rattle.pm_model.specs.History.{History};
ghost use Rattle.pm_model.specs.Lawful.{IsLawful};
ghost use Rattle.pm_model.specs.Text.{names_of};
ghost use Rattle.pm_cmd_ends.specs.Coming.{Came};
ghost use Rattle.pm_cmd_ends.specs.Ending.{Answered, taking};
ghost use Rattle.pm_cmd_ends.specs.Reading.{OfPlan};
ghost use Rattle.pm_cmd_ends.specs.Told.{IsNoPlan};
ghost use Rattle.pm_cmd_top.specs.TraceCommands.{TimesEnds, OfTimes};

use crate::following::follow_trace;
use pm_account::{Stays, stays_are_account, times_add_up, times_text};
use pm_audit::Follower;
use pm_base::{DevId, Failed};
use pm_cmd_ends::{Fault, finish, load};
use pm_io::{Files, Sink, write_whole};
use pm_model::Plan;
use std::alloc::Global;

/// Runs `times PLAN TRACE`: reads the plan and the trace, and writes to `out` a line per device, for how many
/// milliseconds of the run it was active, suspended and moving. A message goes to `err`, and the answer is the
/// status that the program ends with. All memory is taken before the trace is read, and neither it nor its lines are
/// kept.
pub fn times_top<F: Files, O: Sink, E: Sink>(
    alloc: Global,
    plan: &str,
    trace: &str,
    files: &mut F,
    out: &mut O,
    err: &mut E,
) -> u8
    ensures answer { Answered (OfPlan F.tells_all (F.told files.old plan.now)
        (OfTimes F.tells_all (F.told files.old trace.now))) result
        (Rose (F.faults files.old) (F.faults files.new))
        (taking O.taken O.faults out.old out.new) (taking E.taken E.faults err.old err.new) }
    ensures calm { result ≢ 4 → F.faults files.new ≡ F.faults files.old }
    ensures alone { IsNoPlan (F.told files.old plan.now) → AskedOnly plan.now (F.asked files.old) (F.asked files.new) }
{
    finish(run_times(alloc, plan, trace, files, out), err)
}

/// Reads the plan and the trace, and writes the times of each device.
fn run_times<F: Files, O: Sink>(
    alloc: Global,
    plan: &str,
    trace: &str,
    files: &mut F,
    out: &mut O,
) -> Result<(), Fault>
    ensures came { Came (OfPlan F.tells_all (F.told files.old plan.now)
        (OfTimes F.tells_all (F.told files.old trace.now))) result
        (Rose (F.faults files.old) (F.faults files.new))
        (taking O.taken O.faults out.old out.new) }
    ensures calm { ¬ IsErrOf result Fault.ReadFailed → F.faults files.new ≡ F.faults files.old }
    ensures alone { IsNoPlan (F.told files.old plan.now) → AskedOnly plan.now (F.asked files.old) (F.asked files.new) }
{
    let plan = load(alloc, plan, files)?;
    times_by(alloc, plan, trace, files, out)
}

/// Reads the trace, and writes the times of each device.
fn times_by<F: Files, O: Sink>(
    alloc: Global,
    plan: Plan,
    trace: &str,
    files: &mut F,
    out: &mut O,
) -> Result<(), Fault>
    ensures came { Came (OfTimes F.tells_all (F.told files.old trace.now) plan) result
        (Rose (F.faults files.old) (F.faults files.new))
        (taking O.taken O.faults out.old out.new) }
    ensures calm { ¬ IsErrOf result Fault.ReadFailed → F.faults files.new ≡ F.faults files.old }
{
    let Ok(stays) = Stays::start(alloc, &plan) else {
        return Err(Fault::NoMemory);
    };
    let followed = follow_trace(alloc, plan, trace, files, stays)?;
    write_times(&followed, out)
}

/// Writes the times of each device over the lines of which they are kept. It takes no memory.
fn write_times<O: Sink>(followed: &Follower<Stays>, out: &mut O) -> Result<(), Fault>
    requires { length followed.now.keeper.stays ≡ length followed.now.judge.plan.devices }
    ensures { (h : History) → IsLawful followed.now.judge.plan h → AreTimes followed.now.keeper h
        → Came (TimesEnds followed.now.judge.plan h) result ⊥ (taking O.taken O.faults out.old out.new) }
{
    times_add_up();
    stays_are_account();
    write_account(out, followed.judge.plan(), &followed.keeper)?;
    Ok(())
}

/// Writes a line per device of the plan, each as one piece. It takes no memory.
fn write_account<O: Sink>(out: &mut O, plan: &Plan, stays: &Stays) -> Result<(), Failed>
    requires { length stays.now.stays ≡ length plan.now.devices }
    ensures text { OnOk result
        (O.taken out.new ≡ append_known (O.taken out.old) (account_text (names_of plan.now) (account_of stays.now))) }
    ensures prefix { OnErr result
        (TookPrefix (O.taken out.old) (O.taken out.new) (account_text (names_of plan.now) (account_of stays.now))) }
    ensures failed { OnErr result (Rose (O.faults out.old) (O.faults out.new)) }
{
    for place in 0..plan.devices.len() {
        let dev = DevId(place as u32);
        write_whole(out, times_text(plan, dev, &stays.times(dev)).as_slice())?;
    }
    Ok(())
}
