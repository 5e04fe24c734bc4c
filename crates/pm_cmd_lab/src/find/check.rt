//! `find PLAN TRACE --expect FILE`: what stands out in a run, and whether what its author expects holds.

ghost use Rattle.std.specs.Prelude.{◌≡◌, ◌≤◌, IfErr, IfOk, Ok};
ghost use Rattle.pm_cmd_ends.specs.Ending.{taking};
ghost use Rattle.pm_expect.specs.Expected.{expected_in};
ghost use Rattle.pm_expect.specs.Over.{AreOver};
ghost use Rattle.pm_find.specs.trace.Telling.{IsNotTold};
ghost use Rattle.pm_find.specs.trace.Texts.{files_of};
ghost use Rattle.pm_io.specs.Asks.{AskedOnly};
ghost use Rattle.pm_io.specs.Faults.{Rose};
ghost use Rattle.pm_cmd_lab.specs.find.Check.{AreRead, CheckEnds, CheckUnread, IsNotRead, IsTextUnread, IsTold, IsToldUnread, OfCheck, RunUnread};
ghost use Rattle.pm_cmd_lab.specs.ends.Coming.{Came};
ghost use Rattle.pm_cmd_lab.specs.ends.Ending.{Answered};
ghost use Rattle.pm_cmd_lab.specs.ends.Reading.{OfPlan};
ghost use Rattle.pm_planread.specs.PlanOf.{contents_of, plan_of};

use crate::ends::{Fault, Loaded, Outcome, finish, load_text, write_text};
use crate::find::find::{too_long_text, write_found};
use pm_base::TRACE_BYTES;
use pm_expect::{EXPECT_BYTES, Expectations};
use pm_expect_report::refused::{Unread, read_or_tell, too_long_text as long_file_text};
use pm_expect_report::trace::check;
use pm_find::trace::{Found, PlanFile};
use pm_io::{FileFault, Files, Sink, read_all};
use pm_model::Plan;
use std::alloc::Global;

/// A file of expectations that is read: its text, and what it expects.
#[derive(Drop)]
pub struct Read {
    pub text: Vec<u8>,
    pub expected: Expectations,
}

/// Runs `find PLAN TRACE --expect FILE`: reads the plan, the file of expectations and the trace, and writes to `out` what
/// stands out in the run, with notes or without them, the expectations that fail, and how many there are; or, as KTAP, the
/// expectations alone. A file of expectations that is refused is told so on `out`. A message goes to `err`, and the answer is
/// the status that the program ends with.
pub fn check_top<F: Files, O: Sink, E: Sink>(
    alloc: Global,
    plan: &str,
    trace: &str,
    expect: &str,
    ktap: bool,
    notes: bool,
    files: &mut F,
    out: &mut O,
    err: &mut E,
) -> u8
    ensures { Answered (OfPlan F.tells_all (F.told files.old plan.now) plan.now
        (CheckEnds F.tells_all (F.told files.old) plan.now expect.now trace.now ktap notes)) result
        (CheckUnread F.tells_all (F.told files.old) plan.now expect.now trace.now
        (AskedOnly plan.now (F.asked files.old) (F.asked files.new))
        (Rose (F.faults files.old) (F.faults files.new)))
        (taking O.taken O.faults out.old out.new) (taking E.taken E.faults err.old err.new) }
{
    match load_text(alloc, plan, files) {
        Ok(read) => run_expect(
            alloc, read, plan, trace, expect, ktap, notes, files, out, err,
        ),
        Err(fault) => finish(Err(fault), plan, err),
    }
}

/// Reads the file of expectations, and goes on over the plan.
fn run_expect<F: Files, O: Sink, E: Sink>(
    alloc: Global,
    loaded: Loaded,
    name: &str,
    trace: &str,
    expect: &str,
    ktap: bool,
    notes: bool,
    files: &mut F,
    out: &mut O,
    err: &mut E,
) -> u8
    requires { plan_of loaded.text.items ≡ Ok (contents_of loaded.plan) }
    ensures { Answered (CheckEnds F.tells_all (F.told files.old) name.now expect.now trace.now ktap notes loaded.plan) result
        (RunUnread F.tells_all (F.told files.old expect.now) loaded.plan expect.now trace.now
        (Rose (F.faults files.old) (F.faults files.new)))
        (taking O.taken O.faults out.old out.new) (taking E.taken E.faults err.old err.new) }
{
    match expectations(alloc, &loaded.plan, expect, files) {
        Ok(read) => finish(
            run_check(
                alloc, loaded, name, expect, &read, trace, ktap, notes, files, out,
            ),
            trace,
            err,
        ),
        Err(Fault::Refused { text }) => {
            let told = write_text(text.as_slice(), Outcome::Refused, out);
            finish(told, expect, err)
        }
        Err(Fault::ReadFailed) => finish(Err(Fault::ReadFailed), expect, err),
        Err(_) => finish(Err(Fault::NoMemory), expect, err),
    }
}

/// Tells why a file of expectations isn't read: on `out`, where it is refused.
pub fn tell_unread<O: Sink>(fault: Fault, out: &mut O) -> Result<Outcome, Fault>
    ensures { IsToldUnread fault result (taking O.taken O.faults out.old out.new) }
{
    match fault {
        Fault::Refused { text } => write_text(text.as_slice(), Outcome::Refused, out),
        Fault::ReadFailed => Err(Fault::ReadFailed),
        Fault::WriteFailed => Err(Fault::WriteFailed),
        Fault::NoMemory => Err(Fault::NoMemory),
    }
}

/// The expectations of a file.
pub fn expectations<F: Files>(
    alloc: Global,
    plan: &Plan,
    expect: &str,
    files: &mut F,
) -> Result<Read, Fault>
    ensures read { IfOk result (λ r. AreRead F.tells_all (F.told files.old expect.now) plan.now r.text.items r.expected) }
    ensures over { IfOk result (λ r. AreOver plan.now r.expected) }
    ensures unread { IfErr result (IsNotRead F.tells_all (F.told files.old expect.now) expect.now plan.now
        (Rose (F.faults files.old) (F.faults files.new))) }
    ensures never_falls { F.faults files.old ≤ F.faults files.new }
    ensures same { F.told files.new ≡ F.told files.old }
{
    match read_all(alloc, files, expect, EXPECT_BYTES) {
        Ok(text) => expected_in(alloc, plan, expect, text),
        Err(FileFault::TooLong) => {
            let text = long_file_text(alloc, expect.as_bytes())?;
            Err(Fault::Refused { text })
        }
        Err(FileFault::Failed) => Err(Fault::ReadFailed),
        Err(FileFault::NoMemory) => Err(Fault::NoMemory),
    }
}

/// The expectations of the text of a file.
fn expected_in(alloc: Global, plan: &Plan, expect: &str, text: Vec<u8>) -> Result<Read, Fault>
    ensures read { IfOk result (λ r. (r.text ≡ text) × (expected_in plan.now text.items ≡ Ok r.expected)) }
    ensures over { IfOk result (λ r. AreOver plan.now r.expected) }
    ensures unread { IfErr result (IsTextUnread plan.now expect.now text.items) }
{
    match read_or_tell(alloc, plan, expect.as_bytes(), &text) {
        Ok(expected) => Ok(Read { text, expected }),
        Err(Unread::Refused { text: told }) => Err(Fault::Refused { text: told }),
        Err(Unread::NoMemory) => Err(Fault::NoMemory),
    }
}

/// Reads the trace, and writes what is told of it.
fn run_check<F: Files, O: Sink>(
    alloc: Global,
    loaded: Loaded,
    name: &str,
    expect: &str,
    read: &Read,
    trace: &str,
    ktap: bool,
    notes: bool,
    files: &mut F,
    out: &mut O,
) -> Result<Outcome, Fault>
    requires text { plan_of loaded.text.items ≡ Ok (contents_of loaded.plan) }
    requires over { AreOver loaded.plan read.now.expected }
    ensures { Came (OfCheck F.tells_all (F.told files.old trace.now) name.now trace.now expect.now ktap notes loaded.plan read.now.text.items read.now.expected) result
        (Rose (F.faults files.old) (F.faults files.new))
        (taking O.taken O.faults out.old out.new) }
{
    let Loaded { plan, text } = loaded;
    let file = PlanFile {
        name: name.as_bytes(),
        text: &text,
    };
    match check_trace(alloc, plan, expect, read, trace, file, ktap, notes, files) {
        Ok(found) => write_found(&found, out),
        Err(FileFault::TooLong) => {
            let text = too_long_text(alloc)?;
            Err(Fault::Refused { text })
        }
        Err(FileFault::Failed) => Err(Fault::ReadFailed),
        Err(FileFault::NoMemory) => Err(Fault::NoMemory),
    }
}

/// Reads the trace from its file, in either format, and tells of it.
fn check_trace<F: Files>(
    alloc: Global,
    plan: Plan,
    expect: &str,
    read: &Read,
    trace: &str,
    file: PlanFile<'_>,
    ktap: bool,
    notes: bool,
    files: &mut F,
) -> Result<Found, FileFault>
    requires { AreOver plan read.now.expected }
    ensures told { IfOk result (IsTold F.tells_all (F.told files.old trace.now) plan expect.now read.now.text.items read.now.expected (files_of trace.now file.entry) ktap notes) }
    ensures not_told { IfErr result (IsNotTold F.tells_all (F.told files.old trace.now)
        (Rose (F.faults files.old) (F.faults files.new))) }
{
    let bytes = read_all(alloc, files, trace, TRACE_BYTES)?;
    let told = check(
        alloc,
        plan,
        expect.as_bytes(),
        read.text.as_slice(),
        &read.expected,
        trace.as_bytes(),
        file,
        &bytes,
        ktap,
        notes,
    );
    match told {
        Ok(found) => Ok(found),
        Err(_) => Err(FileFault::NoMemory),
    }
}
