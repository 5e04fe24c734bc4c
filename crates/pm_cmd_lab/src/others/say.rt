//! `say PLAN`: what is wrong with a plan, in the words of a person, and where.

ghost use Rattle.std.specs.Prelude.{◌≡◌};
ghost use Rattle.pm_cmd_ends.specs.Ending.{taking};
ghost use Rattle.pm_io.specs.Faults.{Rose};
ghost use Rattle.pm_cmd_lab.specs.others.Commands.{SayEnds, SayEndsOf, outcome_of};
ghost use Rattle.pm_cmd_lab.specs.ends.Coming.{Came};
ghost use Rattle.pm_cmd_lab.specs.ends.Ending.{Answered, OfThis};

use crate::ends::{Fault, Outcome, finish, plan_bytes, write_text};
use pm_io::{Files, Sink};
use pm_say::Kind;
use pm_say_driver::say_file;
use std::alloc::Global;

/// Runs `say PLAN`: reads the plan's file and writes what is told of it to `out`. A message goes to `err`, and
/// the answer is the status that the program ends with.
pub fn say_top<F: Files, O: Sink, E: Sink>(
    alloc: Global,
    plan: &str,
    files: &mut F,
    out: &mut O,
    err: &mut E,
) -> u8
    ensures { Answered (SayEnds F.tells_all (F.told files.old plan.now) plan.now) result
        (OfThis plan.now (Rose (F.faults files.old) (F.faults files.new)))
        (taking O.taken O.faults out.old out.new) (taking E.taken E.faults err.old err.new) }
{
    finish(run_say(alloc, plan, files, out), plan, err)
}

/// Reads the plan's file and writes what is told of it.
fn run_say<F: Files, O: Sink>(
    alloc: Global,
    plan: &str,
    files: &mut F,
    out: &mut O,
) -> Result<Outcome, Fault>
    ensures { Came (SayEnds F.tells_all (F.told files.old plan.now) plan.now) result
        (Rose (F.faults files.old) (F.faults files.new))
        (taking O.taken O.faults out.old out.new) }
{
    match plan_bytes(alloc, plan, files) {
        Ok(bytes) => write_said(alloc, plan, &bytes, out),
        Err(Fault::Refused { text }) => write_text(text.as_slice(), Outcome::Refused, out),
        Err(fault) => Err(fault),
    }
}

/// Writes what is told of a plan's bytes. Everything that takes memory comes before the first write.
fn write_said<O: Sink>(
    alloc: Global,
    plan: &str,
    bytes: &[u8],
    out: &mut O,
) -> Result<Outcome, Fault>
    ensures { Came (SayEndsOf plan.now bytes.now) result ⊥ (taking O.taken O.faults out.old out.new) }
{
    let said = say_file(alloc, plan.as_bytes(), bytes)?;
    write_text(said.text.as_slice(), outcome_of(said.kind), out)
}

/// What the command told, by what the plan came to.
fn outcome_of(kind: Kind) -> Outcome
    ensures { result ≡ outcome_of kind }
{
    match kind {
        Kind::Clean => Outcome::Done,
        Kind::Warned => Outcome::Found,
        Kind::Refused => Outcome::Refused,
    }
}
