//! `serial PLAN`: runs the plan on one thread.

ghost use Rattle.std.specs.Prelude.{◌≡◌, ◌≢◌, ℕ, IsErrOf, IsSome, OnErr, OnOk, Some, length, slice_get, true};
ghost use Rattle.std.specs.Io.KnownBytes.{append_known};
ghost use Rattle.pm_io.specs.Asks.{AskedOnly};
ghost use Rattle.pm_io.specs.Faults.{Rose};
ghost use Rattle.pm_io.specs.Sink.{TookPrefix};
ghost use Rattle.pm_model.specs.declared.event.Line.{Line as ALine};
ghost use Rattle.pm_model.specs.LineOf.{is_line_of};
ghost use Rattle.pm_model.specs.Serial.{serial};
ghost use Rattle.pm_cmd_ends.specs.Pieces.{AreInTime, line_pieces};
ghost use Rattle.pm_cmd_ends.specs.Coming.{Came};
ghost use Rattle.pm_cmd_ends.specs.Ending.{Answered, taking};
ghost use Rattle.pm_cmd_ends.specs.Reading.{OfPlan};
ghost use Rattle.pm_cmd_top.specs.Runs.{SerialEnds};

use crate::running::ended;
use pm_base::Failed;
use pm_cmd_ends::{Fault, Format, finish, load, promises_are_kept, spell, write_header};
use pm_io::{Files, Sink, write_whole};
use pm_laws::turns::serial_ends;
use pm_linetext::{LineSpeller, TimedText};
use pm_model::{Move, Plan};
use pm_serial::{SerialLines, serial_lines_are_lawful};
use std::alloc::Global;

/// Runs `serial PLAN`: reads the plan, runs it on one thread and writes its lines to `out`. A message
/// goes to `err`, and the answer is the status that the program ends with.
pub fn serial_top<F: Files, O: Sink, E: Sink>(
    alloc: Global,
    plan: &str,
    files: &mut F,
    out: &mut O,
    err: &mut E,
) -> u8
    ensures answer { Answered (OfPlan F.tells_all (F.told files.old plan.now) SerialEnds) result
        (Rose (F.faults files.old) (F.faults files.new))
        (taking O.taken O.faults out.old out.new) (taking E.taken E.faults err.old err.new) }
    ensures calm { result ≢ 4 → F.faults files.new ≡ F.faults files.old }
    ensures alone { IsSome (F.told files.old plan.now) → AskedOnly plan.now (F.asked files.old) (F.asked files.new) }
{
    finish(run_serial(alloc, plan, files, out), err)
}

/// Reads the plan, runs it and writes the lines of its run.
fn run_serial<F: Files, O: Sink>(
    alloc: Global,
    plan: &str,
    files: &mut F,
    out: &mut O,
) -> Result<(), Fault>
    ensures came { Came (OfPlan F.tells_all (F.told files.old plan.now) SerialEnds) result
        (Rose (F.faults files.old) (F.faults files.new))
        (taking O.taken O.faults out.old out.new) }
    ensures calm { ¬ IsErrOf result Fault.ReadFailed → F.faults files.new ≡ F.faults files.old }
    ensures alone { IsSome (F.told files.old plan.now) → AskedOnly plan.now (F.asked files.old) (F.asked files.new) }
{
    let plan = load(alloc, plan, files)?;
    write_serial(alloc, &plan, out)
}

/// Runs the plan on one thread and writes each line as it comes. Everything that takes memory comes before the
/// first write.
pub(crate) fn write_serial<O: Sink>(alloc: Global, plan: &Plan, out: &mut O) -> Result<(), Fault>
    ensures { Came (SerialEnds plan.now) result ⊥ (taking O.taken O.faults out.old out.new) }
{
    serial_lines_are_lawful();
    serial_ends();
    promises_are_kept();
    let mut lines = SerialLines::start(alloc, plan)?;
    let speller = LineSpeller::new(alloc, plan)?;
    let format = Format::of(plan);
    write_header(out, format)?;
    write_coming(out, &speller, format, &mut lines)?;
    ended(lines.end())
}

/// Writes each line of a run that begins, with its newline, as one piece. It takes no memory.
fn write_coming<O: Sink>(
    out: &mut O,
    speller: &LineSpeller,
    format: Format,
    lines: &mut SerialLines,
) -> Result<(), Failed>
    requires plan { speller.now ≡ lines.old.plan }
    requires start { lines.old.came ≡ 0 }
    requires in_time { AreInTime 0 (serial lines.old.plan) }
    requires of_plan { (place : ℕ) (line : ALine) → slice_get (serial lines.old.plan) place ≡ Some line → is_line_of lines.old.plan line ≡ true }

    ensures text { OnOk result
        (O.taken out.new ≡ append_known (O.taken out.old) (line_pieces format speller.now 0 (serial lines.old.plan))) }
    ensures whole { OnOk result (lines.new.came ≡ length (serial lines.old.plan)) }
    ensures plan { lines.new.plan ≡ lines.old.plan }
    ensures prefix { OnErr result
        (TookPrefix (O.taken out.old) (O.taken out.new) (line_pieces format speller.now 0 (serial lines.old.plan))) }
    ensures failed { OnErr result (Rose (O.faults out.old) (O.faults out.new)) }
{
    let mut text = TimedText::new();
    let mut base = 0;
    // It stands here, since a move is large, and the line is spelled from it.
    let mut next = Move::Late(0);
    while let Some(turn) = lines.coming(&mut next) {
        let said = lines.event(&turn, &next);
        let actor = lines.actor(&turn);
        spell(speller, format, base, turn.time, actor, said, &mut text);
        lines.go_on(&turn, &next);
        write_whole(out, text.as_slice())?;
        base = turn.time;
    }
    Ok(())
}
