//! `convert PLAN TRACE`: writes a trace in format 2.

ghost use Rattle.std.specs.Prelude.{◌≡◌, ◌≢◌, IsErrOf};
ghost use Rattle.pm_io.specs.Asks.{AskedOnly};
ghost use Rattle.pm_io.specs.Faults.{Rose};
ghost use Rattle.pm_cmd_ends.specs.Coming.{Came};
ghost use Rattle.pm_cmd_ends.specs.Ending.{Answered, taking};
ghost use Rattle.pm_cmd_ends.specs.Reading.{OfPlan};
ghost use Rattle.pm_cmd_ends.specs.Told.{IsNoPlan};
ghost use Rattle.pm_cmd_top.specs.TraceCommands.{ConvertEnds, OfConvert};

use crate::trace_books::load_book;
use pm_book::Book;
use pm_cmd_ends::{Fault, Format, finish, load, write_text};
use pm_io::{Files, Sink};
use pm_linetext::LineSpeller;
use pm_model::Plan;
use std::alloc::Global;

/// Runs `convert PLAN TRACE`: reads the plan and the trace, and writes the text of format 2 of its list to
/// `out`. A message goes to `err`, and the answer is the status that the program ends with.
pub fn convert_top<F: Files, O: Sink, E: Sink>(
    alloc: Global,
    plan: &str,
    trace: &str,
    files: &mut F,
    out: &mut O,
    err: &mut E,
) -> u8
    ensures answer { Answered (OfPlan F.tells_all (F.told files.old plan.now)
        (OfConvert F.tells_all (F.told files.old trace.now))) result
        (Rose (F.faults files.old) (F.faults files.new))
        (taking O.taken O.faults out.old out.new) (taking E.taken E.faults err.old err.new) }
    ensures calm { result ≢ 4 → F.faults files.new ≡ F.faults files.old }
    ensures alone { IsNoPlan (F.told files.old plan.now) → AskedOnly plan.now (F.asked files.old) (F.asked files.new) }
{
    finish(run_convert(alloc, plan, trace, files, out), err)
}

/// Reads the plan and the trace, and writes its list.
fn run_convert<F: Files, O: Sink>(
    alloc: Global,
    plan: &str,
    trace: &str,
    files: &mut F,
    out: &mut O,
) -> Result<(), Fault>
    ensures came { Came (OfPlan F.tells_all (F.told files.old plan.now)
        (OfConvert F.tells_all (F.told files.old trace.now))) result
        (Rose (F.faults files.old) (F.faults files.new))
        (taking O.taken O.faults out.old out.new) }
    ensures calm { ¬ IsErrOf result Fault.ReadFailed → F.faults files.new ≡ F.faults files.old }
    ensures alone { IsNoPlan (F.told files.old plan.now) → AskedOnly plan.now (F.asked files.old) (F.asked files.new) }
{
    let plan = load(alloc, plan, files)?;
    convert_by(alloc, plan, trace, files, out)
}

/// Reads the trace, and writes its list.
fn convert_by<F: Files, O: Sink>(
    alloc: Global,
    plan: Plan,
    trace: &str,
    files: &mut F,
    out: &mut O,
) -> Result<(), Fault>
    ensures came { Came (OfConvert F.tells_all (F.told files.old trace.now) plan) result
        (Rose (F.faults files.old) (F.faults files.new))
        (taking O.taken O.faults out.old out.new) }
    ensures calm { ¬ IsErrOf result Fault.ReadFailed → F.faults files.new ≡ F.faults files.old }
{
    let book = load_book(alloc, plan, trace, files)?;
    write_converted(alloc, &book, out)
}

/// Writes the list of a book in format 2.
fn write_converted<O: Sink>(alloc: Global, book: &Book, out: &mut O) -> Result<(), Fault>
    ensures { Came (ConvertEnds book.now.plan book.now.lines) result ⊥
        (taking O.taken O.faults out.old out.new) }
{
    let speller = LineSpeller::new(alloc, book.plan())?;
    write_text(out, &speller, Format::Two, book.lines())?;
    Ok(())
}
