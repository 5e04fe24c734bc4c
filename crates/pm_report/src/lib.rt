//! The summary of a run, in numbers and as one line of text.
#![tactic(auto)]

ghost use Rattle.std.specs.Prelude.{◌≡◌, ◌+◌, ◌<◌, ◌^◌, ◌++◌, ◌∷◌, [], Bool, IfOk, List, OnOk, decimal, length};
ghost use Rattle.std.specs.String.{string_bytes};
ghost use Rattle.pm_model.specs.declared.event.Line.{Line as ALine};
ghost use Rattle.pm_model.specs.declared.plan.Plan.{Plan as APlan};
ghost use Rattle.pm_report.specs.Report.{AreCounts, begin_lines, begins, ending_word, summary, summary_text};

mod counts;

pub use counts::Summary;
use pm_base::{Cb, NoMemory};
use pm_model::{Event, Line, Plan};
use std::alloc::{AllocError, Global};

/// The summary of these lines, of which there are fewer than 2^32. It takes no memory.
pub fn summary(plan: &Plan, lines: &[Line], finished: bool) -> Summary
    requires { length lines.now < 2 ^ 32 }
    ensures { result ≡ summary plan.now lines.now finished }
{
    Summary {
        devices: plan.devices.len() as u32,
        lines: lines.len() as u32,
        resumes: begin_lines(lines, Cb::Resume),
        suspends: begin_lines(lines, Cb::Suspend),
        idles: begin_lines(lines, Cb::Idle),
        finished,
    }
}

/// The counts with those of one line more, where they are the counts of fewer lines than 2^32 - 1. So a run is counted line
/// by line, with no list. It takes no memory.
pub fn one_more(sum: &Summary, line: &Line) -> Summary
    requires some { AreCounts sum.now }
    requires few { sum.now.lines + 1 < 2 ^ 32 }
    ensures { (plan : APlan) (lines : List ALine) (finished : Bool) → sum.now ≡ summary plan lines finished → result ≡ summary plan (lines ++ line.now ∷ []) finished }
{
    Summary {
        lines: sum.lines + 1,
        resumes: with_line(sum.resumes, line, Cb::Resume),
        suspends: with_line(sum.suspends, line, Cb::Suspend),
        idles: with_line(sum.idles, line, Cb::Idle),
        ..*sum
    }
}

// A count of lines that say that such a callback begins, with one line more.
fn with_line(count: u32, line: &Line, cb: Cb) -> u32
    requires { count + 1 < 2 ^ 32 }
    ensures { (lines : List ALine) → count ≡ begin_lines cb lines → result ≡ begin_lines cb (lines ++ line.now ∷ []) }
{
    if begins(line, cb) { count + 1 } else { count }
}

/// The text of a summary, with its newline:
/// `devices 1 lines 37 resumes 1 suspends 1 idles 0 finished`. The last word is `limit` where the run
/// isn't finished. Fails where memory runs out.
pub fn summary_text(alloc: Global, sum: &Summary) -> Result<Vec<u8>, NoMemory>
    ensures { IfOk result (λ text. text.items ≡ summary_text sum.now) }
{
    let mut text = String::new(alloc);
    push_count(&mut text, "devices ", sum.devices)?;
    push_count(&mut text, " lines ", sum.lines)?;
    push_count(&mut text, " resumes ", sum.resumes)?;
    push_count(&mut text, " suspends ", sum.suspends)?;
    push_count(&mut text, " idles ", sum.idles)?;
    text.push_str(" ")?;
    text.push_str(ending_word(sum.finished))?;
    text.push_str("\n")?;
    Ok(text.into_bytes())
}

// Appends a count behind its word.
fn push_count(text: &mut String, word: &str, count: u32) -> Result<(), AllocError>
    ensures { OnOk result (string_bytes text.new ≡ string_bytes text.old ++ (word.now ++ decimal count)) }
{
    write!(text, "{word}{count}")
}

// Whether a line says that such a callback begins.
fn begins(line: &Line, cb: Cb) -> bool
    ensures { result ≡ begins cb line.now }
{
    matches!(line.event, Event::Begin { cb: begun, .. } if begun == cb)
}

// How many lines say that such a callback begins.
fn begin_lines(lines: &[Line], cb: Cb) -> u32
    requires { length lines.now < 2 ^ 32 }
    ensures { result ≡ begin_lines cb lines.now }
{
    lines.iter().filter(|line| begins(*line, cb)).count() as u32
}

// How a run ended.
fn ending_word(finished: bool) -> &'static str
    ensures { result.now ≡ ending_word finished }
{
    if finished { "finished" } else { "limit" }
}
