//! Writes the lines of a run, in either format.

ghost use Rattle.std.specs.Prelude.{◌≡◌, ◌≤◌, All, OnErr, OnOk, reverse, true};
ghost use Rattle.std.specs.Io.KnownBytes.{append_known};
ghost use Rattle.std.specs.List.{list_all};
ghost use Rattle.pm_io.specs.Faults.{Rose};
ghost use Rattle.pm_io.specs.Sink.{TookPrefix};
ghost use Rattle.pm_model.specs.Lawful.{IsLawful};
ghost use Rattle.pm_model.specs.LineOf.{is_line_of};
ghost use Rattle.pm_cmd_ends.specs.Pieces.{AreInTime, format_of, header_piece, line_piece, line_pieces, text_in};

use pm_base::{ActorId, Failed};
use pm_io::{Sink, write_whole};
use pm_linetext::{LineSpeller, TimedText};
use pm_model::{Event, Line, Plan};

/// A format of traces.
#[derive(Clone, Copy, PartialEq, Eq)]
pub enum Format {
    /// Each line with its time.
    One,
    /// A header, and each line with the time since the line before it.
    Two,
}

impl Format {
    /// The format of the plan's trace.
    pub fn of(plan: &Plan) -> Format
        ensures { result ≡ format_of plan.now }
    {
        if plan.trace == 2 {
            Format::Two
        } else {
            Format::One
        }
    }
}

/// Writes the text of lines in order: the header of format 2 as one piece, and each line with its newline
/// as one piece. They are lines of the speller's plan. It takes no memory.
///
/// At `Failed` the sink took a prefix of the text.
pub fn write_text<O: Sink>(
    out: &mut O,
    speller: &LineSpeller,
    format: Format,
    lines: &[Line],
) -> Result<(), Failed>
    requires lawful { IsLawful speller.now (reverse lines.now) }
    requires of_plan { list_all (is_line_of speller.now) (reverse lines.now) ≡ true }

    ensures text { OnOk result
        (O.taken out.new ≡ append_known (O.taken out.old) (text_in format speller.now lines.now)) }
    ensures prefix { OnErr result
        (TookPrefix (O.taken out.old) (O.taken out.new) (text_in format speller.now lines.now)) }
    ensures failed { OnErr result (Rose (O.faults out.old) (O.faults out.new)) }
{
    write_header(out, format)?;
    write_lines(out, speller, format, lines)?;
    Ok(())
}

/// Writes the line with which a trace of format 2 begins. At `Failed` the sink took a prefix of it.
pub fn write_header<O: Sink>(out: &mut O, format: Format) -> Result<(), Failed>
    ensures text { OnOk result
        (O.taken out.new ≡ append_known (O.taken out.old) (header_piece format)) }
    ensures prefix { OnErr result
        (TookPrefix (O.taken out.old) (O.taken out.new) (header_piece format)) }
    ensures failed { OnErr result (Rose (O.faults out.old) (O.faults out.new)) }
    ensures never_falls { O.faults out.old ≤ O.faults out.new }
{
    match format {
        Format::One => Ok(()),
        Format::Two => write_whole(out, b"pm_trace 2\n"),
    }
}

/// Writes each line, with its newline, as one piece.
fn write_lines<O: Sink>(
    out: &mut O,
    speller: &LineSpeller,
    format: Format,
    lines: &[Line],
) -> Result<(), Failed>
    requires in_time { AreInTime 0 lines.now }
    requires of_plan { All (λ line. is_line_of speller.now line ≡ true) lines.now }

    ensures text { OnOk result
        (O.taken out.new ≡ append_known (O.taken out.old) (line_pieces format speller.now 0 lines.now)) }
    ensures prefix { OnErr result
        (TookPrefix (O.taken out.old) (O.taken out.new) (line_pieces format speller.now 0 lines.now)) }
    ensures failed { OnErr result (Rose (O.faults out.old) (O.faults out.new)) }
{
    let mut text = TimedText::new();
    let mut base = 0;
    for line in lines {
        spell(
            speller,
            format,
            base,
            line.time,
            line.actor,
            &line.event,
            &mut text,
        );
        write_whole(out, text.as_slice())?;
        base = line.time;
    }
    Ok(())
}

/// Puts the text of the line of this time, actor and event, behind a line of time `base`, with its newline, in place of what
/// `text` held.
#[inline(always)]
pub fn spell(
    speller: &LineSpeller,
    format: Format,
    base: u64,
    time: u64,
    actor: ActorId,
    event: &Event,
    text: &mut TimedText,
)
    requires of_plan { is_line_of speller.now (record { time = time; actor = actor; event = event.now }) ≡ true }
    requires in_time { base ≤ time }
    ensures { text.new ≡ line_piece format speller.now base (record { time = time; actor = actor; event = event.now }) }
{
    let shown = match format {
        Format::One => time,
        Format::Two => time - base,
    };
    speller.spell_parts(shown, actor, event, text);
}
