//! The head of a picture: what it is of, what its shapes mean, and what stands out.

use crate::canvas::{Canvas, text_width};
use crate::svg::Style;
use pm_base::NoMemory;
use pm_find::findings::{Finding, Weight};
use pm_find::text::push_finding;
use pm_linetext::{push, push_number};

/// So many findings are told at most.
pub const MOST: usize = 6;

/// How high the head is without findings, in pixels.
const HEAD: u32 = 66;

/// How high a line of words is, in pixels.
const LEADING: u32 = 14;

/// What is told in the head.
#[derive(Clone, Copy)]
pub struct Head<'a> {
    /// How the trace is called.
    pub file: &'a [u8],
    /// The errors and the warnings.
    pub findings: &'a [Finding],
    pub is_finished: bool,
}

impl Head<'_> {
    // How many findings are told.
    fn told(&self) -> usize {
        self.findings.len().min(MOST)
    }

    /// How high the head is, in pixels.
    pub fn height(&self) -> u32 {
        let lines = match self.told() {
            0 => 1,
            told if told < self.findings.len() => told.saturating_add(1),
            told => told,
        };
        let lines = u32::try_from(lines).unwrap_or(u32::MAX);
        lines.saturating_mul(LEADING).saturating_add(HEAD + 4)
    }
}

// Appends a number and a word.
fn push_counted(canvas: &mut Canvas<'_>, count: u64, word: &[u8]) -> Result<(), NoMemory> {
    push_number(&mut canvas.pen.words, count)?;
    push(&mut canvas.pen.words, word)
}

// Says how much the run has, and how to read the picture.
fn say_what(canvas: &mut Canvas<'_>, is_finished: bool) -> Result<(), NoMemory> {
    canvas.say(b"")?;
    let lines = canvas.run.lines.len() as u64;
    let time = canvas.run.time();
    push_counted(canvas, lines, b" lines, ")?;
    push_counted(canvas, time, b" ms")?;
    if !is_finished {
        push(&mut canvas.pen.words, b", not finished")?;
    }
    if canvas.is_whole() {
        push(
            &mut canvas.pen.words,
            b". From left to right go the lines; passed time widens a step. Point at a shape to see its line.",
        )
    } else {
        push(
            &mut canvas.pen.words,
            b". An overview: thin lanes, without words, callbacks, counts and links. With --json, pm_lab picture has all of it.",
        )
    }
}

// Draws what a style means, at a place, and answers where the next stands.
fn draw_key(
    canvas: &mut Canvas<'_>,
    style: Style,
    over: Option<Style>,
    words: &[u8],
    x: u32,
) -> Result<u32, NoMemory> {
    canvas.block(style, x, 41, 12, 12)?;
    if let Some(over) = over {
        canvas.block(over, x, 41, 12, 12)?;
    }
    let after = x.saturating_add(16);
    canvas.write(Style::Note, after, 51, words)?;
    Ok(
        after
            .saturating_add(text_width(words.len()))
            .saturating_add(8),
    )
}

// Draws what the styles mean.
fn draw_keys(canvas: &mut Canvas<'_>) -> Result<(), NoMemory> {
    let x = draw_key(canvas, Style::Suspended, None, b"suspended, off", 8)?;
    let x = draw_key(canvas, Style::Resuming, None, b"resuming", x)?;
    let x = draw_key(canvas, Style::Active, None, b"active", x)?;
    let x = draw_key(canvas, Style::Suspending, None, b"suspending", x)?;
    let x = draw_key(
        canvas,
        Style::Suspended,
        Some(Style::Disabled),
        b"disabled",
        x,
    )?;
    let x = draw_key(canvas, Style::On, None, b"domain on", x)?;
    let x = draw_key(canvas, Style::CallFailed, None, b"error", x)?;
    let x = draw_key(canvas, Style::CallRefused, None, b"try again, odd", x)?;
    if !canvas.is_whole() {
        return Ok(());
    }
    let x = draw_key(
        canvas,
        Style::Callback,
        None,
        b"callback: resume, suspend, idle",
        x,
    )?;
    let x = draw_key(canvas, Style::Runs, None, b"work, timer", x)?;
    let x = draw_key(canvas, Style::Held, None, b"link held", x)?;
    canvas.write(Style::Count, x, 51, b"1")?;
    canvas.write(Style::Note, x.saturating_add(10), 51, b"usage")
}

// Writes a finding, as `pm_lab find` tells it, but for the name of the file.
fn write_finding(canvas: &mut Canvas<'_>, found: &Finding, y: u32) -> Result<(), NoMemory> {
    let plan = canvas.run.plan;
    canvas.say(b"")?;
    push_finding(&mut canvas.pen.words, plan, b"line", found, b"")?;
    canvas.pen.words.pop();
    if let Some(colon) = canvas.pen.words.get_mut(4) {
        *colon = b' ';
    }
    let style = match found.kind.weight() {
        Weight::Error => Style::WordFailed,
        _ => Style::WordRefused,
    };
    canvas.point_at(found.line)?;
    canvas.label(style, 8, y, false)
}

// Writes that there are more findings.
fn write_more(canvas: &mut Canvas<'_>, more: usize, y: u32) -> Result<(), NoMemory> {
    canvas.point_at_nothing();
    canvas.say(b"and ")?;
    push_counted(canvas, more as u64, b" more: pm_lab find tells all")?;
    canvas.label(Style::WordRefused, 8, y, false)
}

// Writes what stands out, or that nothing does.
fn write_findings(canvas: &mut Canvas<'_>, head: &Head<'_>) -> Result<(), NoMemory> {
    let mut y = HEAD + 6;
    if head.findings.is_empty() {
        canvas.point_at_nothing();
        return canvas.write(Style::Note, 8, y, b"no error and no warning stands out");
    }
    for found in head.findings.iter().take(MOST) {
        write_finding(canvas, found, y)?;
        y = y.saturating_add(LEADING);
    }
    let more = head.findings.len().saturating_sub(MOST);
    if more > 0 {
        write_more(canvas, more, y)?;
    }
    Ok(())
}

/// Draws the head.
pub fn draw_head(canvas: &mut Canvas<'_>, head: &Head<'_>) -> Result<(), NoMemory> {
    canvas.point_at_nothing();
    canvas.write(Style::Heading, 8, 18, head.file)?;
    say_what(canvas, head.is_finished)?;
    canvas.label(Style::Note, 8, 33, false)?;
    draw_keys(canvas)?;
    write_findings(canvas, head)
}
