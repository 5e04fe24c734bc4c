//! Work items and timers of devices, in a picture of all.

use pm_base::{ActorId, DevId, NoMemory, Req};
use pm_lanes::Shown;
use pm_linetext::{push, push_number};
use pm_model::{Event, WorkAct};
use pm_sheet::columns::Span;
use pm_sheet::rows::Subject;
use pm_sheet::svg::Style;
use pm_sheet::{Canvas, text_width};

/// How high the part of a device's row with its band is, in pixels.
pub(crate) const BAND: u32 = 34;

/// How high a strip below it is, in pixels.
pub(crate) const STRIP: u32 = 14;

// Whether the timer of a device has something to show.
fn has_timer(canvas: &Canvas<'_>, dev: DevId) -> bool {
    match canvas.survey.devices.get(dev.0 as usize) {
        Some(glance) => glance.timers,
        None => false,
    }
}

// Where the strip of a timer is in a device's row, in pixels from its top.
const TIMER: u32 = 30;

// Where the strip of its work item is.
fn work_strip(canvas: &Canvas<'_>, dev: DevId) -> u32 {
    if has_timer(canvas, dev) {
        TIMER + STRIP
    } else {
        TIMER
    }
}

// The word of a request.
fn req_word(req: Req) -> &'static [u8] {
    match req {
        Req::Nothing => b"work",
        Req::Idle => b"work: idle",
        Req::Suspend => b"work: suspend",
        Req::Autosuspend => b"work: autosuspend",
        Req::Resume => b"work: resume",
    }
}

// What the first line of a work item says that it does.
fn run_words(canvas: &Canvas<'_>, line: u32) -> &'static [u8] {
    match canvas.run.line(line) {
        Some(line) => match line.event {
            Event::Work {
                act: WorkAct::Run(req),
                ..
            } => req_word(req),
            _ => b"work",
        },
        None => b"",
    }
}

// Draws a bar below the band of a device, with the canvas's words where they fit.
fn draw_below(
    canvas: &mut Canvas<'_>,
    dev: DevId,
    strip: u32,
    style: Style,
    place: usize,
    line: u32,
) -> Result<(), NoMemory> {
    let Some(row) = canvas.row(Subject::Device(dev)) else {
        return Ok(());
    };
    canvas.point_at(line)?;
    let span = canvas.columns.span(line, canvas.run.until(place));
    let bar = Span {
        x: span.x,
        width: span.width.saturating_sub(1),
    };
    let y = row.y.saturating_add(strip);
    canvas.bar(style, bar, y, 12)?;
    if text_width(canvas.pen.words.len()).saturating_add(6) > span.width {
        return Ok(());
    }
    let x = canvas.frame.left.saturating_add(span.x);
    canvas.label(
        Style::Minor,
        x.saturating_add(3),
        y.saturating_add(9),
        false,
    )
}

// Writes until when a timer is armed.
fn say_deadline(canvas: &mut Canvas<'_>, deadline: u64) -> Result<(), NoMemory> {
    canvas.say(b"timer ")?;
    push_number(&mut canvas.pen.words, deadline)?;
    push(&mut canvas.pen.words, b" ms")
}

// Writes whom a work item waits for.
fn write_wait(canvas: &mut Canvas<'_>, own: DevId, line: u32, name: &[u8]) -> Result<(), NoMemory> {
    let Some(row) = canvas.row(Subject::Device(own)) else {
        return Ok(());
    };
    canvas.point_at(line)?;
    canvas.say(b"waits for ")?;
    push(&mut canvas.pen.words, name)?;
    let x = canvas.x(line).saturating_add(2);
    canvas.label(
        Style::WordRefused,
        x,
        row.y.saturating_add(row.height.saturating_sub(4)),
        false,
    )
}

// Draws what a piece shows that waits: a work item that is queued, a timer that is armed.
fn draw_waiting(
    canvas: &mut Canvas<'_>,
    place: usize,
    line: u32,
    shown: &Shown,
) -> Result<(), NoMemory> {
    match *shown {
        Shown::Queued { dev, queued: true } => {
            let strip = work_strip(canvas, dev);
            canvas.say(b"queued")?;
            draw_below(canvas, dev, strip, Style::Queued, place, line)
        }
        Shown::Armed {
            dev,
            deadline: Some(deadline),
        } => {
            say_deadline(canvas, deadline)?;
            draw_below(canvas, dev, TIMER, Style::Queued, place, line)
        }
        _ => Ok(()),
    }
}

// Draws what a piece shows of a work item or a timer that runs.
fn draw_running(
    canvas: &mut Canvas<'_>,
    place: usize,
    line: u32,
    shown: &Shown,
) -> Result<(), NoMemory> {
    match *shown {
        Shown::Runs {
            actor: ActorId::Work(dev),
            runs: true,
        } => {
            let dev = DevId(dev);
            let strip = work_strip(canvas, dev);
            let words = run_words(canvas, line);
            canvas.say(words)?;
            draw_below(canvas, dev, strip, Style::Runs, place, line)
        }
        Shown::Runs {
            actor: ActorId::Timer(dev),
            runs: true,
        } => {
            canvas.say(b"timer")?;
            draw_below(canvas, DevId(dev), TIMER, Style::Runs, place, line)
        }
        Shown::Waits {
            actor: ActorId::Work(own) | ActorId::Timer(own),
            dev,
        } => {
            let name = canvas.run.device_name(dev);
            write_wait(canvas, DevId(own), line, name)
        }
        _ => Ok(()),
    }
}

/// Draws work items and timers below the bands of their devices, in a picture of all.
pub(crate) fn draw_works(canvas: &mut Canvas<'_>) -> Result<(), NoMemory> {
    if !canvas.is_whole() {
        return Ok(());
    }
    let pieces = canvas.run.pieces;
    for (place, piece) in pieces.iter().enumerate() {
        draw_waiting(canvas, place, piece.line, &piece.shown)?;
    }
    for (place, piece) in pieces.iter().enumerate() {
        draw_running(canvas, place, piece.line, &piece.shown)?;
    }
    Ok(())
}
