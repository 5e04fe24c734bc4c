//! Bands: the status of devices, domains that are on, links that are held, devices that are disabled; and callbacks on them.

use pm_base::{Cb, DevId, NoMemory, Status};
use pm_find::text::push_code;
use pm_lanes::{Piece, Shown};
use pm_linetext::{push, push_number};
use pm_sheet::columns::Span;
use pm_sheet::rows::{Holding, Row, Subject};
use pm_sheet::svg::Style;
use pm_sheet::{Canvas, text_width};

/// How the band of a status looks.
fn status_style(status: Status) -> Style {
    match status {
        Status::Active => Style::Active,
        Status::Suspended => Style::Suspended,
        Status::Suspending => Style::Suspending,
        Status::Resuming => Style::Resuming,
    }
}

/// Where the band of a row lies in it, and how high it is.
fn band(canvas: &Canvas<'_>, row: &Row) -> (u32, u32) {
    match row.subject {
        Subject::Device(_) if canvas.is_whole() => (row.y.saturating_add(5), 22),
        Subject::Device(_) => (row.y.saturating_add(2), 9),
        Subject::Domain(_) if canvas.is_whole() => (row.y.saturating_add(4), 11),
        Subject::Link(_) => (row.y.saturating_add(3), 7),
        _ => (row.y.saturating_add(2), 6),
    }
}

// Draws a part of a band, unless it has no width.
fn draw_part(
    canvas: &mut Canvas<'_>,
    subject: Subject,
    style: Style,
    span: Span,
) -> Result<(), NoMemory> {
    if span.width == 0 {
        return Ok(());
    }
    let Some(row) = canvas.row(subject) else {
        return Ok(());
    };
    let (y, height) = band(canvas, &row);
    canvas.bar(style, span, y, height)
}

// Draws the part of a band that a piece begins.
fn draw_piece(
    canvas: &mut Canvas<'_>,
    place: usize,
    subject: Subject,
    style: Style,
) -> Result<(), NoMemory> {
    let Some(piece) = canvas.run.pieces.get(place) else {
        return Ok(());
    };
    let span = canvas.columns.span(piece.line, canvas.run.until(place));
    if span.width > 0 {
        canvas.point_at(piece.line)?;
    }
    draw_part(canvas, subject, style, span)
}

// How the band of a piece looks, and which it is; a piece of no band has none.
fn banded(piece: &Piece) -> Option<(Subject, Style)> {
    match piece.shown {
        Shown::Stands { dev, status } => Some((Subject::Device(dev), status_style(status))),
        Shown::Switched { domain, on: true } => Some((Subject::Domain(domain), Style::On)),
        Shown::Switched { domain, on: false } => Some((Subject::Domain(domain), Style::Suspended)),
        Shown::Held {
            consumer,
            supplier,
            held: true,
        } => Some((Subject::Link(Holding { consumer, supplier }), Style::Held)),
        _ => None,
    }
}

/// Draws the bands of statuses, domains and links, over their grounds.
pub(crate) fn draw_bands(canvas: &mut Canvas<'_>) -> Result<(), NoMemory> {
    let pieces = canvas.run.pieces;
    for (place, piece) in pieces.iter().enumerate() {
        if let Some((subject, style)) = banded(piece) {
            draw_piece(canvas, place, subject, style)?;
        }
    }
    Ok(())
}

// Draws the ground of a row: how it stands before the first line.
fn draw_ground(canvas: &mut Canvas<'_>, subject: Subject, style: Style) -> Result<(), NoMemory> {
    canvas.point_at_nothing();
    let span = canvas.columns.span(0, canvas.run.end());
    draw_part(canvas, subject, style, span)
}

/// Draws the grounds of all bands.
pub(crate) fn draw_grounds(canvas: &mut Canvas<'_>) -> Result<(), NoMemory> {
    let rows = canvas.rows;
    let survey = canvas.survey;
    for row in rows.all() {
        match row.subject {
            Subject::Device(_) => draw_ground(canvas, row.subject, Style::Suspended)?,
            Subject::Domain(domain) => {
                let is_on = survey.on.get(domain.0 as usize).copied().unwrap_or(false);
                let style = if is_on { Style::On } else { Style::Suspended };
                draw_ground(canvas, row.subject, style)?;
            }
            _ => {}
        }
    }
    Ok(())
}

// Hatches a device before it is enabled for the first time.
fn draw_first_hatch(canvas: &mut Canvas<'_>, dev: DevId) -> Result<(), NoMemory> {
    let Some(glance) = canvas.survey.devices.get(dev.0 as usize).copied() else {
        return Ok(());
    };
    canvas.point_at_nothing();
    let span = canvas.columns.span(0, glance.enabled);
    draw_part(canvas, Subject::Device(dev), Style::Disabled, span)
}

/// Hatches devices while they are disabled.
pub(crate) fn draw_hatches(canvas: &mut Canvas<'_>) -> Result<(), NoMemory> {
    let rows = canvas.rows;
    for row in rows.all() {
        if let Subject::Device(dev) = row.subject {
            draw_first_hatch(canvas, dev)?;
        }
    }
    let pieces = canvas.run.pieces;
    for (place, piece) in pieces.iter().enumerate() {
        if let Shown::Disabled {
            dev,
            disabled: true,
        } = piece.shown
        {
            draw_piece(canvas, place, Subject::Device(dev), Style::Disabled)?;
        }
    }
    Ok(())
}

// The word of a callback.
fn cb_word(cb: Cb) -> &'static [u8] {
    match cb {
        Cb::Idle => b"idle",
        Cb::Suspend => b"suspend",
        Cb::Resume => b"resume",
    }
}

// Its first letter.
fn cb_letter(cb: Cb) -> &'static [u8] {
    match cb {
        Cb::Idle => b"i",
        Cb::Suspend => b"s",
        Cb::Resume => b"r",
    }
}

// The code with which the callback of a piece ends, if it does.
fn code_of(canvas: &Canvas<'_>, place: usize) -> Option<i32> {
    match canvas.run.next(place)?.shown {
        Shown::Ended { code, .. } => Some(code),
        _ => None,
    }
}

// Writes the word of a callback on its bar, or its first letter where there is no room.
fn write_cb(canvas: &mut Canvas<'_>, cb: Cb, x: u32, y: u32, width: u32) -> Result<(), NoMemory> {
    let word = cb_word(cb);
    if text_width(word.len()) <= width {
        canvas.write(Style::OnDark, x.saturating_add(3), y, word)
    } else {
        let middle = x.saturating_add((width / 2).saturating_sub(3));
        canvas.write(Style::OnDark, middle, y, cb_letter(cb))
    }
}

// Writes below a callback that it fails.
fn write_failure(
    canvas: &mut Canvas<'_>,
    cb: Cb,
    code: i32,
    x: u32,
    y: u32,
) -> Result<(), NoMemory> {
    canvas.say(cb_word(cb))?;
    push(&mut canvas.pen.words, b" ")?;
    push_code(&mut canvas.pen.words, code)?;
    canvas.label(Style::LeftHeld, x, y, false)
}

// Draws the bar of a callback in a picture of all.
fn draw_callback(
    canvas: &mut Canvas<'_>,
    place: usize,
    cb: Cb,
    row: &Row,
    span: Span,
) -> Result<(), NoMemory> {
    let code = code_of(canvas, place).unwrap_or(0);
    let style = if code == 0 {
        Style::Callback
    } else {
        Style::CallbackFailed
    };
    canvas.bar(style, span, row.y.saturating_add(12), 14)?;
    let x = canvas.frame.left.saturating_add(span.x);
    write_cb(canvas, cb, x, row.y.saturating_add(22), span.width)?;
    if code != 0 {
        let y = row.y.saturating_add(row.height.saturating_sub(4));
        write_failure(canvas, cb, code, x, y)?;
    }
    Ok(())
}

// Draws a callback: its bar, or in an overview only one that fails.
fn draw_begun(
    canvas: &mut Canvas<'_>,
    place: usize,
    line: u32,
    dev: DevId,
    cb: Cb,
) -> Result<(), NoMemory> {
    let Some(row) = canvas.row(Subject::Device(dev)) else {
        return Ok(());
    };
    let span = canvas.columns.span(line, canvas.run.until(place));
    if canvas.is_whole() {
        canvas.point_at(line)?;
        return draw_callback(canvas, place, cb, &row, span);
    }
    if code_of(canvas, place).unwrap_or(0) == 0 {
        return Ok(());
    }
    if span.width == 0 && !canvas.is_new(row.subject, span.x)? {
        return Ok(());
    }
    canvas.point_at(line)?;
    let span = Span {
        x: span.x,
        width: span.width.max(2),
    };
    canvas.bar(Style::CallbackFailed, span, row.y.saturating_add(2), 9)
}

/// Draws callbacks.
pub(crate) fn draw_callbacks(canvas: &mut Canvas<'_>) -> Result<(), NoMemory> {
    let pieces = canvas.run.pieces;
    for (place, piece) in pieces.iter().enumerate() {
        if let Shown::Begun { dev, cb } = piece.shown {
            draw_begun(canvas, place, piece.line, dev, cb)?;
        }
    }
    Ok(())
}

// Writes a usage count where it changes.
fn write_usage(canvas: &mut Canvas<'_>, line: u32, dev: DevId, usage: u32) -> Result<(), NoMemory> {
    let Some(row) = canvas.row(Subject::Device(dev)) else {
        return Ok(());
    };
    canvas.point_at(line)?;
    canvas.say(b"")?;
    push_number(&mut canvas.pen.words, u64::from(usage))?;
    let x = canvas.x(line).saturating_add(1);
    canvas.label(Style::Count, x, row.y.saturating_add(14), false)
}

/// Writes usage counts where they change, in a picture of all.
pub(crate) fn write_usages(canvas: &mut Canvas<'_>) -> Result<(), NoMemory> {
    if !canvas.is_whole() {
        return Ok(());
    }
    let pieces = canvas.run.pieces;
    for piece in pieces {
        if let Shown::Used { dev, usage } = piece.shown {
            write_usage(canvas, piece.line, dev, usage)?;
        }
    }
    Ok(())
}
