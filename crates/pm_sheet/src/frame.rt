//! What stands around the lanes: the names of the rows, moments, numbers of lines, how devices end, and which are left out.

use crate::canvas::{Canvas, Frame, text_width};
use crate::head::Head;
use crate::rows::{Row, Rows, Subject};
use crate::scene::{LeftOn, Run, Survey, push_end};
use crate::svg::Style;
use pm_base::{DevId, NoMemory};
use pm_linetext::{push, push_number};
use std::alloc::Global;

/// Room for moments above the lanes, in pixels.
const ABOVE: u32 = 22;

/// Room for numbers of lines and the last line below them, in pixels.
const BELOW: u32 = 42;

/// The head needs this width, in pixels.
const LEAST: u32 = 1_110;

// The name of a row.
fn name<'a>(run: &Run<'a>, subject: Subject) -> &'a [u8] {
    match subject {
        Subject::Caller(caller) => run.caller_name(caller),
        Subject::Domain(domain) => run.domain_name(domain),
        Subject::Device(dev) => run.device_name(dev),
        Subject::Link(holding) => run.device_name(holding.supplier),
    }
}

// How far a row is indented, in pixels.
fn indent(row: &Row) -> u32 {
    let steps = match row.subject {
        Subject::Link(_) => row.depth.saturating_add(1),
        _ => row.depth,
    };
    steps.saturating_mul(10).saturating_add(8)
}

// How wide the names are, in pixels.
fn names_width(run: &Run<'_>, rows: &Rows) -> u32 {
    let mut width = 90;
    for row in rows.all() {
        let words = name(run, row.subject).len().saturating_add(3);
        let here = text_width(words).saturating_mul(11) / 10;
        width = here.saturating_add(indent(row)).max(width);
    }
    width.saturating_add(8)
}

/// How wide the words at the right are, in pixels. Fails where memory runs out.
pub fn ends_width(
    alloc: Global,
    run: &Run<'_>,
    survey: &Survey,
    left: &LeftOn,
    rows: &Rows,
) -> Result<u32, NoMemory> {
    let mut width = 0;
    let mut words = Vec::new(alloc);
    for row in rows.all() {
        if let Subject::Device(dev) = row.subject {
            words.clear();
            push_end(&mut words, run, survey, left, dev)?;
            width = text_width(words.len()).max(width);
        }
    }
    Ok(width.saturating_add(24))
}

/// The measures of a picture, by how wide the lanes are with the words at their right, in pixels.
pub fn frame_of(run: &Run<'_>, rows: &Rows, head: &Head<'_>, lanes: u32) -> Frame {
    let left = names_width(run, rows);
    let top = head.height().saturating_add(ABOVE);
    Frame {
        left,
        top,
        width: left.saturating_add(lanes).max(LEAST),
        height: top.saturating_add(rows.height()).saturating_add(BELOW),
    }
}

// Where the words of a row stand in it.
fn baseline(canvas: &Canvas<'_>, row: &Row) -> u32 {
    if !canvas.is_whole() {
        return row.y.saturating_add(10);
    }
    let below = match row.subject {
        Subject::Caller(_) => row.height.saturating_sub(17),
        Subject::Domain(_) => 13,
        Subject::Device(_) => 20,
        Subject::Link(_) => 10,
    };
    row.y.saturating_add(below)
}

// How the name of a row looks.
fn name_style(canvas: &Canvas<'_>, subject: Subject) -> Style {
    match subject {
        Subject::Caller(_) | Subject::Device(_) if canvas.is_whole() => Style::Name,
        _ => Style::Minor,
    }
}

// Writes the name of a row.
fn write_name(canvas: &mut Canvas<'_>, row: &Row) -> Result<(), NoMemory> {
    let run = canvas.run;
    let style = name_style(canvas, row.subject);
    let y = baseline(canvas, row);
    canvas.say(match row.subject {
        Subject::Link(_) => b"holds ",
        _ => b"",
    })?;
    push(&mut canvas.pen.words, name(&run, row.subject))?;
    canvas.label(style, indent(row), y, false)
}

// Writes below the name of a device in which domain it is.
fn write_home(canvas: &mut Canvas<'_>, row: &Row, dev: DevId) -> Result<(), NoMemory> {
    let run = canvas.run;
    let Some(device) = run.plan.devices.get(dev.0 as usize) else {
        return Ok(());
    };
    let Some(domain) = device.domain else {
        return Ok(());
    };
    canvas.say(b"in ")?;
    push(&mut canvas.pen.words, run.domain_name(domain))?;
    canvas.label(Style::Minor, indent(row), row.y.saturating_add(31), false)
}

// Writes at the right how a device ends.
fn write_end(
    canvas: &mut Canvas<'_>,
    left: &LeftOn,
    row: &Row,
    dev: DevId,
) -> Result<(), NoMemory> {
    let run = canvas.run;
    let y = baseline(canvas, row);
    canvas.say(b"")?;
    let style = push_end(&mut canvas.pen.words, &run, canvas.survey, left, dev)?;
    canvas.label(style, canvas.right().saturating_add(8), y, false)
}

// Draws what stands around a row.
fn draw_row(canvas: &mut Canvas<'_>, left: &LeftOn, row: &Row) -> Result<(), NoMemory> {
    let below = row.y.saturating_add(row.height);
    canvas.rule(0, below, canvas.right(), below)?;
    write_name(canvas, row)?;
    if let Subject::Device(dev) = row.subject {
        if canvas.is_whole() {
            write_home(canvas, row, dev)?;
        }
        write_end(canvas, left, row, dev)?;
    }
    Ok(())
}

/// Draws what stands around the rows: their names, and how the devices end.
pub fn draw_rows(canvas: &mut Canvas<'_>, left: &LeftOn) -> Result<(), NoMemory> {
    canvas.point_at_nothing();
    let rows = canvas.rows;
    for row in rows.all() {
        if let Some(row) = canvas.row(row.subject) {
            draw_row(canvas, left, &row)?;
        }
    }
    Ok(())
}

// Draws a moment: a thin line through the lanes, and its words where they are free.
fn draw_moment(canvas: &mut Canvas<'_>, x: u32, time: u64, free: &mut u32) -> Result<(), NoMemory> {
    let top = canvas.frame.top;
    let bottom = top.saturating_add(canvas.rows.height());
    if canvas.is_whole() || x >= *free {
        canvas.rule(x, top.saturating_sub(4), x, bottom)?;
    }
    if x < *free {
        return Ok(());
    }
    canvas.say(b"")?;
    push_number(&mut canvas.pen.words, time)?;
    push(&mut canvas.pen.words, b" ms")?;
    *free = x
        .saturating_add(text_width(canvas.pen.words.len()))
        .saturating_add(12);
    canvas.label(Style::Moment, x, top.saturating_sub(8), false)
}

/// Draws the moments: where time passes, and the milliseconds since the run began.
pub fn draw_moments(canvas: &mut Canvas<'_>) -> Result<(), NoMemory> {
    canvas.point_at_nothing();
    let mut free = 0;
    let mut last = None;
    let mut number: u32 = 0;
    let lines = canvas.run.lines;
    for line in lines {
        number = number.saturating_add(1);
        if last != Some(line.time) {
            let x = canvas.x(number).saturating_sub(5);
            draw_moment(canvas, x, line.time, &mut free)?;
        }
        last = Some(line.time);
    }
    Ok(())
}

// Writes the number of a line below the lanes.
fn write_number(canvas: &mut Canvas<'_>, number: u32, x: u32) -> Result<(), NoMemory> {
    let bottom = canvas.frame.top.saturating_add(canvas.rows.height());
    canvas.point_at(number)?;
    canvas.say(b"line ")?;
    push_number(&mut canvas.pen.words, u64::from(number))?;
    canvas.label(Style::Number, x, bottom.saturating_add(14), false)
}

/// Writes the numbers of lines below the lanes, where they are free.
pub fn write_numbers(canvas: &mut Canvas<'_>) -> Result<(), NoMemory> {
    let survey = canvas.survey;
    let mut free = 0;
    let mut number: u32 = 0;
    for mark in &survey.marks {
        number = number.saturating_add(1);
        let x = canvas.x(number);
        if *mark && x >= free {
            write_number(canvas, number, x)?;
            free = x.saturating_add(64);
        }
    }
    Ok(())
}

// Appends the names of devices of which nothing is shown, as many as have room.
fn push_quiet(canvas: &mut Canvas<'_>) -> Result<usize, NoMemory> {
    let run = canvas.run;
    let survey = canvas.survey;
    let room = canvas.frame.width / 6;
    let mut count: usize = 0;
    for (glance, row) in survey.devices.iter().zip(run.plan.devices.as_slice()) {
        if glance.changes {
            continue;
        }
        count = count.saturating_add(1);
        if canvas.pen.words.len().saturating_add(48) < room as usize {
            push(
                &mut canvas.pen.words,
                if count == 1 { b" ".as_slice() } else { b", " },
            )?;
            push(&mut canvas.pen.words, pm_model::Named::name(row).as_slice())?;
        }
    }
    Ok(count)
}

/// Tells below the lanes which devices are left out.
pub fn write_quiet(canvas: &mut Canvas<'_>) -> Result<(), NoMemory> {
    canvas.point_at_nothing();
    canvas.say(b"not drawn, since nothing happens to them:")?;
    if push_quiet(canvas)? == 0 {
        return Ok(());
    }
    let bottom = canvas.frame.top.saturating_add(canvas.rows.height());
    canvas.label(Style::Note, 8, bottom.saturating_add(32), false)
}
