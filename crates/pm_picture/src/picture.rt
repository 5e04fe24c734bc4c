//! A whole picture.

ghost use Rattle.std.specs.Prelude.{◌≡◌, ◌<◌, ◌≤◌, ◌^◌, IfOk, length, reverse, true};
ghost use Rattle.std.specs.List.{list_all};
ghost use Rattle.pm_model.specs.Lawful.{IsLawful};
ghost use Rattle.pm_model.specs.LineOf.{is_line_of};
ghost use Rattle.pm_picture.specs.Calls.{IsPictureOf};
ghost use Rattle.pm_sheet.specs.svg.Shapes.{IsPicture};

use crate::bands::{draw_bands, draw_callbacks, draw_grounds, draw_hatches, write_usages};
use crate::calls::{Ground, Room, draw_calls};
use crate::works::{BAND, STRIP, draw_works};
use pm_base::NoMemory;
use pm_find::findings::{Finding, faults, findings};
use pm_lanes::calls::calls;
use pm_lanes::{all_pieces, next_places};
use pm_model::{Line, Plan};
use pm_sheet::columns::Columns;
use pm_sheet::rows::{Heights, Rows};
use pm_sheet::scene::{Glance, LeftOn, Notes, Run, Survey, left_on, notes_of};
use pm_sheet::svg::picture;
use pm_sheet::{
    Canvas, Head, draw_head, draw_moments, draw_rows, ends_width, frame_of, write_numbers,
    write_quiet,
};
use std::alloc::Global;

// How high the row of a device is in a picture of all, in pixels: below its band are its timer, its work item, and words: what
// failed, and whom these wait for.
fn whole_height(glance: &Glance) -> u32 {
    let timer = if glance.timers { STRIP } else { 0 };
    let work = if glance.works { STRIP } else { 0 };
    let words = if glance.fails || glance.waits {
        STRIP
    } else {
        0
    };
    BAND + timer + work + words
}

// How high the row of a device is, in pixels.
fn device_height(glance: &Glance, is_whole: bool) -> u32 {
    match (glance.changes, is_whole) {
        (false, _) => 0,
        (true, false) => 13,
        (true, true) => whole_height(glance),
    }
}

// How high the rows of devices are, in pixels.
fn device_heights(alloc: Global, survey: &Survey, is_whole: bool) -> Result<Vec<u32>, NoMemory> {
    let mut heights = Vec::new(alloc);
    for glance in &survey.devices {
        heights.push(device_height(glance, is_whole))?;
    }
    Ok(heights)
}

// The room that the words of calls need.
fn room_of(
    alloc: Global,
    run: &Run<'_>,
    columns: &Columns,
    notes: &Notes,
) -> Result<Room, NoMemory> {
    if columns.is_whole() {
        Room::of(alloc, run, columns, notes)
    } else {
        Room::thin(alloc, run.plan.callers.len())
    }
}

// The rows of a picture.
fn rows_of(
    alloc: Global,
    run: &Run<'_>,
    survey: &Survey,
    room: &Room,
    is_whole: bool,
) -> Result<Rows, NoMemory> {
    let devices = device_heights(alloc, survey, is_whole)?;
    let heights = Heights {
        callers: &room.heights,
        domain: if is_whole { 20 } else { 10 },
        devices: &devices,
        link: if is_whole { 14 } else { 0 },
    };
    Rows::new(alloc, run.plan, &survey.holdings, &heights)
}

// Draws what lies under the calls, the lowest first.
fn draw_under(canvas: &mut Canvas<'_>, head: &Head<'_>, left: &LeftOn) -> Result<(), NoMemory> {
    draw_head(canvas, head)?;
    draw_moments(canvas)?;
    draw_rows(canvas, left)?;
    draw_grounds(canvas)?;
    draw_bands(canvas)?;
    draw_hatches(canvas)?;
    draw_callbacks(canvas)?;
    draw_works(canvas)
}

// Draws what lies over them.
fn draw_over(canvas: &mut Canvas<'_>) -> Result<(), NoMemory> {
    write_usages(canvas)?;
    write_numbers(canvas)?;
    write_quiet(canvas)
}

// Where everything stands.
struct Layout {
    columns: Columns,
    rows: Rows,
    // How far the words of calls reach, in pixels from the left end of the lanes.
    reach: u32,
}

// Taken apart in one place: it is dropped at many.
impl Drop for Layout {
    fn drop(self) {
        let Layout {
            columns,
            rows,
            reach: _,
        } = self;
        drop(columns);
        drop(rows);
    }
}

// The rows below an axis.
fn laid_out(
    alloc: Global,
    run: &Run<'_>,
    survey: &Survey,
    notes: &Notes,
    columns: Columns,
) -> Result<Layout, NoMemory>
    ensures { IfOk result (λ layout. layout.columns ≡ columns) }
{
    let room = room_of(alloc, run, &columns, notes)?;
    let rows = rows_of(alloc, run, survey, &room, columns.is_whole())?;
    Ok(Layout {
        columns,
        rows,
        reach: room.reach,
    })
}

// How wide the lanes are with the words at their right, in pixels.
fn lanes_width(
    alloc: Global,
    run: &Run<'_>,
    survey: &Survey,
    left: &LeftOn,
    layout: &Layout,
) -> Result<u32, NoMemory> {
    let ends = ends_width(alloc, run, survey, left, &layout.rows)?;
    let width = layout.columns.width().saturating_add(ends);
    Ok(width.max(layout.reach))
}

// The picture where everything stands so.
fn drawn(
    alloc: Global,
    run: &Run<'_>,
    survey: &Survey,
    left: &LeftOn,
    notes: &Notes,
    layout: &Layout,
    head: &Head<'_>,
) -> Result<Vec<u8>, NoMemory>
    requires each_line { length layout.now.columns.xs.items ≡ length run.now.lines.now }
    requires whole { length run.now.lines.now ≤ 400 → layout.now.columns.is_whole ≡ true }
    ensures { IfOk result (λ text. IsPictureOf run.now.lines.now text.items) }
{
    let columns = &layout.columns;
    let rows = &layout.rows;
    let lanes = lanes_width(alloc, run, survey, left, layout)?;
    let frame = frame_of(run, rows, head, lanes);
    let ground = Ground {
        alloc,
        run: *run,
        columns,
        rows,
        frame,
    };
    let mut canvas = Canvas::new(alloc, *run, survey, columns, rows, frame);
    draw_under(&mut canvas, head, left)?;
    let under = canvas.take();
    let calls = draw_calls(&ground, notes)?;
    draw_over(&mut canvas)?;
    let over = canvas.take();
    picture(alloc, frame.width, frame.height, &under, &calls, &over)
}

// The picture by what stands out in the calls and at the end.
fn picture_by(
    alloc: Global,
    run: &Run<'_>,
    survey: &Survey,
    left: &LeftOn,
    notes: &Notes,
    head: &Head<'_>,
) -> Result<Vec<u8>, NoMemory>
    ensures { IfOk result (λ text. IsPictureOf run.now.lines.now text.items) }
{
    let columns = Columns::new(alloc, run.lines, &survey.marks)?;
    let layout = laid_out(alloc, run, survey, notes, columns)?;
    drawn(alloc, run, survey, left, notes, &layout, head)
}

// The picture of a run that was looked at.
fn picture_seen(
    alloc: Global,
    run: &Run<'_>,
    survey: &Survey,
    head: &Head<'_>,
    all: &[Finding],
) -> Result<Vec<u8>, NoMemory>
    ensures { IfOk result (λ text. IsPictureOf run.now.lines.now text.items) }
{
    let notes = notes_of(alloc, run, all)?;
    let left = left_on(alloc, all)?;
    picture_by(alloc, run, survey, &left, &notes, head)
}

// The picture of a run whose pieces are at hand.
fn picture_of(
    alloc: Global,
    run: &Run<'_>,
    head: &Head<'_>,
    all: &[Finding],
) -> Result<Vec<u8>, NoMemory>
    ensures { IfOk result (λ text. IsPictureOf run.now.lines.now text.items) }
{
    let survey = Survey::of(alloc, run)?;
    picture_seen(alloc, run, &survey, head, all)
}

/// The picture of a lawful run of a plan, whose trace is called so, as the text of an SVG file. Up to 400 lines at which
/// something changes are drawn in whole, with one bar for each call; of more there is an overview. Fails only where memory
/// runs out.
pub fn picture_text(
    alloc: Global,
    plan: &Plan,
    lines: &[Line],
    is_finished: bool,
    file: &[u8],
) -> Result<Vec<u8>, NoMemory>
    requires lawful { IsLawful plan.now (reverse lines.now) }
    requires of_plan { list_all (is_line_of plan.now) (reverse lines.now) ≡ true }
    requires few { length lines.now < 2 ^ 32 }
    ensures picture { IfOk result (λ text. IsPicture text.items) }
    ensures calls { IfOk result (λ text. IsPictureOf lines.now text.items) }
{
    let pieces = all_pieces(alloc, plan, lines)?;
    let nexts = next_places(alloc, &pieces)?;
    let calls = calls(alloc, lines)?;
    let all = findings(alloc, plan, lines, is_finished)?;
    let told = faults(alloc, &all)?;
    let run = Run {
        plan,
        lines,
        pieces: &pieces,
        nexts: &nexts,
        calls: &calls,
    };
    let head = Head {
        file,
        findings: &told,
        is_finished,
    };
    picture_of(alloc, &run, &head, &told)
}
