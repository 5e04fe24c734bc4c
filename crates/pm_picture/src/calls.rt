//! The calls of callers, with what they return, what stands out in them, and whom they wait for.

ghost use Rattle.std.specs.Prelude.{◌≡◌, ◌∷◌, [], ℕ, List, IfOk, OnOk, map, true};
ghost use Rattle.pm_picture.specs.Calls.{Reaches, bar_of};
ghost use Rattle.pm_sheet.specs.svg.Shapes.{Draws};

use pm_base::{ActorId, EAGAIN, EBUSY, EINPROGRESS, NoMemory};
use pm_find::findings::{Kind, Weight};
use pm_find::text::push_code;
use pm_lanes::calls::{Answer, Call};
use pm_lanes::{Piece, Shown};
use pm_linetext::{push, push_actor, push_command, push_number};
use pm_model::Helper;
use pm_sheet::columns::{Columns, Span};
use pm_sheet::rows::{Row, Rows, Subject};
use pm_sheet::scene::{Notes, Run};
use pm_sheet::svg::{Drawing, Style};
use pm_sheet::{Frame, Pen, text_width};
use std::alloc::Global;

/// The room of a caller's row but for words that lean, in pixels.
const ROOM: u32 = 34;

/// On what calls are drawn.
#[derive(Clone, Copy)]
pub(crate) struct Ground<'a> {
    pub alloc: Global,
    pub run: Run<'a>,
    pub columns: &'a Columns,
    pub rows: &'a Rows,
    pub frame: Frame,
}

impl Ground<'_> {
    // The row of a caller, with its place on the picture.
    fn row(&self, caller: u32) -> Option<Row> {
        let mut row = self.rows.row(Subject::Caller(caller))?;
        row.y = row.y.saturating_add(self.frame.top);
        Some(row)
    }

    // Where a line stands.
    fn x(&self, line: u32) -> u32 {
        self.frame.left.saturating_add(self.columns.x(line))
    }
}

/// A call with what stands out in it, and where it is drawn.
#[derive(Clone, Copy)]
struct Bar {
    call: Call,
    note: Option<Kind>,
    span: Span,
}

// Whether a code asks to try again.
fn asks_again(code: i32) -> bool {
    code == EAGAIN || code == EBUSY || code == EINPROGRESS
}

// How far a call reaches on the axis.
fn span_of(columns: &Columns, line: u32, answer: Option<Answer>) -> Span
    ensures { Reaches columns.now.xs.items columns.now.width line answer result }
{
    match answer {
        Some(answer) => columns.span(line, answer.line),
        None => columns.rest(line),
    }
}

// A call with what stands out in it.
fn with_note(columns: &Columns, notes: &Notes, call: &Call) -> Bar
    ensures call { result.call ≡ call.now }
    ensures span { Reaches columns.now.xs.items columns.now.width result.call.line result.call.answer result.span }
{
    Bar {
        call: *call,
        note: notes.get(&call.line).copied(),
        span: span_of(columns, call.line, call.answer),
    }
}

impl Bar {
    // Whether it only lets time pass.
    fn is_delay(&self) -> bool {
        matches!(self.call.command.helper, Helper::Delay)
    }

    // The code that it returned.
    fn code(&self) -> Option<i32> {
        self.call.answer.map(|answer| answer.code)
    }

    // How it looks.
    fn style(&self) -> Style {
        match (self.code(), self.note) {
            (None, _) => Style::CallOpen,
            (Some(code), _) if code < 0 && asks_again(code) => Style::CallRefused,
            (Some(code), _) if code < 0 => Style::CallFailed,
            (_, Some(kind)) if matches!(kind.weight(), Weight::Error) => Style::CallFailed,
            (_, Some(_)) => Style::CallRefused,
            _ if self.is_delay() => Style::Delay,
            _ => Style::Call,
        }
    }

    // How its words look.
    fn word_style(&self) -> Style {
        match self.style() {
            Style::CallFailed | Style::CallOpen => Style::WordFailed,
            Style::CallRefused => Style::WordRefused,
            Style::Delay => Style::WordDelay,
            _ => Style::Word,
        }
    }

    // Whether its words have room in its bar.
    fn fits(&self, words: usize) -> bool {
        text_width(words).saturating_add(8) <= self.span.width
    }

    // Whether its words stand above its bar.
    fn leans(&self, words: usize) -> bool {
        !self.fits(words) && !self.is_delay()
    }

    // Appends what it returned.
    fn push_answer(&self, text: &mut Vec<u8>) -> Result<(), NoMemory> {
        match self.code() {
            None => push(text, b" has not returned"),
            Some(0) => Ok(()),
            Some(_) if self.is_delay() => Ok(()),
            Some(code) => {
                push(text, b" ")?;
                push_code(text, code)
            }
        }
    }

    // Appends its words.
    fn push_words(&self, run: &Run<'_>, text: &mut Vec<u8>) -> Result<(), NoMemory> {
        push_command(text, run.plan, &self.call.command)?;
        self.push_answer(text)?;
        match self.note {
            Some(kind) => push_note(text, run, &kind),
            None => Ok(()),
        }
    }
}

// Appends whose count a put takes away.
fn push_stolen(text: &mut Vec<u8>, run: &Run<'_>, owner: ActorId) -> Result<(), NoMemory> {
    push(text, b", takes the count of ")?;
    push_actor(text, run.plan, owner)
}

// Appends since which line a call is refused.
fn push_since(text: &mut Vec<u8>, line: u32) -> Result<(), NoMemory> {
    push(text, b" since line ")?;
    push_number(text, u64::from(line))
}

// Appends what stands out in a call, in short.
fn push_note(text: &mut Vec<u8>, run: &Run<'_>, kind: &Kind) -> Result<(), NoMemory> {
    match *kind {
        Kind::Leak { .. } => push(text, b", never given back"),
        Kind::Answer { keeps: true, .. } => push(text, b", keeps its count"),
        Kind::Stolen { owner, .. } => push_stolen(text, run, owner),
        Kind::NeverOn { .. } => push(text, b", never was active"),
        Kind::RefusedPut { .. } => push(text, b", no count to give back"),
        Kind::RefusedStatus { .. } => push(text, b", the status stays"),
        Kind::Unmarked { .. } => push(text, b", not marked as busy"),
        Kind::Poisoned { line, .. } => push_since(text, line),
        _ => Ok(()),
    }
}

/// The room that the words of calls need in a picture of all, in pixels.
#[derive(Drop)]
pub(crate) struct Room {
    /// How high the row of each caller is: words that don't fit into their bar lean above it.
    pub heights: Vec<u32>,
    /// How far they reach, from the left end of the lanes.
    pub reach: u32,
}

impl Room {
    // Makes room for the words of a call.
    fn grow(&mut self, bar: &Bar, words: usize) {
        if !bar.leans(words) {
            return;
        }
        let width = text_width(words);
        let height = (width.saturating_mul(53) / 100).saturating_add(ROOM + 14);
        if let Some(slot) = self.heights.get_mut(bar.call.caller as usize) {
            *slot = height.max(*slot);
        }
        let end = bar.span.x.saturating_add(bar.span.width);
        let reach = end.saturating_add(width.saturating_mul(85) / 100);
        self.reach = reach.max(self.reach);
    }

    /// The room that an overview has for a caller.
    pub fn thin(alloc: Global, callers: usize) -> Result<Room, NoMemory> {
        Ok(Room {
            heights: vec![in alloc; 14; callers]?,
            reach: 0,
        })
    }

    /// The room that a picture of all needs. Fails where memory runs out.
    pub fn of(
        alloc: Global,
        run: &Run<'_>,
        columns: &Columns,
        notes: &Notes,
    ) -> Result<Room, NoMemory> {
        let mut room = Room {
            heights: vec![in alloc; ROOM; run.plan.callers.len()]?,
            reach: 0,
        };
        let mut words = Vec::new(alloc);
        for call in run.calls {
            let bar = with_note(columns, notes, call);
            words.clear();
            bar.push_words(run, &mut words)?;
            room.grow(&bar, words.len());
        }
        Ok(room)
    }
}

// How far the words of each caller's calls, and of its waits, reach so far, where the latest mark of a call was drawn
// that has no width, and the place of the next piece.
#[derive(Drop)]
struct Reach {
    leaning: Vec<u32>,
    below: Vec<u32>,
    marks: Vec<Option<u32>>,
    place: usize,
}

impl Reach {
    fn new(alloc: Global, callers: usize) -> Result<Reach, NoMemory> {
        Ok(Reach {
            leaning: vec![in alloc; 0; callers]?,
            below: vec![in alloc; 0; callers]?,
            marks: vec![in alloc; None; callers]?,
            place: 0,
        })
    }

    // Whether the latest mark of a caller isn't at this place. It is from now on.
    fn is_new(&mut self, caller: u32, x: u32) -> bool {
        let Some(slot) = self.marks.get_mut(caller as usize) else {
            return true;
        };
        let is_new = *slot != Some(x);
        *slot = Some(x);
        is_new
    }
}

// Where words may stand at or right of a place, and from where on others may.
fn next_free(free: &mut [u32], caller: u32, x: u32, width: u32) -> u32 {
    let Some(slot) = free.get_mut(caller as usize) else {
        return x;
    };
    let place = x.max(*slot);
    *slot = place.saturating_add(width);
    place
}

// Writes the words of a call into its bar or above it.
fn write_words(
    ground: &Ground<'_>,
    pen: &mut Pen,
    reach: &mut Reach,
    bar: &Bar,
    y: u32,
) -> Result<(), NoMemory>
    ensures { OnOk result (Draws [] pen.old.drawing pen.new.drawing) }
{
    pen.words.clear();
    bar.push_words(&ground.run, &mut pen.words)?;
    let count = pen.words.len();
    let x = ground.frame.left.saturating_add(bar.span.x);
    if bar.fits(count) {
        let style = bar.word_style();
        return pen.label(style, x.saturating_add(4), y.saturating_add(12), false);
    }
    if !bar.leans(count) {
        return Ok(());
    }
    let middle = x.saturating_add(bar.span.width / 2);
    let x = next_free(&mut reach.leaning, bar.call.caller, middle, 16);
    pen.label(bar.word_style(), x, y.saturating_sub(4), true)
}

// Where the bar of a call stands, from the top, in a picture of all.
fn bar_top(ground: &Ground<'_>, caller: u32) -> u32 {
    match ground.row(caller) {
        Some(row) => row.y.saturating_add(row.height.saturating_sub(30)),
        None => ground.frame.top,
    }
}

// Draws a call with its words.
fn draw_whole(
    ground: &Ground<'_>,
    pen: &mut Pen,
    reach: &mut Reach,
    bar: &Bar,
) -> Result<(), NoMemory>
    ensures { OnOk result ((xs : List ℕ) (width : ℕ) → Reaches xs width bar.now.call.line bar.now.call.answer bar.now.span → Draws (bar_of ground.now.frame.left xs width bar.now.call ∷ []) pen.old.drawing pen.new.drawing) }
{
    let y = bar_top(ground, bar.call.caller);
    let span = Span {
        x: bar.span.x,
        width: bar.span.width.saturating_sub(2),
    };
    pen.point_at(ground.alloc, &ground.run, bar.call.line)?;
    pen.bar(bar.style(), ground.frame.left, span, y, 17)?;
    write_words(ground, pen, reach, bar, y)
}

// Draws a call in an overview: its bar, or a mark where it has no width and stands out.
fn draw_thin(
    ground: &Ground<'_>,
    pen: &mut Pen,
    reach: &mut Reach,
    bar: &Bar,
) -> Result<(), NoMemory> {
    let Some(row) = ground.row(bar.call.caller) else {
        return Ok(());
    };
    let style = bar.style();
    let stands_out = matches!(style, Style::CallFailed);
    if bar.span.width == 0 && !(stands_out && reach.is_new(bar.call.caller, bar.span.x)) {
        return Ok(());
    }
    pen.point_at(ground.alloc, &ground.run, bar.call.line)?;
    let y = row.y.saturating_add(2);
    pen.bar(style, ground.frame.left, bar.span, y, 9)
}

// Writes below a caller's bar whom it waits for.
fn write_wait(
    ground: &Ground<'_>,
    pen: &mut Pen,
    reach: &mut Reach,
    caller: u32,
    line: u32,
    name: &[u8],
) -> Result<(), NoMemory>
    ensures { OnOk result (Draws [] pen.old.drawing pen.new.drawing) }
{
    let Some(row) = ground.row(caller) else {
        return Ok(());
    };
    pen.point_at(ground.alloc, &ground.run, line)?;
    pen.say(b"waits for ")?;
    push(&mut pen.words, name)?;
    let width = text_width(pen.words.len()).saturating_add(6);
    let x = ground.x(line).saturating_add(2);
    let x = next_free(&mut reach.below, caller, x, width);
    let y = row.y.saturating_add(row.height.saturating_sub(3));
    pen.label(Style::WordRefused, x, y, false)
}

// Writes whom a caller waits for, where a piece shows that.
fn write_piece(
    ground: &Ground<'_>,
    pen: &mut Pen,
    reach: &mut Reach,
    piece: &Piece,
) -> Result<(), NoMemory>
    ensures { OnOk result (Draws [] pen.old.drawing pen.new.drawing) }
{
    match piece.shown {
        Shown::Waits {
            actor: ActorId::Caller(caller),
            dev,
        } => {
            let name = ground.run.device_name(dev);
            write_wait(ground, pen, reach, caller, piece.line, name)
        }
        _ => Ok(()),
    }
}

// Writes whom callers wait for, up to this line.
fn write_waits(
    ground: &Ground<'_>,
    pen: &mut Pen,
    reach: &mut Reach,
    line: u32,
) -> Result<(), NoMemory>
    ensures { OnOk result (Draws [] pen.old.drawing pen.new.drawing) }
{
    let pieces = ground.run.pieces;
    for _ in reach.place..pieces.len() {
        let Some(piece) = pieces.get(reach.place) else {
            return Ok(());
        };
        if piece.line > line {
            return Ok(());
        }
        write_piece(ground, pen, reach, piece)?;
        reach.place = reach.place.saturating_add(1);
    }
    Ok(())
}

// Draws the calls of callers with their words, and writes whom they wait for.
fn draw_all(ground: &Ground<'_>, pen: &mut Pen, notes: &Notes) -> Result<(), NoMemory>
    ensures { OnOk result (Draws (map (bar_of ground.now.frame.left ground.now.columns.now.xs.items ground.now.columns.now.width) ground.now.run.calls.now) pen.old.drawing pen.new.drawing) }
{
    let mut reach = Reach::new(ground.alloc, ground.run.plan.callers.len())?;
    for call in ground.run.calls {
        write_waits(ground, pen, &mut reach, call.line)?;
        let bar = with_note(ground.columns, notes, call);
        draw_whole(ground, pen, &mut reach, &bar)?;
    }
    write_waits(ground, pen, &mut reach, u32::MAX)
}

// Draws the calls of callers in an overview.
fn draw_overview(ground: &Ground<'_>, pen: &mut Pen, notes: &Notes) -> Result<(), NoMemory> {
    let mut reach = Reach::new(ground.alloc, ground.run.plan.callers.len())?;
    for call in ground.run.calls {
        let bar = with_note(ground.columns, notes, call);
        draw_thin(ground, pen, &mut reach, &bar)?;
    }
    Ok(())
}

// Draws the calls of callers, as a picture of all or as an overview.
fn draw_by(ground: &Ground<'_>, pen: &mut Pen, notes: &Notes) -> Result<(), NoMemory>
    ensures { OnOk result (ground.now.columns.now.is_whole ≡ true → Draws (map (bar_of ground.now.frame.left ground.now.columns.now.xs.items ground.now.columns.now.width) ground.now.run.calls.now) pen.old.drawing pen.new.drawing) }
{
    if ground.columns.is_whole() {
        draw_all(ground, pen, notes)
    } else {
        draw_overview(ground, pen, notes)
    }
}

/// Draws the calls of callers, and in a picture of all writes whom they wait for.
pub(crate) fn draw_calls(ground: &Ground<'_>, notes: &Notes) -> Result<Drawing, NoMemory>
    ensures { IfOk result (λ drawing. ground.now.columns.now.is_whole ≡ true → Draws (map (bar_of ground.now.frame.left ground.now.columns.now.xs.items ground.now.columns.now.width) ground.now.run.calls.now) [] drawing) }
{
    let mut pen = Pen::new(ground.alloc);
    draw_by(ground, &mut pen, notes)?;
    Ok(pen.finish())
}
