//! A picture while it is drawn, with what is needed for it at hand.

use crate::columns::{Columns, Span};
use crate::pen::Pen;
use crate::rows::{Row, Rows, Subject};
use crate::scene::{Run, Survey};
use crate::svg::{Drawing, Style};
use indexmap::IndexMap;
use pm_base::NoMemory;
use std::alloc::Global;
use std::mem;

/// The measures of a picture, in pixels.
#[derive(Clone, Copy)]
pub struct Frame {
    /// How wide the names left of the lanes are.
    pub left: u32,
    /// How high the head is.
    pub top: u32,
    pub width: u32,
    pub height: u32,
}

/// A picture while it is drawn.
pub struct Canvas<'a> {
    pub alloc: Global,
    pub run: Run<'a>,
    pub survey: &'a Survey,
    pub columns: &'a Columns,
    pub rows: &'a Rows,
    pub frame: Frame,
    pub pen: Pen,
    // Where the latest mark of a row was drawn that has no width.
    marks: IndexMap<Subject, u32>,
}

// Taken apart in one place: it is dropped at many.
impl Drop for Canvas<'_> {
    fn drop(self) {
        let Canvas {
            alloc: _,
            run: _,
            survey: _,
            columns: _,
            rows: _,
            frame: _,
            pen,
            marks,
        } = self;
        drop(pen);
        drop(marks);
    }
}

impl<'a> Canvas<'a> {
    /// Nothing is drawn yet.
    pub fn new(
        alloc: Global,
        run: Run<'a>,
        survey: &'a Survey,
        columns: &'a Columns,
        rows: &'a Rows,
        frame: Frame,
    ) -> Canvas<'a> {
        Canvas {
            alloc,
            run,
            survey,
            columns,
            rows,
            frame,
            pen: Pen::new(alloc),
            marks: IndexMap::new(alloc),
        }
    }

    /// What is drawn so far. What is drawn next begins anew, with nothing that is shown where the mouse points.
    pub fn take(&mut self) -> Drawing {
        self.point_at_nothing();
        mem::replace(&mut self.pen.drawing, Drawing::new(self.alloc))
    }

    /// Whether all is drawn, and not an overview.
    pub fn is_whole(&self) -> bool {
        self.columns.is_whole()
    }

    /// Where a line stands.
    pub fn x(&self, line: u32) -> u32 {
        self.frame.left.saturating_add(self.columns.x(line))
    }

    /// Where the lanes end.
    pub fn right(&self) -> u32 {
        self.frame.left.saturating_add(self.columns.width())
    }

    /// The row of this, with its place on the picture.
    pub fn row(&self, subject: Subject) -> Option<Row> {
        let mut row = self.rows.row(subject)?;
        row.y = row.y.saturating_add(self.frame.top);
        Some(row)
    }

    /// Whether no mark without width was drawn in a row at this place, the latest before it.
    pub fn is_new(&mut self, subject: Subject, x: u32) -> Result<bool, NoMemory> {
        Ok(self.marks.insert(subject, x)? != Some(x))
    }

    /// What is shown where the mouse points at the next shapes: this line.
    pub fn point_at(&mut self, line: u32) -> Result<(), NoMemory> {
        self.pen.point_at(self.alloc, &self.run, line)
    }

    /// What is shown there: nothing.
    pub fn point_at_nothing(&mut self) {
        self.pen.title.clear();
    }

    /// Begins the next words by these.
    pub fn say(&mut self, words: &[u8]) -> Result<(), NoMemory> {
        self.pen.say(words)
    }

    /// Draws a block.
    pub fn block(
        &mut self,
        style: Style,
        x: u32,
        y: u32,
        width: u32,
        height: u32,
    ) -> Result<(), NoMemory> {
        self.pen.block(style, x, y, width, height)
    }

    /// Draws a block on the lanes.
    pub fn bar(&mut self, style: Style, span: Span, y: u32, height: u32) -> Result<(), NoMemory> {
        self.pen.bar(style, self.frame.left, span, y, height)
    }

    /// Writes the words.
    pub fn label(&mut self, style: Style, x: u32, y: u32, leans: bool) -> Result<(), NoMemory> {
        self.pen.label(style, x, y, leans)
    }

    /// Writes these words.
    pub fn write(&mut self, style: Style, x: u32, y: u32, words: &[u8]) -> Result<(), NoMemory> {
        self.say(words)?;
        self.label(style, x, y, false)
    }

    /// Draws a thin line.
    pub fn rule(&mut self, x: u32, y: u32, to_x: u32, to_y: u32) -> Result<(), NoMemory> {
        self.pen.rule(x, y, to_x, to_y)
    }
}

/// How wide so many characters are, in pixels.
pub fn text_width(count: usize) -> u32 {
    let count = u32::try_from(count).unwrap_or(u32::MAX);
    count.saturating_mul(61) / 10
}
