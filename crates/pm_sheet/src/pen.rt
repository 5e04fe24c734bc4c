//! What draws: shapes, with the words that are next.

ghost use Rattle.std.specs.Prelude.{◌≡◌, ◌+◌, ◌∷◌, [], OnOk, max, min};
ghost use Rattle.pm_sheet.specs.svg.Shapes.{Draws};

use crate::columns::Span;
use crate::scene::Run;
use crate::svg::{Block, Drawing, Label, Rule, Style};
use pm_base::NoMemory;
use pm_linetext::push;
use std::alloc::Global;

/// What draws.
pub struct Pen {
    pub drawing: Drawing,
    /// What is shown where the mouse points at the next shapes.
    pub title: Vec<u8>,
    /// The next words.
    pub words: Vec<u8>,
}

// Taken apart in one place: it is dropped at many.
impl Drop for Pen {
    fn drop(self) {
        let Pen {
            drawing,
            title,
            words,
        } = self;
        drop(drawing);
        drop(title);
        drop(words);
    }
}

impl Pen {
    /// Nothing is drawn yet.
    pub fn new(alloc: Global) -> Pen
        ensures { result.drawing ≡ [] }
    {
        Pen {
            drawing: Drawing::new(alloc),
            title: Vec::new(alloc),
            words: Vec::new(alloc),
        }
    }

    /// What is shown where the mouse points at the next shapes: this line.
    pub fn point_at(&mut self, alloc: Global, run: &Run<'_>, line: u32) -> Result<(), NoMemory>
        ensures { self.new.drawing ≡ self.old.drawing }
    {
        self.title.clear();
        run.push_line(alloc, &mut self.title, line)
    }

    /// Begins the next words by these.
    pub fn say(&mut self, words: &[u8]) -> Result<(), NoMemory>
        ensures { self.new.drawing ≡ self.old.drawing }
    {
        self.words.clear();
        push(&mut self.words, words)
    }

    /// Draws a block. It is at least a pixel wide.
    #[tactic(auto, using(crate::proofs::svg::DrawLemmas::draws_block))]
    pub fn block(
        &mut self,
        style: Style,
        x: u32,
        y: u32,
        width: u32,
        height: u32,
    ) -> Result<(), NoMemory>
        ensures { OnOk result (Draws (record { x = x; width = max width 1 } ∷ []) self.old.drawing self.new.drawing) }
    {
        let block = Block {
            style,
            x,
            y,
            width: width.max(1),
            height,
        };
        self.drawing.block(&block, &self.title)
    }

    /// Draws a block on lanes that begin there.
    pub fn bar(
        &mut self,
        style: Style,
        left: u32,
        span: Span,
        y: u32,
        height: u32,
    ) -> Result<(), NoMemory>
        ensures { OnOk result (Draws (record { x = min (left + span.x) 4294967295; width = max span.width 1 } ∷ []) self.old.drawing self.new.drawing) }
    {
        self.block(style, left.saturating_add(span.x), y, span.width, height)
    }

    /// Writes the words.
    #[tactic(auto, using(crate::proofs::svg::DrawLemmas::draws_label))]
    pub fn label(&mut self, style: Style, x: u32, y: u32, leans: bool) -> Result<(), NoMemory>
        ensures { OnOk result (Draws [] self.old.drawing self.new.drawing) }
    {
        let label = Label { style, x, y, leans };
        self.drawing.label(&label, &self.words, &self.title)
    }

    /// Draws a thin line.
    pub fn rule(&mut self, x: u32, y: u32, to_x: u32, to_y: u32) -> Result<(), NoMemory> {
        self.drawing.rule(&Rule { x, y, to_x, to_y })
    }

    /// What was drawn.
    pub fn finish(self) -> Drawing
        ensures { result ≡ self.drawing }
    {
        let Pen {
            drawing,
            title: _,
            words: _,
        } = self;
        drawing
    }
}
