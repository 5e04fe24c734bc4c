//! Shapes while they are drawn, and the picture of them.

ghost use Rattle.std.specs.Prelude.{◌≡◌, ◌++◌, [], IfOk, OnErr, OnOk, codes};
ghost use Rattle.pm_sheet.specs.svg.Shapes.{block_text, head_text, label_text, rule_text, sheet};

use crate::svg::pieces::push_attribute;
use crate::svg::shapes::{Block, Label, Rule, push_block, push_label, push_rule};
use crate::svg::sheet::SHEET;
use pm_base::NoMemory;
use pm_linetext::push;
use std::alloc::Global;
use std::marker::Model;

/// The text of the shapes so far. Contracts see its bytes, which are some shapes and nothing else, whoever draws.
#[derive(Drop)]
pub struct Drawing {
    text: Vec<u8>,
    // The shape that is being written. It goes into the text as a whole or not at all.
    shape: Vec<u8>,
}

impl Model for Drawing {
    ghost use Rattle.std.specs.Prelude.{ℕ, List};
    ghost use Rattle.pm_sheet.specs.svg.Shapes.{AreShapes};

    ghost Value = { List ℕ };

    ghost view = { λ d. d.text.items };

    ghost invariant = { λ d. AreShapes d.text.items };
}

// Appends the style sheet.
#[tactic(auto, unfolding(crate::specs::svg::Shapes::sheet))]
fn push_sheet(text: &mut Vec<u8>) -> Result<(), NoMemory>
    ensures { OnOk result (text.new.items ≡ text.old.items ++ sheet) }
{
    push(text, SHEET)
}

// The head of a picture.
#[tactic(auto, unfolding(crate::specs::svg::Shapes::head_text))]
fn push_head(text: &mut Vec<u8>, width: u32, height: u32) -> Result<(), NoMemory>
    ensures { OnOk result (text.new.items ≡ text.old.items ++ head_text width height) }
{
    push(text, b"<svg xmlns=\"http://www.w3.org/2000/svg\"")?;
    push_attribute(text, b" width=\"", width)?;
    push_attribute(text, b"\" height=\"", height)?;
    push(text, b"\">\n")?;
    push_sheet(text)
}

// Appends bytes, all of them or none.
fn append(text: &mut Vec<u8>, piece: &[u8]) -> Result<(), NoMemory>
    ensures ok { OnOk result (text.new.items ≡ text.old.items ++ piece.now) }
    ensures err { OnErr result (text.new.items ≡ text.old.items) }
{
    text.extend_from_slice(piece)?;
    Ok(())
}

impl Drawing {
    /// Nothing is drawn yet.
    pub fn new(alloc: Global) -> Drawing
        ensures { result ≡ [] }
    {
        Drawing {
            text: Vec::new(alloc),
            shape: Vec::new(alloc),
        }
    }

    /// Draws a block, with words that are shown where the mouse points at it. Fails where memory runs out, as do the
    /// others, which then change nothing.
    pub fn block(&mut self, block: &Block, title: &[u8]) -> Result<(), NoMemory>
        ensures ok { OnOk result (self.new ≡ self.old ++ block_text block.now title.now) }
        ensures err { OnErr result (self.new ≡ self.old) }
    {
        self.shape.clear();
        push_block(&mut self.shape, block, title)?;
        append(&mut self.text, &self.shape)
    }

    /// Writes words, with those that are shown where the mouse points at them.
    pub fn label(&mut self, label: &Label, words: &[u8], title: &[u8]) -> Result<(), NoMemory>
        ensures ok { OnOk result (self.new ≡ self.old ++ label_text label.now words.now title.now) }
        ensures err { OnErr result (self.new ≡ self.old) }
    {
        self.shape.clear();
        push_label(&mut self.shape, label, words, title)?;
        append(&mut self.text, &self.shape)
    }

    /// Draws a thin line.
    pub fn rule(&mut self, rule: &Rule) -> Result<(), NoMemory>
        ensures ok { OnOk result (self.new ≡ self.old ++ rule_text rule.now) }
        ensures err { OnErr result (self.new ≡ self.old) }
    {
        self.shape.clear();
        push_rule(&mut self.shape, rule)?;
        append(&mut self.text, &self.shape)
    }

    // Appends the text.
    fn push_to(&self, text: &mut Vec<u8>) -> Result<(), NoMemory>
        ensures { OnOk result (text.new.items ≡ text.old.items ++ self.now) }
    {
        push(text, &self.text)
    }
}

/// The text of a picture of this width and height, in pixels, with these shapes: some lie under others, and some over
/// them. Fails where memory runs out.
pub fn picture(
    alloc: Global,
    width: u32,
    height: u32,
    under: &Drawing,
    between: &Drawing,
    over: &Drawing,
) -> Result<Vec<u8>, NoMemory>
    ensures { IfOk result (λ text. text.items ≡ head_text width height ++ under.now ++ between.now ++ over.now ++ codes "</svg>\n") }
{
    let mut text = Vec::new(alloc);
    push_head(&mut text, width, height)?;
    under.push_to(&mut text)?;
    between.push_to(&mut text)?;
    over.push_to(&mut text)?;
    push(&mut text, b"</svg>\n")?;
    Ok(text)
}
