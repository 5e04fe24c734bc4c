//! The shapes of a picture. Places and lengths are in pixels, from the left and from the top.

ghost use Rattle.std.specs.Prelude.{◌≡◌, ◌++◌, OnOk};
ghost use Rattle.pm_sheet.specs.svg.Shapes.{block_text, label_text, lean_text, leaning, opened, rule_text, titled};

use crate::svg::escape::push_escaped;
use crate::svg::pieces::push_attribute;
use crate::svg::style::{Style, class_word};
use pm_base::NoMemory;
use pm_linetext::push;

/// A block: a bar or a part of a band.
#[derive(Clone, Copy, PartialEq, Eq)]
pub struct Block {
    pub style: Style,
    pub x: u32,
    pub y: u32,
    pub width: u32,
    pub height: u32,
}

/// Where words stand: their left end, or where they lean their lower end.
#[derive(Clone, Copy, PartialEq, Eq)]
pub struct Label {
    pub style: Style,
    pub x: u32,
    pub y: u32,
    /// Whether they lean, up to the right.
    pub leans: bool,
}

/// A thin line.
#[derive(Clone, Copy, PartialEq, Eq)]
pub struct Rule {
    pub x: u32,
    pub y: u32,
    pub to_x: u32,
    pub to_y: u32,
}

// Appends the begin of an element, with its class and its place.
#[tactic(auto, unfolding(crate::specs::svg::Shapes::opened))]
fn push_opened(
    text: &mut Vec<u8>,
    begin: &[u8],
    style: Style,
    x: u32,
    y: u32,
) -> Result<(), NoMemory>
    ensures { OnOk result (text.new.items ≡ text.old.items ++ opened begin.now style x y) }
{
    push(text, begin)?;
    push(text, class_word(style))?;
    push_attribute(text, b"\" x=\"", x)?;
    push_attribute(text, b"\" y=\"", y)
}

// Appends the words that are shown where the mouse points at an element.
#[tactic(auto, unfolding(crate::specs::svg::Shapes::titled))]
fn push_titled(text: &mut Vec<u8>, title: &[u8]) -> Result<(), NoMemory>
    ensures { OnOk result (text.new.items ≡ text.old.items ++ titled title.now) }
{
    push(text, b"\"><title>")?;
    push_escaped(text, title)?;
    push(text, b"</title>")
}

/// Appends the text of a block, with words that are shown where the mouse points at it.
#[tactic(auto, unfolding(crate::specs::svg::Shapes::block_text))]
pub fn push_block(text: &mut Vec<u8>, block: &Block, title: &[u8]) -> Result<(), NoMemory>
    ensures { OnOk result (text.new.items ≡ text.old.items ++ block_text block.now title.now) }
{
    push_opened(text, b"<rect class=\"", block.style, block.x, block.y)?;
    push_attribute(text, b"\" width=\"", block.width)?;
    push_attribute(text, b"\" height=\"", block.height)?;
    push_titled(text, title)?;
    push(text, b"</rect>\n")
}

// Appends that words lean around their place.
#[tactic(auto, unfolding(crate::specs::svg::Shapes::leaning))]
fn push_leaning(text: &mut Vec<u8>, x: u32, y: u32) -> Result<(), NoMemory>
    ensures { OnOk result (text.new.items ≡ text.old.items ++ leaning x y) }
{
    push_attribute(text, b"\" transform=\"rotate(-32 ", x)?;
    push_attribute(text, b" ", y)?;
    push(text, b")")
}

// Appends how far words lean.
fn push_lean(text: &mut Vec<u8>, label: &Label) -> Result<(), NoMemory>
    ensures { OnOk result (text.new.items ≡ text.old.items ++ lean_text label.now) }
{
    if label.leans {
        push_leaning(text, label.x, label.y)
    } else {
        Ok(())
    }
}

/// Appends words, with those that are shown where the mouse points at them.
#[tactic(auto, unfolding(crate::specs::svg::Shapes::label_text))]
pub fn push_label(
    text: &mut Vec<u8>,
    label: &Label,
    words: &[u8],
    title: &[u8],
) -> Result<(), NoMemory>
    ensures { OnOk result (text.new.items ≡ text.old.items ++ label_text label.now words.now title.now) }
{
    push_opened(text, b"<text class=\"", label.style, label.x, label.y)?;
    push_lean(text, label)?;
    push_titled(text, title)?;
    push_escaped(text, words)?;
    push(text, b"</text>\n")
}

/// Appends a thin line.
#[tactic(auto, unfolding(crate::specs::svg::Shapes::rule_text))]
pub fn push_rule(text: &mut Vec<u8>, rule: &Rule) -> Result<(), NoMemory>
    ensures { OnOk result (text.new.items ≡ text.old.items ++ rule_text rule.now) }
{
    push_attribute(text, b"<line x1=\"", rule.x)?;
    push_attribute(text, b"\" y1=\"", rule.y)?;
    push_attribute(text, b"\" x2=\"", rule.to_x)?;
    push_attribute(text, b"\" y2=\"", rule.to_y)?;
    push(text, b"\"/>\n")
}
