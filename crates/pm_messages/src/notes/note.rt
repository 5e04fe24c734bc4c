//! A note on a refusal.

use pm_base::NoMemory;
use pm_spans::keys::Path;
use std::alloc::Global;

/// Which token of a key and its value is shown.
#[derive(Clone, Copy, PartialEq, Eq)]
pub enum Side {
    Key,
    Value,
}

/// Another place that a note names by its line.
#[derive(Drop)]
pub struct Other<'a> {
    /// What stands there, before the number of the line.
    pub words: &'static str,
    pub at: Path<'a>,
}

/// What is told of a refusal.
#[derive(Drop)]
pub struct Note<'a> {
    /// One line, without its newline.
    pub message: String,
    /// Lines that help, each without its newline.
    pub hints: Vec<String>,
    /// Where to look; the text as a whole where there is none.
    pub at: Option<Path<'a>>,
    pub side: Side,
    pub other: Option<Other<'a>>,
}

impl<'a> Note<'a> {
    /// A note on a key.
    pub fn on_key(alloc: Global, message: String, at: Path<'a>) -> Note<'a> {
        Note {
            message,
            hints: Vec::new(alloc),
            at: Some(at),
            side: Side::Key,
            other: None,
        }
    }

    /// A note on a value.
    pub fn on_value(alloc: Global, message: String, at: Path<'a>) -> Note<'a> {
        Note {
            message,
            hints: Vec::new(alloc),
            at: Some(at),
            side: Side::Value,
            other: None,
        }
    }

    /// A note on the text as a whole.
    pub fn on_text(alloc: Global, message: String) -> Note<'a> {
        Note {
            message,
            hints: Vec::new(alloc),
            at: None,
            side: Side::Value,
            other: None,
        }
    }

    /// With a line that helps. Fails where memory runs out.
    pub fn with_hint(self, hint: String) -> Result<Note<'a>, NoMemory> {
        let Note {
            message,
            mut hints,
            at,
            side,
            other,
        } = self;
        hints.push(hint)?;
        Ok(Note {
            message,
            hints,
            at,
            side,
            other,
        })
    }

    /// With another place.
    pub fn with_other(self, words: &'static str, place: Path<'a>) -> Note<'a> {
        let Note {
            message,
            hints,
            at,
            side,
            other: _,
        } = self;
        Note {
            message,
            hints,
            at,
            side,
            other: Some(Other { words, at: place }),
        }
    }
}
