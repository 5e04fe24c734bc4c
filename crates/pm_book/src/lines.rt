//! The lines of a book, and the places that are kept for more.

ghost use Rattle.std.specs.Prelude.{◌≡◌, ◌+◌, ◌-◌, ◌*◌, ◌<◌, ◌≤◌, ◌^◌, ◌++◌, ◌∷◌, [], length, min, reverse, IsOk, OnErr, OnOk};
ghost use Rattle.pm_book.specs.Sheets.{HasLine, Sheet};
ghost use Rattle.pm_model.specs.Lawful.{last_time};
ghost use Rattle.pm_laws.specs.counts.Sums.{one};

use pm_base::NoMemory;
use pm_model::Line;
use std::alloc::Global;
use std::marker::Model;

/// Lines in order, with places for the end lines of the callbacks that run.
#[derive(Drop)]
pub struct Lines {
    lines: Vec<Line>,
    // For how many end lines a place is kept.
    ends: usize,
    // How many lines there may be.
    limit: usize,
}

impl Model for Lines {
    ghost use Rattle.std.specs.Prelude.{vec_capacity, vec_len};
    ghost use Rattle.pm_book.specs.Sheets.{AreEnough, Sheet, spare_of};

    ghost Value = { Sheet };

    ghost view = { λ l. record { lines = l.lines.items; ends = l.ends; limit = l.limit; spare = spare_of l.limit (vec_capacity l.lines) (vec_len l.lines) l.ends } };

    ghost invariant = { λ l. AreEnough l.limit (vec_capacity l.lines) (vec_len l.lines) l.ends };
}

// When the last line was written, 0 where there is none.
fn last_time(lines: &[Line]) -> u64
    ensures { result ≡ last_time (reverse lines.now) }
{
    match lines.last() {
        Some(line) => line.time,
        None => 0,
    }
}

// How many places are enough for so many lines, for the end lines for which one is kept, and for so many
// more lines that each may begin a callback; no more than there may be lines.
fn places_for(limit: usize, lines: usize, ends: usize, more: usize) -> usize
    requires few { lines ≤ limit }
    requires begun { ends ≤ lines }
    requires small { limit < 2 ^ 32 }
    ensures places { result ≡ min (lines + ends + 2 * min more (limit - lines)) limit }
    ensures above { lines ≤ result }
{
    (lines + ends + 2 * more.min(limit - lines)).min(limit)
}

impl Lines {
    /// No lines, where there may be so many.
    pub fn none(alloc: Global, limit: u32) -> Lines
        ensures lines { result.lines ≡ [] }
        ensures ends { result.ends ≡ 0 }
        ensures limit { result.limit ≡ limit }
    {
        Lines {
            lines: Vec::new(alloc),
            ends: 0,
            limit: limit as usize,
        }
    }

    /// Whence memory for lines is taken.
    pub fn alloc(&self) -> Global {
        *self.lines.allocator()
    }

    /// The lines, in order.
    pub fn as_slice(&self) -> &[Line]
        ensures { result.now ≡ self.now.lines }
    {
        &self.lines
    }

    /// When the last line was written, 0 where there is none.
    pub fn last_time(&self) -> u64
        ensures { result ≡ last_time (reverse self.now.lines) }
    {
        last_time(&self.lines)
    }

    /// Makes room for so many more lines, or for all that there may still be: each may begin a callback,
    /// whose end line has its place too. After `NoMemory` nothing is changed.
    pub fn reserve(&mut self, more: usize) -> Result<(), NoMemory>
        ensures lines { self.new.lines ≡ self.old.lines }
        ensures ends { self.new.ends ≡ self.old.ends }
        ensures limit { self.new.limit ≡ self.old.limit }
        ensures spare { self.old.spare ≤ self.new.spare }
        ensures ok { OnOk result (min more (self.old.limit - length self.old.lines) ≤ self.new.spare) }
        ensures room { more ≤ self.old.spare → IsOk result }
        ensures err { OnErr result (self.new ≡ self.old) }
    {
        let places = places_for(self.limit, self.lines.len(), self.ends, more);
        self.lines.reserve(places - self.lines.len())?;
        Ok(())
    }

    /// Writes a line for which there is room, and keeps a place for the end line of the callback that it
    /// begins, if it begins one.
    pub fn push(&mut self, line: Line, begins: bool)
        requires { 0 < self.old.spare }
        ensures lines { self.new.lines ≡ self.old.lines ++ line ∷ [] }
        ensures ends { self.new.ends ≡ self.old.ends + one begins }
        ensures limit { self.new.limit ≡ self.old.limit }
        ensures spare { self.old.spare ≤ self.new.spare + 1 }
    {
        self.ends += usize::from(begins);
        self.lines.push_reserved(line);
    }

    /// Writes a line that there may be, and takes memory for it where it has none. After `NoMemory` nothing is
    /// changed.
    pub fn write(&mut self, line: Line, begins: bool) -> Result<(), NoMemory>
        requires { length self.old.lines < self.old.limit }
        ensures ok { OnOk result (HasLine self.old self.new line (one begins)) }
        ensures err { OnErr result (self.new ≡ self.old) }
    {
        self.reserve(1)?;
        self.push(line, begins);
        Ok(())
    }

    /// Writes an end line at a place that is kept for it.
    pub fn push_end(&mut self, line: Line)
        requires kept { 0 < self.old.ends }
        requires free { length self.old.lines < self.old.limit }
        ensures lines { self.new.lines ≡ self.old.lines ++ line ∷ [] }
        ensures ends { self.new.ends + 1 ≡ self.old.ends }
        ensures limit { self.new.limit ≡ self.old.limit }
        ensures spare { self.old.spare ≤ self.new.spare + 1 }
    {
        self.ends -= 1;
        self.lines.push_reserved(line);
    }
}
