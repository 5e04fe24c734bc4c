//! The x axis of a picture.

ghost use Rattle.std.specs.Prelude.{◌≡◌, ◌+◌, ◌-◌, ◌≤◌, IfOk, OnOk, length, true};
ghost use Rattle.pm_sheet.specs.columns.Axis.{fitted, rises, x_of};

use crate::columns::steps::step;
use pm_base::NoMemory;
use pm_model::Line;
use std::alloc::Global;

/// So many columns at most are drawn in whole.
pub const WHOLE: usize = 400;

/// How wide the lanes of an overview are, in pixels.
pub const FIT: u32 = 1_200;

/// Room behind the last line, in pixels.
const REST: u32 = 24;

/// Where the lines of a run stand, in pixels from the left end of the lanes.
#[derive(Drop)]
pub struct Columns {
    // That of each line, in order.
    xs: Vec<u32>,
    // Where the run ends.
    width: u32,
    // Whether all is drawn, and not an overview.
    is_whole: bool,
    ghost in_order: { rises 0 xs.items width ≡ true },
}

/// A part of the axis, in pixels from the left end of the lanes.
#[derive(Clone, Copy, PartialEq, Eq)]
pub struct Span {
    pub x: u32,
    pub width: u32,
}

// The axis while it grows: the places of the lines so far, that of the last of them, and how many have columns.
#[derive(Drop)]
struct Axis {
    xs: Vec<u32>,
    x: u32,
    columns: usize,
    time: u64,
    ghost in_order: { rises 0 xs.items x ≡ true },
    ghost few: { columns ≤ length xs.items },
}

impl Axis {
    // Appends the next line.
    #[tactic(auto, using(crate::proofs::columns::AxisLemmas::rises_more))]
    fn push(&mut self, line: &Line, marked: bool) -> Result<(), NoMemory>
        ensures { OnOk result (length self.new.xs.items ≡ length self.old.xs.items + 1) }
    {
        let step = step(marked, line.time.saturating_sub(self.time));
        let x = self.x.saturating_add(step);
        self.xs.push(x)?;
        self.x = x;
        self.time = line.time;
        if step > 0 {
            self.columns = self.columns.saturating_add(1);
        }
        Ok(())
    }

    // The axis of all lines of a run.
    fn of(alloc: Global, lines: &[Line], marks: &[bool]) -> Result<Axis, NoMemory>
        ensures { IfOk result (λ axis. length axis.xs.items ≡ length lines.now) }
    {
        let mut axis = Axis {
            xs: Vec::new(alloc),
            x: 0,
            columns: 0,
            time: 0,
        };
        for place in 0..lines.len() {
            axis.push(&lines[place], marks.get(place).copied().unwrap_or(false))?;
        }
        Ok(axis)
    }

    // With the room behind the last line.
    #[tactic(auto, using(crate::proofs::columns::AxisLemmas::rises_wider))]
    fn whole(self) -> Columns
        ensures places { result.xs ≡ self.xs }
        ensures whole { result.is_whole ≡ true }
    {
        let width = self.x.saturating_add(REST);
        Columns {
            xs: self.xs,
            width,
            is_whole: true,
        }
    }
}

// A place on an axis that is made to fit.
fn fitted(x: u32, width: u32) -> u32
    ensures { result ≡ fitted width x }
{
    if width == 0 {
        return 0;
    }
    let fitted = u64::from(x) * u64::from(FIT) / u64::from(width);
    fitted.min(u64::from(FIT)) as u32
}

impl Columns {
    /// The axis of the lines of a run, by whether the picture changes at each of them. A run of at most 400 lines is
    /// drawn in whole. Fails where memory runs out.
    pub fn new(alloc: Global, lines: &[Line], marks: &[bool]) -> Result<Columns, NoMemory>
        ensures places { IfOk result (λ columns. length columns.xs.items ≡ length lines.now) }
        ensures whole { IfOk result (λ columns. length lines.now ≤ 400 → columns.is_whole ≡ true) }
    {
        let axis = Axis::of(alloc, lines, marks)?;
        let is_whole = axis.columns <= WHOLE;
        let columns = axis.whole();
        if is_whole {
            Ok(columns)
        } else {
            columns.fit(alloc)
        }
    }

    // The same as an overview.
    #[tactic(auto, using(crate::proofs::columns::AxisLemmas::fits))]
    fn fit(self, alloc: Global) -> Result<Columns, NoMemory>
        ensures { IfOk result (λ columns. length columns.xs.items ≡ length self.xs.items) }
    {
        let mut xs = Vec::new(alloc);
        for x in &self.xs {
            xs.push(fitted(*x, self.width))?;
        }
        Ok(Columns {
            xs,
            width: FIT,
            is_whole: false,
        })
    }

    /// How wide the lanes are, in pixels.
    pub fn width(&self) -> u32
        ensures { result ≡ self.now.width }
    {
        self.width
    }

    /// Whether all is drawn, and not an overview.
    pub fn is_whole(&self) -> bool
        ensures { result ≡ self.now.is_whole }
    {
        self.is_whole
    }

    /// Where a line stands, counted from 1; line 0 stands at the left end, and one past the last where the run ends.
    pub fn x(&self, line: u32) -> u32
        ensures { result ≡ x_of self.now.xs.items self.now.width line }
    {
        let Some(place) = line.checked_sub(1) else {
            return 0;
        };
        match self.xs.get(place as usize) {
            Some(x) => *x,
            None => self.width,
        }
    }

    /// What lies between two lines, where the second isn't before the first. It lies within the lanes.
    #[tactic(auto, using(crate::proofs::columns::AxisLemmas::x_later, crate::proofs::columns::AxisLemmas::x_within))]
    pub fn span(&self, from: u32, until: u32) -> Span
        ensures begins { result.x ≡ x_of self.now.xs.items self.now.width from }
        ensures ends { from ≤ until → result.x + result.width ≡ x_of self.now.xs.items self.now.width until }
        ensures width { result.width ≡ x_of self.now.xs.items self.now.width until - x_of self.now.xs.items self.now.width from }
        ensures within { result.x + result.width ≤ self.now.width }
    {
        let x = self.x(from);
        let end = self.x(until);
        Span {
            x,
            width: end.saturating_sub(x),
        }
    }

    /// What lies between a line and where the run ends.
    pub fn rest(&self, from: u32) -> Span
        ensures begins { result.x ≡ x_of self.now.xs.items self.now.width from }
        ensures width { result.width ≡ self.now.width - x_of self.now.xs.items self.now.width from }
    {
        let x = self.x(from);
        Span {
            x,
            width: self.width.saturating_sub(x),
        }
    }
}
