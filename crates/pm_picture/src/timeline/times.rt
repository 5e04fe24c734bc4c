//! When each line of a run comes, in microseconds.

ghost use Rattle.std.specs.Prelude.{◌≡◌, true};
ghost use Rattle.pm_sheet.specs.columns.Axis.{rises};

use pm_base::NoMemory;
use pm_model::Line;
use std::alloc::Global;

/// When the lines of a run come, in microseconds: each at its millisecond, and one more for each line before it in the same.
/// None comes before the one above it.
#[derive(Drop)]
pub(crate) struct Times {
    at: Vec<u64>,
    last: u64,
    ghost in_order: { rises 0 at.items last ≡ true },
}

impl Times {
    // Appends the next line.
    #[tactic(auto, using(pm_sheet::proofs::columns::AxisLemmas::rises_more))]
    fn push(&mut self, line: &Line) -> Result<(), NoMemory> {
        let first = line.time.saturating_mul(1_000);
        let next = if self.at.is_empty() {
            0
        } else {
            self.last.saturating_add(1)
        };
        let time = first.max(next).max(self.last);
        self.at.push(time)?;
        self.last = time;
        Ok(())
    }

    /// Those of all lines. Fails where memory runs out.
    pub fn of(alloc: Global, lines: &[Line]) -> Result<Times, NoMemory> {
        let mut times = Times {
            at: Vec::new(alloc),
            last: 0,
        };
        for line in lines {
            times.push(line)?;
        }
        Ok(times)
    }

    /// When a line comes, counted from 1; line 0 at the begin, and one past the last behind it.
    pub fn at(&self, line: u32) -> u64 {
        let Some(place) = line.checked_sub(1) else {
            return 0;
        };
        match self.at.get(place as usize) {
            Some(time) => *time,
            None => self.last.saturating_add(1),
        }
    }
}
