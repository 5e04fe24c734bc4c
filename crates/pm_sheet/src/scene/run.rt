//! A run and what is shown of it.

ghost use Rattle.std.specs.Prelude.{◌≡◌, IfSome, reverse, true};
ghost use Rattle.std.specs.List.{list_all};
ghost use Rattle.pm_lanes.specs.calls.Calls.{calls_from};
ghost use Rattle.pm_model.specs.LineOf.{is_line_of};

use pm_base::{DevId, DomId, NoMemory};
use pm_lanes::Piece;
use pm_lanes::calls::Call;
use pm_linetext::{push, push_number, write_line};
use pm_model::{Line, Plan};
use std::alloc::Global;

/// A run of a plan, with all that is shown of it.
#[derive(Clone, Copy)]
pub struct Run<'a> {
    pub plan: &'a Plan,
    pub lines: &'a [Line],
    pub pieces: &'a [Piece],
    /// For each piece the place of its lane's next one.
    pub nexts: &'a [Option<usize>],
    /// The calls of callers, with what they return.
    pub calls: &'a [Call],
    pub ghost each_call: { calls.now ≡ calls_from 1 lines.now },
    pub ghost of_plan: { list_all (is_line_of plan.now) (reverse lines.now) ≡ true },
}

impl<'a> Run<'a> {
    /// The line behind the last one.
    pub fn end(&self) -> u32 {
        u32::try_from(self.lines.len())
            .unwrap_or(u32::MAX)
            .saturating_add(1)
    }

    /// The piece that follows another one in its lane.
    pub fn next(&self, place: usize) -> Option<Piece> {
        let next = (*self.nexts.get(place)?)?;
        self.pieces.get(next).copied()
    }

    /// Until which line a piece lasts.
    pub fn until(&self, place: usize) -> u32 {
        match self.next(place) {
            Some(piece) => piece.line,
            None => self.end(),
        }
    }

    /// The line of this number, counted from 1. It is one of the plan's.
    pub fn line(&self, number: u32) -> Option<&'a Line>
        ensures { IfSome result (λ line. is_line_of self.now.plan.now line.now ≡ true) }
    {
        let place = number.checked_sub(1)? as usize;
        if place < self.lines.len() {
            Some(&self.lines[place])
        } else {
            None
        }
    }

    /// How many milliseconds the run takes.
    pub fn time(&self) -> u64 {
        match self.lines.last() {
            Some(line) => line.time,
            None => 0,
        }
    }

    /// Appends the number and the text of a line, if the run has it.
    pub fn push_line(
        &self,
        alloc: Global,
        text: &mut Vec<u8>,
        number: u32,
    ) -> Result<(), NoMemory> {
        let Some(line) = self.line(number) else {
            return Ok(());
        };
        push(text, b"line ")?;
        push_number(text, u64::from(number))?;
        push(text, b": ")?;
        write_line(alloc, self.plan, line, text)
    }

    /// The name of a device.
    pub fn device_name(&self, dev: DevId) -> &'a [u8] {
        pm_linetext::device_name(self.plan, dev)
    }

    /// The name of a domain.
    pub fn domain_name(&self, domain: DomId) -> &'a [u8] {
        pm_linetext::domain_name(self.plan, domain)
    }

    /// The name of a caller.
    pub fn caller_name(&self, caller: u32) -> &'a [u8] {
        pm_linetext::caller_name(self.plan, caller)
    }
}
