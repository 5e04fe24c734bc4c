//! A judge that may keep the lines that it takes.

ghost use Rattle.std.specs.Prelude.{◌≡◌, ◌<◌, ◌^◌, ◌∷◌, [], List, Ok, Some, None, IfErr, IfNone, IfOk, IfSome, OnErr, OnOk, if◌then◌else◌, length};
ghost use Rattle.pm_book.specs.Judging.{IsAnswer, JudgeStandsFor};
ghost use Rattle.pm_book.specs.Offering.{line_by};
ghost use Rattle.pm_book.specs.Sometime.{Writes};
ghost use Rattle.pm_model.specs.declared.event.Line.{Line};
ghost use Rattle.pm_model.specs.Lawful.{IsLawful};
ghost use Rattle.pm_state.specs.Standing.{IsActor};
ghost use Rattle.pm_laws.specs.counts.Sums.{one};
ghost use Rattle.pm_book.specs.Sheets.{KeepsLine, begins_callback};
ghost use Rattle.pm_book.specs.Takings.{TakerStandsFor};

use crate::book::Book;
use crate::laws::all_stand_well;
use crate::lines::Lines;
use crate::writing::begins_callback;
use crate::{Bad, Judge};
use pm_base::{ActorId, NoMemory};
use pm_model::{Change, Event, Line, Plan, Then};
use pm_turns::Turns;
use std::alloc::Global;
use std::marker::Model;

/// Takes the lines of a run that were written elsewhere, as a judge does, and keeps them if it is asked to. Whose
/// turn it is isn't known before it is finished, so that a line costs less here than in a book.
pub struct Taker {
    judge: Judge,
    // The lines, where they are kept: they aren't asked for, or memory ran out, where there are none.
    lines: Option<Lines>,
}

impl Drop for Taker {
    fn drop(self) {
        let Taker { judge, lines } = self;
        drop(judge);
        drop(lines);
    }
}

impl Model for Taker {
    ghost use Rattle.std.specs.Prelude.{IfSome, reverse};
    ghost use Rattle.std.specs.Option.{option_map};
    ghost use Rattle.pm_book.specs.Takings.{IsListOf, Takings};

    ghost Value = { Takings };

    ghost view = { λ t. record { judge = t.judge; kept = option_map (λ sheet. reverse sheet.lines) t.lines } };

    ghost invariant = { λ t. IfSome t.lines (IsListOf t.judge) };
}

// Keeps one line more, where lines are kept. They are dropped where memory runs out.
#[inline(always)]
fn keep(lines: &mut Option<Lines>, time: u64, actor: ActorId, event: &Event)
    requires { IfSome lines.old (λ sheet. length sheet.lines < sheet.limit) }
    ensures { KeepsLine lines.old lines.new (line_by actor time event.now) (one (begins_callback event.now)) }
{
    let is_lost = match lines {
        Some(sheet) => {
            let line = Line {
                time,
                actor,
                event: *event,
            };
            sheet.write(line, begins_callback(event)).is_err()
        }
        None => false,
    };
    if is_lost {
        *lines = None;
    }
}

impl Taker {
    /// The taker of a plan's lines, which has taken none, and keeps lines where that is asked for. All memory but
    /// that of lines is taken here; where it runs out, the plan is handed back.
    pub fn start(alloc: Global, plan: Plan, keeps: bool) -> Result<Taker, (Plan, NoMemory)>
        ensures plan { IfOk result (λ taker. taker.judge.plan ≡ plan) }
        ensures stands { IfOk result (λ taker. TakerStandsFor taker []) }
        ensures kept { IfOk result (λ taker. taker.kept ≡ (if keeps then Some [] else None)) }
        ensures err { IfErr result (λ back. back.0 ≡ plan) }
    {
        let lines = if keeps {
            Some(Lines::none(alloc, plan.lines))
        } else {
            None
        };
        match Judge::start(alloc, plan) {
            Ok(judge) => Ok(Taker { judge, lines }),
            Err(back) => Err(back),
        }
    }

    /// The judge of the lines.
    #[inline]
    pub fn judge(&self) -> &Judge
        ensures { result.now ≡ self.now.judge }
    {
        &self.judge
    }

    /// Takes the line by an actor of the plan, at a time below 2^63 milliseconds of the run, with this event, where
    /// it may come next: its row changes this beside the event, and this takes the place of its actor's stage. It
    /// takes memory for lines alone, and none where none are kept; where it runs out, lines are no longer kept.
    #[inline(always)]
    pub fn accept(&mut self, time: u64, actor: ActorId, event: &Event, change: &Change, next: &Then)
        requires in_range { IsActor self.old.judge.plan actor }
        requires in_time { time < 2 ^ 63 }
        requires room { self.old.judge.lines < self.old.judge.plan.lines }
        requires writes { Writes self.old.judge.plan self.old.judge.world self.old.judge.last (line_by actor time event.now) change.now next.now }
        ensures answer { (h : List Line) → IsLawful self.old.judge.plan h → JudgeStandsFor self.old.judge h → IsAnswer self.old.judge.plan h (line_by actor time event.now) (Ok tt) }
        ensures taken { (h : List Line) → IsLawful self.old.judge.plan h → TakerStandsFor self.old h → TakerStandsFor self.new ((line_by actor time event.now) ∷ h) }
        ensures plan { self.new.judge.plan ≡ self.old.judge.plan }
        ensures unkept { IfNone self.old.kept (self.new.kept ≡ None) }
    {
        self.judge.accept(time, actor, event, change, next);
        keep(&mut self.lines, time, actor, event);
    }

    /// Takes a line by an actor of the plan, at a time below 2^63 milliseconds of the run, where it may come
    /// next, and else says what is wrong. A refusal changes nothing. It takes memory for lines alone, and none
    /// where none are kept; where it runs out, lines are no longer kept.
    pub fn take_line(&mut self, line: &Line) -> Result<(), Bad>
        requires in_range { IsActor self.old.judge.plan line.now.actor }
        requires in_time { line.now.time < 2 ^ 63 }
        ensures answer { (h : List Line) → IsLawful self.old.judge.plan h → JudgeStandsFor self.old.judge h → IsAnswer self.old.judge.plan h line.now result }
        ensures taken { OnOk result ((h : List Line) → IsLawful self.old.judge.plan h → TakerStandsFor self.old h → TakerStandsFor self.new (line.now ∷ h)) }
        ensures plan { self.new.judge.plan ≡ self.old.judge.plan }
        ensures unkept { IfNone self.old.kept (self.new.kept ≡ None) }
        ensures err { OnErr result (self.new ≡ self.old) }
    {
        self.judge.judge(line)?;
        keep(&mut self.lines, line.time, line.actor, &line.event);
        Ok(())
    }

    /// The book of the lines that are kept. Memory is taken for whose turn it is; fails where it runs out, and
    /// where no lines are kept.
    pub fn finish(self, alloc: Global) -> Result<Book, NoMemory>
        ensures plan { IfOk result (λ book. book.plan ≡ self.judge.plan) }
        ensures lines { IfOk result (λ book. self.kept ≡ Some book.lines) }
    {
        let Taker { judge, lines } = self;
        let Some(lines) = lines else {
            return Err(NoMemory);
        };
        let (plan, state) = judge.into_parts();
        all_stand_well();
        let turns = Turns::after(alloc, &plan, &state, lines.as_slice())?;
        Ok(Book {
            plan,
            lines,
            state,
            turns,
        })
    }
}
