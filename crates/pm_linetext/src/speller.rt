//! A plan's lines spelled at full speed.

ghost use Rattle.std.specs.Prelude.{◌≡◌, ◌<◌, ◌≤◌, ◌++◌, ◌^◌, length, IfOk, true};
ghost use Rattle.pm_model.specs.LineOf.{is_event_of, is_line_of};
ghost use Rattle.pm_model.specs.Spelling.{line_text, line_text2, newline};
ghost use Rattle.pm_model.specs.Text.{names_of};

use crate::at_hand::NamesAtHand;
use crate::timed::TimedText;
use pm_base::{ActorId, NoMemory};
use pm_model::{Event, Line, Plan};
use std::alloc::Global;
use std::marker::Model;

/// A plan with its names at hand, so that a line is spelled in one buffer, with no memory and without
/// failure. Contracts see the plan.
#[derive(Drop)]
pub struct LineSpeller<'p> {
    plan: &'p Plan,
    names: NamesAtHand,
}

impl<'p> Model for LineSpeller<'p> {
    ghost use Rattle.std.specs.Prelude.{◌≡◌};
    ghost use Rattle.pm_model.specs.declared.plan.Plan.{Plan};
    ghost use Rattle.pm_model.specs.Text.{names_of};

    ghost Value = { Plan };

    ghost view = { λ speller. speller.plan.now };

    ghost invariant = { λ speller. speller.names ≡ names_of speller.plan.now };
}

impl<'p> LineSpeller<'p> {
    /// A speller of the lines of a plan. It takes 152 bytes for each device and 96 for each caller, and fails
    /// where memory runs out.
    pub fn new(alloc: Global, plan: &'p Plan) -> Result<LineSpeller<'p>, NoMemory>
        ensures { IfOk result (λ speller. speller ≡ plan.now) }
    {
        let names = NamesAtHand::new(alloc, plan)?;
        Ok(LineSpeller { plan, names })
    }

    /// Puts the text of a line in format 1, with a newline, in place of what `text` held.
    #[inline]
    pub fn spell_line(&self, line: &Line, text: &mut TimedText)
        requires { is_line_of self.now line.now ≡ true }
        ensures { text.new ≡ line_text (names_of self.now) line.now ++ newline }
    {
        self.spell_timed(line.time, line, text);
    }

    /// Puts the text of a line in format 2 behind a line of time `base`, with a newline, in place of
    /// what `text` held: the text of format 1 with the time since `base` in place of the time.
    #[inline]
    pub fn spell_line2(&self, base: u64, line: &Line, text: &mut TimedText)
        requires line_of_plan { is_line_of self.now line.now ≡ true }
        requires not_before { base ≤ line.now.time }
        ensures { text.new ≡ line_text2 (names_of self.now) base line.now ++ newline }
    {
        self.spell_timed(line.time - base, line, text);
    }

    /// Puts the text of a line with this time in place of its own, with a newline.
    #[inline]
    fn spell_timed(&self, time: u64, line: &Line, text: &mut TimedText)
        requires line_of_plan { is_line_of self.now line.now ≡ true }
        requires not_later { time ≤ line.now.time }
        ensures { text.new ≡ line_text (names_of self.now) (record line.now { time = time }) ++ newline }
    {
        self.spell_parts(time, line.actor, &line.event, text);
    }

    /// Puts the text of the line of this time, actor and event in format 1, with a newline, in place of what `text`
    /// held. So a line is spelled from where its event stands.
    #[inline(always)]
    pub fn spell_parts(&self, time: u64, actor: ActorId, event: &Event, text: &mut TimedText)
        requires in_time { time < 2 ^ 63 }
        requires event_of_plan { is_event_of (length self.now.devices) event.now ≡ true }
        ensures { text.new ≡ line_text (names_of self.now) (record { time = time; actor = actor; event = event.now }) ++ newline }
    {
        self.names.start_line(time, actor, text);
        self.names.end_line(event, text);
    }
}
