//! Lines that are read by the text of the one line that may come next.

ghost use Rattle.std.specs.Prelude.{◌≡◌, ◌<◌, ◌≤◌, ◌^◌, ◌++◌, ◌∷◌, IfNone, IfOk, IfSome, length, true};
ghost use Rattle.pm_audit.specs.Offers.{IsStart, base_of as its_base};
ghost use Rattle.pm_linetext.specs.Fronts.{IsFront, front_text};
ghost use Rattle.pm_model.specs.declared.event.Line.{Line as ALine};
ghost use Rattle.pm_model.specs.LineOf.{is_actor_of, is_event_of};
ghost use Rattle.pm_model.specs.Spelling.{event_text};
ghost use Rattle.pm_model.specs.Text.{IsTextBehind, names_of as its_names};

use crate::fronts::Fronts;
use crate::pieces::behind;
use pm_base::{ActorId, NoMemory};
use pm_lineread::{Finders, line_start, read_line_by, read_line2_by};
use pm_linetext::{NamesAtHand, TimedText};
use pm_model::{Event, Line, Plan};
use std::alloc::Global;
use std::marker::Model;

/// When the next line may be written, and by whom.
#[derive(Clone, Copy)]
pub(crate) struct Start {
    /// Its time, in milliseconds of the run.
    pub time: u64,
    /// Its actor.
    pub actor: ActorId,
}

// The time from which the text of a line counts, in format 2 where that is true, behind one of that time.
#[inline]
fn base_of(is_format2: bool, last: u64) -> u64
    ensures base { result ≡ its_base is_format2 last }
    ensures not_later { result ≤ last }
{
    if is_format2 { last } else { 0 }
}

/// The names of a plan, to be found and to be spelled. Contracts see the names.
#[derive(Drop)]
pub(crate) struct PlanNames {
    finders: Finders,
    at_hand: NamesAtHand,
}

impl Model for PlanNames {
    ghost use Rattle.pm_model.specs.Spelling.{Names};

    ghost Value = { Names };

    ghost view = { λ names. names.at_hand };
}

impl PlanNames {
    /// The names of a plan. Fails where memory runs out.
    pub(crate) fn new(alloc: Global, plan: &Plan) -> Result<PlanNames, NoMemory>
        ensures { IfOk result (λ names. names ≡ its_names plan.now) }
    {
        Ok(PlanNames {
            finders: Finders::new(alloc, plan)?,
            at_hand: NamesAtHand::new(alloc, plan)?,
        })
    }

    /// When the line with which the bytes begin may be written, in format 2 where that is true, behind one of that
    /// time, and by whom, where that one has written before. Its front is put in place of the text. No clause says that
    /// the bytes begin so, and mostly they do.
    #[inline(always)]
    pub(crate) fn likely_start(
        &self,
        last: u64,
        fronts: &mut Fronts,
        is_format2: bool,
        bytes: &[u8],
    ) -> Option<Start>
        requires { last < 2 ^ 63 }
        ensures { IfSome result (IsStart is_format2 self.now last fronts.new.text) }
    {
        let base = base_of(is_format2, last);
        let actor = fronts.likely_writer(base, bytes)?;
        if fronts.since >= (1 << 63) - base || !self.at_hand.has_actor(actor) {
            return None;
        }
        let time = base + fronts.since;
        self.at_hand
            .start_line(time - base, actor, &mut fronts.text);
        Some(Start { time, actor })
    }

    /// When the line with which the bytes begin may be written, in format 2 where that is true, behind one of that
    /// time, and by whom, by its time and the name of its actor. Its front is put in place of the text. No clause says
    /// that it is found, nor that the bytes begin so.
    #[inline(never)]
    pub(crate) fn start_apart(
        &self,
        plan: &Plan,
        last: u64,
        fronts: &mut Fronts,
        is_format2: bool,
        bytes: &[u8],
    ) -> Option<Start>
        requires names { self.now ≡ its_names plan.now }
        requires in_time { last < 2 ^ 63 }
        ensures { IfSome result (IsStart is_format2 self.now last fronts.new.text) }
    {
        let base = base_of(is_format2, last);
        let (time, actor) = line_start(plan, &self.finders, base, bytes)?;
        self.at_hand
            .start_line(time - base, actor, &mut fronts.text);
        fronts.learn(base, bytes, actor);
        Some(Start { time, actor })
    }

    /// What is behind the line of this event whose front the text is, and its newline, where the bytes begin with
    /// these. The line and its newline are put in place of the text.
    pub(crate) fn behind<'a>(
        &self,
        event: &Event,
        text: &mut TimedText,
        bytes: &'a [u8],
    ) -> Option<&'a [u8]>
        requires front { IsFront self.now text.old }
        requires event_of_names { is_event_of (length self.now.devices) event.now ≡ true }
        ensures { IfSome result (λ left. bytes.now ≡ (text.old ++ event_text self.now event.now) ++ (10 ∷ left.now)) }
    {
        self.at_hand.end_line(event, text);
        behind(text.as_slice(), bytes)
    }

    /// The line of the plan whose text this is behind a line of that time, in format 2 where that is true.
    pub(crate) fn line_of(
        &self,
        plan: &Plan,
        last: u64,
        is_format2: bool,
        text: &[u8],
    ) -> Option<Line>
        requires { last < 2 ^ 63 }
        ensures some { IfSome result (λ line. IsTextBehind is_format2 plan.now last line text.now) }
        ensures none { IfNone result ((line : ALine) → ¬ IsTextBehind is_format2 plan.now last line text.now) }
    {
        if is_format2 {
            return read_line2_by(plan, Some(&self.finders), last, text).ok();
        }
        read_line_by(plan, Some(&self.finders), text).ok()
    }
}
