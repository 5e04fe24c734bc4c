//! What takes lines, with what reads them.

ghost use Rattle.std.specs.Prelude.{◌≡◌, ◌<◌, ◌^◌, List, ℕ, Bool, IfNone, IfOk, IfSome, length, true};
ghost use Rattle.pm_audit.specs.Auditing.{IsRead};
ghost use Rattle.pm_audit.specs.Offers.{HasTakenFirst, IsStart};
ghost use Rattle.pm_audit.specs.Readings.{ReaderStandsFor, reading_of};
ghost use Rattle.pm_book.specs.Judging.{JudgeStandsFor};
ghost use Rattle.pm_linetext.specs.Fronts.{IsFront};
ghost use Rattle.pm_model.specs.declared.event.Line.{Line as ALine};
ghost use Rattle.pm_model.specs.Lawful.{IsLawful, is_finished};
ghost use Rattle.pm_model.specs.LineOf.{is_actor_of};
ghost use Rattle.pm_model.specs.Text.{names_of};
ghost use Rattle.pm_model.specs.World.{world};

use crate::fronts::Fronts;
use crate::offers::{PlanNames, Start};
use crate::reading::NoWhy;
use crate::takers::LineTaker;
use pm_base::NoMemory;
use pm_book::Bad;
use pm_model::{Move, Plan};
use std::alloc::Global;
use std::marker::Model;

/// What lines of a plan are read with.
#[derive(Drop)]
pub struct Tools {
    pub(crate) names: PlanNames,
    pub(crate) fronts: Fronts,
}

impl Tools {
    /// Those of a plan. All memory is taken here; fails where it runs out.
    pub fn new(alloc: Global, plan: &Plan) -> Result<Tools, NoMemory>
        ensures { IfOk result (λ tools. tools.names ≡ names_of plan.now) }
    {
        Ok(Tools {
            names: PlanNames::new(alloc, plan)?,
            fronts: Fronts::new(alloc, plan)?,
        })
    }
}

/// What takes lines, with the names of its plan. Contracts see it and its judge.
pub struct Reader<T: LineTaker> {
    taker: T,
    names: PlanNames,
    fronts: Fronts,
}

impl<T: LineTaker> Drop for Reader<T> {
    fn drop(self) {
        let Reader {
            taker,
            names,
            fronts,
        } = self;
        drop(taker);
        drop(names);
        drop(fronts);
    }
}

impl<T: LineTaker> Model for Reader<T> {
    ghost use Rattle.std.specs.Prelude.{◌≡◌};
    ghost use Rattle.pm_audit.specs.Readings.{Reading, reading_of};
    ghost use Rattle.pm_model.specs.Text.{names_of};

    ghost Value = { Reading T };

    ghost view = { λ r. reading_of T.judged T.subject r.taker };

    ghost invariant = { λ r. r.names ≡ names_of (T.judged r.taker).plan };
}

impl<T: LineTaker> Reader<T> {
    /// One that takes lines by this, with the tools of its plan.
    pub fn of(taker: T, tools: Tools) -> Reader<T>
        requires { tools.names ≡ names_of (T.judged taker).plan }
        ensures { result ≡ reading_of T.judged T.subject taker }
    {
        let Tools { names, fronts } = tools;
        Reader {
            taker,
            names,
            fronts,
        }
    }

    /// How many lines there are.
    pub fn lines(&self) -> u32
        ensures { result ≡ self.now.judge.lines }
    {
        self.taker.its_judge().lines()
    }

    /// Whether the run is finished.
    pub fn finished(&self) -> bool
        ensures { (h : List ALine) → JudgeStandsFor self.now.judge h → result ≡ is_finished self.now.judge.plan (world self.now.judge.plan h) }
    {
        self.taker.its_judge().finished()
    }

    /// Takes the line that may come next with whose text, in format 2 where that is true, and newline the
    /// bytes begin, where it is found by its time and its actor. Gives what is behind these.
    pub fn take_offered<'a>(&mut self, is_format2: bool, bytes: &'a [u8]) -> Option<&'a [u8]>
        ensures taken { IfSome result (λ behind. HasTakenFirst T.StandsFor is_format2 self.old self.new bytes.now behind.now) }
        ensures left { IfNone result (self.new ≡ self.old) }
    {
        take_offered(
            &mut self.taker,
            &self.names,
            &mut self.fronts,
            is_format2,
            bytes,
        )
    }

    /// Takes the line whose text this is, in format 2 where that is true, or says why it is bad.
    pub fn read(&mut self, is_format2: bool, text: &[u8]) -> Option<NoWhy>
        ensures read { (h : List ALine) → IsLawful self.old.judge.plan h → ReaderStandsFor T.StandsFor self.old h → IsRead is_format2 self.old.judge.plan h text.now (ReaderStandsFor T.StandsFor self.new) result }
        ensures plan { self.new.judge.plan ≡ self.old.judge.plan }
        ensures same { self.new.subject ≡ self.old.subject }
    {
        read(&mut self.taker, &self.names, is_format2, text)
    }

    /// What took the lines.
    pub fn into_taker(self) -> T
        ensures { self ≡ reading_of T.judged T.subject result }
    {
        let Reader {
            taker,
            names,
            fronts,
        } = self;
        drop(names);
        drop(fronts);
        taker
    }
}

// Takes the line that may be written at this start, whose front the text is, where the bytes begin with its text and
// a newline. Gives what is behind these.
#[inline(always)]
fn take_by<'a, T: LineTaker>(
    taker: &mut T,
    names: &PlanNames,
    fronts: &mut Fronts,
    start: Start,
    bytes: &'a [u8],
) -> Option<&'a [u8]>
    requires names { names.now ≡ names_of (T.judged taker.old).plan }
    requires in_range { is_actor_of (length names.now.devices) (length names.now.callers) start.actor ≡ true }
    requires in_time { start.time < 2 ^ 63 }
    requires front { IsFront names.now fronts.old.text }
    ensures taken { IfSome result (λ behind. (f : Bool) → IsStart f names.now (T.judged taker.old).last fronts.old.text start
        → HasTakenFirst T.StandsFor f (reading_of T.judged T.subject taker.old) (reading_of T.judged T.subject taker.new) bytes.now behind.now) }
    ensures left { IfNone result (taker.new ≡ taker.old) }
{
    if !taker
        .its_judge()
        .offer(start.actor, start.time, &mut fronts.row)
    {
        return None;
    }
    let Move::Write(event, change, next) = &fronts.row else {
        return None;
    };
    let behind = names.behind(event, &mut fronts.text, bytes)?;
    taker.go_on(start.time, start.actor, event, change, next);
    Some(behind)
}

// Takes the line that may come next with whose text, in format 2 where that is true, and newline the bytes
// begin, where it is found by its time and its actor. Gives what is behind these.
#[tactic(auto, using(crate::proofs::Spelled::front_of))]
#[inline(always)]
fn take_offered<'a, T: LineTaker>(
    taker: &mut T,
    names: &PlanNames,
    fronts: &mut Fronts,
    is_format2: bool,
    bytes: &'a [u8],
) -> Option<&'a [u8]>
    requires { names.now ≡ names_of (T.judged taker.old).plan }
    ensures taken { IfSome result (λ behind. HasTakenFirst T.StandsFor is_format2 (reading_of T.judged T.subject taker.old) (reading_of T.judged T.subject taker.new) bytes.now behind.now) }
    ensures left { IfNone result (taker.new ≡ taker.old) }
{
    let last = taker.its_judge().last_time();
    let start = match names.likely_start(last, fronts, is_format2, bytes) {
        Some(start) => start,
        None => {
            let plan = taker.its_judge().plan();
            names.start_apart(plan, last, fronts, is_format2, bytes)?
        }
    };
    take_by(taker, names, fronts, start, bytes)
}

// Takes the line whose text this is, in format 2 where that is true, or says why it is bad.
fn read<T: LineTaker>(
    taker: &mut T,
    names: &PlanNames,
    is_format2: bool,
    text: &[u8],
) -> Option<NoWhy>
    ensures read { (h : List ALine) → IsLawful (T.judged taker.old).plan h → ReaderStandsFor T.StandsFor (reading_of T.judged T.subject taker.old) h
        → IsRead is_format2 (T.judged taker.old).plan h text.now (ReaderStandsFor T.StandsFor (reading_of T.judged T.subject taker.new)) result }
    ensures plan { (T.judged taker.new).plan ≡ (T.judged taker.old).plan }
    ensures same { T.subject taker.new ≡ T.subject taker.old }
{
    let judge = taker.its_judge();
    let Some(line) = names.line_of(judge.plan(), judge.last_time(), is_format2, text) else {
        return Some(NoWhy::Text);
    };
    match taker.take(&line) {
        Ok(()) => None,
        Err(Bad::Limit) => Some(NoWhy::Limit),
        Err(Bad::Step) => Some(NoWhy::Step),
        Err(Bad::Time) => Some(NoWhy::Time),
    }
}
