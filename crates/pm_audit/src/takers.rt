//! What takes the lines of a trace: a judge alone, one that keeps its lines, or one beside which something is kept.

ghost use Rattle.std.specs.Prelude.{◌≡◌, ◌<◌, ◌^◌, ◌∷◌, [], ℕ, List, Ok, IfErr, IfOk, OnErr, OnOk};
ghost use Rattle.pm_audit.specs.Following.{FollowerStandsFor};
ghost use Rattle.pm_book.specs.Judging.{IsAnswer, JudgeStandsFor, Judged};
ghost use Rattle.pm_book.specs.Offering.{line_by};
ghost use Rattle.pm_book.specs.Sometime.{Writes};
ghost use Rattle.pm_book.specs.Takings.{TakerStandsFor};
ghost use Rattle.pm_model.specs.declared.event.Line.{Line as ALine};
ghost use Rattle.pm_model.specs.Lawful.{IsLawful};
ghost use Rattle.pm_state.specs.Standing.{IsActor};

use pm_base::{ActorId, NoMemory};
use pm_book::{Bad, Judge, Taker};
use pm_model::keeper::Keeper;
use pm_model::{Change, Event, Line, Plan, Then};
use std::alloc::Global;

/// Takes the lines of a run, as its judge answers.
pub trait LineTaker: Drop {
    ghost judged: { Self → Judged };

    /// It stands for these lines, the newest first.
    ghost StandsFor: { Self → List ALine → Type 0 };

    /// Of which device it is, or of how many: no line changes it.
    ghost subject: { Self → ℕ };

    /// Its judge.
    fn its_judge(&self) -> &Judge
        ensures { result.now ≡ judged self.now };

    /// Takes the line by an actor of the plan, at a time below 2^63 milliseconds of the run, with this event, where
    /// it may come next: its row changes this beside the event, and this takes the place of its actor's stage.
    fn go_on(&mut self, time: u64, actor: ActorId, event: &Event, change: &Change, next: &Then)
        requires in_range { IsActor (judged self.old).plan actor }
        requires in_time { time < 2 ^ 63 }
        requires room { (judged self.old).lines < (judged self.old).plan.lines }
        requires writes { Writes (judged self.old).plan (judged self.old).world (judged self.old).last (line_by actor time event.now) change.now next.now }
        ensures answer { (h : List ALine) → IsLawful (judged self.old).plan h → JudgeStandsFor (judged self.old) h → IsAnswer (judged self.old).plan h (line_by actor time event.now) (Ok tt) }
        ensures taken { (h : List ALine) → IsLawful (judged self.old).plan h → StandsFor self.old h → StandsFor self.new ((line_by actor time event.now) ∷ h) }
        ensures plan { (judged self.new).plan ≡ (judged self.old).plan }
        ensures same { subject self.new ≡ subject self.old };

    /// Takes a line by an actor of the plan, at a time below 2^63 milliseconds of the run, where it may come
    /// next, and else says what is wrong. A refusal changes nothing.
    fn take(&mut self, line: &Line) -> Result<(), Bad>
        requires in_range { IsActor (judged self.old).plan line.now.actor }
        requires in_time { line.now.time < 2 ^ 63 }
        ensures answer { (h : List ALine) → IsLawful (judged self.old).plan h → JudgeStandsFor (judged self.old) h → IsAnswer (judged self.old).plan h line.now result }
        ensures taken { OnOk result ((h : List ALine) → IsLawful (judged self.old).plan h → StandsFor self.old h → StandsFor self.new (line.now ∷ h)) }
        ensures plan { (judged self.new).plan ≡ (judged self.old).plan }
        ensures same { subject self.new ≡ subject self.old }
        ensures err { OnErr result (self.new ≡ self.old) };

    /// Where it stands for lines its judge does.
    ghost judges: { (taker : Self) (h : List ALine) → StandsFor taker h → JudgeStandsFor (judged taker) h };
}

impl LineTaker for Judge {
    ghost judged = { λ judge. judge };

    ghost StandsFor = { JudgeStandsFor };

    ghost subject = { λ _. 0 };

    ghost judges = { λ _ _ stands. stands };

    #[inline(always)]
    fn its_judge(&self) -> &Judge {
        self
    }

    #[inline(always)]
    fn go_on(&mut self, time: u64, actor: ActorId, event: &Event, change: &Change, next: &Then) {
        self.accept(time, actor, event, change, next);
    }

    fn take(&mut self, line: &Line) -> Result<(), Bad> {
        self.judge(line)
    }
}

impl LineTaker for Taker {
    ghost judged = { λ taker. taker.judge };

    ghost StandsFor = { TakerStandsFor };

    ghost subject = { λ _. 0 };

    ghost judges = { λ _ _ stands. stands.judged };

    #[inline(always)]
    fn its_judge(&self) -> &Judge {
        self.judge()
    }

    #[inline(always)]
    fn go_on(&mut self, time: u64, actor: ActorId, event: &Event, change: &Change, next: &Then) {
        self.accept(time, actor, event, change, next);
    }

    fn take(&mut self, line: &Line) -> Result<(), Bad> {
        self.take_line(line)
    }
}

/// A judge that keeps of its lines what a keeper does.
pub struct Follower<K: Keeper> {
    /// The judge.
    pub judge: Judge,
    /// What it keeps.
    pub keeper: K,
}

impl<K: Keeper> Drop for Follower<K> {
    fn drop(self) {
        let Follower { judge, keeper } = self;
        drop(judge);
        drop(keeper);
    }
}

impl<K: Keeper> Follower<K> {
    /// Before any line of the plan, with a keeper of none. All memory is taken here; fails where it runs out.
    pub fn start(alloc: Global, plan: Plan, keeper: K) -> Result<Follower<K>, NoMemory>
        requires { K.Keeps keeper [] }
        ensures plan { IfOk result (λ follower. follower.judge.plan ≡ plan) }
        ensures stands { IfOk result (λ follower. FollowerStandsFor K.Keeps follower []) }
        ensures same { IfOk result (λ follower. K.subject follower.keeper ≡ K.subject keeper) }
    {
        match Judge::start(alloc, plan) {
            Ok(judge) => Ok(Follower { judge, keeper }),
            Err((_plan, error)) => Err(error),
        }
    }

    /// The judge, and what is kept.
    pub fn into_parts(self) -> (Judge, K)
        ensures judge { result.0 ≡ self.judge }
        ensures keeper { result.1 ≡ self.keeper }
    {
        let Follower { judge, keeper } = self;
        (judge, keeper)
    }
}

impl<K: Keeper> LineTaker for Follower<K> {
    ghost judged = { λ follower. follower.judge };

    ghost StandsFor = { FollowerStandsFor K.Keeps };

    ghost subject = { λ follower. K.subject follower.keeper };

    ghost judges = { λ _ _ following. following.judged };

    #[inline(always)]
    fn its_judge(&self) -> &Judge {
        &self.judge
    }

    #[inline(always)]
    fn go_on(&mut self, time: u64, actor: ActorId, event: &Event, change: &Change, next: &Then) {
        self.judge.accept(time, actor, event, change, next);
        let line = Line {
            time,
            actor,
            event: *event,
        };
        self.keeper.keep(self.judge.lines(), &line);
    }

    fn take(&mut self, line: &Line) -> Result<(), Bad> {
        self.judge.judge(line)?;
        self.keeper.keep(self.judge.lines(), line);
        Ok(())
    }
}
