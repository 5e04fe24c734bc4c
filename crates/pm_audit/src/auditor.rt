//! The auditor.

ghost use Rattle.std.specs.Prelude.{◌≡◌, ◌<◌, ◌++◌, [], List, ℕ, IfErr, IfNone, IfOk, IfSome, length, true};
ghost use Rattle.pm_audit.specs.Auditing.{AuditorStandsFor, HasRead, IsWhole, reason_of, verdict_of};
ghost use Rattle.pm_audit.specs.Following.{FollowerStandsFor};
ghost use Rattle.pm_audit.specs.Readings.{ReaderStandsFor, reading_of};
ghost use Rattle.pm_book.specs.Judging.{JudgeStandsFor};
ghost use Rattle.pm_book.specs.Takings.{TakerStandsFor};
ghost use Rattle.pm_model.specs.NoWhy.{is_within_line};
ghost use Rattle.pm_model.specs.Spelling.{newline};
ghost use Rattle.pm_model.specs.Text.{names_of};
ghost use Rattle.pm_model.specs.Verdict.{IsVerdict, No};

use crate::reader::{Reader, Tools};
use crate::reading::{Format, NoWhy, end_line, told};
use crate::rest::Rest;
use crate::takers::{Follower, LineTaker};
use bstr::ByteSlice;
use pm_base::NoMemory;
use pm_book::{Judge, Taker};
use pm_model::Plan;
use pm_model::keeper::Keeper;
use std::alloc::Global;

/// What is said of a trace.
#[derive(Clone, Copy, PartialEq, Eq)]
pub enum Verdict {
    /// It is the text of a lawful list that is finished.
    YesFinished,
    /// It is the text of a lawful list that isn't.
    YesOpen,
    /// It is the text of no lawful list.
    No {
        /// The number of the first bad line, counted from 1 behind the header, where there is one.
        line: u64,
        why: NoWhy,
    },
}

/// The first bad line.
#[derive(Clone, Copy, PartialEq, Eq)]
pub struct BadLine {
    /// Its number, counted from 1 behind the header, where there is one.
    pub line: u64,
    pub why: NoWhy,
}

/// Reads a trace as it comes, piece by piece, and judges it against a plan; what takes its lines may keep them, or
/// something of them. Contracts say for which bytes it stands: all those that it was fed.
pub struct Auditor<T: LineTaker> {
    pub(crate) reader: Reader<T>,
    format: Format,
    rest: Rest,
    bad: Option<BadLine>,
}

impl<T: LineTaker> Drop for Auditor<T> {
    fn drop(self) {
        let Auditor {
            reader,
            format: _,
            rest,
            bad: _,
        } = self;
        drop(reader);
        drop(rest);
    }
}

// What an auditor has before the lines are taken.
#[derive(Drop)]
struct Start {
    tools: Tools,
    rest: Rest,
}

// That of an auditor of a plan. Fails where memory runs out.
fn start_of(alloc: Global, plan: &Plan) -> Result<Start, NoMemory>
    ensures tools { IfOk result (λ start. start.tools.names ≡ names_of plan.now) }
    ensures rest { IfOk result (λ start. start.rest ≡ Some []) }
{
    Ok(Start {
        rest: Rest::none(alloc)?,
        tools: Tools::new(alloc, plan)?,
    })
}

impl Auditor<Judge> {
    /// An auditor that was fed no bytes, and keeps nothing of lines. All memory is taken here; where it runs out, the
    /// plan is handed back.
    pub fn new(alloc: Global, plan: Plan) -> Result<Auditor<Judge>, (Plan, NoMemory)>
        ensures plan { IfOk result (λ a. a.reader.judge.plan ≡ plan) }
        ensures stands { IfOk result (λ a. AuditorStandsFor JudgeStandsFor a []) }
        ensures err { IfErr result (λ back. back.0 ≡ plan) }
    {
        let start = match start_of(alloc, &plan) {
            Ok(start) => start,
            Err(error) => return Err((plan, error)),
        };
        match Judge::start(alloc, plan) {
            Ok(judge) => Ok(Auditor::of(judge, start)),
            Err(back) => Err(back),
        }
    }
}

impl Auditor<Taker> {
    /// An auditor that was fed no bytes, and keeps the lines for a book. All memory but that of lines is taken here;
    /// where it runs out, the plan is handed back.
    pub fn keeping(alloc: Global, plan: Plan) -> Result<Auditor<Taker>, (Plan, NoMemory)>
        ensures plan { IfOk result (λ a. a.reader.judge.plan ≡ plan) }
        ensures stands { IfOk result (λ a. AuditorStandsFor TakerStandsFor a []) }
        ensures kept { IfOk result (λ a. a.reader.taker.kept ≡ Some []) }
        ensures err { IfErr result (λ back. back.0 ≡ plan) }
    {
        let start = match start_of(alloc, &plan) {
            Ok(start) => start,
            Err(error) => return Err((plan, error)),
        };
        match Taker::start(alloc, plan, true) {
            Ok(taker) => Ok(Auditor::of(taker, start)),
            Err(back) => Err(back),
        }
    }
}

impl<K: Keeper> Auditor<Follower<K>> {
    /// An auditor that was fed no bytes, and keeps of lines what the keeper does, which has kept of none. All memory but
    /// the keeper's is taken here; fails where it runs out.
    pub fn following(alloc: Global, plan: Plan, keeper: K) -> Result<Auditor<Follower<K>>, NoMemory>
        requires { K.Keeps keeper [] }
        ensures plan { IfOk result (λ a. a.reader.judge.plan ≡ plan) }
        ensures stands { IfOk result (λ a. AuditorStandsFor (FollowerStandsFor K.Keeps) a []) }
        ensures same { IfOk result (λ a. a.reader.subject ≡ K.subject keeper) }
    {
        let start = start_of(alloc, &plan)?;
        let follower = Follower::start(alloc, plan, keeper)?;
        Ok(Auditor::of(follower, start))
    }
}

impl<T: LineTaker> Auditor<T> {
    // One that was fed no bytes, of a plan whose lines are taken by this, which has taken none.
    fn of(taker: T, start: Start) -> Auditor<T>
        requires tools { start.tools.names ≡ names_of (T.judged taker).plan }
        requires rest { start.rest ≡ Some [] }
        requires none { T.StandsFor taker [] }
        ensures reader { result.reader ≡ reading_of T.judged T.subject taker }
        ensures stands { AuditorStandsFor T.StandsFor result [] }
    {
        let Start { tools, rest } = start;
        Auditor {
            reader: Reader::of(taker, tools),
            format: Format::Untold,
            rest,
            bad: None,
        }
    }

    // The bytes go on with this piece and a newline.
    fn end_line(&mut self, piece: &[u8])
        requires { is_within_line piece.now ≡ true }
        ensures stands { (b : List ℕ) → AuditorStandsFor T.StandsFor self.old b → AuditorStandsFor T.StandsFor self.new (b ++ (piece.now ++ newline)) }
        ensures plan { self.new.reader.judge.plan ≡ self.old.reader.judge.plan }
        ensures same { self.new.reader.subject ≡ self.old.reader.subject }
    {
        if self.bad.is_some() {
            return;
        }
        let line = u64::from(self.reader.lines()) + 1;
        if let Some(why) = end_line(&mut self.reader, &mut self.format, &mut self.rest, piece) {
            self.bad = Some(BadLine { line, why });
        }
    }

    // The bytes go on with this piece.
    fn keep(&mut self, piece: &[u8])
        requires { is_within_line piece.now ≡ true }
        ensures stands { (b : List ℕ) → AuditorStandsFor T.StandsFor self.old b → AuditorStandsFor T.StandsFor self.new (b ++ piece.now) }
        ensures plan { self.new.reader.judge.plan ≡ self.old.reader.judge.plan }
        ensures same { self.new.reader.subject ≡ self.old.reader.subject }
    {
        self.rest.push(piece);
    }

    // The bytes go on with the first lines of these and their newlines, as far as each is found by its time and its
    // actor, where no line before is bad or cut. Gives what is behind.
    fn take_offered<'a>(&mut self, bytes: &'a [u8]) -> &'a [u8]
        ensures { HasRead T.StandsFor bytes.now result.now self.old self.new }
    {
        if self.bad.is_some() || !self.rest.is_empty() {
            return bytes;
        }
        let Some(is_format2) = told(self.format) else {
            return bytes;
        };
        let mut left = bytes;
        'lines: while let Some(behind) = self.reader.take_offered(is_format2, left) {
            left = behind;
        }
        left
    }

    // The bytes go on with the first line of these and its newline, if there is one. Gives what is behind.
    fn take_first<'a>(&mut self, bytes: &'a [u8]) -> Option<&'a [u8]>
        ensures read { IfSome result (λ behind. HasRead T.StandsFor bytes.now behind.now self.old self.new) }
        ensures shorter { IfSome result (λ behind. length behind.now < length bytes.now) }
        ensures none { IfNone result (is_within_line bytes.now ≡ true) }
        ensures left { IfNone result (self.new ≡ self.old) }
    {
        let Some(at) = bytes.find_byte(b'\n') else {
            return None;
        };
        let (line, behind) = bytes.split_at(at);
        self.end_line(line);
        Some(behind.split_at(1).1)
    }

    /// The bytes go on with this piece. It takes memory for what is kept of lines alone, and none where nothing is.
    pub fn feed(&mut self, piece: &[u8])
        ensures stands { (b : List ℕ) → AuditorStandsFor T.StandsFor self.old b → AuditorStandsFor T.StandsFor self.new (b ++ piece.now) }
        ensures plan { self.new.reader.judge.plan ≡ self.old.reader.judge.plan }
        ensures same { self.new.reader.subject ≡ self.old.reader.subject }
    {
        if self.bad.is_some() {
            return;
        }
        let mut left = self.take_offered(piece);
        'lines: while let Some(behind) = self.take_first(left) {
            left = self.take_offered(behind);
        }
        self.keep(left);
    }

    // The first bad line of the bytes, where one is; it is also one that lacks its newline.
    pub(crate) fn first_bad(&self) -> Option<BadLine>
        ensures some { IfSome result (λ bad. (b : List ℕ) → AuditorStandsFor T.StandsFor self.now b → IsVerdict self.now.reader.judge.plan b (No bad.line (reason_of bad.why))) }
        ensures none { IfNone result ((b : List ℕ) → AuditorStandsFor T.StandsFor self.now b → IsWhole self.now.reader.judge.plan (ReaderStandsFor T.StandsFor self.now.reader) b) }
    {
        if let Some(bad) = self.bad {
            return Some(bad);
        }
        if self.rest.is_empty() {
            return None;
        }
        Some(BadLine {
            line: u64::from(self.reader.lines()) + 1,
            why: NoWhy::Cut,
        })
    }

    // What is said of the bytes.
    fn verdict(&self) -> Verdict
        ensures { (b : List ℕ) → AuditorStandsFor T.StandsFor self.now b → IsVerdict self.now.reader.judge.plan b (verdict_of result) }
    {
        if let Some(BadLine { line, why }) = self.first_bad() {
            return Verdict::No { line, why };
        }
        if self.reader.finished() {
            return Verdict::YesFinished;
        }
        Verdict::YesOpen
    }

    /// What took the lines of the bytes that were fed, where these are the text of a lawful list; else which line is the
    /// first bad one, and why. It takes no memory.
    pub fn taken(self) -> Result<T, BadLine>
        ensures plan { IfOk result (λ taker. (T.judged taker).plan ≡ self.reader.judge.plan) }
        ensures same { IfOk result (λ taker. T.subject taker ≡ self.reader.subject) }
        ensures taken { IfOk result (λ taker. (b : List ℕ) → AuditorStandsFor T.StandsFor self b → IsWhole self.reader.judge.plan (T.StandsFor taker) b) }
        ensures bad { IfErr result (λ bad. (b : List ℕ) → AuditorStandsFor T.StandsFor self b → IsVerdict self.reader.judge.plan b (No bad.line (reason_of bad.why))) }
    {
        if let Some(bad) = self.first_bad() {
            return Err(bad);
        }
        let Auditor {
            reader,
            format: _,
            rest,
            bad: _,
        } = self;
        drop(rest);
        Ok(reader.into_taker())
    }

    /// What is said of the bytes that were fed. It takes no memory.
    pub fn end(self) -> Verdict
        ensures { (b : List ℕ) → AuditorStandsFor T.StandsFor self b → IsVerdict self.reader.judge.plan b (verdict_of result) }
    {
        let verdict = self.verdict();
        drop(self);
        verdict
    }
}
