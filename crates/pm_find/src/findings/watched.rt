//! What is kept of a device while lines are read.

ghost use Rattle.std.specs.Prelude.{◌≡◌, ◌∷◌, ◌&&◌, OnOk, if◌then◌else◌, map, not, position, remove, reverse, slice_get};
ghost use Rattle.pm_find.specs.findings.Kept.{ends_failed, error_after, error_in, failed_after, known_after, status_after, status_in, unknown};
ghost use Rattle.pm_find.specs.findings.OpenCounts.{counts_after, gives, is_of, new_count, taken, taken_place, used_line, with_another, with_error};
ghost use Rattle.pm_find.specs.findings.Said.{has_asked, is_noresume};
ghost use Rattle.pm_model.specs.Counted.{word_status};
ghost use Rattle.pm_model.specs.Derived.{is_active_status};
ghost use Rattle.pm_model.specs.Promises.{is_actor};

use crate::findings::codes::is_error;
use pm_base::{ActorId, Cb, DevId, EAGAIN, EBUSY, NoMemory, Status, Why};
use pm_model::{Event, Helper, Line, Word};
use std::alloc::Global;
use std::marker::Model;

/// A count that a caller took and that nothing has taken away.
#[derive(Clone, Copy, PartialEq, Eq)]
pub struct Count {
    /// Who took it, and in which line.
    pub actor: ActorId,
    pub line: u32,
    /// Whether the get asks for a resume.
    pub asks: bool,
    /// Whether a call of this caller on the device has answered an error since.
    pub failed: bool,
    /// Whether this caller has taken another count of the device since.
    pub again: bool,
}

/// What is kept of a caller beyond its call.
#[derive(Clone, Copy, PartialEq, Eq)]
pub struct Recent {
    /// The device of its last `get_if_active` or `get_if_in_use`, where that answered an error.
    pub denied: Option<DevId>,
    /// The line in which its last delay ended, where it has set up no autosuspend since; else 0.
    pub used: u32,
    /// When its last delay ended, in milliseconds of the run.
    pub until: u64,
}

/// A call of a caller.
#[derive(Clone, Copy, PartialEq, Eq)]
pub struct Called {
    pub helper: Helper,
    pub line: u32,
    /// Whether it has put a count.
    pub has_put: bool,
    pub recent: Recent,
}

/// What the lines so far tell of a device: its open counts, its status, the line that stored its error, the last
/// line in which a callback of it failed, and the last line after which it was Active no more.
#[derive(Drop)]
pub struct Watched {
    // The newest is the last.
    counts: Vec<Count>,
    status: Status,
    error: u32,
    failed: u32,
    left: u32,
}

impl Model for Watched {
    ghost use Rattle.std.specs.Prelude.{reverse};
    ghost use Rattle.pm_find.specs.findings.Kept.{Known};

    ghost Value = { Known };

    ghost view = { λ w. record { counts = reverse w.counts.items; status = w.status; error = w.error; failed = w.failed; left = w.left } };
}

/// Whether two actors are the same.
pub fn is_actor(one: ActorId, other: ActorId) -> bool
    ensures { result ≡ is_actor one other }
{
    match (one, other) {
        (ActorId::Caller(a), ActorId::Caller(b))
        | (ActorId::Work(a), ActorId::Work(b))
        | (ActorId::Timer(a), ActorId::Timer(b)) => a == b,
        _ => false,
    }
}

// The status that a word names.
fn word_status(word: Word) -> Status
    ensures { result ≡ word_status word }
{
    match word {
        Word::Active | Word::ForcedActive => Status::Active,
        Word::Resuming => Status::Resuming,
        Word::Suspended | Word::Deferred | Word::ForcedSuspended => Status::Suspended,
    }
}

// The status that an event says of its device.
fn status_in(event: &Event) -> Option<Status>
    ensures { result ≡ status_in event.now }
{
    match *event {
        Event::State { word, .. } => Some(word_status(word)),
        Event::Begin {
            cb: Cb::Suspend,
            ..
        } => Some(Status::Suspending),
        Event::End {
            cb: Cb::Suspend,
            code,
            ..
        } if code != 0 => Some(Status::Active),
        _ => None,
    }
}

// The error that an event says of its device.
fn error_in(event: &Event) -> Option<i32>
    ensures { result ≡ error_in event.now }
{
    match *event {
        Event::End {
            cb: Cb::Resume,
            code,
            ..
        } if code != 0 => Some(code),
        Event::End {
            cb: Cb::Suspend,
            code,
            ..
        } if code != 0 && code != EAGAIN && code != EBUSY => Some(code),
        Event::State {
            word: Word::ForcedActive | Word::ForcedSuspended,
            ..
        } => Some(0),
        _ => None,
    }
}

// Where the latest count of an actor stands, counted from the newest.
fn latest(counts: &[Count], actor: ActorId) -> Option<usize>
    ensures { result ≡ position (is_of actor) (reverse counts.now) }
{
    counts
        .iter()
        .rev()
        .position(|count| is_actor(actor, count.actor))
}

// Where the count stands, counted from the newest, that a put by this actor takes away.
fn taken_place(counts: &[Count], actor: ActorId) -> usize
    ensures { result ≡ taken_place actor (reverse counts.now) }
{
    match latest(counts, actor) {
        Some(place) => place,
        None => 0,
    }
}

/// The count at a place, counted from the newest.
pub fn count_at(counts: &[Count], place: usize) -> Option<Count>
    ensures { result ≡ slice_get (reverse counts.now) place }
{
    if place < counts.len() {
        Some(counts[counts.len() - 1 - place])
    } else {
        None
    }
}

// Takes away the count at a place, counted from the newest, if there is one.
fn take_away(counts: &mut Vec<Count>, place: usize)
    ensures { reverse counts.new.items ≡ remove (reverse counts.old.items) place }
{
    if place < counts.len() {
        let _taken = counts.remove(counts.len() - 1 - place);
    }
}

// The same count, where a call of this actor on the device has answered an error.
fn with_error(actor: ActorId, count: Count) -> Count
    ensures { result ≡ with_error actor count }
{
    Count {
        failed: count.failed || is_actor(actor, count.actor),
        ..count
    }
}

// Notes in the open counts of a device that a call of this actor has answered an error.
fn note_error(counts: &mut Vec<Count>, actor: ActorId)
    ensures { counts.new.items ≡ map (with_error actor) counts.old.items }
{
    for count in counts.iter_mut() {
        *count = with_error(actor, *count);
    }
}

// The same count, where this actor has taken another of the device.
fn with_another(actor: ActorId, count: Count) -> Count
    ensures { result ≡ with_another actor count }
{
    Count {
        again: count.again || is_actor(actor, count.actor),
        ..count
    }
}

// Notes in the open counts of a device that this actor has taken another.
fn note_another(counts: &mut Vec<Count>, actor: ActorId)
    ensures { counts.new.items ≡ map (with_another actor) counts.old.items }
{
    for count in counts.iter_mut() {
        *count = with_another(actor, *count);
    }
}

// Whether the get of a call asks for a resume.
fn has_asked(called: Option<Called>) -> bool
    ensures { result ≡ has_asked called }
{
    match called {
        Some(call) => !is_noresume(call.helper),
        None => true,
    }
}

// Whether a helper takes a count and asks for no resume.
fn is_noresume(helper: Helper) -> bool
    ensures { result ≡ is_noresume helper }
{
    matches!(helper, Helper::GetNoresume)
}

// The count that a get of this actor takes in this line, in this call.
fn new_count(actor: ActorId, line: u32, called: Option<Called>) -> Count
    ensures { result ≡ new_count actor line called }
{
    Count {
        actor,
        line,
        asks: has_asked(called),
        failed: false,
        again: false,
    }
}

// The line in which the last delay of the caller of a call ended, or 0.
fn used_line(called: Option<Called>) -> u32
    ensures { result ≡ used_line called }
{
    match called {
        Some(call) => call.recent.used,
        None => 0,
    }
}

// This actor takes a count in this line, in this call.
#[tactic(auto, using(crate::proofs::findings::CountLemmas::reverse_more))]
fn take_count(
    counts: &mut Vec<Count>,
    actor: ActorId,
    number: u32,
    called: Option<Called>,
) -> Result<(), NoMemory>
    ensures { OnOk result (reverse counts.new.items ≡ new_count actor number called ∷ map (with_another actor) (reverse counts.old.items)) }
{
    note_another(counts, actor);
    counts.push(new_count(actor, number, called))?;
    Ok(())
}

// What a line by this actor, in this call, makes of the open counts of its device.
#[tactic(auto, using(crate::proofs::findings::CountLemmas::reverse_map))]
fn follow_counts(
    counts: &mut Vec<Count>,
    actor: ActorId,
    number: u32,
    called: Option<Called>,
    event: &Event,
) -> Result<(), NoMemory>
    ensures { OnOk result (reverse counts.new.items ≡ counts_after actor number called event.now (reverse counts.old.items)) }
{
    match *event {
        Event::Get {
            why: Why::Caller,
            ..
        } => take_count(counts, actor, number, called)?,
        Event::Put {
            why: Why::Caller,
            ..
        } => {
            let place = taken_place(counts, actor);
            take_away(counts, place);
        }
        Event::Ret { code, .. } if is_error(code) => note_error(counts, actor),
        _ => {}
    }
    Ok(())
}

// The status of a device after a line of it.
fn status_after(event: &Event, before: Status) -> Status
    ensures { result ≡ status_after event.now before }
{
    status_in(event).unwrap_or(before)
}

// The line that stored the error of a device after a line of it, or 0.
fn error_after(number: u32, event: &Event, before: u32) -> u32
    ensures { result ≡ error_after number event.now before }
{
    match error_in(event) {
        Some(0) => 0,
        Some(_) => number,
        None => before,
    }
}

// Whether an event ends a callback that failed.
fn ends_failed(event: &Event) -> bool
    ensures { result ≡ ends_failed event.now }
{
    match *event {
        Event::End { code, .. } => code != 0,
        _ => false,
    }
}

// The last line in which a callback of a device failed, after a line of it.
fn failed_after(number: u32, event: &Event, before: u32) -> u32
    ensures { result ≡ failed_after number event.now before }
{
    if ends_failed(event) { number } else { before }
}

// The last line after which a device was Active no more, after a line of it.
fn left_after(number: u32, status: Status, after: Status, before: u32) -> u32
    ensures { result ≡ (if is_active_status status && not (is_active_status after) then number else before) }
{
    match (status, after) {
        (Status::Active, Status::Suspended | Status::Suspending | Status::Resuming) => number,
        _ => before,
    }
}

impl Watched {
    /// Of a device of which no line has told yet.
    pub fn new(alloc: Global) -> Watched
        ensures { result ≡ unknown }
    {
        Watched {
            counts: Vec::new(alloc),
            status: Status::Suspended,
            error: 0,
            failed: 0,
            left: 0,
        }
    }

    /// The open counts, the newest last.
    pub fn counts(&self) -> &[Count]
        ensures { reverse result.now ≡ self.now.counts }
    {
        &self.counts
    }

    pub fn status(&self) -> Status
        ensures { result ≡ self.now.status }
    {
        self.status
    }

    /// The line that stored the error, or 0.
    pub fn error(&self) -> u32
        ensures { result ≡ self.now.error }
    {
        self.error
    }

    /// The last line in which a callback failed, or 0.
    pub fn failed(&self) -> u32
        ensures { result ≡ self.now.failed }
    {
        self.failed
    }

    /// The last line after which the device was Active no more, or 0.
    pub fn left(&self) -> u32
        ensures { result ≡ self.now.left }
    {
        self.left
    }

    /// The count that a put by this actor takes away. It looks at the open counts of the device.
    pub fn taken(&self, actor: ActorId) -> Option<Count>
        ensures { result ≡ taken actor self.now.counts }
    {
        count_at(&self.counts, taken_place(&self.counts, actor))
    }

    /// The line of the count that a line of the device, in this call, gives back before its caller has taken another or gone by a
    /// delay. It looks at the open counts of the device.
    pub fn gives(&self, called: Option<Called>, line: &Line) -> Option<u32>
        ensures { result ≡ gives self.now.counts called line.now.actor line.now.event }
    {
        let Event::Put {
            why: Why::Caller,
            ..
        } = line.event
        else {
            return None;
        };
        let count = self.taken(line.actor)?;
        if !is_actor(line.actor, count.actor) || count.again || used_line(called) > count.line {
            return None;
        }
        Some(count.line)
    }

    /// Takes note of a line of the device, in this call. Fails where memory runs out.
    pub fn follow(
        &mut self,
        number: u32,
        called: Option<Called>,
        line: &Line,
    ) -> Result<(), NoMemory>
        ensures { OnOk result (self.new ≡ known_after line.now.actor number called line.now.event self.old) }
    {
        follow_counts(&mut self.counts, line.actor, number, called, &line.event)?;
        let after = status_after(&line.event, self.status);
        self.left = left_after(number, self.status, after, self.left);
        self.error = error_after(number, &line.event, self.error);
        self.failed = failed_after(number, &line.event, self.failed);
        self.status = after;
        Ok(())
    }
}
