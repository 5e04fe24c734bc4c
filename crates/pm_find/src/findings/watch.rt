//! What is kept of all devices and callers while lines are read.

ghost use Rattle.std.specs.Prelude.{◌≡◌, ◌∷◌, ◌<◌, IfOk, None, OnOk, [], false, length, replicate, slice_index_or, slice_set};
ghost use Rattle.pm_find.specs.findings.Kept.{row_at, unknown};
ghost use Rattle.pm_find.specs.findings.OpenCounts.{device_of, gives};
ghost use Rattle.pm_find.specs.findings.Said.{called_after, recent_after, recent_of, with_denial, with_put, with_recent};
ghost use Rattle.pm_find.specs.findings.WatchTable.{called_at, calls_after, counts_in, given_after, given_at, noted, rows_after, table_after};

use crate::findings::watched::{Called, Recent, Watched};
use pm_base::{ActorId, DevId, NoMemory, Why};
use pm_model::{Event, Helper, Line};
use std::alloc::Global;
use std::marker::Model;

/// What the lines so far tell of each device, the last call of each caller, and of each line whether the count that was
/// taken there has been given back.
#[derive(Drop)]
pub struct Watch {
    rows: Vec<Watched>,
    calls: Vec<Option<Called>>,
    // By the lines' numbers, from 1.
    given: Vec<bool>,
}

impl Model for Watch {
    ghost use Rattle.pm_find.specs.findings.WatchTable.{Table};

    ghost Value = { Table };

    ghost view = { λ w. record { rows = w.rows.items; calls = w.calls.items; given = w.given.items } };
}

/// The device that a line is about.
pub fn device_of(event: &Event) -> DevId
    ensures { result ≡ device_of event.now }
{
    match *event {
        Event::Call { command } => command.dev,
        Event::Ret { dev, .. }
        | Event::Get { dev, .. }
        | Event::Put { dev, .. }
        | Event::Usage { dev, .. }
        | Event::Idle { dev, .. }
        | Event::Suspend { dev, .. }
        | Event::Resume { dev, .. }
        | Event::Return { dev, .. }
        | Event::Wait { dev }
        | Event::State { dev, .. }
        | Event::Begin { dev, .. }
        | Event::End { dev, .. }
        | Event::Domain { dev, .. }
        | Event::Work { dev, .. }
        | Event::Timer { dev, .. } => dev,
    }
}

// The same call, which has put a count.
fn with_put(call: Called) -> Called
    ensures { result ≡ with_put call }
{
    Called {
        has_put: true,
        ..call
    }
}

// What is kept of a caller before its first call.
const NO_RECENT: Recent = Recent {
    denied: None,
    used: 0,
    until: 0,
};

// What is kept of a caller beyond its call.
fn recent_of(before: Option<Called>) -> Recent
    ensures { result ≡ recent_of before }
{
    match before {
        Some(call) => call.recent,
        None => NO_RECENT,
    }
}

// A get that takes a count only of a device that is on answered this code.
fn with_denial(dev: DevId, code: i32, recent: Recent) -> Recent
    ensures { result ≡ with_denial dev code recent }
{
    Recent {
        denied: if code < 0 { Some(dev) } else { None },
        ..recent
    }
}

// What the return of a call, in this line and at this time, makes of what is kept of its caller.
fn recent_after(
    number: u32,
    time: u64,
    helper: Helper,
    dev: DevId,
    code: i32,
    recent: Recent,
) -> Recent
    ensures { result ≡ recent_after number time helper dev code recent }
{
    match helper {
        Helper::Delay => Recent {
            used: number,
            until: time,
            ..recent
        },
        Helper::UseAutosuspend | Helper::SetAutosuspendDelay => Recent { used: 0, ..recent },
        Helper::GetIfActive | Helper::GetIfInUse => with_denial(dev, code, recent),
        _ => recent,
    }
}

// The same call, which has returned in this line and at this time.
fn with_return(
    number: u32,
    time: u64,
    helper: Helper,
    dev: DevId,
    code: i32,
    call: Called,
) -> Called
    ensures { result ≡ with_recent (recent_after number time helper dev code) call }
{
    Called {
        recent: recent_after(number, time, helper, dev, code, call.recent),
        ..call
    }
}

// What an event of a caller makes of its last call.
fn called_after(number: u32, time: u64, event: &Event, before: Option<Called>) -> Option<Called>
    ensures { result ≡ called_after number time event.now before }
{
    match *event {
        Event::Call { command } => Some(Called {
            helper: command.helper,
            line: number,
            has_put: false,
            recent: recent_of(before),
        }),
        Event::Put {
            why: Why::Caller,
            ..
        } => match before {
            Some(call) => Some(with_put(call)),
            None => None,
        },
        Event::Ret { helper, dev, code } => match before {
            Some(call) => Some(with_return(number, time, helper, dev, code, call)),
            None => None,
        },
        _ => before,
    }
}

// Rows of so many devices of which no line has told yet.
fn fresh_rows(alloc: Global, count: usize) -> Result<Vec<Watched>, NoMemory>
    ensures { IfOk result (λ rows. rows.items ≡ replicate count unknown) }
{
    let mut rows = Vec::with_capacity(alloc, count)?;
    for _ in 0..count {
        rows.push(Watched::new(alloc))?;
    }
    Ok(rows)
}

// Takes note of an event of a caller in its last call.
fn note_call(calls: &mut [Option<Called>], caller: u32, number: u32, time: u64, event: &Event)
    ensures { calls.new ≡ slice_set calls.old caller (called_after number time event.now (slice_index_or calls.old caller None)) }
{
    let place = caller as usize;
    if place < calls.len() {
        calls[place] = called_after(number, time, event, calls[place]);
    }
}

// Takes note that the count of a line has been given back.
fn note_given(given: &mut Vec<bool>, line: Option<u32>)
    ensures { given.new.items ≡ noted line given.old.items }
{
    let Some(line) = line else {
        return;
    };
    let place = line as usize;
    if place < given.len() {
        given[place] = true;
    }
}

// Takes note of a line more, and that the count of another has been given back.
fn follow_given(given: &mut Vec<bool>, line: Option<u32>) -> Result<(), NoMemory>
    ensures { OnOk result (given.new.items ≡ given_after line given.old.items) }
{
    note_given(given, line);
    given.push(false)?;
    Ok(())
}

impl Watch {
    /// Of so many devices and callers of which no line has told yet. Fails where memory runs out.
    pub fn new(alloc: Global, devices: usize, callers: usize) -> Result<Watch, NoMemory>
        ensures { IfOk result (λ watch. watch ≡ record { rows = replicate devices unknown; calls = replicate callers None; given = false ∷ [] }) }
    {
        let calls = vec![in alloc; None; callers]?;
        let given = vec![in alloc; false]?;
        let rows = fresh_rows(alloc, devices)?;
        Ok(Watch { rows, calls, given })
    }

    /// What is known of a device.
    pub fn row(&self, dev: DevId) -> &Watched
        requires { dev.0 < length self.now.rows }
        ensures { result.now ≡ row_at self.now.rows dev }
    {
        &self.rows[dev.0 as usize]
    }

    /// The last call of an actor.
    pub fn called(&self, actor: ActorId) -> Option<Called>
        ensures { result ≡ called_at self.now.calls actor }
    {
        match actor {
            ActorId::Caller(caller) => match self.calls.get(caller as usize) {
                Some(call) => *call,
                None => None,
            },
            ActorId::Work(_) | ActorId::Timer(_) => None,
        }
    }

    /// Whether the count that was taken in a line has been given back before its caller took another or went by a delay.
    pub fn given(&self, line: u32) -> bool
        ensures { result ≡ given_at self.now.given line }
    {
        match self.given.get(line as usize) {
            Some(given) => *given,
            None => false,
        }
    }

    // Takes note of a line in the last call of its actor.
    fn follow_call(&mut self, number: u32, line: &Line)
        ensures { self.new ≡ record self.old { calls = calls_after line.now.actor number line.now.time line.now.event self.old.calls } }
    {
        if let ActorId::Caller(caller) = line.actor {
            note_call(&mut self.calls, caller, number, line.time, &line.event);
        }
    }

    // Takes note of a line in the row of its device.
    fn follow_row(
        &mut self,
        number: u32,
        called: Option<Called>,
        line: &Line,
    ) -> Result<(), NoMemory>
        requires { (device_of line.now.event).0 < length self.old.rows }
        ensures { OnOk result (self.new ≡ record self.old { rows = rows_after number called line.now self.old.rows }) }
    {
        let dev = device_of(&line.event);
        self.rows[dev.0 as usize].follow(number, called, line)
    }

    // Takes note of what a line gives back.
    fn follow_given(&mut self, called: Option<Called>, line: &Line) -> Result<(), NoMemory>
        requires { (device_of line.now.event).0 < length self.old.rows }
        ensures { OnOk result (self.new ≡ record self.old { given = given_after (gives (counts_in self.old (device_of line.now.event)) called line.now.actor line.now.event) self.old.given }) }
    {
        let given = self.row(device_of(&line.event)).gives(called, line);
        follow_given(&mut self.given, given)
    }

    /// Takes note of a line. It looks at its device and its actor. Fails where memory runs out.
    pub fn follow(&mut self, number: u32, line: &Line) -> Result<(), NoMemory>
        requires { (device_of line.now.event).0 < length self.old.rows }
        ensures { OnOk result (self.new ≡ table_after number line.now self.old) }
    {
        let called = self.called(line.actor);
        self.follow_given(called, line)?;
        self.follow_call(number, line);
        self.follow_row(number, called, line)
    }
}
