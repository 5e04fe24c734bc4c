//! What the lines tell of a device: its gets that nothing has closed, and the line that stored its error.

ghost use Rattle.std.specs.Prelude.{◌≡◌, OnOk, if◌then◌else◌, position};
ghost use Rattle.pm_why.specs.OpenGets.{is_for, is_why, open_after, without, without_earliest};
ghost use Rattle.pm_why.specs.Reasons.{stores_error};

use pm_base::{Cb, DevId, EAGAIN, EBUSY, NoMemory, Why};
use pm_model::{Event, Word};

/// A count on a device that wasn't given back: for what it was taken, and by which line.
#[derive(Clone, Copy, PartialEq, Eq)]
pub struct Count {
    pub why: Why,
    pub line: u32,
}

/// What the lines tell of a device. Lines are counted from 1.
#[derive(Drop)]
pub struct Found {
    /// Its open gets, in the order of their lines.
    pub gets: Vec<Count>,
    /// The last line that stored an error, or 0.
    pub error_line: u32,
}

// Whether two reasons for a count are the same.
fn is_why(one: Why, other: Why) -> bool
    ensures { result ≡ is_why one other }
{
    match (one, other) {
        (Why::Caller, Why::Caller)
        | (Why::Control, Why::Control)
        | (Why::Forbid, Why::Forbid)
        | (Why::Delay, Why::Delay) => true,
        (Why::Child(a), Why::Child(b)) | (Why::Link(a), Why::Link(b)) => b.0 == a.0,
        _ => false,
    }
}

// The place of the earliest with this reason.
fn earliest(gets: &[Count], why: Why) -> Option<usize>
    ensures { result ≡ position (is_for why) gets.now }
{
    gets.iter().position(|get| is_why(why, get.why))
}

// Closes the earliest with this reason.
fn close_earliest(gets: &mut Vec<Count>, why: Why)
    ensures { gets.new.items ≡ without_earliest why gets.old.items }
{
    if let Some(place) = earliest(gets, why) {
        let _closed = gets.remove(place);
    }
}

// Closes all with this reason.
fn close_all(gets: &mut Vec<Count>, why: Why)
    ensures { gets.new.items ≡ without why gets.old.items }
{
    gets.retain(|get| !is_why(why, get.why));
}

// What a line with this number makes of the open gets.
fn follow_gets(gets: &mut Vec<Count>, dev: DevId, line: u32, event: &Event) -> Result<(), NoMemory>
    ensures { OnOk result (gets.new.items ≡ open_after dev line event.now gets.old.items) }
{
    match *event {
        Event::Get { dev: taken, why } if taken.0 == dev.0 => {
            gets.push(Count { why, line })?;
        }
        Event::Put { dev: given, why } if given.0 == dev.0 => close_earliest(gets, why),
        Event::State {
            dev: consumer,
            word: Word::ForcedSuspended,
        } => close_all(gets, Why::Link(consumer)),
        _ => {}
    }
    Ok(())
}

// Whether an event stores an error of the device.
fn stores_error(dev: DevId, event: &Event) -> bool
    ensures { result ≡ stores_error dev event.now }
{
    match *event {
        Event::End {
            dev: ended,
            cb: Cb::Resume,
            code,
        } => code != 0 && ended.0 == dev.0,
        Event::End {
            dev: ended,
            cb: Cb::Suspend,
            code,
        } => code != 0 && code != EAGAIN && code != EBUSY && ended.0 == dev.0,
        _ => false,
    }
}

/// What a line with this number makes of what the lines tell of a device. Fails where memory runs out.
pub fn follow(found: &mut Found, dev: DevId, line: u32, event: &Event) -> Result<(), NoMemory>
    ensures gets { OnOk result (found.new.gets.items ≡ open_after dev line event.now found.old.gets.items) }
    ensures error { OnOk result (found.new.error_line ≡ (if stores_error dev event.now then line else found.old.error_line)) }
{
    follow_gets(&mut found.gets, dev, line, event)?;
    if stores_error(dev, event) {
        found.error_line = line;
    }
    Ok(())
}
