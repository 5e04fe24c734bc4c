//! What each piece tells.

use crate::timeline::writer::Writer;
use pm_base::{ActorId, Cb, DevId, NoMemory, Status};
use pm_find::text::push_code;
use pm_lanes::{Lane, Piece, Shown};
use pm_linetext::{push, push_command, push_number};
use pm_model::{Command, Helper};

// The word of a status.
fn status_word(status: Status) -> &'static [u8] {
    match status {
        Status::Active => b"active",
        Status::Suspended => b"suspended",
        Status::Suspending => b"suspending",
        Status::Resuming => b"resuming",
    }
}

// The word of a callback.
fn cb_word(cb: Cb) -> &'static [u8] {
    match cb {
        Cb::Idle => b"idle",
        Cb::Suspend => b"suspend",
        Cb::Resume => b"resume",
    }
}

// The code with which the call or the callback of a piece ends, if it does.
fn code_of(writer: &Writer<'_>, place: usize) -> Option<i32> {
    match writer.run.next(place)?.shown {
        Shown::Returned { code, .. } | Shown::Ended { code, .. } => Some(code),
        _ => None,
    }
}

// Appends a code, unless it is 0.
fn push_answer(writer: &mut Writer<'_>, code: Option<i32>) -> Result<(), NoMemory> {
    match code {
        Some(0) => Ok(()),
        Some(code) => {
            push(&mut writer.words, b" ")?;
            push_code(&mut writer.words, code)
        }
        None => push(&mut writer.words, b" has not returned"),
    }
}

// Says which command is called, and what it returns.
fn say_call(writer: &mut Writer<'_>, place: usize, command: &Command) -> Result<(), NoMemory> {
    let plan = writer.run.plan;
    writer.say(b"")?;
    push_command(&mut writer.words, plan, command)?;
    if matches!(command.helper, Helper::Delay) {
        return Ok(());
    }
    let code = code_of(writer, place);
    push_answer(writer, code)
}

// Says which callback begins, and how it ends.
fn say_callback(writer: &mut Writer<'_>, place: usize, cb: Cb) -> Result<(), NoMemory> {
    writer.say(cb_word(cb))?;
    let code = code_of(writer, place);
    push_answer(writer, code)
}

// Says for which moment a timer is armed.
fn say_deadline(writer: &mut Writer<'_>, deadline: u64) -> Result<(), NoMemory> {
    writer.say(b"armed for ")?;
    push_number(&mut writer.words, deadline)?;
    push(&mut writer.words, b" ms")
}

// Says for which device an actor waits.
fn say_wait(writer: &mut Writer<'_>, dev: DevId) -> Result<(), NoMemory> {
    let run = writer.run;
    writer.say(b"waits for ")?;
    push(&mut writer.words, run.device_name(dev))
}

// Says the name of a piece that lasts, and answers whether it is one.
fn say_bar(writer: &mut Writer<'_>, place: usize, shown: &Shown) -> Result<bool, NoMemory> {
    match *shown {
        Shown::Called { command, .. } => say_call(writer, place, &command)?,
        Shown::Begun { cb, .. } => say_callback(writer, place, cb)?,
        Shown::Stands { status, .. } => writer.say(status_word(status))?,
        Shown::Disabled { disabled: true, .. } => writer.say(b"disabled")?,
        Shown::Queued { queued: true, .. } => writer.say(b"queued")?,
        Shown::Armed {
            deadline: Some(deadline),
            ..
        } => say_deadline(writer, deadline)?,
        Shown::Runs { runs: true, .. } => writer.say(b"runs")?,
        Shown::Switched { on: true, .. } => writer.say(b"on")?,
        Shown::Held { held: true, .. } => writer.say(b"held")?,
        _ => return Ok(false),
    }
    Ok(true)
}

// Says the name of a piece at which something happens, and answers whether it is one: a wait, and an error.
fn say_instant(writer: &mut Writer<'_>, shown: &Shown) -> Result<bool, NoMemory> {
    match *shown {
        Shown::Waits { dev, .. } => say_wait(writer, dev)?,
        Shown::Returned { code, .. } if code < 0 => {
            writer.say(b"error ")?;
            push_code(&mut writer.words, code)?;
        }
        Shown::Ended { code, .. } if code < 0 => {
            writer.say(b"error ")?;
            push_code(&mut writer.words, code)?;
        }
        _ => return Ok(false),
    }
    Ok(true)
}

// The lane on whose thread an instant stands.
fn instant_lane(shown: &Shown) -> Lane {
    match *shown {
        Shown::Waits {
            actor: ActorId::Caller(caller),
            ..
        } => Lane::Calls(caller),
        _ => shown.lane(),
    }
}

/// Tells what a piece shows.
pub(crate) fn tell(writer: &mut Writer<'_>, place: usize, piece: &Piece) -> Result<(), NoMemory> {
    if let Shown::Used { dev, usage } = piece.shown {
        return writer.usage(dev, piece.line, usage);
    }
    if say_bar(writer, place, &piece.shown)? {
        let until = writer.run.until(place);
        return writer.bar(piece.shown.lane(), piece.line, until);
    }
    if say_instant(writer, &piece.shown)? {
        return writer.instant(instant_lane(&piece.shown), piece.line);
    }
    Ok(())
}
