//! Names of a plan that are copied whole.

ghost use Rattle.std.specs.Prelude.{◌≡◌, ◌<◌, ◌≤◌, ◌^◌, ◌++◌, [], IfOk, IfSome, length, map, slice_index_or, take, true};
ghost use Rattle.pm_base.specs.declared.limits.TheConstants.{MAX_NAME};
ghost use Rattle.pm_model.specs.LineOf.{is_actor_of, is_event_of};
ghost use Rattle.pm_model.specs.Spelling.{actor_text, event_text, newline, space};
ghost use Rattle.pm_model.specs.Text.{names_of};
ghost use Rattle.pm_linetext.specs.AtHand.{texts_of};
ghost use Rattle.pm_linetext.specs.Fronts.{IsFront, front_text};
ghost use Rattle.pm_linetext.specs.Room.{HasRoom};

use crate::names::NameSource;
use crate::padded::{Padded, PaddedActor, PaddedName};
use crate::pieces::{put, put_bytes, put_whole};
use crate::text::LineBytes;
use crate::timed::TimedText;
use pm_base::{ActorId, NoMemory};
use pm_model::{Event, Named, NamedList, Plan};
use std::alloc::{AllocError, Global};
use std::marker::Model;

/// The names of a plan's devices and callers, each with what pads it, so that a line is spelled in one
/// buffer, with no memory and without failure: its front first, and then its event. It doesn't borrow the plan.
/// Contracts see the names.
#[derive(Drop)]
pub struct NamesAtHand {
    devices: Vec<PaddedName>,
    callers: Vec<PaddedName>,
    // The texts of the actors with the space behind them, so that a front is a time and one copy.
    caller_texts: Vec<PaddedActor>,
    work_texts: Vec<PaddedActor>,
    timer_texts: Vec<PaddedActor>,
}

impl Model for NamesAtHand {
    ghost use Rattle.pm_model.specs.Spelling.{Names};
    ghost use Rattle.pm_linetext.specs.AtHand.{AreAtHand};

    ghost Value = { Names };

    ghost view = { λ names. record { devices = names.devices.items; callers = names.callers.items } };

    ghost invariant = { λ names. AreAtHand (record { devices = names.devices.items; callers = names.callers.items })
        names.caller_texts.items names.work_texts.items names.timer_texts.items };
}

impl NamesAtHand {
    /// The names of a plan. It takes 152 bytes for each device and 96 for each caller, and fails where memory runs
    /// out.
    pub fn new(alloc: Global, plan: &Plan) -> Result<NamesAtHand, NoMemory>
        ensures { IfOk result (λ names. names ≡ names_of plan.now) }
    {
        let devices = padded(alloc, &plan.devices)?;
        let callers = padded(alloc, &plan.callers)?;
        let caller_texts = actor_texts(alloc, b"", &callers)?;
        let work_texts = actor_texts(alloc, b"work.", &devices)?;
        let timer_texts = actor_texts(alloc, b"timer.", &devices)?;
        Ok(NamesAtHand {
            devices,
            callers,
            caller_texts,
            work_texts,
            timer_texts,
        })
    }

    /// Whether the actor is one of a plan with as many devices and callers.
    #[inline]
    pub fn has_actor(&self, actor: ActorId) -> bool
        ensures { result ≡ is_actor_of (length self.now.devices) (length self.now.callers) actor }
    {
        match actor {
            ActorId::Caller(place) => (place as usize) < self.callers.len(),
            ActorId::Work(place) | ActorId::Timer(place) => (place as usize) < self.devices.len(),
        }
    }

    /// Puts the front of a line, its time and its actor, in place of what `text` held.
    #[inline(always)]
    pub fn start_line(&self, time: u64, actor: ActorId, text: &mut TimedText)
        requires { time < 2 ^ 63 }
        ensures { text.new ≡ front_text self.now time actor }
    {
        let _ = &self.devices; // so the proof knows that the names fit
        text.put_time(time);
        match self.actor_text(actor) {
            Some(padded) => text.text.push_padded(padded),
            None => text.text.push_actor(self, actor),
        }
    }

    /// The text of an actor with the space behind it, where the actor is one of as many devices and callers.
    #[inline(always)]
    fn actor_text(&self, actor: ActorId) -> Option<&PaddedActor>
        ensures { IfSome result (λ text. text.now ≡ actor_text self.now actor ++ space) }
    {
        match actor {
            ActorId::Caller(place) => self.caller_texts.get(place as usize),
            ActorId::Work(place) => self.work_texts.get(place as usize),
            ActorId::Timer(place) => self.timer_texts.get(place as usize),
        }
    }

    /// Puts the text of an event and the newline behind the front of its line. The event is one of a plan with as
    /// many devices.
    #[inline(always)]
    pub fn end_line(&self, event: &Event, text: &mut TimedText)
        requires front { IsFront self.now text.old }
        requires event_of_names { is_event_of (length self.now.devices) event.now ≡ true }
        ensures { text.new ≡ text.old ++ (event_text self.now event.now ++ newline) }
    {
        let _ = &self.devices; // so the proof knows that the names fit
        text.text.push_event(self, event);
    }
}

/// The padded names are at hand.
impl NameSource for NamesAtHand {
    ghost names = { λ names. names };

    #[inline(always)]
    fn put_device_name(&self, bytes: &mut LineBytes, at: usize, place: usize) -> usize {
        put_name_at(bytes, at, &self.devices, place)
    }

    #[inline(always)]
    fn put_caller_name(&self, bytes: &mut LineBytes, at: usize, place: usize) -> usize {
        put_name_at(bytes, at, &self.callers, place)
    }
}

/// Puts the name at a place, and no bytes past the last.
#[inline(always)]
fn put_name_at(bytes: &mut LineBytes, at: usize, names: &[PaddedName], place: usize) -> usize
    requires { HasRoom (take at bytes.old) (slice_index_or names.now place []) }
    ensures { take result bytes.new ≡ take at bytes.old ++ slice_index_or names.now place [] }
{
    match names.get(place) {
        Some(name) => put_whole(bytes, at, name),
        None => at,
    }
}

/// The names of rows, each padded.
fn padded<T: Named>(alloc: Global, rows: &NamedList<T>) -> Result<Vec<PaddedName>, AllocError>
    ensures { IfOk result (λ names. names.items ≡ map (λ row. take MAX_NAME (T.name_of row)) rows.now) }
{
    rows.as_slice()
        .iter()
        .map(|row| PaddedName::new(row.name().as_slice()))
        .collect(alloc)
}

/// The texts of actors of one sort, by what leads to their names.
fn actor_texts(
    alloc: Global,
    lead: &[u8],
    names: &[PaddedName],
) -> Result<Vec<PaddedActor>, AllocError>
    requires { length lead.now ≤ 6 }
    ensures { IfOk result (λ texts. texts.items ≡ texts_of lead.now names.now) }
{
    names
        .iter()
        .map(|name| padded_actor(lead, name))
        .collect(alloc)
}

/// The text of an actor and a space, by what leads to its name.
fn padded_actor(lead: &[u8], name: &PaddedName) -> PaddedActor
    requires { length lead.now ≤ 6 }
    ensures { result ≡ lead.now ++ (name.now ++ space) }
{
    let _ = name.len(); // so the proof knows that the name fits
    let mut bytes = [0; 256];
    let at = put_bytes(&mut bytes, 0, lead);
    let at = put_whole(&mut bytes, at, name);
    let len = put(&mut bytes, at, b" ");
    Padded::new(&bytes[..len])
}
