//! When and by whom the next line is likely to be written.

ghost use Rattle.std.specs.Prelude.{◌≡◌, ◌<◌, ◌^◌};

use crate::words::{Word, number_of};
use pm_base::{ActorId, NoMemory};
use pm_lineread::time_start;
use pm_linetext::TimedText;
use pm_model::{Move, Plan};
use std::alloc::Global;

/// An actor, told by the number of its name.
#[derive(Clone, Copy)]
struct Writer {
    name: u64,
    actor: ActorId,
}

// A seat that nobody has taken.
const NOBODY: Writer = Writer {
    name: 0,
    actor: ActorId::Caller(0),
};

/// What the fronts of the lines before tell of the next one's: most have the time of the last one, and are by actors
/// that have written before. No clause says that a line is: its whole text is compared.
#[derive(Drop)]
pub(crate) struct Fronts {
    // The actors that have written, two seats for each number of a name.
    writers: Vec<[Writer; 2]>,
    // The word of the last time, and how many bytes it has with its space.
    time: Word,
    time_len: usize,
    /// The last time, in milliseconds since the one from which it counts.
    pub since: u64,
    /// The text of a line, as far as it is spelled.
    pub text: TimedText,
    /// The last move that was offered. It is kept here, since it is large.
    pub row: Move,
}

impl Fronts {
    /// Before any line of the plan. It takes 128 bytes for each device and 64 for each caller, and fails where memory
    /// runs out.
    pub(crate) fn new(alloc: Global, plan: &Plan) -> Result<Fronts, NoMemory> {
        let devices = plan.devices.len().saturating_mul(2);
        let actors = devices.saturating_add(plan.callers.len());
        Ok(Fronts {
            writers: vec![in alloc; [NOBODY; 2]; actors.saturating_mul(2)]?,
            time: Word::NONE,
            time_len: 0,
            since: 0,
            text: TimedText::new(),
            row: Move::Late(0),
        })
    }

    // The bytes' time, since this one, is the last time from now on, where they begin with one.
    #[inline(never)]
    fn turn_to(&mut self, base: u64, bytes: &[u8]) -> bool
        requires { base < 2 ^ 63 }
        ensures { self.new.text ≡ self.old.text }
    {
        let Some((time, behind)) = time_start(base, bytes) else {
            return false;
        };
        self.since = time - base;
        self.time_len = bytes.len().saturating_sub(behind.len());
        self.time = Word::first_of(bytes).unwrap_or(Word::NONE);
        true
    }

    // What is behind the time, since this one, with which the bytes seem to begin. It is the last time from now on.
    #[inline(always)]
    fn behind_time<'a>(&mut self, base: u64, bytes: &'a [u8]) -> Option<&'a [u8]>
        requires { base < 2 ^ 63 }
        ensures { self.new.text ≡ self.old.text }
    {
        if !self.time.begins(bytes) && !self.turn_to(base, bytes) {
            return None;
        }
        bytes.get(self.time_len..)
    }

    // Where the two seats for this number are.
    #[inline(always)]
    fn seats_of(&self, name: u64) -> usize {
        ((name >> 32).wrapping_mul(self.writers.len() as u64) >> 32) as usize
    }

    // Who has a seat for this number.
    #[inline(always)]
    fn named(&self, name: u64) -> Option<ActorId> {
        let seats = self.writers.get(self.seats_of(name))?;
        if seats[0].name == name {
            return Some(seats[0].actor);
        }
        if seats[1].name == name {
            return Some(seats[1].actor);
        }
        None
    }

    /// By whom the line with which the bytes begin seems to be written, where that one has written before. Its time,
    /// since this one, is the last time from now on.
    #[inline(always)]
    pub(crate) fn likely_writer(&mut self, base: u64, bytes: &[u8]) -> Option<ActorId>
        requires { base < 2 ^ 63 }
    {
        let named = self.behind_time(base, bytes)?;
        self.named(number_of(named)?)
    }

    /// A line was found to be by this actor with which the bytes begin, as far as its front tells: the next is likely to
    /// be told by the number of its name. The second seat is the newest's, where the first one is taken.
    pub(crate) fn learn(&mut self, base: u64, bytes: &[u8], actor: ActorId)
        requires { base < 2 ^ 63 }
        ensures { self.new.text ≡ self.old.text }
    {
        let Some(named) = self.behind_time(base, bytes) else {
            return;
        };
        let Some(name) = number_of(named) else {
            return;
        };
        let place = self.seats_of(name);
        if let Some(seats) = self.writers.get_mut(place) {
            let seat = if seats[0].name == NOBODY.name { 0 } else { 1 };
            seats[seat] = Writer { name, actor };
        }
    }
}
