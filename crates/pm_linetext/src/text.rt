//! The text of one line while it is spelled.

ghost use Rattle.std.specs.Prelude.{◌≡◌, ◌++◌, ◌<◌, ◌≤◌, ◌^◌, [], decimal, length, take};
ghost use Rattle.pm_model.specs.Spelling.{actor_text, event_text, line_text, newline, space};
ghost use Rattle.pm_linetext.specs.Room.{HasRoom};

use crate::events::{put_event, put_line};
use crate::names::NameSource;
use crate::padded::PaddedActor;
use crate::pieces::{put, put_actor, put_number, put_whole};
use pm_base::ActorId;
use pm_model::{Event, Line};
use std::marker::Model;

/// The bytes in which a line is spelled, from the first on. Each piece is put at a place, and the place behind it
/// is handed on: so the compiler keeps it at hand. There is room for the longest line with its newline and for
/// what pads a text behind that.
pub(crate) type LineBytes = [u8; 256];

/// The text of one line as far as it is spelled. It takes no memory. Contracts see its bytes.
#[derive(Drop)]
pub(crate) struct LineText {
    bytes: LineBytes,
    len: usize,
}

impl Model for LineText {
    ghost use Rattle.std.specs.Prelude.{List, ℕ, ◌≤◌, take};

    ghost Value = { List ℕ };

    ghost view = { λ text. take text.len text.bytes };

    ghost invariant = { λ text. text.len ≤ 256 };
}

impl LineText {
    /// No text.
    pub(crate) fn new() -> LineText
        ensures { result ≡ [] }
    {
        LineText {
            bytes: [0; 256],
            len: 0,
        }
    }

    /// The bytes.
    #[inline]
    pub(crate) fn as_slice(&self) -> &[u8]
        ensures { result.now ≡ self.now }
    {
        &self.bytes[..self.len]
    }

    /// How many bytes there are.
    #[inline]
    pub(crate) fn len(&self) -> usize
        ensures { result ≡ length self.now }
    {
        self.len
    }

    /// Leaves the first bytes, as many as this.
    #[inline]
    pub(crate) fn cut(&mut self, len: usize)
        requires { len ≤ length self.old }
        ensures { self.new ≡ take len self.old }
    {
        self.len = len;
    }

    /// Puts a time and the space behind it in place of what the text held.
    pub(crate) fn put_time(&mut self, time: u64)
        requires { time < 2 ^ 63 }
        ensures { self.new ≡ decimal time ++ space }
    {
        let at = put_number(&mut self.bytes, 0, time);
        self.len = put(&mut self.bytes, at, b" ");
    }

    /// Appends the text of an actor and a space, which is copied whole.
    #[inline(always)]
    pub(crate) fn push_padded(&mut self, actor: &PaddedActor)
        requires { HasRoom self.old actor.now }
        ensures { self.new ≡ self.old ++ actor.now }
    {
        self.len = put_whole(&mut self.bytes, self.len, actor);
    }

    /// Appends an actor and a space.
    #[inline(never)]
    pub(crate) fn push_actor<S: NameSource>(&mut self, names: &S, actor: ActorId)
        requires { HasRoom self.old (actor_text (S.names names.now) actor ++ space) }
        ensures { self.new ≡ self.old ++ (actor_text (S.names names.now) actor ++ space) }
    {
        let at = put_actor(&mut self.bytes, self.len, names, actor);
        self.len = put(&mut self.bytes, at, b" ");
    }

    /// Appends an event and a newline.
    #[inline(always)]
    pub(crate) fn push_event<S: NameSource>(&mut self, names: &S, event: &Event)
        requires { HasRoom self.old (event_text (S.names names.now) event.now ++ newline) }
        ensures { self.new ≡ self.old ++ (event_text (S.names names.now) event.now ++ newline) }
    {
        let at = put_event(&mut self.bytes, self.len, names, event);
        self.len = put(&mut self.bytes, at, b"\n");
    }

    /// Appends a line in format 1 and a newline.
    pub(crate) fn push_line<S: NameSource>(&mut self, names: &S, line: &Line)
        requires { HasRoom self.old (line_text (S.names names.now) line.now ++ newline) }
        ensures { self.new ≡ self.old ++ (line_text (S.names names.now) line.now ++ newline) }
    {
        let end = put_line(&mut self.bytes, self.len, names, line);
        self.len = put(&mut self.bytes, end, b"\n");
    }
}
