//! A timeline while it is written.

ghost use Rattle.std.specs.Prelude.{◌≡◌, ◌++◌, IfOk, OnErr, OnOk};
ghost use Rattle.pm_picture.specs.events.Events.{IsTimeline, bar_text, begin_text, count_text, instant_text, process_text, thread_text};

use crate::events::events::{
    Bar, Thread, push_bar, push_count, push_instant, push_process, push_thread,
};
use pm_base::NoMemory;
use pm_linetext::push;
use std::alloc::Global;
use std::marker::Model;

/// The text of a timeline so far. Contracts see its bytes, which are its begin and some events and nothing else, whoever
/// writes.
#[derive(Drop)]
pub struct Timeline {
    text: Vec<u8>,
    // The event that is being written. It goes into the text as a whole or not at all.
    event: Vec<u8>,
}

impl Model for Timeline {
    ghost use Rattle.std.specs.Prelude.{ℕ, List};
    ghost use Rattle.pm_picture.specs.events.Events.{IsBegun};

    ghost Value = { List ℕ };

    ghost view = { λ t. t.text.items };

    ghost invariant = { λ t. IsBegun t.text.items };
}

// The begin of a timeline.
#[tactic(auto, unfolding(crate::specs::events::Events::begin_text))]
fn push_begin(text: &mut Vec<u8>) -> Result<(), NoMemory>
    ensures { OnOk result (text.new.items ≡ text.old.items ++ begin_text) }
{
    push(
        text,
        b"{\"displayTimeUnit\":\"ms\",\"traceEvents\":[\n{\"ph\":\"M\",\"name\":\"process_name\",\"pid\":1,\"args\":{\"name\":\"callers\"}}",
    )
}

// Appends bytes, all of them or none.
fn append(text: &mut Vec<u8>, piece: &[u8]) -> Result<(), NoMemory>
    ensures ok { OnOk result (text.new.items ≡ text.old.items ++ piece.now) }
    ensures err { OnErr result (text.new.items ≡ text.old.items) }
{
    text.extend_from_slice(piece)?;
    Ok(())
}

impl Timeline {
    /// A timeline with nothing on it. Fails where memory runs out, as do the others, which then change nothing.
    pub fn start(alloc: Global) -> Result<Timeline, NoMemory>
        ensures { IfOk result (λ timeline. timeline ≡ begin_text) }
    {
        let mut text = Vec::new(alloc);
        push_begin(&mut text)?;
        Ok(Timeline {
            text,
            event: Vec::new(alloc),
        })
    }

    /// Tells how a process is called.
    pub fn process(&mut self, process: u32, name: &[u8]) -> Result<(), NoMemory>
        ensures ok { OnOk result (self.new ≡ self.old ++ process_text process name.now) }
        ensures err { OnErr result (self.new ≡ self.old) }
    {
        self.event.clear();
        push_process(&mut self.event, process, name)?;
        append(&mut self.text, &self.event)
    }

    /// Tells how a thread is called.
    pub fn thread(&mut self, thread: Thread, name: &[u8]) -> Result<(), NoMemory>
        ensures ok { OnOk result (self.new ≡ self.old ++ thread_text thread name.now) }
        ensures err { OnErr result (self.new ≡ self.old) }
    {
        self.event.clear();
        push_thread(&mut self.event, thread, name)?;
        append(&mut self.text, &self.event)
    }

    /// Tells of something that lasts.
    pub fn bar(&mut self, bar: &Bar, name: &[u8]) -> Result<(), NoMemory>
        ensures ok { OnOk result (self.new ≡ self.old ++ bar_text bar.now name.now) }
        ensures err { OnErr result (self.new ≡ self.old) }
    {
        self.event.clear();
        push_bar(&mut self.event, bar, name)?;
        append(&mut self.text, &self.event)
    }

    /// Tells of something that happens at a moment, in microseconds.
    pub fn instant(
        &mut self,
        thread: Thread,
        time: u64,
        line: u32,
        name: &[u8],
    ) -> Result<(), NoMemory>
        ensures ok { OnOk result (self.new ≡ self.old ++ instant_text thread time line name.now) }
        ensures err { OnErr result (self.new ≡ self.old) }
    {
        self.event.clear();
        push_instant(&mut self.event, thread, time, line, name)?;
        append(&mut self.text, &self.event)
    }

    /// Tells of a count from a moment on, in microseconds.
    pub fn count(
        &mut self,
        process: u32,
        time: u64,
        count: u32,
        name: &[u8],
    ) -> Result<(), NoMemory>
        ensures ok { OnOk result (self.new ≡ self.old ++ count_text process time count name.now) }
        ensures err { OnErr result (self.new ≡ self.old) }
    {
        self.event.clear();
        push_count(&mut self.event, process, time, count, name)?;
        append(&mut self.text, &self.event)
    }

    /// The text of the whole timeline.
    pub fn finish(self) -> Result<Vec<u8>, NoMemory>
        ensures { IfOk result (λ text. IsTimeline text.items) }
    {
        let Timeline { mut text, event: _ } = self;
        text.extend_from_slice(b"\n]}\n")?;
        Ok(text)
    }
}
