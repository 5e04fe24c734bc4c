//! A timeline while it is written, with what is needed for it at hand.

ghost use Rattle.std.specs.Prelude.{IfOk};
ghost use Rattle.pm_picture.specs.events.Events.{IsTimeline};

use crate::events::{Bar, Thread, Timeline};
use crate::timeline::threads::{process_of, thread_of, thread_word};
use crate::timeline::times::Times;
use indexmap::IndexMap;
use pm_base::{ActorId, DevId, NoMemory};
use pm_lanes::Lane;
use pm_linetext::push;
use pm_sheet::scene::Run;
use std::alloc::Global;

/// A timeline while it is written.
pub(crate) struct Writer<'a> {
    pub run: Run<'a>,
    times: Times,
    timeline: Timeline,
    // The threads that have told how they are called, by their numbers.
    known: IndexMap<u32, ()>,
    /// The name of the next event.
    pub words: Vec<u8>,
}

// Taken apart in one place: it is dropped at many.
impl Drop for Writer<'_> {
    fn drop(self) {
        let Writer {
            run: _,
            times,
            timeline,
            known,
            words,
        } = self;
        drop(times);
        drop(timeline);
        drop(known);
        drop(words);
    }
}

impl<'a> Writer<'a> {
    /// Nothing is written yet. Fails where memory runs out, as do the others.
    pub fn new(alloc: Global, run: Run<'a>) -> Result<Writer<'a>, NoMemory> {
        let times = Times::of(alloc, run.lines)?;
        Ok(Writer {
            run,
            times,
            known: IndexMap::new(alloc),
            words: Vec::new(alloc),
            timeline: Timeline::start(alloc)?,
        })
    }

    /// The timeline.
    pub fn finish(self) -> Result<Vec<u8>, NoMemory>
        ensures { IfOk result (λ text. IsTimeline text.items) }
    {
        let Writer {
            run: _,
            times: _,
            timeline,
            known: _,
            words: _,
        } = self;
        timeline.finish()
    }

    /// Begins the next name by these words.
    pub fn say(&mut self, words: &[u8]) -> Result<(), NoMemory> {
        self.words.clear();
        push(&mut self.words, words)
    }

    /// Tells how a process is called.
    pub fn process(&mut self, process: u32, name: &[u8]) -> Result<(), NoMemory> {
        self.timeline.process(process, name)
    }

    // Tells how the thread of a lane is called.
    fn name_thread(&mut self, thread: Thread, lane: Lane) -> Result<(), NoMemory> {
        let run = self.run;
        match lane {
            Lane::Calls(caller) | Lane::Waits(ActorId::Caller(caller)) => {
                self.timeline.thread(thread, run.caller_name(caller))
            }
            Lane::Domain(domain) => self.timeline.thread(thread, run.domain_name(domain)),
            Lane::Link { supplier, .. } => {
                let mut name = self.words.clone()?;
                name.clear();
                push(&mut name, thread_word(lane))?;
                push(&mut name, run.device_name(supplier))?;
                self.timeline.thread(thread, &name)
            }
            _ => self.timeline.thread(thread, thread_word(lane)),
        }
    }

    // The thread of a lane, which tells how it is called the first time.
    fn thread(&mut self, lane: Lane) -> Result<Thread, NoMemory> {
        let thread = thread_of(lane);
        if self.known.insert(thread.thread, ())?.is_none() {
            self.name_thread(thread, lane)?;
        }
        Ok(thread)
    }

    /// Tells of something in a lane, from one line until another, by the words.
    pub fn bar(&mut self, lane: Lane, from: u32, until: u32) -> Result<(), NoMemory> {
        let on = self.thread(lane)?;
        let start = self.times.at(from);
        let bar = Bar {
            on,
            start,
            length: self.times.at(until).saturating_sub(start),
            line: from,
        };
        self.timeline.bar(&bar, &self.words)
    }

    /// Tells of something that happens at a line, by the words.
    pub fn instant(&mut self, lane: Lane, line: u32) -> Result<(), NoMemory> {
        let on = self.thread(lane)?;
        self.timeline
            .instant(on, self.times.at(line), line, &self.words)
    }

    /// Tells how many counts are held on a device from a line on.
    pub fn usage(&mut self, dev: DevId, line: u32, usage: u32) -> Result<(), NoMemory> {
        self.timeline
            .count(process_of(dev), self.times.at(line), usage, b"usage")
    }
}
