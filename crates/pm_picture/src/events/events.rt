//! The events of a timeline and their text.

ghost use Rattle.std.specs.Prelude.{◌≡◌, ◌++◌, OnOk};
ghost use Rattle.pm_picture.specs.events.Events.{bar_text, count_text, instant_text, named, process_text, thread_text};

use crate::events::pieces::push_field;
use crate::events::plain::push_plain;
use pm_base::NoMemory;
use pm_linetext::push;

/// A thread, by its number and that of its process.
#[derive(Clone, Copy, PartialEq, Eq)]
pub struct Thread {
    pub process: u32,
    pub thread: u32,
}

/// Something that lasts, on a thread.
#[derive(Clone, Copy, PartialEq, Eq)]
pub struct Bar {
    pub on: Thread,
    /// When it begins, in microseconds.
    pub start: u64,
    /// How long it lasts, in microseconds.
    pub length: u64,
    /// The line at which it begins.
    pub line: u32,
}

// Appends a name.
#[tactic(auto, unfolding(crate::specs::events::Events::named))]
fn push_named(text: &mut Vec<u8>, begin: &[u8], name: &[u8]) -> Result<(), NoMemory>
    ensures { OnOk result (text.new.items ≡ text.old.items ++ named begin.now name.now) }
{
    push(text, begin)?;
    push_plain(text, name)?;
    push(text, b"\"")
}

/// Appends how a process is called.
#[tactic(auto, unfolding(crate::specs::events::Events::process_text))]
pub fn push_process(text: &mut Vec<u8>, process: u32, name: &[u8]) -> Result<(), NoMemory>
    ensures { OnOk result (text.new.items ≡ text.old.items ++ process_text process name.now) }
{
    push_field(
        text,
        b",\n{\"ph\":\"M\",\"name\":\"process_name\",\"pid\":",
        process as u64,
    )?;
    push_named(text, b",\"args\":{\"name\":\"", name)?;
    push(text, b"}}")
}

/// Appends how a thread is called.
#[tactic(auto, unfolding(crate::specs::events::Events::thread_text))]
pub fn push_thread(text: &mut Vec<u8>, thread: Thread, name: &[u8]) -> Result<(), NoMemory>
    ensures { OnOk result (text.new.items ≡ text.old.items ++ thread_text thread name.now) }
{
    push_field(
        text,
        b",\n{\"ph\":\"M\",\"name\":\"thread_name\",\"pid\":",
        thread.process as u64,
    )?;
    push_field(text, b",\"tid\":", thread.thread as u64)?;
    push_named(text, b",\"args\":{\"name\":\"", name)?;
    push(text, b"}}")
}

/// Appends something that lasts.
#[tactic(auto, unfolding(crate::specs::events::Events::bar_text))]
pub fn push_bar(text: &mut Vec<u8>, bar: &Bar, name: &[u8]) -> Result<(), NoMemory>
    ensures { OnOk result (text.new.items ≡ text.old.items ++ bar_text bar.now name.now) }
{
    push_field(text, b",\n{\"ph\":\"X\",\"pid\":", bar.on.process as u64)?;
    push_field(text, b",\"tid\":", bar.on.thread as u64)?;
    push_field(text, b",\"ts\":", bar.start)?;
    push_field(text, b",\"dur\":", bar.length)?;
    push_named(text, b",\"name\":\"", name)?;
    push_field(text, b",\"args\":{\"line\":", bar.line as u64)?;
    push(text, b"}}")
}

/// Appends something that happens at a moment, as a bar without length.
#[tactic(auto, unfolding(crate::specs::events::Events::instant_text))]
pub fn push_instant(
    text: &mut Vec<u8>,
    thread: Thread,
    time: u64,
    line: u32,
    name: &[u8],
) -> Result<(), NoMemory>
    ensures { OnOk result (text.new.items ≡ text.old.items ++ instant_text thread time line name.now) }
{
    push_field(
        text,
        b",\n{\"ph\":\"i\",\"s\":\"t\",\"pid\":",
        thread.process as u64,
    )?;
    push_field(text, b",\"tid\":", thread.thread as u64)?;
    push_field(text, b",\"ts\":", time)?;
    push_named(text, b",\"name\":\"", name)?;
    push_field(text, b",\"args\":{\"line\":", line as u64)?;
    push(text, b"}}")
}

/// Appends a count from a moment on.
#[tactic(auto, unfolding(crate::specs::events::Events::count_text))]
pub fn push_count(
    text: &mut Vec<u8>,
    process: u32,
    time: u64,
    count: u32,
    name: &[u8],
) -> Result<(), NoMemory>
    ensures { OnOk result (text.new.items ≡ text.old.items ++ count_text process time count name.now) }
{
    push_field(text, b",\n{\"ph\":\"C\",\"pid\":", process as u64)?;
    push_field(text, b",\"ts\":", time)?;
    push_named(text, b",\"name\":\"", name)?;
    push_field(text, b",\"args\":{\"count\":", count as u64)?;
    push(text, b"}}")
}
