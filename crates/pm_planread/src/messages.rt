//! The message of a fault.

ghost use Rattle.std.specs.Prelude.{◌≡◌, ◌+◌, ◌≤◌, ◌++◌, [], decimal, length};
ghost use Rattle.pm_planread.specs.Messages.{fault_text, refusal_text};

use crate::refusal::{PlanFault, PlanWhy};
use crate::tree::Section;
use arrayvec::ArrayVec;
use itoa::Buffer;
use std::marker::Model;

/// The bytes of the longest message: that of a refusal with the longest words and two numbers of ten
/// digits.
const MESSAGE_BYTES: usize = 60;

/// A message, which takes no memory. Contracts see its bytes.
#[derive(Drop)]
pub struct Message {
    bytes: ArrayVec<u8, MESSAGE_BYTES>,
}

impl Model for Message {
    ghost use Rattle.std.specs.Prelude.{List, ℕ};

    ghost Value = { List ℕ };

    ghost view = { λ message. message.bytes.items };
}

impl Message {
    fn new() -> Message
        ensures { result ≡ [] }
    {
        Message {
            bytes: ArrayVec::new(),
        }
    }

    /// The bytes.
    pub fn as_slice(&self) -> &[u8]
        ensures { result.now ≡ self.now }
    {
        self.bytes.as_slice()
    }

    /// Appends a piece.
    fn push(&mut self, piece: &[u8])
        requires { length self.old + length piece.now ≤ MESSAGE_BYTES }
        ensures value { self.new ≡ self.old ++ piece.now }
        ensures len { length self.new ≡ length self.old + length piece.now }
    {
        let _fits = self.bytes.try_extend_from_slice(piece);
    }

    /// Appends a number in decimal, which has at most ten digits.
    #[tactic(auto, using(crate::proofs::MessageLemmas::number_short))]
    fn push_number(&mut self, number: u32)
        requires { length self.old + 10 ≤ MESSAGE_BYTES }
        ensures value { self.new ≡ self.old ++ decimal number }
        ensures len { length self.new ≤ length self.old + 10 }
    {
        self.push(Buffer::new().format(number).as_bytes());
    }
}

/// The message of a refusal: `plan: `, its word, its section, the item and the part, with a newline.
/// It takes no memory.
#[tactic(auto, using(crate::proofs::MessageLemmas::word_short, crate::proofs::MessageLemmas::section_short))]
pub fn refusal_message(why: PlanWhy, section: Section, item: u32, part: u32) -> Message
    ensures { result ≡ refusal_text why section item part }
{
    let mut message = Message::new();
    message.push(b"plan: ");
    message.push(why.word().as_bytes());
    message.push(b" ");
    message.push(section.word().as_bytes());
    message.push(b" ");
    message.push_number(item);
    message.push(b" ");
    message.push_number(part);
    message.push(b"\n");
    message
}

/// The message of want of memory.
fn memory_message() -> Message
    ensures { result ≡ fault_text PlanFault.NoMemory }
{
    let mut message = Message::new();
    message.push(b"memory\n");
    message
}

impl PlanFault {
    /// The message that tells of the fault: of a refusal that of `refusal_message`, of want of memory
    /// `memory` and a newline. It takes no memory.
    pub fn message(self) -> Message
        ensures { result ≡ fault_text self }
    {
        match self {
            PlanFault::Refused {
                why,
                section,
                item,
                part,
            } => refusal_message(why, section, item, part),
            PlanFault::NoMemory => memory_message(),
        }
    }
}
