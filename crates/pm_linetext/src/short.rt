//! Short texts: a line that is made in an array, without memory (this project's own).

ghost use Rattle.std.specs.Prelude.{◌≡◌, ◌+◌, ◌≤◌, ◌++◌, [], decimal, length};
ghost use Rattle.std.specs.Fmt.{signed_decimal};
ghost use Rattle.pm_model.specs.Spelling.{device_name};
ghost use Rattle.pm_model.specs.Text.{names_of};

use crate::appended::device_name;
use arrayvec::ArrayVec;
use itoa::Buffer;
use pm_base::DevId;
use pm_model::Plan;
use std::marker::Model;

/// The bytes that a short text may have: a name of 32 bytes, three numbers of 20 digits, and the words between them.
pub const SHORT_BYTES: usize = 128;

/// A short text, which takes no memory. Contracts see its bytes.
#[derive(Drop)]
pub struct ShortText {
    bytes: ArrayVec<u8, SHORT_BYTES>,
}

impl Model for ShortText {
    ghost use Rattle.std.specs.Prelude.{List, ℕ};

    ghost Value = { List ℕ };

    ghost view = { λ text. text.bytes.items };
}

impl ShortText {
    /// No text.
    pub fn new() -> ShortText
        ensures { result ≡ [] }
    {
        ShortText {
            bytes: ArrayVec::new(),
        }
    }

    /// The bytes.
    pub fn as_slice(&self) -> &[u8]
        ensures { result.now ≡ self.now }
    {
        self.bytes.as_slice()
    }

    /// Appends a piece.
    pub fn push(&mut self, piece: &[u8])
        requires { length self.old + length piece.now ≤ SHORT_BYTES }
        ensures value { self.new ≡ self.old ++ piece.now }
        ensures len { length self.new ≡ length self.old + length piece.now }
    {
        let _fits = self.bytes.try_extend_from_slice(piece);
    }

    /// Appends a number in decimal, which has at most 20 digits.
    #[tactic(auto, using(crate::proofs::ShortLemmas::number_short))]
    pub fn push_number(&mut self, number: u64)
        requires { length self.old + 20 ≤ SHORT_BYTES }
        ensures value { self.new ≡ self.old ++ decimal number }
        ensures len { length self.new ≤ length self.old + 20 }
    {
        self.push(Buffer::new().format(number).as_bytes());
    }
    /// Appends a code in decimal, which has at most ten digits and a sign.
    #[tactic(auto, using(crate::proofs::ShortLemmas::code_short))]
    pub fn push_code(&mut self, code: i32)
        requires { length self.old + 11 ≤ SHORT_BYTES }
        ensures value { self.new ≡ self.old ++ signed_decimal code }
        ensures len { length self.new ≤ length self.old + 11 }
    {
        self.push(Buffer::new().format(code).as_bytes());
    }

    /// Appends the name of a device of the plan, and no bytes for another.
    pub fn push_device(&mut self, plan: &Plan, dev: DevId)
        requires { length self.old + 32 ≤ SHORT_BYTES }
        ensures value { self.new ≡ self.old ++ device_name (names_of plan.now) dev.0 }
        ensures len { length self.new ≤ length self.old + 32 }
    {
        self.push(short_name(plan, dev));
    }
}

// The name of a device of the plan, which is short, and no bytes for another.
#[tactic(auto, using(crate::proofs::ShortLemmas::name_short))]
fn short_name(plan: &Plan, dev: DevId) -> &[u8]
    ensures name { result.now ≡ device_name (names_of plan.now) dev.0 }
    ensures short { length result.now ≤ 32 }
{
    device_name(plan, dev)
}
