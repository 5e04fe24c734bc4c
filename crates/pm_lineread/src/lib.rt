//! Reads the lines of traces, in both formats.
//!
//! A line is read by the one spelling that each line of a plan has: what is read is the text of the line
//! that is answered, and each text is read. Where the bytes are no line's text, the fault says how far
//! they begin as one.
#![tactic(auto)]

ghost use Rattle.std.specs.Prelude.{◌≡◌, ◌≢◌, ℕ, ◌^◌, ◌<◌, ◌≤◌, true, Ok, IfErr, IfOk};
ghost use Rattle.pm_model.specs.LineOf.{is_line_of};
ghost use Rattle.pm_model.specs.Spelling.{line_text, line_text2};
ghost use Rattle.pm_model.specs.Text.{IsText2Of, IsTextOf, names_of};
ghost use Rattle.pm_model.specs.declared.event.Line.{Line};
ghost use Rattle.pm_model.specs.declared.plan.Plan.{Plan};
ghost use Rattle.pm_lineread.specs.Reading.{line_at};
ghost use Rattle.pm_lineread.specs.Texts.{IsLongest};

mod events;
mod finders;
mod kinds;
mod lines;
mod pieces;
mod starts;

use crate::lines::line;
pub use crate::starts::{line_start, time_start};
pub use finders::Finders;
use pm_model::{Line, Plan};

/// The bytes are no line's text.
#[derive(Clone, Copy, PartialEq, Eq)]
pub struct TextFault {
    /// How many bytes of these, from the front, some line's text begins with, at most; 0 where no line
    /// has a text.
    pub at: usize,
}

/// Reads a line of format 1: all of the bytes, without a newline. It takes no memory.
///
/// It answers the one line of the plan whose text the bytes are, and a fault exactly where they are no
/// line's text. The spelling is this project's own (`docs/TRACE-FORMAT.md`).
pub fn read_line(plan: &Plan, bytes: &[u8]) -> Result<Line, TextFault>
    ensures text { IfOk result (λ line. IsTextOf plan.now line bytes.now) }
    ensures only { (line : Line) → IsTextOf plan.now line bytes.now → result ≡ Ok line }

    // So a fault comes only where no line has this text, and it says how far they begin as one.
    ensures fault { IfErr result (λ _. (line : Line) → ¬ IsTextOf plan.now line bytes.now) }
    ensures at { IfErr result (λ fault. IsLongest (IsTextOf plan.now) bytes.now fault.at) }
{
    read_line_by(plan, None, bytes)
}

/// Reads a line of format 1 as `read_line` does, and finds names sooner where it is given finders.
pub fn read_line_by(plan: &Plan, by: Option<&Finders>, bytes: &[u8]) -> Result<Line, TextFault>
    ensures text { IfOk result (λ line. IsTextOf plan.now line bytes.now) }
    ensures only { (line : Line) → IsTextOf plan.now line bytes.now → result ≡ Ok line }

    // So a fault comes only where no line has this text, and it says how far they begin as one.
    ensures fault { IfErr result (λ _. (line : Line) → ¬ IsTextOf plan.now line bytes.now) }
    ensures at { IfErr result (λ fault. IsLongest (IsTextOf plan.now) bytes.now fault.at) }
{
    read_line2_by(plan, by, 0, bytes)
}

/// Reads a line of format 2 behind a line of time `base`, in milliseconds: all of the bytes, without a
/// newline. It takes no memory.
///
/// It answers as `read_line` does, over the texts of format 2 behind that line, so it also answers a
/// fault where the sum of the times isn't below 2^63.
pub fn read_line2(plan: &Plan, base: u64, bytes: &[u8]) -> Result<Line, TextFault>
    requires { base < 2 ^ 63 }
    ensures text { IfOk result (λ line. IsText2Of plan.now base line bytes.now) }
    ensures only { (line : Line) → IsText2Of plan.now base line bytes.now → result ≡ Ok line }

    // So a fault comes only where no line has this text, and it says how far they begin as one.
    ensures fault { IfErr result (λ _. (line : Line) → ¬ IsText2Of plan.now base line bytes.now) }
    ensures at { IfErr result (λ fault. IsLongest (IsText2Of plan.now base) bytes.now fault.at) }
{
    read_line2_by(plan, None, base, bytes)
}

/// Reads a line of format 2 as `read_line2` does, and finds names sooner where it is given finders.
pub fn read_line2_by(
    plan: &Plan,
    by: Option<&Finders>,
    base: u64,
    bytes: &[u8],
) -> Result<Line, TextFault>
    requires { base < 2 ^ 63 }
    ensures text { IfOk result (λ line. IsText2Of plan.now base line bytes.now) }
    ensures only { (line : Line) → IsText2Of plan.now base line bytes.now → result ≡ Ok line }

    // So a fault comes only where no line has this text, and it says how far they begin as one.
    ensures fault { IfErr result (λ _. (line : Line) → ¬ IsText2Of plan.now base line bytes.now) }
    ensures at { IfErr result (λ fault. IsLongest (IsText2Of plan.now base) bytes.now fault.at) }
{
    match line(plan, by, base, bytes) {
        Ok(line) => Ok(line),
        Err(left) => Err(TextFault {
            at: bytes.len() - left,
        }),
    }
}

/// No two lines of a plan have one text, in either format.
pub fn texts_are_distinct()
    ensures text { (plan : Plan) (a b : Line) → is_line_of plan a ≡ true → is_line_of plan b ≡ true
        → line_text (names_of plan) a ≡ line_text (names_of plan) b → a ≡ b }

    // In format 2, behind a line of one time that isn't later.
    ensures text2 { (plan : Plan) (base : ℕ) (a b : Line) → is_line_of plan a ≡ true → is_line_of plan b ≡ true
        → base ≤ a.time → base ≤ b.time
        → line_text2 (names_of plan) base a ≡ line_text2 (names_of plan) base b → a ≡ b }
{}
