//! What is kept of the lines of a run as they come, in place of the lines.

ghost use Rattle.std.specs.Prelude.{◌≡◌, ◌+◌, ◌≤◌, ◌∷◌, ℕ, List, length};
ghost use Rattle.pm_model.specs.declared.event.Line.{Line as ALine};
ghost use Rattle.pm_model.specs.Lawful.{last_time};

use crate::Line;

/// Keeps what is asked for of lines that come one by one.
pub trait Keeper: Drop {
    /// It has what is to be kept of these lines, the newest first.
    ghost Keeps: { Self → List ALine → Type 0 };

    /// Of which device it is, or of how many: no line changes it.
    ghost subject: { Self → ℕ };

    /// The lines go on with one of this number, no earlier than they. Where it takes memory and that runs out, nothing
    /// is kept from then on.
    fn keep(&mut self, number: u32, line: &Line)
        ensures kept { (h : List ALine) → number ≡ length h + 1 → last_time h ≤ line.now.time → Keeps self.old h → Keeps self.new (line.now ∷ h) }
        ensures same { subject self.new ≡ subject self.old };
}
