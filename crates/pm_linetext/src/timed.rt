//! The text of a line, of which the time stays.

ghost use Rattle.std.specs.Prelude.{◌≡◌, ◌++◌, ◌<◌, ◌^◌, decimal};
ghost use Rattle.pm_model.specs.Spelling.{space};

use crate::text::LineText;
use std::marker::Model;

/// The text of a line that begins with a time and a space. Most lines have the time of the line before, so its text
/// is kept and is written anew for another time alone. It takes no memory. Contracts see its bytes.
#[derive(Drop)]
pub struct TimedText {
    pub(crate) text: LineText,
    // The time with whose text the bytes begin, and how many bytes it has with the space behind it.
    time: u64,
    time_len: usize,
}

impl Model for TimedText {
    ghost use Rattle.std.specs.Prelude.{List, ℕ, ◌≡◌, ◌≤◌, ◌++◌, decimal, length, take};
    ghost use Rattle.pm_model.specs.Spelling.{space};

    ghost Value = { List ℕ };

    ghost view = { λ t. t.text };

    ghost invariant = { λ t. (t.time_len ≤ length t.text) × (take t.time_len t.text ≡ decimal t.time ++ space) };
}

impl TimedText {
    /// The time 0 and the space behind it.
    pub fn new() -> TimedText
        ensures { result ≡ decimal 0 ++ space }
    {
        let mut text = LineText::new();
        text.put_time(0);
        let time_len = text.len();
        TimedText {
            text,
            time: 0,
            time_len,
        }
    }

    /// The bytes.
    #[inline]
    pub fn as_slice(&self) -> &[u8]
        ensures { result.now ≡ self.now }
    {
        self.text.as_slice()
    }

    /// Puts a time and the space behind it in place of what the text held.
    #[inline]
    pub fn put_time(&mut self, time: u64)
        requires { time < 2 ^ 63 }
        ensures { self.new ≡ decimal time ++ space }
    {
        if self.time == time {
            self.text.cut(self.time_len);
            return;
        }
        self.text.put_time(time);
        self.time = time;
        self.time_len = self.text.len();
    }
}
