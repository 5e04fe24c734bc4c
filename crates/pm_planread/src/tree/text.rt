//! A text of the tree.

ghost use Rattle.std.specs.Prelude.{◌≡◌};

use std::marker::Model;

/// A text that stays where the tree has it, so that no memory is taken for a copy. Contracts see its
/// bytes.
#[derive(Debug, Drop)]
pub struct Text<'a> {
    bytes: &'a [u8],
}

impl<'a> Model for Text<'a> {
    ghost use Rattle.std.specs.Prelude.{ℕ, List};

    ghost Value = { List ℕ };

    ghost view = { λ text. text.bytes.now };
}

impl<'a> Text<'a> {
    /// The bytes of this text.
    pub fn new(text: &'a str) -> Text<'a>
        ensures { result ≡ text.now }
    {
        Text {
            bytes: text.as_bytes(),
        }
    }

    /// The bytes, in order.
    pub fn as_slice(&self) -> &'a [u8]
        ensures { result.now ≡ self.now }
    {
        self.bytes
    }
}
