//! Texts that are copied whole.

ghost use Rattle.std.specs.Prelude.{◌≡◌, ◌≤◌, length, take};

use pm_base::MAX_NAME;
use std::marker::Model;

/// A text with what pads it to so many bytes. Contracts see the text.
#[derive(Drop)]
pub(crate) struct Padded<const N: usize> {
    bytes: [u8; N],
    len: usize,
}

/// A name.
pub(crate) type PaddedName = Padded<MAX_NAME>;

/// The text of an actor and the space behind it.
pub(crate) type PaddedActor = Padded<48>;

impl<const N: usize> Model for Padded<N> {
    ghost use Rattle.std.specs.Prelude.{List, ℕ, ◌≤◌, take};

    ghost Value = { List ℕ };

    ghost view = { λ text. take text.len text.bytes };

    ghost invariant = { λ text. text.len ≤ N };
}

impl<const N: usize> Padded<N> {
    /// A text, of which no more is taken than there is room for.
    pub(crate) fn new(text: &[u8]) -> Padded<N>
        ensures { result ≡ take N text.now }
    {
        let len = text.len().min(N);
        let mut bytes = [0; N];
        bytes[..len].copy_from_slice(&text[..len]);
        Padded { bytes, len }
    }

    /// The length of the text.
    #[inline]
    pub(crate) fn len(&self) -> usize
        ensures len { result ≡ length self.now }
        ensures fits { result ≤ N }
    {
        self.len
    }

    /// The text and what pads it.
    #[inline]
    pub(crate) fn padded(&self) -> &[u8; N]
        ensures text { take (length self.now) result.now ≡ self.now }
        ensures len { length result.now ≡ N }
    {
        &self.bytes
    }
}
