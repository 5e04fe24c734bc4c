//! Tokens, told from the end of the text.

ghost use Rattle.std.specs.Prelude.{◌≤◌};

/// A token by the bytes of the text that are left where it begins and where it ends.
#[derive(Clone, Copy, PartialEq, Eq)]
pub struct Cut {
    pub from: usize,
    pub to: usize,
    ghost ordered: { to ≤ from },
}

/// The tokens of a key and of its value.
#[derive(Clone, Copy, PartialEq, Eq)]
pub struct Tokens {
    pub key: Cut,
    pub value: Cut,
}
