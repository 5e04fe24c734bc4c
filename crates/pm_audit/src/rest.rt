//! What was read of a line whose newline hasn't come yet.

ghost use Rattle.std.specs.Prelude.{◌≡◌, ◌↔◌, [], IfNone, IfOk, IfSome, IsTrue, None, Some};
ghost use Rattle.pm_audit.specs.Auditing.{rest_with};

use pm_base::NoMemory;
use std::alloc::Global;
use std::marker::Model;

/// Bytes of a rest that are kept, at most. A longer one is no line's text.
pub const REST_BYTES: usize = 192;

/// A rest, which contracts see as its bytes, or as nothing where there are more than are kept.
#[derive(Drop)]
pub struct Rest {
    bytes: Vec<u8>,
    is_long: bool,
}

impl Model for Rest {
    ghost use Rattle.std.specs.Prelude.{◌≤◌, List, Option, None, Some, ℕ, vec_capacity, vec_len, if◌then◌else◌};
    ghost use Rattle.pm_audit.specs.declared.rest.TheConstants.{REST_BYTES};

    ghost Value = { Option (List ℕ) };

    ghost view = { λ r. if r.is_long then None else Some r.bytes.items };

    ghost invariant = { λ r. (vec_len r.bytes ≤ REST_BYTES) × (REST_BYTES ≤ vec_capacity r.bytes) };
}

impl Rest {
    /// No bytes. All memory that a rest ever needs is taken here.
    pub fn none(alloc: Global) -> Result<Rest, NoMemory>
        ensures { IfOk result (λ r. r ≡ Some []) }
    {
        Ok(Rest {
            bytes: Vec::with_capacity(alloc, REST_BYTES)?,
            is_long: false,
        })
    }

    /// Whether there are no bytes.
    pub fn is_empty(&self) -> bool
        ensures { IsTrue result ↔ (self.now ≡ Some []) }
    {
        !self.is_long && self.bytes.is_empty()
    }

    /// The bytes, where they are kept.
    pub fn bytes(&self) -> Option<&[u8]>
        ensures some { IfSome result (λ b. self.now ≡ Some b.now) }
        ensures none { IfNone result (self.now ≡ None) }
    {
        if self.is_long {
            return None;
        }
        Some(self.bytes.as_slice())
    }

    /// The rest goes on with these bytes. It takes no memory.
    pub fn push(&mut self, piece: &[u8])
        ensures { self.new ≡ rest_with self.old piece.now }
    {
        if self.is_long {
            return;
        }
        if piece.len() > REST_BYTES - self.bytes.len() {
            self.is_long = true;
            return;
        }
        match self.bytes.extend_from_slice(piece) {
            Ok(()) => {}
            Err(_) => unreachable!(),
        }
    }

    /// Drops the bytes.
    pub fn clear(&mut self)
        ensures { self.new ≡ Some [] }
    {
        self.is_long = false;
        self.bytes.clear();
    }
}
