//! The words of weights, kinds and callbacks.

ghost use Rattle.std.specs.Prelude.{◌≡◌};
ghost use Rattle.pm_find.specs.text.Texts.{kind_word, weight_word};
ghost use Rattle.pm_model.specs.Spelling.{cb_word};

use crate::findings::{Bond, Kind, Weight};
use pm_base::Cb;

/// The word of a weight.
pub fn weight_word(weight: Weight) -> &'static [u8]
    ensures { result.now ≡ weight_word weight }
{
    match weight {
        Weight::Error => b"error",
        Weight::Warning => b"warning",
        Weight::Note => b"note",
    }
}

/// The word of a kind.
pub(crate) fn kind_word(kind: &Kind) -> &'static [u8]
    ensures { result.now ≡ kind_word kind.now }
{
    match kind {
        Kind::Leak { .. } => b"leak",
        Kind::Stolen { .. } => b"stolen",
        Kind::Answer { .. } => b"answer",
        Kind::Refused { .. } => b"refused",
        Kind::RefusedStatus { .. } => b"refused status",
        Kind::RefusedPut { .. } => b"refused put",
        Kind::NoCount { .. } => b"no count",
        Kind::LeftOn { .. } => b"left on",
        Kind::NeverOn { .. } => b"never on",
        Kind::Unmarked { .. } => b"unmarked",
        Kind::DomainOn(_) => b"left on",
        Kind::Failed { .. } => b"failed",
        Kind::Poisoned { .. } => b"poisoned",
        Kind::Off(Bond::Domain { .. }) => b"off domain",
        Kind::Off(Bond::Parent { .. }) => b"off parent",
        Kind::Off(Bond::Supplier { .. }) => b"off supplier",
    }
}

/// The word of a callback.
pub(crate) fn cb_word(cb: Cb) -> &'static [u8]
    ensures { result.now ≡ cb_word cb }
{
    match cb {
        Cb::Idle => b"idle",
        Cb::Suspend => b"suspend",
        Cb::Resume => b"resume",
    }
}
