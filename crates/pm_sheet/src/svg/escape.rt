//! Bytes of the user's among markup.

ghost use Rattle.std.specs.Prelude.{◌≡◌, ◌++◌, List, ℕ, OnOk, true};
ghost use Rattle.std.specs.List.{list_all};
ghost use Rattle.pm_sheet.specs.svg.Escape.{escaped, escaped_byte, is_itself, is_no_markup};

use pm_base::NoMemory;
use pm_linetext::push;

// Appends a byte so that it is no markup.
fn push_byte(text: &mut Vec<u8>, byte: u8) -> Result<(), NoMemory>
    ensures { OnOk result (text.new.items ≡ text.old.items ++ escaped_byte byte) }
{
    match byte {
        b'<' => push(text, b"&lt;"),
        b'>' => push(text, b"&gt;"),
        b'&' => push(text, b"&amp;"),
        b'"' => push(text, b"&quot;"),
        byte if byte < 32 => push(text, b"?"),
        byte => push(text, &[byte]),
    }
}

// Whether a byte stands for itself.
fn is_itself(byte: u8) -> bool
    ensures { result ≡ is_itself byte }
{
    !matches!(byte, b'<' | b'>' | b'&' | b'"') && byte >= 32
}

// Whether all bytes do.
fn are_themselves(bytes: &[u8]) -> bool
    ensures { result ≡ true → list_all is_itself bytes.now ≡ true }
{
    for byte in bytes {
        if !is_itself(*byte) {
            return false;
        }
    }
    true
}

// Appends bytes one by one so that they are no markup.
fn push_bytes(text: &mut Vec<u8>, bytes: &[u8]) -> Result<(), NoMemory>
    ensures { OnOk result (text.new.items ≡ text.old.items ++ escaped bytes.now) }
{
    for byte in bytes {
        push_byte(text, *byte)?;
    }
    Ok(())
}

/// Appends bytes so that they are no markup: an entity stands for each of four characters of markup, and `?`
/// for each control character, which XML doesn't know.
#[tactic(auto, using(crate::proofs::svg::EscapeLemmas::escaped_none))]
pub fn push_escaped(text: &mut Vec<u8>, bytes: &[u8]) -> Result<(), NoMemory>
    ensures { OnOk result (text.new.items ≡ text.old.items ++ escaped bytes.now) }
{
    // Mostly there is nothing to escape.
    if are_themselves(bytes) {
        push(text, bytes)
    } else {
        push_bytes(text, bytes)
    }
}

/// Nothing of what is written for the user's bytes begins or ends an element, an attribute or a text.
pub fn escaped_is_no_markup()
    ensures { (bytes : List ℕ) → list_all is_no_markup (escaped bytes) ≡ true }
{}
