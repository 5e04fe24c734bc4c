//! Bytes of the user's in a text of JSON.

ghost use Rattle.std.specs.Prelude.{◌≡◌, ◌++◌, List, ℕ, OnOk, map, true};
ghost use Rattle.std.specs.List.{list_all};
ghost use Rattle.pm_picture.specs.events.Plain.{is_plain, plain_byte};

use pm_base::NoMemory;

// A byte that is no markup.
fn plain_byte(byte: u8) -> u8
    ensures { result ≡ plain_byte byte }
{
    match byte {
        b'"' | b'\\' => b'?',
        byte if byte < 32 => b'?',
        byte => byte,
    }
}

/// Appends bytes so that they are no markup: `?` stands for each quote, backslash and control character, which no name
/// of a plan has.
pub fn push_plain(text: &mut Vec<u8>, bytes: &[u8]) -> Result<(), NoMemory>
    ensures { OnOk result (text.new.items ≡ text.old.items ++ map plain_byte bytes.now) }
{
    for byte in bytes {
        text.push(plain_byte(*byte))?;
    }
    Ok(())
}

/// Nothing of what is written for the user's bytes ends a text of JSON.
pub fn plain_is_no_markup()
    ensures { (bytes : List ℕ) → list_all is_plain (map plain_byte bytes) ≡ true }
{}
