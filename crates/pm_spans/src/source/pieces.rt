//! Pieces of a text that is made.

ghost use Rattle.std.specs.Prelude.{◌≡◌, ◌++◌, OnOk, decimal, replicate};

use pm_base::NoMemory;

/// Appends a count in decimal. Fails where memory runs out.
pub fn push_number(out: &mut Vec<u8>, number: usize) -> Result<(), NoMemory>
    ensures { OnOk result (out.new.items ≡ out.old.items ++ decimal number) }
{
    pm_linetext::push_number(out, number as u64)
}

/// Appends a byte so many times. Fails where memory runs out.
#[tactic(auto, using(std::proofs::lemmas::List::replicate_more))]
pub(crate) fn push_times(out: &mut Vec<u8>, byte: u8, count: usize) -> Result<(), NoMemory>
    ensures { OnOk result (out.new.items ≡ out.old.items ++ replicate count byte) }
{
    for _time in 0..count {
        out.push(byte)?;
    }
    Ok(())
}
