//! Sets of numbers below a bound.

ghost use Rattle.std.specs.Prelude.{◌≡◌, length};

use pm_index::Bits;
use pm_planread::PlanFault;
use std::alloc::Global;

/// What is done with a set, or asked of it with what it must answer.
#[derive(Clone, Copy)]
pub enum Step {
    Put(usize),
    Remove(usize),
    Has(usize, bool),
    First(usize, Option<usize>),
}

use Step::*;

/// What is shown, the bound of the set, and the steps in turn.
pub static CASES: [(&str, u32, &[Step]); 3] = cases! {
    "set, numbers at the edges of words", 5_000 => {
        First(0, None); Put(0); Put(0); Has(0, true); Put(63); Put(63); Has(63, true);
        Put(64); Put(64); Has(64, true); Put(4095); Put(4095); Has(4095, true); Put(4096);
        Put(4096); Has(4096, true); Put(4999); Put(4999); Has(4999, true); Has(1, false);
        First(0, Some(0)); First(1, Some(63)); First(64, Some(64)); First(65, Some(4095));
        First(4096, Some(4096)); First(4097, Some(4999)); First(5000, None); Remove(64);
        Remove(4095); Remove(4095); Has(4095, false); First(64, Some(4096));
    }
    "set, no number", 0 => { First(0, None); }
    "set, one word", 64 => {
        Put(63); First(0, Some(63)); First(64, None); Remove(63); First(0, None);
    }
};

/// Takes a step, and says whether it could be taken and answered as it must.
fn takes(bits: &mut Bits, bound: usize, step: Step) -> bool
    requires { length bits.old ≡ bound }
    ensures { length bits.new ≡ bound }
{
    match step {
        Put(number) if number < bound => bits.put(number),
        Remove(number) if number < bound => bits.remove(number),
        Has(number, is_in) if number < bound => return bits.contains(number) == is_in,
        First(from, first) if from <= bound => return bits.first(from) == first,
        _ => return false,
    }
    true
}

/// Whether a set with this bound takes the steps.
pub fn shows(alloc: Global, bound: u32, steps: &[Step]) -> Result<bool, PlanFault> {
    let mut bits = Bits::new(alloc, bound as usize)?;
    let mut is_shown = true;
    for step in steps {
        is_shown &= takes(&mut bits, bound as usize, *step);
    }
    Ok(is_shown)
}
