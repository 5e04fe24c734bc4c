//! Marks of four places.

ghost use Rattle.std.specs.Prelude.{◌≡◌, ◌∷◌, [], IfOk, None, Some, length};

use pm_index::Tally;
use pm_planread::PlanFault;
use std::alloc::{AllocError, Global};

/// What is done with marks, or asked of them with what they must answer.
#[derive(Clone, Copy)]
pub enum Step {
    // A place is marked or not, and then so many are counted of owner 1, and of owner 1 without the
    // first place.
    Set(u32, bool, u32, u32),
    MarkAll,
    Count(u32, u32),
    CountBut(u32, Option<u32>, u32),
    Marked(u32, bool),
}

use Step::*;

/// What is shown, and the steps in turn.
pub static CASES: [(&str, &[Step]); 2] = cases! {
    "tally, an owner has so many marked places" => {
        Count(1, 0); CountBut(1, Some(0), 0); Set(0, true, 1, 0); Set(0, true, 1, 0);
        Set(1, true, 2, 1); Set(2, true, 2, 1); Set(0, false, 1, 1);
    }
    "tally, each place is marked" => {
        MarkAll; Count(0, 1); Count(1, 2); Count(7, 0); Marked(3, true); Marked(4, false);
    }
};

/// The first two places are owner 1's, the third is owner 0's, and the last is no one's.
fn owners(alloc: Global) -> Result<Vec<Option<u32>>, AllocError>
    ensures { IfOk result (λ v. v.items ≡ Some 1 ∷ Some 1 ∷ Some 0 ∷ None ∷ []) }
{
    Vec::from_slice(alloc, &[Some(1), Some(1), Some(0), None])
}

/// Takes a step, and says whether it could be taken and answered as it must.
fn takes(tally: &mut Tally, step: Step) -> bool
    requires { length tally.old.owners ≡ 4 }
    ensures { length tally.new.owners ≡ 4 }
{
    match step {
        Set(place, mark, count, count_but) if place < 4 => {
            tally.set(place, mark);
            (tally.count(1), tally.count_but(1, Some(0))) == (count, count_but)
        }
        MarkAll => {
            tally.mark_all();
            true
        }
        Count(owner, count) => tally.count(owner) == count,
        CountBut(owner, place, count) => tally.count_but(owner, place) == count,
        Marked(place, is_marked) => tally.is_marked(place) == is_marked,
        _ => false,
    }
}

/// Whether marks of the four places take the steps.
pub fn shows(alloc: Global, steps: &[Step]) -> Result<bool, PlanFault> {
    let mut tally = Tally::new(alloc, owners(alloc)?, 2)?;
    let mut is_shown = true;
    for step in steps {
        is_shown &= takes(&mut tally, *step);
    }
    Ok(is_shown)
}
