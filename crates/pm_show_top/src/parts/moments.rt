//! Moments at places.

ghost use Rattle.std.specs.Prelude.{◌≡◌, length};

use pm_index::Moments;
use pm_planread::PlanFault;
use std::alloc::Global;

/// What is done with moments, or asked of them with what they must answer.
#[derive(Clone, Copy)]
pub enum Step {
    // The moment of a place.
    Get(usize, Option<u64>),
    // A place gets a moment, and then this is the first moment of all, with its place.
    Set(usize, Option<u64>, Option<(u64, usize)>),
    // The first moment of all, with its place.
    First(Option<(u64, usize)>),
    // The first place from this one on that is due by a bound.
    Due(usize, u64, Option<usize>),
}

use Step::*;

const MAX: u64 = u64::MAX;

/// What is shown, the number of places, and the steps in turn.
pub static CASES: [(&str, u32, &[Step]); 5] = cases! {
    "moments, the least moment comes first, and then the least place", 5 => {
        Get(0, None); First(None); Set(3, Some(7), Some((7, 3)));
        Set(4, Some(7), Some((7, 3))); Set(1, Some(9), Some((7, 3)));
        Set(3, Some(12), Some((7, 4))); Set(4, None, Some((9, 1))); Get(0, None);
    }
    "moments, the first place that is due at or after another", 6 => {
        Set(1, Some(4), Some((4, 1))); Set(2, Some(0), Some((0, 2)));
        Set(5, Some(4), Some((0, 2))); Due(0, 3, Some(2)); Due(0, 4, Some(1));
        Due(1, 4, Some(1)); Due(2, 4, Some(2)); Due(3, 4, Some(5)); Due(3, 3, None);
        Due(5, MAX, Some(5)); Due(6, MAX, None);
    }
    "moments, the greatest moment and 0", 100 => {
        Set(70, Some(MAX), Some((MAX, 70))); Due(0, MAX - 1, None); Due(70, MAX, Some(70));
        Set(80, Some(0), Some((0, 80))); Set(80, Some(0), Some((0, 80)));
        Due(0, MAX, Some(70)); Due(71, 0, Some(80)); Set(80, None, Some((MAX, 70)));
        Set(70, Some(0), Some((0, 70))); Due(71, MAX, None);
    }
    "moments, no place", 0 => { First(None); Due(0, MAX, None); }
    "moments, one place", 1 => {
        Set(0, Some(0), Some((0, 0))); Due(1, 0, None); Set(0, None, None);
    }
};

/// Whether the first moment of all is this one, and none is less.
fn starts_with(moments: &Moments, first: Option<(u64, usize)>) -> bool {
    let least = match first {
        Some((moment, _)) => Some(moment),
        None => None,
    };
    moments.first() == first && moments.least() == least
}

/// Takes a step, and says whether it could be taken and answered as it must.
fn takes(moments: &mut Moments, places: usize, step: Step) -> bool
    requires { length moments.old ≡ places }
    ensures { length moments.new ≡ places }
{
    match step {
        Get(place, moment) if place < places => moments.get(place) == moment,
        Set(place, moment, first) if place < places => {
            moments.set(place, moment);
            moments.get(place) == moment && starts_with(moments, first)
        }
        First(first) => starts_with(moments, first),
        Due(from, bound, due) if from <= places => moments.first_within(from, bound) == due,
        _ => false,
    }
}

/// Whether moments at so many places take the steps.
pub fn shows(alloc: Global, places: u32, steps: &[Step]) -> Result<bool, PlanFault> {
    let mut moments = Moments::new(alloc, places as usize)?;
    let mut is_shown = true;
    for step in steps {
        is_shown &= takes(&mut moments, places as usize, *step);
    }
    Ok(is_shown)
}
