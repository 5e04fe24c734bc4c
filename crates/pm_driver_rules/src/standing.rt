//! Where a caller stands in its program, and how far it has come.

ghost use Rattle.std.specs.Prelude.{◌≡◌};
ghost use Rattle.pm_driver_rules.specs.Rules.{has_bit, has_returned, holds_lock, is_before, is_begin_of, is_first, is_lock, is_returned, is_running, number_of, past_of, standing_of, takes_lock};

use pm_driver_orders::Position;
use pm_driver_script::{Goal, Guard, Past, Program, Standing};

fn number_of(position: Position) -> u32
    ensures { result ≡ number_of position }
{
    match position {
        Position::At(place) => place,
        Position::In(place) => place,
    }
}

/// The standing of a place, or of an end, which is counted on behind the places.
fn standing_of(program: &Program, place: u32) -> Option<Standing>
    ensures { result ≡ standing_of program.now place }
{
    let places = program.places.as_slice();
    let ends = program.ends.as_slice();
    let place = place as usize;
    if place < places.len() {
        Some(places[place].standing)
    } else {
        ends.get(place - places.len()).copied()
    }
}

/// How far a caller has come that stands there.
pub fn past_of(program: &Program, position: Position) -> Past
    ensures { result ≡ past_of program.now position }
{
    match standing_of(program, number_of(position)) {
        Some(standing) => standing.past,
        None => Past {
            marks: 0,
            locks: 0,
            stopped: 0,
        },
    }
}

/// Whether a set has a bit.
pub fn has_bit(bits: u64, bit: u32) -> bool
    ensures { result ≡ has_bit bits bit }
{
    bit < 64 && bits & (1 << bit) != 0
}

// Whether two goals are the same step and part.
fn is_first(first: Goal, goal: Goal) -> bool
    ensures { result ≡ is_first first goal }
{
    match first {
        Goal::At { step, part } => match goal {
            Goal::At {
                step: other,
                part: other_part,
            } => step == other && part == other_part,
            Goal::Returned | Goal::Failed => false,
        },
        Goal::Returned | Goal::Failed => false,
    }
}

// Whether a turn of a program begins at a standing.
fn is_begin_of(program: &Program, standing: Standing) -> bool
    ensures { result ≡ is_begin_of program.now standing }
{
    match program.places.as_slice().get(0) {
        Some(first) => is_first(first.standing.goal, standing.goal),
        None => false,
    }
}

/// Whether a caller that stands there stands before a turn of its program.
pub fn is_before(program: &Program, place: u32) -> bool
    ensures { result ≡ is_before program.now place }
{
    match standing_of(program, place) {
        Some(standing) => is_begin_of(program, standing),
        None => false,
    }
}

/// Whether a caller runs that stands there: it is in a call, or between two of one turn.
pub fn is_running(program: &Program, position: Position) -> bool
    ensures { result ≡ is_running program.now position }
{
    match position {
        Position::In(_) => true,
        Position::At(place) => {
            (place as usize) < program.places.as_slice().len() && !is_before(program, place)
        }
    }
}

fn is_returned(goal: Goal) -> bool
    ensures { result ≡ is_returned goal }
{
    matches!(goal, Goal::Returned)
}

/// Whether a caller has returned that stands there.
pub fn has_returned(program: &Program, position: Position) -> bool
    ensures { result ≡ has_returned program.now position }
{
    match standing_of(program, number_of(position)) {
        Some(standing) => is_returned(standing.goal),
        None => false,
    }
}

fn is_lock(lock: u32, guard: Guard) -> bool
    ensures { result ≡ is_lock lock guard }
{
    match guard {
        Guard::Free { lock: other } => other == lock,
        _ => false,
    }
}

// Whether a caller is in the call that takes a lock.
fn takes_lock(program: &Program, lock: u32, position: Position) -> bool
    ensures { result ≡ takes_lock program.now lock position }
{
    let Position::In(place) = position else {
        return false;
    };
    match program.places.as_slice().get(place as usize) {
        Some(place) => is_lock(lock, place.guard),
        None => false,
    }
}

/// Whether a caller holds a lock, or takes it, that stands there.
pub fn holds_lock(program: &Program, lock: u32, position: Position) -> bool
    ensures { result ≡ holds_lock program.now lock position }
{
    has_bit(past_of(program, position).locks, lock) || takes_lock(program, lock, position)
}
