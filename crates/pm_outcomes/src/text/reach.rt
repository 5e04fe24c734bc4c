//! How far a list of outcomes is exact.

ghost use Rattle.std.specs.Prelude.{◌≡◌, ◌-◌, Some};
ghost use Rattle.pm_outcomes.specs.text.Reached.{reach_of};

use pm_explore::search::Ended;

/// How far a list of outcomes is exact.
#[derive(Clone, Copy, PartialEq, Eq)]
pub enum Reach {
    /// It has what any schedule shows.
    All,
    /// It has what schedules of at most so many preemptions show, as many as were asked for.
    Within(usize),
    /// A limit came first: it has what schedules of at most so many preemptions show, if of any.
    Limit(Option<usize>),
}

/// How far a search is exact that ended so, with so many rounds.
pub fn reach_of(ended: Ended, rounds: usize) -> Reach
    ensures { result ≡ reach_of ended rounds }
{
    let last = if rounds == 0 { None } else { Some(rounds - 1) };
    match (ended, last) {
        (Ended::Whole, _) => Reach::All,
        (Ended::Rounds, Some(round)) => Reach::Within(round),
        _ => Reach::Limit(last),
    }
}
