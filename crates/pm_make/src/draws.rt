//! Numbers that are drawn one after another.

ghost use Rattle.std.specs.Prelude.{◌≡◌, ◌<◌};
ghost use Rattle.pm_make.specs.Draws.{draw, first_state, next_state};

/// The state from which the next number is drawn.
#[derive(Drop)]
pub struct Draws {
    /// Below 2^32.
    pub state: u32,
}

impl Draws {
    /// The draws that begin with a number.
    pub fn new(number: u64) -> Draws
        ensures { result.state ≡ first_state number }
    {
        Draws {
            state: (number % (1 << 32)) as u32,
        }
    }

    /// Draws a number below another, which isn't 0.
    pub fn below(&mut self, bound: u32) -> u32
        requires { 0 < bound }
        ensures item { result ≡ (draw bound self.old.state).item }
        ensures state { self.new.state ≡ (draw bound self.old.state).state }
        ensures in_range { result < bound }
    {
        self.state = next_state(self.state);
        self.state / 65_536 % bound
    }
}

#[tactic(auto, unfolding(crate::specs::Draws::next_state))]
fn next_state(state: u32) -> u32
    ensures { result ≡ next_state state }
{
    ((1_664_525 * u64::from(state) + 1_013_904_223) % (1 << 32)) as u32
}
